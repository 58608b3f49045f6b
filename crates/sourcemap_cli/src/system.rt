//! The program's arguments, and errors reported on standard error.
ghost use Rattle.std.specs.Prelude.{◌≡◌, IfErr, OnOk, IsTrue, ◌↔◌};
ghost use Rattle.sourcemap.specs.Answer.{UnlessMemory};
ghost use Rattle.sourcemap.specs.Written.{IsIo};
ghost use Rattle.sourcemap_cli.specs.Program.{IsWriteError};
ghost use Rattle.sourcemap_cli.specs.System.{IsErrorPrinted, IsReaderGone};

use sourcemap::{Error, Result};
use std::env::Env;
use std::io::{ErrorKind, Write};
use std::{env, io};

/// Returns the arguments of the process after the program's name. If the name or an argument is not
/// UTF-8, returns an empty list, which is not a command. The error is `OutOfMemory` if memory runs
/// out, and `Io` if the arguments cannot be read for any other reason.
pub fn words<R: Env + AllocGlobal>(rt: &R) -> Result<Vec<String>>
    ensures error { IfErr result (λ e. UnlessMemory e (IsIo e)) }
{
    match env::args(rt) {
        Ok(all) => Ok(all.skip(1).collect(rt.alloc())?),
        Err(error) if error.kind() == ErrorKind::InvalidData => Ok(Vec::new(rt.alloc())),
        Err(error) => Err(error.into()),
    }
}

fn is_reader_gone(error: &Error) -> bool
    ensures { IsTrue result ↔ IsReaderGone error.now }
{
    matches!(error, Error::Io(cause) if cause.kind() == ErrorKind::BrokenPipe)
}

/// Writes the text of `error` and a newline. If `error` is `Io` of kind `BrokenPipe`, the call
/// assumes that the reader of the output is gone, writes nothing and returns `Ok`. The call returns
/// only errors of the writer.
pub fn report_error<W: Write>(error: &Error, output: &mut W) -> Result<()>
    ensures printed { OnOk result (¬ IsReaderGone error.now
        → IsErrorPrinted error.now (W.contents output.old) (W.contents output.new)) }
    ensures quiet { IsReaderGone error.now → output.new ≡ output.old }
    ensures error { IfErr result (λ e. IsWriteError e × ¬ IsReaderGone error.now) }
{
    if is_reader_gone(error) {
        return Ok(());
    }
    writeln!(output, "{error}")?;
    Ok(())
}
