//! The command-line program: runs a command on the source map on standard input.
#![tactic(auto)]

use sourcemap::Result;
use sourcemap_cli::program::run;
use sourcemap_cli::system::{report_error, words};
use std::io;
use std::process::ExitCode;

fn run_arguments(rt: &HostRuntime) -> Result<u8> {
    let words = words(rt)?;
    run(
        rt,
        rt.alloc(),
        words.as_slice(),
        &mut rt.reader(),
        &mut io::writer(rt),
    )
}

fn main(rt: HostRuntime) -> ExitCode {
    match run_arguments(&rt) {
        Ok(status) => ExitCode::from(status),
        Err(error) => {
            // If standard error fails too, the status alone reports the error.
            let _reported = report_error(&error, &mut rt.stderr());
            ExitCode::FAILURE
        }
    }
}
