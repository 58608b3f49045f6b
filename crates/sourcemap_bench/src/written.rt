//! Decodes a map and encodes the map again, so that the bytes can be compared with those of another
//! encoder.
ghost use Rattle.std.specs.Prelude.{IfErr, OnOk};
ghost use Rattle.sourcemap.specs.Answer.{UnlessMemory};
ghost use Rattle.sourcemap_bench.specs.Written.{IsWritten, IsUnwritten};

use sourcemap::encoder::encode_to;
use sourcemap::{Result, decode_slice};
use std::alloc::Global;
use std::io::Write;

/// Decodes a map and writes it as compact JSON. Returns the errors of `decode_slice`. The other
/// errors are `OutOfMemory`, and `Io` if a write fails for another reason.
pub fn write_map<W: Write>(alloc: Global, bytes: &[u8], output: &mut W) -> Result<()>
    ensures written { OnOk result
        (IsWritten bytes.now (W.contents output.old) (W.contents output.new)) }
    ensures error { IfErr result (λ e. UnlessMemory e (IsUnwritten bytes.now e)) }
{
    let map = decode_slice(alloc, bytes)?;
    encode_to(alloc, &map, output)
}
