//! Records from bytes: reads all bytes of a reader, drops their junk header, and makes a record of
//! the JSON in the rest. Of the JSON value only what the record reads is kept in memory.
ghost use Rattle.std.specs.Prelude.{◌≡◌, IfSome, MatchResult};
ghost use Rattle.serde_json.specs.View.{view};
ghost use Rattle.sourcemap_errors.specs.Answer.{UnlessMemory};
ghost use Rattle.sourcemap_records.specs.Bytes.{HoldNoJson, HoldRecord, HoldNoRecord, UnlessReadFails};
ghost use Rattle.sourcemap_records.specs.Jsontypes.{tree};
ghost use Rattle.sourcemap_records.specs.Levels.{HoldKept};
ghost use Rattle.sourcemap_records.specs.declared.levels.RecordLevel.TheVariants.{Record};

use crate::jsontypes::RawSourceMap;
use crate::levels::RecordLevel;
use serde_json::Value;
use sourcemap_errors::errors::{Error, JsonFault, Result};
use sourcemap_headers::header::strip_junk_header;
use sourcemap_json_read::kept::{ReadError, kept_from_slice};
use std::alloc::Global;
use std::io::Read;

/// Reads a reader to its end and returns the bytes. Interrupted reads are retried. The error is
/// `OutOfMemory` if memory runs out, in a read or elsewhere. It is `Io` if a read fails for another
/// reason.
pub fn read_all<R: Read + Drop>(alloc: Global, mut reader: R) -> Result<Vec<u8>>
    ensures { MatchResult result
        (λ bytes. IfSome (R.remaining reader) (λ known. bytes.items ≡ known))
        (λ e. UnlessReadFails e ⊥) }
{
    let mut bytes = Vec::new(alloc);
    reader.read_to_end(&mut bytes)?;
    Ok(bytes)
}

// Drops the junk header of the bytes, if they have one, and returns what is kept of the JSON value
// of the rest. All of the rest is checked. An invalid header is `Io` of kind `InvalidData`. A rest
// that is not JSON, nests deeper than 127 levels, has a number too large for `f64` or has the escape
// of a lone surrogate (`"\ud83d"`) is `BadJson(Parse)`. Any other error is `OutOfMemory`.
pub(crate) fn read_kept(alloc: Global, bytes: &[u8], level: RecordLevel) -> Result<Value>
    ensures { MatchResult result
        (λ value. HoldKept level bytes.now (view value))
        (λ e. UnlessMemory e (HoldNoJson bytes.now e)) }
{
    let text = strip_junk_header(bytes)?;
    match kept_from_slice(alloc, text, level) {
        Ok(value) => Ok(value),
        Err(ReadError::Invalid) => Err(Error::BadJson(JsonFault::Parse)),
        Err(ReadError::OutOfMemory) => Err(Error::OutOfMemory),
    }
}

// Returns what is kept of the JSON value of the bytes for a record. The bytes are dropped once the
// value is read. The errors are those of `read_kept`.
fn read_kept_owned(alloc: Global, bytes: Vec<u8>) -> Result<Value>
    ensures { MatchResult result
        (λ value. HoldKept Record bytes.items (view value))
        (λ e. UnlessMemory e (HoldNoJson bytes.items e)) }
{
    read_kept(alloc, bytes.as_slice(), RecordLevel::Record)
}

/// Drops the junk header of the bytes, if they have one, and returns the record of the JSON in the
/// rest. JSON that is not a record is `BadJson(Shape)`. An invalid header is `Io` of kind
/// `InvalidData`. A rest that is not JSON, nests deeper than 127 levels, has a number too large for
/// `f64` or has the escape of a lone surrogate (`"\ud83d"`) is `BadJson(Parse)`, even at a key that
/// is ignored. Any other error is `OutOfMemory`.
pub fn read_record(alloc: Global, bytes: &[u8]) -> Result<RawSourceMap>
    ensures { MatchResult result
        (λ raw. HoldRecord bytes.now (tree raw))
        (λ e. UnlessMemory e (HoldNoRecord bytes.now e)) }
{
    let value = read_kept(alloc, bytes, RecordLevel::Record)?;
    RawSourceMap::from_owned(alloc, value)
}

/// Returns what `read_record` returns. The bytes are dropped before the record is made from their
/// JSON value.
pub fn read_record_owned(alloc: Global, bytes: Vec<u8>) -> Result<RawSourceMap>
    ensures { MatchResult result
        (λ raw. HoldRecord bytes.items (tree raw))
        (λ e. UnlessMemory e (HoldNoRecord bytes.items e)) }
{
    let value = read_kept_owned(alloc, bytes)?;
    RawSourceMap::from_owned(alloc, value)
}
