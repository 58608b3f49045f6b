//! Detects source maps by the keys of their JSON value, without reading a record. Keys with the
//! value null do not count. Of the other values, only the value of `version` counts.
ghost use Rattle.std.specs.Prelude.{◌≡◌, ◌≢◌, ◌↔◌, IsTrue, IfOk, IfSome, IsOkUnless, MatchResult, false};
ghost use Rattle.serde_json.specs.View.{view};
ghost use Rattle.sourcemap_errors.specs.declared.errors.Error.TheVariants.{OutOfMemory};
ghost use Rattle.sourcemap_records.specs.Detection.{AreMap, has_map_keys, is_map};

use crate::bytes::{read_all, read_kept};
use crate::jsontypes::MinimalRawSourceMap;
use crate::levels::RecordLevel;
use serde_json::Value;
use sourcemap_errors::errors::{Error, Result};
use std::alloc::Global;
use std::io::Read;

fn keys_are_of_map(keys: MinimalRawSourceMap) -> bool
    ensures { result ≡ has_map_keys keys }
{
    let has_version_or_file = keys.version.is_some() || keys.file;
    let has_lists = keys.sources || keys.source_root || keys.sources_content || keys.names;
    keys.sections || (has_version_or_file && has_lists && keys.mappings)
}

fn value_is_map(value: &Value) -> bool
    ensures { result ≡ is_map (view value.now) }
{
    match MinimalRawSourceMap::from_value(value) {
        Ok(keys) => keys_are_of_map(keys),
        Err(_) => false,
    }
}

// Returns `OutOfMemory` as an error. Returns false for any other error, because bytes that could
// not be read as JSON count as no source map.
fn false_unless_memory(error: Error) -> Result<bool>
    ensures { MatchResult result
        (λ is. (is ≡ false) × (error ≢ OutOfMemory))
        (λ e. (e ≡ OutOfMemory) × (error ≡ OutOfMemory)) }
{
    match error {
        Error::OutOfMemory => Err(Error::OutOfMemory),
        _ => Ok(false),
    }
}

/// Returns whether bytes are a source map. A junk header, if there is one, is skipped. A source map
/// is a JSON object of one of two kinds. An index map has `sections`. Any other map has `mappings`,
/// at least one of `version` and `file`, and at least one of `sources`, `sourceRoot`,
/// `sourcesContent` and `names`. A key whose value is null counts as missing. A `version` that is
/// neither null nor a `u32` gives false, even with `sections`. No other value is checked. An
/// invalid header and invalid JSON (see `JsonFault::Parse`) also give false. The only error is
/// `OutOfMemory`.
pub fn is_sourcemap_slice(alloc: Global, bytes: &[u8]) -> Result<bool>
    ensures answer { IfOk result (λ is. IsTrue is ↔ AreMap bytes.now) }
    ensures err { IsOkUnless result OutOfMemory }
{
    match read_kept(alloc, bytes, RecordLevel::Minimal) {
        Ok(value) => Ok(value_is_map(&value)),
        Err(error) => false_unless_memory(error),
    }
}

// Returns whether the bytes in `read` are a map. For any error in `read` except `OutOfMemory`,
// returns false. The only error is `OutOfMemory`, from `read` or from this call.
fn read_is_map(alloc: Global, read: Result<Vec<u8>>) -> Result<bool>
    ensures answer { MatchResult read
        (λ bytes. IfOk result (λ is. IsTrue is ↔ AreMap bytes.items))
        (λ _. IfOk result (λ is. is ≡ false)) }
    ensures err { IsOkUnless result OutOfMemory }
{
    match read {
        Ok(bytes) => is_sourcemap_slice(alloc, bytes.as_slice()),
        Err(error) => false_unless_memory(error),
    }
}

/// Reads a reader to its end. Interrupted reads are retried. Returns whether the bytes are a source
/// map, by the rules of `is_sourcemap_slice`. The only error is `OutOfMemory`, if memory runs out
/// in a read or elsewhere. If a read fails for any other reason, returns false.
pub fn is_sourcemap<R: Read + Drop>(alloc: Global, reader: R) -> Result<bool>
    // If the bytes of the reader are known, `true` means that they are a source map. The clause
    // says nothing about `false`: a read may have failed, and no clause of `Read` says when a read
    // fails.
    ensures answer { IfSome (R.remaining reader)
        (λ bytes. IfOk result (λ is. IsTrue is → AreMap bytes)) }
    ensures err { IsOkUnless result OutOfMemory }
{
    let read = read_all(alloc, reader);
    read_is_map(alloc, read)
}
