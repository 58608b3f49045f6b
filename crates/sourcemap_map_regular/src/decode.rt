//! Decodes regular maps from records, bytes and readers.
ghost use Rattle.std.specs.Prelude.{◌≡◌, ◌≤◌, Result, IfOk, IfSome, vec_len};
ghost use Rattle.sourcemap_errors.specs.Answer.{IsAnswer, Gives};
ghost use Rattle.sourcemap_errors.specs.declared.errors.Error.{Error};
ghost use Rattle.sourcemap_map_conversions.specs.Parts.{parts_view};
ghost use Rattle.sourcemap_records.specs.Bytes.{BytesHaveResult, AreSame, IsAnswerRead, Reading};
ghost use Rattle.sourcemap_records.specs.Jsontypes.{tree, flat};
ghost use Rattle.sourcemap_map_regular.specs.Map.{MapValue, IsWellFormed};
ghost use Rattle.sourcemap_map_regular.specs.MapStored.{map_in};
ghost use Rattle.sourcemap_map_regular.specs.Decode.{RecordDecodes, RegularDecodes};

use crate::map::SourceMap;
use sourcemap_errors::errors::{Error, Result};
use sourcemap_map_conversions::from_record::parts_of_record;
use sourcemap_map_conversions::parts::Parts;
use sourcemap_records::bytes::{read_all, read_record, read_record_owned};
use sourcemap_records::jsontypes::RawSourceMap;
use std::alloc::Global;
use std::io::Read;

/// Decodes a record as a regular map; sections and function names of the record are ignored. The
/// errors are, in this order: `IncompatibleSourceMap` if there are more than 4294967295 sources,
/// names or contents; then the first error of the mappings. `OutOfMemory` can come at any time.
pub fn decode_regular(alloc: Global, rsm: RawSourceMap) -> Result<SourceMap>
    ensures answer { IsAnswer (λ m. m) (RecordDecodes (flat (tree rsm))) result }
    // The record determines the result, unless memory runs out.
    ensures only { (due : Result MapValue Error)
        → RecordDecodes (flat (tree rsm)) due → Gives (λ m. m) result due }
    ensures well_formed { IfOk result IsWellFormed }
{
    // prover: `match` instead of `?`
    match parts_of_record(alloc, rsm) {
        Err(error) => Err(error),
        Ok(parts) => Ok(map_of(parts)),
    }
}

fn map_of(parts: Parts) -> SourceMap
    requires { vec_len parts.names ≤ 4294967295 }
    ensures { result ≡ map_in (parts_view parts) }
{
    let Parts {
        metadata,
        tokens,
        names,
        sources,
        contents,
    } = parts;
    SourceMap::of_parts(metadata, tokens, names, sources, contents)
}

/// Decodes a record as a regular map. A record with sections or function names is not decoded: the
/// error is `IncompatibleSourceMap`. The other errors are those of `decode_regular`.
pub fn only_regular(alloc: Global, raw: RawSourceMap) -> Result<SourceMap>
    ensures answer { IsAnswer (λ m. m) (RegularDecodes (tree raw)) result }
    ensures well_formed { IfOk result IsWellFormed }
{
    if raw.sections.is_some() || raw.x_facebook_sources.is_some() {
        return Err(Error::IncompatibleSourceMap);
    }
    // prover: `?` on its own line
    let map = decode_regular(alloc, raw)?;
    Ok(map)
}

fn decode_slice(alloc: Global, bytes: &[u8]) -> Result<SourceMap>
    ensures answer { IsAnswer (λ m. m) (BytesHaveResult RegularDecodes bytes.now) result }
    ensures well_formed { IfOk result IsWellFormed }
{
    let raw = read_record(alloc, bytes)?;
    only_regular(alloc, raw)
}

// The bytes are dropped as soon as their JSON value is parsed.
fn decode_owned(alloc: Global, bytes: Vec<u8>) -> Result<SourceMap>
    ensures answer { IsAnswer (λ m. m) (BytesHaveResult RegularDecodes bytes.items) result }
    ensures well_formed { IfOk result IsWellFormed }
{
    let raw = read_record_owned(alloc, bytes)?;
    only_regular(alloc, raw)
}

impl SourceMap {
    /// Decodes a regular map from bytes, which may begin with a junk header. A map of another kind
    /// is not decoded: the error is `IncompatibleSourceMap`. The other errors are `Io` of kind
    /// `InvalidData` for an invalid header, `BadJson(Parse)` if the rest does not parse (see
    /// `JsonFault::Parse`), `BadJson(Shape)` if the JSON is no record, and the errors of
    /// `decode_regular`.
    pub fn from_slice(alloc: Global, bytes: &[u8]) -> Result<Self>
        ensures answer { IsAnswer (λ m. m) (BytesHaveResult RegularDecodes bytes.now) result }
        // Unless memory runs out, the bytes determine the result. If the result is an `Io` error,
        // the bytes determine only the kind of the error.
        ensures only { (due : Result MapValue Error) → BytesHaveResult RegularDecodes bytes.now due
            → IsAnswer (λ m. m) (AreSame due) result }
        ensures well_formed { IfOk result IsWellFormed }
    {
        decode_slice(alloc, bytes)
    }

    /// Decodes a regular map from a reader, which is first read to its end. Interrupted reads are
    /// retried. Any other failed read is `Io`, or `OutOfMemory` if the read ran out of memory. The
    /// other errors are those of `from_slice`. The bytes are dropped as soon as their JSON value is
    /// parsed.
    pub fn from_reader<R: Read + Drop>(alloc: Global, reader: R) -> Result<Self>
        ensures answer { Reading (R.remaining reader)
            (λ bytes. IsAnswerRead (λ m. m) (BytesHaveResult RegularDecodes bytes) result) }
        ensures only { IfSome (R.remaining reader) (λ bytes. (due : Result MapValue Error)
            → BytesHaveResult RegularDecodes bytes due → IsAnswerRead (λ m. m) (AreSame due) result) }
        ensures well_formed { IfOk result IsWellFormed }
    {
        let bytes = read_all(alloc, reader)?;
        decode_owned(alloc, bytes)
    }
}
