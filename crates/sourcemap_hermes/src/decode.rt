//! Decoding a Hermes map from a record, from bytes or from a reader.
ghost use Rattle.std.specs.Prelude.{Result, IfOk, IfSome};
ghost use Rattle.sourcemap_errors.specs.Answer.{IsAnswer, Gives};
ghost use Rattle.sourcemap_errors.specs.declared.errors.Error.{Error};
ghost use Rattle.sourcemap_records.specs.Bytes.{BytesHaveResult, AreSame, IsAnswerRead, Reading};
ghost use Rattle.sourcemap_records.specs.Jsontypes.{tree, flat};
ghost use Rattle.sourcemap_hermes_scopes.specs.ScopeLists.{entries_in};
ghost use Rattle.sourcemap_hermes.specs.Map.{HermesValue, IsWellFormed, hermes_value};
ghost use Rattle.sourcemap_hermes.specs.Decode.{HermesDecodes, EntriesDecode, RecordDecodesAsHermes};

use crate::map::SourceMapHermes;
use sourcemap_errors::errors::{Error, Result};
use sourcemap_hermes_scopes::scope_lists::ScopeLists;
use sourcemap_hermes_scopes::source_scopes::SourceScopes;
use sourcemap_map_regular::decode::decode_regular;
use sourcemap_records::bytes::{read_all, read_record, read_record_owned};
use sourcemap_records::jsontypes::RawSourceMap;
use std::alloc::Global;
use std::io::Read;

// The largest number of items of `x_facebook_sources` that can be decoded.
const SCOPE_LIMIT: usize = 4294967295;

/// Decodes a record to a Hermes map. The sections of the record are ignored. The error is
/// `IncompatibleSourceMap` if `x_facebook_sources` is `None` or has more than 4294967295 items.
/// These two checks precede all decoding. The other errors are those of `decode_regular`. The
/// function map of a source is decoded from the first item of the source's list in
/// `x_facebook_sources`. If there is no such item, or if its mappings are invalid, the source has
/// no function map, and no error is returned.
pub fn decode_hermes(alloc: Global, rsm: RawSourceMap) -> Result<SourceMapHermes>
    ensures answer { IsAnswer hermes_value (HermesDecodes (flat (tree rsm))) result }
    // The record determines the result, unless memory runs out.
    ensures only { (due : Result HermesValue Error) → HermesDecodes (flat (tree rsm)) due
        → Gives hermes_value result due }
    ensures well_formed { IfOk result (λ h. IsWellFormed (hermes_value h)) }
{
    decode_hermes_record(alloc, rsm)
}

// As `decode_hermes`, but the contract has no clause `only`.
fn decode_hermes_record(alloc: Global, mut rsm: RawSourceMap) -> Result<SourceMapHermes>
    ensures answer { IsAnswer hermes_value (HermesDecodes (flat (tree rsm))) result }
    ensures well_formed { IfOk result (λ h. IsWellFormed (hermes_value h)) }
{
    match rsm.x_facebook_sources.take() {
        None => Err(Error::IncompatibleSourceMap),
        Some(entries) => decode_with(alloc, rsm, entries),
    }
}

fn decode_with(alloc: Global, rsm: RawSourceMap, entries: ScopeLists) -> Result<SourceMapHermes>
    ensures answer { IsAnswer hermes_value
        (EntriesDecode (flat (tree rsm)) (entries_in entries)) result }
    ensures well_formed { IfOk result (λ h. IsWellFormed (hermes_value h)) }
{
    if entries.len() > SCOPE_LIMIT {
        return Err(Error::IncompatibleSourceMap);
    }
    let sm = decode_regular(alloc, rsm)?;
    let scopes = SourceScopes::new(alloc, entries)?;
    Ok(SourceMapHermes { sm, scopes })
}

fn decode_unless_index(alloc: Global, raw: RawSourceMap) -> Result<SourceMapHermes>
    ensures answer { IsAnswer hermes_value (RecordDecodesAsHermes (tree raw)) result }
    ensures well_formed { IfOk result (λ h. IsWellFormed (hermes_value h)) }
{
    if raw.sections.is_some() {
        return Err(Error::IncompatibleSourceMap);
    }
    decode_hermes_record(alloc, raw)
}

fn hermes_in(alloc: Global, bytes: &[u8]) -> Result<SourceMapHermes>
    ensures answer { IsAnswer hermes_value
        (BytesHaveResult RecordDecodesAsHermes bytes.now) result }
    ensures well_formed { IfOk result (λ h. IsWellFormed (hermes_value h)) }
{
    let raw = read_record(alloc, bytes)?;
    decode_unless_index(alloc, raw)
}

// Decodes bytes as `hermes_in` does. The bytes are dropped as soon as their JSON value is read.
fn hermes_in_owned(alloc: Global, bytes: Vec<u8>) -> Result<SourceMapHermes>
    ensures answer { IsAnswer hermes_value
        (BytesHaveResult RecordDecodesAsHermes bytes.items) result }
    ensures well_formed { IfOk result (λ h. IsWellFormed (hermes_value h)) }
{
    let raw = read_record_owned(alloc, bytes)?;
    decode_unless_index(alloc, raw)
}

impl SourceMapHermes {
    /// Decodes the JSON in these bytes to a Hermes map. A junk header before the JSON is skipped.
    /// An invalid header is `Io` of kind `InvalidData`. Text that does not parse is
    /// `BadJson(Parse)` (see `JsonFault::Parse`). JSON that is not a record is `BadJson(Shape)`.
    /// The record of another kind of map is not decoded: the error is `IncompatibleSourceMap`. The
    /// other errors are those of `decode_hermes`.
    pub fn from_slice(alloc: Global, bytes: &[u8]) -> Result<Self>
        ensures answer { IsAnswer hermes_value
            (BytesHaveResult RecordDecodesAsHermes bytes.now) result }
        // Unless memory runs out, the bytes determine the result. If the result is an `Io` error,
        // the bytes determine only its kind.
        ensures only { (due : Result HermesValue Error)
            → BytesHaveResult RecordDecodesAsHermes bytes.now due
            → IsAnswer hermes_value (AreSame due) result }
        ensures well_formed { IfOk result (λ h. IsWellFormed (hermes_value h)) }
    {
        hermes_in(alloc, bytes)
    }

    /// Decodes a Hermes map as `from_slice` does. The reader is read to its end first. A failed
    /// read is `Io`, or `OutOfMemory` if the read ran out of memory. The bytes are dropped as soon
    /// as their JSON value is read.
    pub fn from_reader<R: Read + Drop>(alloc: Global, reader: R) -> Result<Self>
        ensures answer { Reading (R.remaining reader)
            (λ bytes. IsAnswerRead hermes_value
            (BytesHaveResult RecordDecodesAsHermes bytes) result) }
        ensures only { IfSome (R.remaining reader) (λ bytes. (due : Result HermesValue Error)
            → BytesHaveResult RecordDecodesAsHermes bytes due
            → IsAnswerRead hermes_value (AreSame due) result) }
        ensures well_formed { IfOk result (λ h. IsWellFormed (hermes_value h)) }
    {
        let bytes = read_all(alloc, reader)?;
        hermes_in_owned(alloc, bytes)
    }
}
