//! Decodes JSON values, bytes, readers and data URLs to maps of any kind. Decodes bytes and readers
//! to index maps.
ghost use Rattle.std.specs.Prelude.{◌≡◌, ℕ, List, Err, IfErr, IfOk, IfSome, Result};
ghost use Rattle.serde_json.specs.Data.{Data};
ghost use Rattle.serde_json.specs.View.{view};
ghost use Rattle.sourcemap_errors.specs.Answer.{IsAnswer};
ghost use Rattle.sourcemap_errors.specs.declared.errors.Error.{Error};
ghost use Rattle.sourcemap_errors.specs.declared.errors.Error.TheVariants.{InvalidDataUrl};
ghost use Rattle.sourcemap_records.specs.Bytes.{BytesHaveResult};
ghost use Rattle.sourcemap_records.specs.Jsontypes.{tree};
ghost use Rattle.sourcemap_index_model.specs.MapTree.{IndexValue, MapTree, index_tree};
ghost use Rattle.sourcemap_index_model.specs.WellFormed.{IsWellFormed};
ghost use Rattle.sourcemap_index_model.specs.Decode.{TreeDecodes};
ghost use Rattle.sourcemap_index.specs.Family.{index_value, map_tree};
ghost use Rattle.sourcemap_index.specs.Decode.{ValueDecodes, BytesDecode, UrlDecodes, IndexDecodes, IsNoUrl, AreSame, IsAnswerRead, Reading};

use crate::decode_index::{decode_map, only_index};
use crate::family::{DecodedMap, SourceMapIndex};
use serde_json::Value;
use sourcemap_errors::errors::Result;
use sourcemap_headers::data_url::data_url_bytes;
use sourcemap_records::bytes::{read_all, read_record, read_record_owned};
use sourcemap_records::jsontypes::RawSourceMap;
use std::alloc::Global;
use std::io::Read;

pub(crate) fn decode_value(alloc: Global, value: &Value) -> Result<DecodedMap>
    ensures answer { IsAnswer map_tree (ValueDecodes (view value.now)) result }
    ensures well_formed { IfOk result (λ m. IsWellFormed (map_tree m)) }
{
    let raw = RawSourceMap::from_value(alloc, value)?;
    decode_map(alloc, raw)
}

fn decode_bytes(alloc: Global, bytes: &[u8]) -> Result<DecodedMap>
    ensures answer { IsAnswer map_tree (BytesDecode bytes.now) result }
    ensures well_formed { IfOk result (λ m. IsWellFormed (map_tree m)) }
{
    let raw = read_record(alloc, bytes)?;
    decode_map(alloc, raw)
}

// Decodes bytes to a map. The bytes are dropped once their JSON value is read.
fn decode_owned(alloc: Global, bytes: Vec<u8>) -> Result<DecodedMap>
    ensures answer { IsAnswer map_tree (BytesDecode bytes.items) result }
    ensures well_formed { IfOk result (λ m. IsWellFormed (map_tree m)) }
{
    let raw = read_record_owned(alloc, bytes)?;
    decode_map(alloc, raw)
}

/// Decodes the JSON in these bytes to a map. A junk header before the JSON is skipped. The JSON
/// object of a map is called a record. A record with a list of sections is an index map, and its
/// own `x_facebook_sources` are ignored. A record without such a list is a Hermes map if it has
/// `x_facebook_sources`, otherwise a regular map. The sections of an index map are sorted stably by
/// offset.
///
/// The header is checked first. An invalid header is `Io` of kind `InvalidData`. Text that does not
/// parse is `BadJson(Parse)` (see `JsonFault::Parse`). JSON that is not a record is
/// `BadJson(Shape)`. Then the record is decoded. The errors for a Hermes map are those of
/// `decode_hermes`. The errors for a regular map are those of `decode_regular`. The error for a
/// record with more than 4294967295 sections is `IncompatibleSourceMap`. For any other record with
/// a list of sections, the maps in the sections are decoded in the order of the JSON text, and the
/// first error is returned. `OutOfMemory` can come at any time.
pub fn decode_slice(alloc: Global, bytes: &[u8]) -> Result<DecodedMap>
    ensures answer { IsAnswer map_tree (BytesDecode bytes.now) result }
    // Unless memory runs out, the bytes determine the result. If the result is an `Io` error, the
    // bytes determine only the kind of the error.
    ensures only { (due : Result MapTree Error) → BytesDecode bytes.now due
        → IsAnswer map_tree (AreSame due) result }
    ensures well_formed { IfOk result (λ m. IsWellFormed (map_tree m)) }
{
    decode_bytes(alloc, bytes)
}

/// Returns the same as `decode_slice`. The bytes are dropped once their JSON value is read, before
/// the map is made.
pub fn decode_vec(alloc: Global, input: Vec<u8>) -> Result<DecodedMap>
    ensures answer { IsAnswer map_tree (BytesDecode input.items) result }
    // Unless memory runs out, the bytes determine the result. If the result is an `Io` error, the
    // bytes determine only the kind of the error.
    ensures only { (due : Result MapTree Error) → BytesDecode input.items due
        → IsAnswer map_tree (AreSame due) result }
    ensures well_formed { IfOk result (λ m. IsWellFormed (map_tree m)) }
{
    decode_owned(alloc, input)
}

/// Decodes a reader's bytes to a map, as `decode_slice` does. The reader is read to its end first.
/// A failed read is `Io`, or `OutOfMemory` if the read ran out of memory.
pub fn decode<R: Read + Drop>(alloc: Global, reader: R) -> Result<DecodedMap>
    ensures answer { Reading (R.remaining reader)
        (λ bytes. IsAnswerRead map_tree (BytesDecode bytes) result) }
    ensures only { IfSome (R.remaining reader) (λ bytes. (due : Result MapTree Error)
        → BytesDecode bytes due → IsAnswerRead map_tree (AreSame due) result) }
    ensures well_formed { IfOk result (λ m. IsWellFormed (map_tree m)) }
{
    let bytes = read_all(alloc, reader)?;
    decode_owned(alloc, bytes)
}

fn decode_url(alloc: Global, url: &str) -> Result<DecodedMap>
    ensures answer { IsAnswer map_tree (UrlDecodes url.now) result }
    ensures well_formed { IfOk result (λ m. IsWellFormed (map_tree m)) }
{
    let held = data_url_bytes(alloc, url)?;
    decode_owned(alloc, held)
}

/// Decodes the map in a data URL. A text that is not a valid data URL (see `data_url_bytes`) is
/// `InvalidDataUrl`. For a valid data URL, the result is that of `decode_slice` for the decoded
/// bytes, and this result is never `InvalidDataUrl`. `OutOfMemory` can come at any time.
pub fn decode_data_url(alloc: Global, url: &str) -> Result<DecodedMap>
    ensures answer { IsAnswer map_tree (UrlDecodes url.now) result }
    // Unless memory runs out, the URL determines the result. If the result is an `Io` error, the
    // URL determines only the kind of the error.
    ensures only { (due : Result MapTree Error) → UrlDecodes url.now due
        → IsAnswer map_tree (AreSame due) result }
    // An error in the decoded bytes is never `InvalidDataUrl`.
    ensures no_url { IfErr result (λ e. e ≡ InvalidDataUrl → IsNoUrl url.now) }
    ensures well_formed { IfOk result (λ m. IsWellFormed (map_tree m)) }
{
    decode_url(alloc, url)
}

fn index_in(alloc: Global, bytes: &[u8]) -> Result<SourceMapIndex>
    ensures answer { IsAnswer index_value (BytesHaveResult IndexDecodes bytes.now) result }
    ensures well_formed { IfOk result (λ i. IsWellFormed (index_tree (index_value i))) }
{
    let raw = read_record(alloc, bytes)?;
    only_index(alloc, raw)
}

// Decodes bytes to an index map. The bytes are dropped once their JSON value is read.
fn index_in_owned(alloc: Global, bytes: Vec<u8>) -> Result<SourceMapIndex>
    ensures answer { IsAnswer index_value (BytesHaveResult IndexDecodes bytes.items) result }
    ensures well_formed { IfOk result (λ i. IsWellFormed (index_tree (index_value i))) }
{
    let raw = read_record_owned(alloc, bytes)?;
    only_index(alloc, raw)
}

impl SourceMapIndex {
    /// Decodes the JSON in these bytes to an index map. If the JSON is a record without a list of
    /// sections, the error is `IncompatibleSourceMap`, and the other keys of the record are not
    /// decoded. In all other cases, the index map or the error is the same as from `decode_slice`.
    /// `OutOfMemory` can come at any time.
    pub fn from_slice(alloc: Global, bytes: &[u8]) -> Result<Self>
        ensures answer { IsAnswer index_value (BytesHaveResult IndexDecodes bytes.now) result }
        // Unless memory runs out, the bytes determine the result. If the result is an `Io` error,
        // the bytes determine only the kind of the error.
        ensures only { (due : Result IndexValue Error) → BytesHaveResult IndexDecodes bytes.now due
            → IsAnswer index_value (AreSame due) result }
        ensures well_formed { IfOk result (λ i. IsWellFormed (index_tree (index_value i))) }
    {
        index_in(alloc, bytes)
    }

    /// Decodes a reader's bytes to an index map, as `from_slice` does. The reader is read to its
    /// end first. A failed read is `Io`, or `OutOfMemory` if the read ran out of memory.
    pub fn from_reader<R: Read + Drop>(alloc: Global, reader: R) -> Result<Self>
        ensures answer { Reading (R.remaining reader)
            (λ bytes. IsAnswerRead index_value (BytesHaveResult IndexDecodes bytes) result) }
        ensures only { IfSome (R.remaining reader) (λ bytes. (due : Result IndexValue Error)
            → BytesHaveResult IndexDecodes bytes due
            → IsAnswerRead index_value (AreSame due) result) }
        ensures well_formed { IfOk result (λ i. IsWellFormed (index_tree (index_value i))) }
    {
        let bytes = read_all(alloc, reader)?;
        index_in_owned(alloc, bytes)
    }
}

/// A law: the input of decoding (a JSON value, bytes or a data URL) determines the result, except
/// the error `OutOfMemory`. If the result is an `Io` error (for an invalid header), the input
/// determines only the kind of the error.
pub fn answers_are_determined()
    ensures values { (d : Data) (a b : Result MapTree Error)
        → ValueDecodes d a → ValueDecodes d b → a ≡ b }
    ensures bytes { (bytes : List ℕ) (a b : Result MapTree Error)
        → BytesDecode bytes a → BytesDecode bytes b → AreSame a b }
    ensures urls { (url : List ℕ) (a b : Result MapTree Error)
        → UrlDecodes url a → UrlDecodes url b → AreSame a b }
{}

/// A law: unless memory runs out, decoding a text as a data URL gives `InvalidDataUrl` exactly if
/// the text is not a valid data URL. Decoding a JSON value or bytes never gives `InvalidDataUrl`.
pub fn only_urls_give_invalid_data_url()
    ensures values { (d : Data) → ¬ ValueDecodes d (Err InvalidDataUrl) }
    ensures bytes { (bytes : List ℕ) → ¬ BytesDecode bytes (Err InvalidDataUrl) }
    ensures urls { (url : List ℕ) → UrlDecodes url (Err InvalidDataUrl) → IsNoUrl url }
    ensures texts { (url : List ℕ) → IsNoUrl url → UrlDecodes url (Err InvalidDataUrl) }
{}
