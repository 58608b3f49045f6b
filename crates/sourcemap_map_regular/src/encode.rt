//! Encodes maps as records and as JSON text.
ghost use Rattle.std.specs.Prelude.{◌≡◌, ◌≤◌, ℕ, List, Err, IfErr, IfOk, OnOk, vec_len};
ghost use Rattle.std.specs.Io.KnownBytes.{Appends};
ghost use Rattle.sourcemap_errors.specs.Answer.{IsAnswer, UnlessMemory};
ghost use Rattle.sourcemap_map_conversions.specs.Parts.{parts_view};
ghost use Rattle.sourcemap_records.specs.Jsontypes.{tree, flat, Tree, IsFine};
ghost use Rattle.sourcemap_map_regular.specs.Map.{MapValue};
ghost use Rattle.sourcemap_map_regular.specs.Encode.{IsRecordOf, RecordAnswer};
ghost use Rattle.sourcemap_map_regular.specs.Write.{IsEncoded, IsIo};

use crate::map::SourceMap;
use sourcemap_errors::errors::{Error, Result};
use sourcemap_json_write::writing::value_to_vec;
use sourcemap_map_conversions::parts::Parts;
use sourcemap_map_conversions::to_record::{into_record, record_of};
use sourcemap_map_encode::encode::write_parts;
use sourcemap_map_encode::segments::Mappings;
use sourcemap_records::jsontypes::RawSourceMap;
use std::alloc::Global;
use std::io::Write;

/// A map of any kind, which can be encoded as a record and as a JSON text.
pub trait Encodable {
    ghost use Rattle.std.specs.Prelude.{Result};
    ghost use Rattle.sourcemap_errors.specs.declared.errors.Error.{Error};
    ghost use Rattle.sourcemap_records.specs.Jsontypes.{Tree};

    // `encodes v` says which results `as_raw_sourcemap` of `v` may return. `encodes v (Ok t)`
    // allows a record whose `Tree` is `t`, and `encodes v (Err e)` allows the error `e`. The error
    // `OutOfMemory` is always allowed.
    ghost encodes: { Self → Result Tree Error → Type 0 };

    /// The record of the map.
    fn as_raw_sourcemap(&self) -> Result<RawSourceMap>
        ensures { IsAnswer tree (encodes self.now) result };

    /// The compact JSON text of the record, as bytes. The errors are `OutOfMemory` and those of
    /// `as_raw_sourcemap`.
    fn compact_text(&self, alloc: Global) -> Result<Vec<u8>>
        ensures text { IfOk result (λ text. IsEncoded (encodes self.now) text.items) }
        ensures error { IfErr result (λ e. UnlessMemory e (encodes self.now (Err e))) }
    {
        let value = self.as_raw_sourcemap()?.into_value(alloc)?;
        Ok(value_to_vec(alloc, &value)?)
    }
}

impl Encodable for SourceMap {
    ghost use Rattle.sourcemap_map_regular.specs.Map.{IsWellFormed};
    ghost use Rattle.sourcemap_map_regular.specs.Decode.{RecordDecodes};
    ghost use Rattle.sourcemap_map_regular.specs.Encode.{ReadsBack, Restores};

    ghost encodes = { RecordAnswer };

    /// The record of the map. The record always has version 3, names, mappings, and the sources as
    /// they are written, not resolved against `sourceRoot`. It has file, `sourceRoot` and debug id
    /// if the map has them, the ignore list if it is not empty, and `rangeMappings` if the map has
    /// a range token. If a source has contents, the record has `sourcesContent`, with one item for
    /// each source. The only error is `OutOfMemory`.
    fn as_raw_sourcemap(&self) -> Result<RawSourceMap>
        ensures answer { IsAnswer tree (RecordAnswer self.now) result }
        ensures fine { IfOk result (λ r. IsFine (tree r)) }
        // The record of a well-formed map decodes to a map with the same meaning. The decoded map
        // has the same parts, except for what `KeepsParts` allows.
        ensures reads_back { IfOk result (λ r. IsWellFormed self.now
            → ReadsBack (RecordDecodes (flat (tree r))) (Restores self.now)) }
    {
        // prover: there are at most 4294967295 sources
        let _ = self.sources.len();
        let alloc = self.allocator();
        let names = self.names.as_slice();
        record_of(
            alloc,
            &self.metadata,
            &self.tokens,
            names,
            &self.sources,
            &self.contents,
        )
    }

    /// The compact JSON text of the record, as bytes, written without the record. The only error is
    /// `OutOfMemory`.
    fn compact_text(&self, alloc: Global) -> Result<Vec<u8>>
        ensures text { IfOk result (λ text. IsEncoded (RecordAnswer self.now) text.items) }
        ensures error { IfErr result (λ e. UnlessMemory e (RecordAnswer self.now (Err e))) }
    {
        let mut text = Vec::new(alloc);
        match put_map(alloc, self, &mut text, Mappings::AtOnce) {
            Ok(()) => Ok(text),
            // A write to a `Vec` fails only if memory runs out.
            Err(_) => Err(Error::OutOfMemory),
        }
    }
}

impl SourceMap {
    ghost use Rattle.sourcemap_map_regular.specs.MapStored.{parts_in};

    /// The record that `as_raw_sourcemap` returns; consumes the map. Texts are moved, and tokens
    /// are dropped as soon as they are encoded. The only error is `OutOfMemory`.
    pub fn into_raw_sourcemap(self) -> Result<RawSourceMap>
        ensures { IsAnswer tree (RecordAnswer self) result }
    {
        // prover: there are at most 4294967295 sources, and the ignore list is sorted
        let _ = self.sources.len();
        let _ = self.metadata.ignore_list();
        let alloc = self.allocator();
        into_record(alloc, self.into_parts())
    }
}

/// Writes a map as compact JSON, the same bytes as `encode_to`, to a borrowed writer.
///
/// The text is written in pieces of less than 32 KB, with two exceptions. If the JSON text of a
/// string in the map has 16 KB or more, the text of this string is a piece of its own. The range
/// bits of a line are never split, so a piece may have all range bits of a line in addition to less
/// than 32 KB of other text. So the whole text of the map is in memory at once only if the text of
/// the map is short. The errors are `OutOfMemory`, and `Io` if a write fails for another reason.
/// After an error the writer may hold any part of the text.
pub fn encode_in_parts<W: Write>(alloc: Global, map: &SourceMap, writer: &mut W) -> Result<()>
    ensures written { OnOk result ((text : List ℕ) × IsEncoded (RecordAnswer map.now) text
        × Appends (W.contents writer.old) (W.contents writer.new) text) }
    ensures error { IfErr result (λ e. UnlessMemory e (IsIo e)) }
{
    put_map(alloc, map, writer, Mappings::InPieces)
}

fn put_map<W: Write>(alloc: Global, map: &SourceMap, writer: &mut W, how: Mappings) -> Result<()>
    ensures written { OnOk result ((text : List ℕ) × IsEncoded (RecordAnswer map.now) text
        × Appends (W.contents writer.old) (W.contents writer.new) text) }
    ensures error { IfErr result (λ e. UnlessMemory e (IsIo e)) }
{
    // prover: there are at most 4294967295 sources, and the ignore list is sorted
    let _ = map.sources.len();
    let _ = map.metadata.ignore_list();
    let names = map.names.as_slice();
    write_parts(
        alloc,
        &map.metadata,
        &map.tokens,
        names,
        &map.sources,
        &map.contents,
        writer,
        how,
    )
}

/// A law: a map determines its record.
pub fn written_records_are_determined()
    ensures { (m : MapValue) (a b : Tree) → IsRecordOf m a → IsRecordOf m b → a ≡ b }
{}
