//! Reads a regular map, and what looks wrong in its texts, and an index map as its flat map.
ghost use Rattle.std.specs.Prelude.{◌≡◌, Err, IfErr, IfOk, MatchResult, option_map, string_bytes};
ghost use Rattle.sourcemap_errors.specs.Answer.{IsAnswer, UnlessMemory};
ghost use Rattle.sourcemap_errors.specs.declared.errors.Error.TheVariants.{OutOfMemory};
ghost use Rattle.sourcemap_records.specs.Bytes.{BytesHaveResult, HoldRecord};
ghost use Rattle.sourcemap_records.specs.Jsontypes.{Tree, tree};
ghost use Rattle.sourcemap_check_suspicious.specs.Reading.{AreTextDoubts, FlatTextMap, IsMapOf, IsTextMapOf, TextMapDecodes, flat_value, mappings_of, ranges_of, text_or_empty, value_of_tree};

use sourcemap_check_order::order::{SegmentPlaces, segments_back};
use sourcemap_check_order::ranges::{RangeDoubt, doubtful_ranges};
use sourcemap_errors::errors::Result;
use sourcemap_index::family::SourceMapIndex;
use sourcemap_map_regular::decode::decode_regular;
use sourcemap_map_regular::map::SourceMap;
use sourcemap_records::bytes::read_record;
use sourcemap_records::jsontypes::RawSourceMap;
use std::alloc::Global;

/// What looks wrong in the texts of a map.
#[derive(Drop)]
pub struct TextDoubts {
    /// The segments that go back.
    pub back: SegmentPlaces,
    /// The text `rangeMappings`.
    pub ranges: Option<RangeDoubt>,
}

/// A regular map, that which a Hermes map holds, or the flat map of an index map, and what looks
/// wrong in the texts of its record. A text that the record lacks is empty, and so are those of a
/// flat map.
#[derive(Drop)]
pub struct TextMap {
    /// The map.
    pub map: SourceMap,
    /// What looks wrong in its texts.
    pub doubts: TextDoubts,
}

fn doubts_in(alloc: Global, mappings: &str, ranges: &str, most: usize) -> Result<TextDoubts>
    ensures doubts { IfOk result (AreTextDoubts most mappings.now ranges.now) }
    ensures memory { IfErr result (λ e. e ≡ OutOfMemory) }
{
    let back = segments_back(alloc, mappings, most)?;
    let ranges = doubtful_ranges(alloc, mappings, ranges)?;
    Ok(TextDoubts { back, ranges })
}

fn text_or_empty(text: &Option<String>) -> &str
    ensures { result.now ≡ text_or_empty (option_map string_bytes text.now) }
{
    match text {
        Some(text) => text.as_str(),
        None => "",
    }
}

fn text_doubts(alloc: Global, raw: &RawSourceMap, most: usize) -> Result<TextDoubts>
    ensures doubts { IfOk result
        (AreTextDoubts most (mappings_of (tree raw.now)) (ranges_of (tree raw.now))) }
    ensures memory { IfErr result (λ e. e ≡ OutOfMemory) }
{
    match &raw.sections {
        Some(_) => doubts_in(alloc, "", "", most),
        None => doubts_in(
            alloc,
            text_or_empty(&raw.mappings),
            text_or_empty(&raw.range_mappings),
            most,
        ),
    }
}

fn flat_map(alloc: Global, bytes: &[u8]) -> Result<SourceMap>
    ensures { (held : Tree) → HoldRecord bytes.now held
        → IsAnswer flat_value (FlatTextMap held) result }
{
    let index = SourceMapIndex::from_slice(alloc, bytes)?;
    index.flatten()
}

// The map of the record that the bytes hold.
fn map_of_record(alloc: Global, bytes: &[u8], raw: RawSourceMap) -> Result<SourceMap>
    ensures { HoldRecord bytes.now (tree raw)
        → IsAnswer (value_of_tree (tree raw)) (TextMapDecodes (tree raw)) result }
{
    if raw.sections.is_some() {
        // The index map is decoded from the bytes: the record need not be in memory meanwhile.
        drop(raw);
        return flat_map(alloc, bytes);
    }
    decode_regular(alloc, raw)
}

/// Decodes bytes as `SourceMap::from_slice` does, but a Hermes map to the regular map that it holds,
/// and an index map to the map that `SourceMapIndex::flatten` returns. Then the errors are those of
/// `SourceMapIndex::from_slice` and of `flatten`.
pub fn read_map(alloc: Global, bytes: &[u8]) -> Result<SourceMap>
    ensures { MatchResult result (IsMapOf bytes.now)
        (λ e. UnlessMemory e (BytesHaveResult TextMapDecodes bytes.now (Err e))) }
{
    let raw = read_record(alloc, bytes)?;
    map_of_record(alloc, bytes, raw)
}

/// Decodes bytes as `read_map` does, and looks at the texts of the map. The places of the first
/// `most` segments that go back are kept.
pub fn read_text_map(alloc: Global, bytes: &[u8], most: usize) -> Result<TextMap>
    ensures { MatchResult result (IsTextMapOf most bytes.now)
        (λ e. UnlessMemory e (BytesHaveResult TextMapDecodes bytes.now (Err e))) }
{
    let raw = read_record(alloc, bytes)?;
    // Before the map is decoded, so that the texts can be dropped then.
    let doubts = text_doubts(alloc, &raw, most)?;
    // prover: error passed on by `match`
    match map_of_record(alloc, bytes, raw) {
        Ok(map) => Ok(TextMap { map, doubts }),
        Err(error) => Err(error),
    }
}
