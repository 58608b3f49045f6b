//! Encodes maps of any kind as records. Writes index maps as compact JSON text.
ghost use Rattle.std.specs.Prelude.{◌≡◌, ℕ, List, Ok, Err, IfSome, IfOk, IfErr, OnOk, map, option_map, string_bytes};
ghost use Rattle.std.specs.List.{AllByRecursion};
ghost use Rattle.sourcemap_errors.specs.Answer.{IsAnswer, Gives, UnlessMemory};
ghost use Rattle.sourcemap_records.specs.Jsontypes.{tree, flat, indexed, section, sections_from, text_view, FitsU32, AreInRange, IsFine};
ghost use Rattle.sourcemap_map_regular.specs.Encode.{ReadsBack};
ghost use Rattle.sourcemap_map_regular.specs.Write.{IsEncoded, IsIo};
ghost use Rattle.sourcemap_index_model.specs.Decode.{TreeDecodes};
ghost use Rattle.sourcemap_index_model.specs.Encode.{index_fields, RecordAnswer, Restores};
ghost use Rattle.sourcemap_index_model.specs.WellFormed.{IsWellFormed};
ghost use Rattle.sourcemap_index_model.specs.MapTree.{index_tree, sections_from as sections_of};
ghost use Rattle.sourcemap_index.specs.Encode.{MapWrites, SectionsWrite, SectionWrites};
ghost use Rattle.sourcemap_index.specs.Family.{index_value, map_tree, section_value};

use crate::clone::copy_lines;
use crate::family::{DecodedMap, SourceMapIndex, SourceMapSection};
use serde_json::Value;
use sourcemap_errors::errors::Result;
use sourcemap_headers::debug_id::DebugId;
use sourcemap_map_conversions::to_record::checked_id;
use sourcemap_map_parts::text_lists::{copy_optional_texts, copy_string};
use sourcemap_map_regular::encode::Encodable;
use sourcemap_map_regular::write::encode;
use sourcemap_records::jsontypes::{RawSection, RawSectionOffset, RawSourceMap};
use std::alloc::Global;
use std::io::Write;

impl Encodable for DecodedMap {
    ghost encodes = { λ m. RecordAnswer (map_tree m) };

    /// The record of the map. The record of a Hermes map is the record of its regular map, with the
    /// scope entries of the Hermes map under the key `x_facebook_sources`. The record of an index
    /// map contains version 3 and the sections, each with its offset, its URL and the record of its
    /// map; a missing URL or map is `None`. If the index map has a file, a debug id,
    /// `x_facebook_offsets` or `x_metro_module_paths`, the record contains them too. The only error
    /// is `OutOfMemory`.
    fn as_raw_sourcemap(&self) -> Result<RawSourceMap>
        ensures answer { IsAnswer tree (RecordAnswer (map_tree self.now)) result }
        ensures fine { IfOk result (λ r. IsFine (tree r)) }
        ensures reads_back { IfOk result (λ r. IsWellFormed (map_tree self.now)
            → ReadsBack (TreeDecodes (tree r)) (Restores (map_tree self.now))) }
    {
        record_of_map(self)
    }

    /// The compact JSON text of the record, as bytes. The text of a regular map is written without
    /// the record. The only error is `OutOfMemory`.
    fn compact_text(&self, alloc: Global) -> Result<Vec<u8>>
        ensures text { IfOk result
            (λ text. IsEncoded (RecordAnswer (map_tree self.now)) text.items) }
        ensures error { IfErr result
            (λ e. UnlessMemory e (RecordAnswer (map_tree self.now) (Err e))) }
    {
        match self {
            DecodedMap::Regular(map) => map.compact_text(alloc),
            DecodedMap::Index(index) => index.compact_text(alloc),
            DecodedMap::Hermes(map) => map.compact_text(alloc),
        }
    }
}

impl Encodable for SourceMapIndex {
    ghost encodes = { λ i. RecordAnswer (index_tree (index_value i)) };

    /// The record of the index map. It contains version 3 and the sections. Each section contains
    /// its offset, its URL and the record of its map; a missing URL or map is `None`. If the index
    /// map has a file, a debug id, `x_facebook_offsets` or `x_metro_module_paths`, the record
    /// contains them too. The only error is `OutOfMemory`.
    fn as_raw_sourcemap(&self) -> Result<RawSourceMap>
        ensures answer { IsAnswer tree (RecordAnswer (index_tree (index_value self.now))) result }
        ensures fine { IfOk result (λ r. IsFine (tree r)) }
        ensures reads_back { IfOk result (λ r. IsWellFormed (index_tree (index_value self.now))
            → ReadsBack (TreeDecodes (tree r)) (Restores (index_tree (index_value self.now)))) }
    {
        record_of_index(self)
    }
}

impl SourceMapIndex {
    /// Returns the record that `as_raw_sourcemap` returns, but consumes the index map. All texts
    /// are moved, not copied, also the texts in sections. The only error is `OutOfMemory`.
    pub fn into_raw_sourcemap(self) -> Result<RawSourceMap>
        ensures { IsAnswer tree (RecordAnswer (index_tree (index_value self))) result }
    {
        index_into_record(self)
    }

    /// Writes the index map's compact JSON text. The errors are `OutOfMemory`, and `Io` if a write
    /// fails for another reason. The writer is consumed, so no clause says what it contains
    /// afterwards. `encode_to` borrows its writer and has such a clause.
    pub fn to_writer<W: Write + Drop>(&self, writer: W) -> Result<()>
        ensures encoded { OnOk result ((text : List ℕ)
            × IsEncoded (RecordAnswer (index_tree (index_value self.now))) text) }
        ensures error { IfErr result (λ e. UnlessMemory e (IsIo e)) }
    {
        encode(self.alloc, self, writer)
    }
}

#[cycle(encode)]
pub(crate) fn record_of_map(map: &DecodedMap) -> Result<RawSourceMap>
    ensures { IsAnswer tree (MapWrites (map_tree map.now)) result }
{
    match map {
        DecodedMap::Regular(map) => map.as_raw_sourcemap(),
        DecodedMap::Index(index) => record_of_index(index),
        DecodedMap::Hermes(map) => map.as_raw_sourcemap(),
    }
}

#[cycle(encode)]
pub(crate) fn record_of_index(index: &SourceMapIndex) -> Result<RawSourceMap>
    ensures { IsAnswer tree (MapWrites (index_tree (index_value index.now))) result }
{
    let sections = records_of(index.alloc, index.sections.as_slice())?;
    copy_with_sections(index, sections)
}

#[cycle(encode)]
fn records_of(alloc: Global, sections: &[SourceMapSection]) -> Result<Vec<RawSection>>
    ensures { IsAnswer (λ v. sections_from (map section v.items))
        (SectionsWrite (sections_of (map section_value sections.now))) result }
{
    let mut records = Vec::with_capacity(alloc, sections.len())?;
    for part in sections {
        records.push(record_of_section(part)?)?;
    }
    Ok(records)
}

#[cycle(encode)]
fn record_of_section(part: &SourceMapSection) -> Result<RawSection>
    ensures { IsAnswer section (SectionWrites (section_value part.now)) result }
{
    let (line, column) = part.offset;
    let map = match &part.map {
        Some(map) => Some(Box::new(part.alloc, record_of_map(map)?)?),
        None => None,
    };
    let url = copy_string(part.alloc, &part.url)?;
    Ok(RawSection {
        offset: RawSectionOffset { line, column },
        url,
        map,
    })
}

#[cycle(consume)]
pub(crate) fn map_into_record(map: DecodedMap) -> Result<RawSourceMap>
    ensures { IsAnswer tree (MapWrites (map_tree map)) result }
{
    match map {
        DecodedMap::Regular(map) => map.into_raw_sourcemap(),
        DecodedMap::Index(index) => index_into_record(index),
        DecodedMap::Hermes(map) => map.into_raw_sourcemap(),
    }
}

#[cycle(consume)]
fn index_into_record(index: SourceMapIndex) -> Result<RawSourceMap>
    ensures { IsAnswer tree (MapWrites (index_tree (index_value index))) result }
{
    let SourceMapIndex {
        file,
        debug_id,
        sections,
        x_facebook_offsets,
        x_metro_module_paths,
        alloc,
    } = index;
    let sections = sections_into_records(alloc, sections)?;
    Ok(record_with(
        file,
        debug_id,
        x_facebook_offsets,
        x_metro_module_paths,
        sections,
    ))
}

#[cycle(consume)]
fn sections_into_records(alloc: Global, sections: Vec<SourceMapSection>) -> Result<Vec<RawSection>>
    ensures { IsAnswer (λ v. sections_from (map section v.items))
        (SectionsWrite (sections_of (map section_value sections.items))) result }
{
    let mut records = Vec::with_capacity(alloc, sections.len())?;
    for part in sections {
        records.push(section_into_record(part)?)?;
    }
    Ok(records)
}

#[cycle(consume)]
fn section_into_record(part: SourceMapSection) -> Result<RawSection>
    ensures { IsAnswer section (SectionWrites (section_value part)) result }
{
    let SourceMapSection {
        offset,
        url,
        map,
        alloc,
    } = part;
    let map = match map {
        Some(map) => Some(Box::new(alloc, map_into_record(Box::into_inner(map))?)?),
        None => None,
    };
    let (line, column) = offset;
    Ok(RawSection {
        offset: RawSectionOffset { line, column },
        url,
        map,
    })
}

fn copy_with_sections(index: &SourceMapIndex, sections: Vec<RawSection>) -> Result<RawSourceMap>
    ensures value { Gives tree result (Ok (indexed (index_fields (index_value index.now).parts)
        (sections_from (map section sections.items)))) }
    ensures in_range { OnOk result (AreInRange (index_fields (index_value index.now).parts)) }
{
    let alloc = index.alloc;
    let file = copy_string(alloc, &index.file)?;
    let offsets = copy_lines(alloc, &index.x_facebook_offsets)?;
    let paths = copy_optional_texts(alloc, &index.x_metro_module_paths)?;
    Ok(record_with(file, index.debug_id, offsets, paths, sections))
}

fn record_with(
    file: Option<String>,
    debug_id: Option<DebugId>,
    offsets: Option<Vec<Option<u32>>>,
    paths: Option<Vec<String>>,
    sections: Vec<RawSection>,
) -> RawSourceMap
    ensures value { tree result ≡ indexed (index_fields (record {
      file = text_view file;
      debug_id = debug_id;
      x_facebook_offsets = option_map (λ v. v.items) offsets;
      x_metro_module_paths = option_map (λ v. map string_bytes v.items) paths;
    })) (sections_from (map section sections.items)) }
    ensures in_range { AreInRange (flat (tree result)) }
{
    RawSourceMap {
        version: Some(3),
        file: file.map(Value::String),
        sources: None,
        source_root: None,
        sources_content: None,
        sections: Some(sections),
        names: None,
        range_mappings: None,
        mappings: None,
        ignore_list: None,
        x_facebook_offsets: checked_lines(offsets),
        x_metro_module_paths: paths,
        x_facebook_sources: None,
        debug_id: checked_id(debug_id),
    }
}

// Returns `lines` unchanged. The call is needed for the clause `small`: each line is below 2^32.
fn checked_lines(lines: Option<Vec<Option<u32>>>) -> Option<Vec<Option<u32>>>
    ensures value { option_map (λ v. v.items) result ≡ option_map (λ v. v.items) lines }
    ensures small { IfSome result (λ v. AllByRecursion (λ n. IfSome n FitsU32) v.items) }
{
    match lines {
        None => None,
        Some(lines) => {
            look_at(lines.as_slice());
            Some(lines)
        }
    }
}

// prover: each number is below 2^32
fn look_at(numbers: &[Option<u32>])
    ensures { AllByRecursion (λ n. IfSome n FitsU32) numbers.now }
{
    for number in numbers {
        let _ = check_number(*number);
    }
}

// Returns `number` unchanged. The call is needed for the clause `small`: the number is below 2^32.
fn check_number(number: Option<u32>) -> Option<u32>
    ensures value { result ≡ number }
    ensures small { IfSome result FitsU32 }
{
    number
}
