//! Decodes a record to a map of any kind. The map in each section of an index map is decoded in the
//! same way.
ghost use Rattle.std.specs.Prelude.{◌≡◌, Ok, OnOk, IfErr, IfOk, map};
ghost use Rattle.sourcemap_errors.specs.Answer.{IsAnswer, Gives};
ghost use Rattle.sourcemap_errors.specs.declared.errors.Error.TheVariants.{OutOfMemory};
ghost use Rattle.sourcemap_records.specs.Jsontypes.{flat, tree, section, sections_from};
ghost use Rattle.sourcemap_index_model.specs.Decode.{LeafDecodes, TreeDecodes, SectionsDecode, by_offset, index_parts};
ghost use Rattle.sourcemap_index_model.specs.WellFormed.{IsWellFormed};
ghost use Rattle.sourcemap_index.specs.Family.{index_value, map_tree, section_value};
ghost use Rattle.sourcemap_index.specs.Decode.{SectionDecodes, IndexDecodes, PartsDecode, index_with};

use crate::family::{DecodedMap, SourceMapIndex, SourceMapSection};
use sourcemap_errors::errors::{Error, Result};
use sourcemap_hermes::decode::decode_hermes;
use sourcemap_map_conversions::from_record::file_in;
use sourcemap_map_regular::decode::decode_regular;
use sourcemap_records::jsontypes::{RawSection, RawSourceMap};
use std::alloc::Global;

// A record with more sections than this number cannot be decoded.
const SECTION_LIMIT: usize = 4294967295;

/// Decodes a record to a map. The errors are those that `decode_slice` returns for the record.
pub(crate) fn decode_map(alloc: Global, raw: RawSourceMap) -> Result<DecodedMap>
    ensures answer { IsAnswer map_tree (TreeDecodes (tree raw)) result }
    ensures well_formed { IfOk result (λ m. IsWellFormed (map_tree m)) }
{
    decode_record(alloc, raw)
}

/// Decodes a record to an index map. If the record has no list of sections, the error is
/// `IncompatibleSourceMap`, and the other keys of the record are not decoded.
pub(crate) fn only_index(alloc: Global, mut raw: RawSourceMap) -> Result<SourceMapIndex>
    ensures { IsAnswer index_value (IndexDecodes (tree raw)) result }
{
    match raw.sections.take() {
        Some(sections) => decode_parts(alloc, raw, sections),
        None => Err(Error::IncompatibleSourceMap),
    }
}

#[cycle(decode)]
fn decode_record(alloc: Global, mut raw: RawSourceMap) -> Result<DecodedMap>
    ensures { IsAnswer map_tree (TreeDecodes (tree raw)) result }
{
    match raw.sections.take() {
        Some(sections) => Ok(DecodedMap::Index(decode_parts(alloc, raw, sections)?)),
        None => decode_leaf(alloc, raw),
    }
}

// Decodes a record with `x_facebook_sources` to a Hermes map, and any other record to a regular
// map. The sections of the record are ignored.
fn decode_leaf(alloc: Global, raw: RawSourceMap) -> Result<DecodedMap>
    ensures { IsAnswer map_tree
        (LeafDecodes (flat (tree raw)) (flat (tree raw)).x_facebook_sources) result }
{
    if raw.x_facebook_sources.is_some() {
        let map = decode_hermes(alloc, raw)?;
        Ok(DecodedMap::Hermes(map))
    } else {
        let map = decode_regular(alloc, raw)?;
        Ok(DecodedMap::Regular(map))
    }
}

// Decodes a record to an index map. `sections` are the sections of the record, and `raw` has the
// other keys of the record. Decodes the sections in order, then sorts them stably by offset. If
// there are more than 4294967295 sections, the error is `IncompatibleSourceMap`, and no section is
// decoded. Otherwise the error is the first error of a section's map. The only other error is
// `OutOfMemory`.
#[cycle(decode)]
fn decode_parts(
    alloc: Global,
    raw: RawSourceMap,
    sections: Vec<RawSection>,
) -> Result<SourceMapIndex>
    ensures { IsAnswer index_value (PartsDecode (flat (tree raw))
        (sections_from (map section sections.items))) result }
{
    if sections.len() > SECTION_LIMIT {
        return Err(Error::IncompatibleSourceMap);
    }
    let mut decoded = decode_sections(alloc, sections)?;
    sort_sections(&mut decoded)?;
    index_of(alloc, raw, decoded)
}

#[cycle(decode)]
fn decode_sections(alloc: Global, sections: Vec<RawSection>) -> Result<Vec<SourceMapSection>>
    ensures { IsAnswer (λ v. map section_value v.items)
        (SectionsDecode (sections_from (map section sections.items))) result }
{
    let mut decoded = Vec::with_capacity(alloc, sections.len())?;
    for part in sections {
        decoded.push(decode_section(alloc, part)?)?;
    }
    Ok(decoded)
}

#[cycle(decode)]
fn decode_section(alloc: Global, part: RawSection) -> Result<SourceMapSection>
    ensures { IsAnswer section_value (SectionDecodes (section part)) result }
{
    let RawSection { offset, url, map } = part;
    let offset = (offset.line, offset.column);
    match map {
        None => SourceMapSection::new(alloc, offset, url, None),
        Some(raw) => {
            let map = decode_record(alloc, Box::into_inner(raw))?;
            SourceMapSection::new(alloc, offset, url, Some(map))
        }
    }
}

fn sort_sections(sections: &mut Vec<SourceMapSection>) -> Result<()>
    ensures sorted { OnOk result (map section_value sections.new.items
        ≡ by_offset (map section_value sections.old.items)) }
    ensures memory { IfErr result (λ e. e ≡ OutOfMemory) }
{
    sections.sort_by_key(SourceMapSection::get_offset)?;
    Ok(())
}

fn index_of(
    alloc: Global,
    raw: RawSourceMap,
    sections: Vec<SourceMapSection>,
) -> Result<SourceMapIndex>
    ensures { Gives index_value result (Ok (index_with (index_parts (flat (tree raw)))
        (map section_value sections.items))) }
{
    let RawSourceMap {
        file,
        debug_id,
        x_facebook_offsets,
        x_metro_module_paths,
        ..
    } = raw;
    let file = file_in(alloc, file)?;
    Ok(SourceMapIndex {
        file,
        debug_id,
        sections,
        x_facebook_offsets,
        x_metro_module_paths,
        alloc,
    })
}
