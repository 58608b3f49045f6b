// Tests of index maps that are constructed, not decoded. The tests change `file` or one section,
// read the lists of an index map for a RAM bundle, or write an index map and read it back.
use crate::decoding::sections_text;
use crate::getters::lists_text;
use crate::maps::{map_of, record_text};
use sourcemap::decoder::decode_slice;
use sourcemap::encoder::Encodable;
use sourcemap::errors::{Error, Result};
use sourcemap::types::{DecodedMap, SourceMapIndex, SourceMapSection};
use sourcemap_test_support::checks::{Checked, check};
use sourcemap_test_support::results::{box_result, owned_text};
use std::alloc::Global;

// A change to an index map that has two sections, or to one of these sections. Sections are
// numbered from 0. If no section has the number, nothing changes.
#[derive(Clone, Copy)]
enum Change {
    Nothing,
    File,
    // the section of this number gets the URL `u`
    Url(u32),
    // the map of the section of this number is removed
    Map(u32),
    // the section of this number gets a new map: an index map without sections
    NewMap(u32),
    // in the section of this number, the debug id of the map is removed
    DebugId(u32),
}

const MAP: &str = r#"{"mappings":"A","debugId":"00000000-0000-0000-0000-000000000000"}"#;

fn linked_section(alloc: Global) -> Result<SourceMapSection> {
    SourceMapSection::new(alloc, (0, 0), Some(String::from_str(alloc, "v")?), None)
}

fn section_with_map(alloc: Global) -> Result<SourceMapSection> {
    let map = decode_slice(alloc, MAP.as_bytes())?;
    SourceMapSection::new(alloc, (1, 2), None, Some(map))
}

fn sections(alloc: Global) -> Result<Vec<SourceMapSection>> {
    let mut sections = Vec::new(alloc);
    sections.push(linked_section(alloc)?)?;
    sections.push(section_with_map(alloc)?)?;
    Ok(sections)
}

/// An index map with the file `test.js` and these sections.
pub fn index_of_file(alloc: Global, sections: Vec<SourceMapSection>) -> Result<SourceMapIndex> {
    let file = String::from_str(alloc, "test.js")?;
    Ok(SourceMapIndex::new(alloc, Some(file), sections))
}

fn make_index(alloc: Global) -> Result<Box<SourceMapIndex>> {
    let sections = sections(alloc)?;
    box_result(alloc, index_of_file(alloc, sections))
}

fn with_url(index: &mut SourceMapIndex, id: u32) -> Result<()> {
    match index.get_section_mut(id) {
        None => Ok(()),
        Some(section) => section.set_url(Some("u")),
    }
}

fn without_map(index: &mut SourceMapIndex, id: u32) -> Result<()> {
    match index.get_section_mut(id) {
        None => Ok(()),
        Some(section) => section.set_sourcemap(None),
    }
}

fn with_index(alloc: Global, index: &mut SourceMapIndex, id: u32) -> Result<()> {
    let map = map_of(alloc, r#"{"sections":[]}"#)?;
    match index.get_section_mut(id) {
        None => Ok(()),
        Some(section) => section.set_sourcemap(Some(Box::into_inner(map))),
    }
}

fn without_debug_id(index: &mut SourceMapIndex, id: u32) {
    let section = index.get_section_mut(id);
    if let Some(map) = section.and_then(|section| section.get_sourcemap_mut()) {
        map.set_debug_id(None);
    }
}

fn apply(alloc: Global, index: &mut SourceMapIndex, change: Change) -> Result<()> {
    match change {
        Change::Nothing => Ok(()),
        Change::File => index.set_file(Some("other.js")),
        Change::Url(id) => with_url(index, id),
        Change::Map(id) => without_map(index, id),
        Change::NewMap(id) => with_index(alloc, index, id),
        Change::DebugId(id) => {
            without_debug_id(index, id);
            Ok(())
        }
    }
}

fn has_debug_id(section: Option<&SourceMapSection>) -> bool {
    match section.and_then(|section| section.get_sourcemap()) {
        None => false,
        Some(map) => map.debug_id().is_some(),
    }
}

// Makes a change. If the error is `OutOfMemory`, checks that `index` still equals `before`,
// then makes the change a second time. If the check fails, the error is `IncompatibleSourceMap`.
fn apply_beside(
    alloc: Global,
    index: &mut SourceMapIndex,
    before: &SourceMapIndex,
    change: Change,
) -> Result<()> {
    let mut outcome = apply(alloc, index, change);
    if matches!(outcome, Err(Error::OutOfMemory)) {
        if *index != *before {
            return Err(Error::IncompatibleSourceMap);
        }
        outcome = apply(alloc, index, change);
    }
    outcome
}

fn apply_whole(alloc: Global, index: &mut SourceMapIndex, change: Change) -> Result<()> {
    let before = box_result(alloc, index.clone())?;
    apply_beside(alloc, index, &*before, change)
}

fn change_text(alloc: Global, index: &mut SourceMapIndex, change: Change) -> Result<String> {
    apply_whole(alloc, index, change)?;
    let sections = sections_text(alloc, index)?;
    let has_id = has_debug_id(index.get_section(1));
    owned_text(format!(in alloc; "{:?} {sections} {has_id}", index.get_file()))
}

fn apply_change(alloc: Global, change: Change) -> Result<String> {
    change_text(alloc, &mut *make_index(alloc)?, change)
}

// A change, and the result of `change_text`: `file` and the sections of the changed index map, and
// whether the map of the second section has a debug id.
static CHANGES: [(Change, &str); 11] = [
    (
        Change::Nothing,
        r#"Some("test.js") 0:0 Some("v") no map;1:2 None a map; true"#,
    ),
    (
        Change::File,
        r#"Some("other.js") 0:0 Some("v") no map;1:2 None a map; true"#,
    ),
    (
        Change::Url(0),
        r#"Some("test.js") 0:0 Some("u") no map;1:2 None a map; true"#,
    ),
    (
        Change::Url(1),
        r#"Some("test.js") 0:0 Some("v") no map;1:2 Some("u") a map; true"#,
    ),
    (
        Change::Url(2),
        r#"Some("test.js") 0:0 Some("v") no map;1:2 None a map; true"#,
    ),
    (
        Change::Map(1),
        r#"Some("test.js") 0:0 Some("v") no map;1:2 None no map; false"#,
    ),
    (
        Change::NewMap(0),
        r#"Some("test.js") 0:0 Some("v") an index;1:2 None a map; true"#,
    ),
    (
        Change::NewMap(1),
        r#"Some("test.js") 0:0 Some("v") no map;1:2 None an index; false"#,
    ),
    (
        Change::NewMap(2),
        r#"Some("test.js") 0:0 Some("v") no map;1:2 None a map; true"#,
    ),
    (
        Change::DebugId(0),
        r#"Some("test.js") 0:0 Some("v") no map;1:2 None a map; true"#,
    ),
    (
        Change::DebugId(1),
        r#"Some("test.js") 0:0 Some("v") no map;1:2 None a map; false"#,
    ),
];

#[test]
fn one_part_of_an_index_is_changed(rt: HostRuntime) -> Checked {
    let alloc = rt.alloc();
    for (change, want) in CHANGES.iter() {
        check(want, apply_change(alloc, *change), want)?;
    }
    Ok(())
}

// An index map without sections, but with both lists of a RAM bundle: `x_facebook_offsets` and
// `x_metro_module_paths`.
fn bundle_index(alloc: Global) -> Result<SourceMapIndex> {
    let offsets = offsets(alloc)?;
    let paths = paths(alloc)?;
    Ok(SourceMapIndex::new_ram_bundle_compatible(
        alloc,
        None,
        Vec::new(alloc),
        Some(offsets),
        Some(paths),
    ))
}

fn offsets(alloc: Global) -> Result<Vec<Option<u32>>> {
    let mut offsets = Vec::new(alloc);
    offsets.push(Some(5))?;
    offsets.push(None)?;
    Ok(offsets)
}

fn paths(alloc: Global) -> Result<Vec<String>> {
    let mut paths = Vec::new(alloc);
    paths.push(String::from_str(alloc, "a.js")?)?;
    Ok(paths)
}

fn bundle_text(alloc: Global) -> Result<String> {
    let index = box_result(alloc, bundle_index(alloc))?;
    lists_text(alloc, &*index)
}

#[test]
fn indexes_are_made_for_bundles(rt: HostRuntime) -> Checked {
    let want = r#"Some([Some(5), None]) Some(["a.js"]) true"#;
    check("a bundle", bundle_text(rt.alloc()), want)
}

fn is_index(map: &DecodedMap, index: &SourceMapIndex) -> bool {
    match map {
        DecodedMap::Index(map) => *map == *index,
        _ => false,
    }
}

fn is_read_from(alloc: Global, text: &str, index: &SourceMapIndex) -> Result<bool> {
    Ok(is_index(&*map_of(alloc, text)?, index))
}

// The text that an index is written as, and whether it is read back as the same index.
fn written_text(alloc: Global, index: Result<SourceMapIndex>) -> Result<String> {
    let index = box_result(alloc, index)?;
    let text = record_text(alloc, index.as_raw_sourcemap())?;
    let is_read_back = is_read_from(alloc, text.as_str(), &*index)?;
    owned_text(format!(in alloc; "{text} {is_read_back}"))
}

#[test]
fn indexes_of_no_section_are_written_and_read_back(rt: HostRuntime) -> Checked {
    let alloc = rt.alloc();
    let want = r#"{"file":"test.js","sections":[],"sources":null,"version":3} true"#;
    let index = index_of_file(alloc, Vec::new(alloc));
    check("a file", written_text(alloc, index), want)?;
    let want = concat!(
        r#"{"sections":[],"sources":null,"version":3,"x_facebook_offsets":[5,null],"#,
        r#""x_metro_module_paths":["a.js"]} true"#,
    );
    check("a bundle", written_text(alloc, bundle_index(alloc)), want)
}
