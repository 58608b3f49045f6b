// Nested index maps. Some are constructed in memory, others are decoded from text or JSON values.
use crate::lookups::flat_token_text;
use crate::maps::map_of;
use serde_json::Value;
use sourcemap::decoder::decode_slice;
use sourcemap::errors::Result;
use sourcemap::types::{DecodedMap, SourceMapIndex, SourceMapSection};
use sourcemap_test_support::checks::{Checked, check};
use sourcemap_test_support::results::{again, box_result, error_of, owned_text, text_or_none};
use std::alloc::Global;

const INNERMOST: &str = r#"{"sources":["a.js"],"mappings":"AAAA"}"#;

const OPENED: &str = r#"{"sections":[{"offset":{"line":0,"column":0},"map":"#;

const CLOSED: &str = "}]}";

// An index map with one section. The section starts at 0:0 and contains `map`.
fn wrap_map(alloc: Global, map: DecodedMap) -> Result<DecodedMap> {
    let mut sections = Vec::new(alloc);
    sections.push(SourceMapSection::new(alloc, (0, 0), None, Some(map))?)?;
    Ok(DecodedMap::Index(SourceMapIndex::new(alloc, None, sections)))
}

fn wrap_often(alloc: Global, depth: usize) -> Result<DecodedMap> {
    let mut map = decode_slice(alloc, INNERMOST.as_bytes())?;
    for _ in 0..depth {
        map = wrap_map(alloc, map)?;
    }
    Ok(map)
}

fn nested_index(alloc: Global, depth: usize) -> Result<Box<DecodedMap>> {
    box_result(alloc, wrap_often(alloc, depth))
}

fn nested_text(alloc: Global, depth: usize) -> Result<String> {
    let head = OPENED.repeat(alloc, depth)?;
    let tail = CLOSED.repeat(alloc, depth)?;
    owned_text(format!(in alloc; "{head}{INNERMOST}{tail}"))
}

/// The text of the token at 0:0 in a map, or the error.
pub fn first_token_text(alloc: Global, map: Result<Box<DecodedMap>>) -> Result<String> {
    match map {
        Ok(map) => text_or_none(alloc, map.lookup_token(0, 0)),
        error => error_of(alloc, error),
    }
}

fn read(alloc: Global, depth: usize) -> Result<String> {
    let text = nested_text(alloc, depth)?;
    first_token_text(alloc, map_of(alloc, text.as_str()))
}

// The number of nested index maps, and the result of decoding their JSON text. The result is the
// text of the token at 0:0, or the error. In the JSON text, each index map adds three levels of
// nesting, and the innermost map adds two. JSON text of more than 127 levels is not decoded.
static TEXTS: [(usize, &str); 4] = [
    (20, "a.js:0:0"),
    (41, "a.js:0:0"),
    (42, "bad json: the text is not JSON"),
    (100, "bad json: the text is not JSON"),
];

#[test]
fn nested_index_maps_are_looked_up(rt: HostRuntime) -> Checked {
    let alloc = rt.alloc();
    for (depth, want) in TEXTS.iter() {
        let got = first_token_text(alloc, nested_index(alloc, *depth));
        check("in memory", got, "a.js:0:0")?;
        check(want, read(alloc, *depth), want)?;
    }
    Ok(())
}

// The text of the token at 0:0 in the flattened map, or `no index`.
fn flat_first_token_text(alloc: Global, map: &DecodedMap) -> Result<String> {
    match map {
        DecodedMap::Index(index) => flat_token_text(alloc, index, 0, 0),
        _ => owned_text(String::from_str(alloc, "no index")),
    }
}

fn flatten_nested(alloc: Global, depth: usize) -> Result<String> {
    let map = nested_index(alloc, depth)?;
    again(|| flat_first_token_text(alloc, &*map))
}

// The text of the token at 0:0 of `made`, and whether `made` equals `map`.
fn text_beside(alloc: Global, map: &DecodedMap, made: &DecodedMap) -> Result<String> {
    let token = text_or_none(alloc, made.lookup_token(0, 0))?;
    owned_text(format!(in alloc; "{token} {}", *made == *map))
}

fn read_value(alloc: Global, value: Result<Value>) -> Result<Box<DecodedMap>> {
    let value = value?;
    box_result(alloc, DecodedMap::from_value(alloc, &value))
}

fn read_back_text(alloc: Global, map: &DecodedMap) -> Result<String> {
    text_beside(alloc, map, &*read_value(alloc, map.to_value())?)
}

fn read_back(alloc: Global, depth: usize) -> Result<String> {
    let map = nested_index(alloc, depth)?;
    again(|| read_back_text(alloc, &*map))
}

fn copy_nested(alloc: Global, depth: usize) -> Result<String> {
    let map = nested_index(alloc, depth)?;
    let copy = box_result(alloc, map.clone())?;
    text_beside(alloc, &*map, &*copy)
}

fn move_nested(alloc: Global, depth: usize) -> Result<String> {
    let value = wrap_often(alloc, depth)?.into_value();
    let made = read_value(alloc, value)?;
    let map = nested_index(alloc, depth)?;
    text_beside(alloc, &*map, &*made)
}

// How many sections occur in the `Debug` text of a map.
fn print_nested(alloc: Global, depth: usize) -> Result<String> {
    let map = nested_index(alloc, depth)?;
    let text = format!(in alloc; "{:?}", &*map)?;
    let count = text.split("SourceMapSection {").skip(1).count();
    owned_text(format!(in alloc; "{count}"))
}

#[test]
fn a_hundred_nested_index_maps_are_flattened_copied_and_read_back(rt: HostRuntime) -> Checked {
    let alloc = rt.alloc();
    check("flat", flatten_nested(alloc, 100), "a.js:0:0")?;
    check("copied", copy_nested(alloc, 100), "a.js:0:0 true")?;
    check("by values", read_back(alloc, 100), "a.js:0:0 true")?;
    check("moved", move_nested(alloc, 100), "a.js:0:0 true")?;
    check("printed", print_nested(alloc, 100), "100")
}

fn text_of_bytes(alloc: Global, map: &DecodedMap, bytes: &[u8]) -> Result<String> {
    match box_result(alloc, decode_slice(alloc, bytes)) {
        Ok(back) => text_beside(alloc, map, &*back),
        error => error_of(alloc, error),
    }
}

fn bytes_of(alloc: Global, map: &DecodedMap) -> Result<Vec<u8>> {
    let mut bytes = Vec::new(alloc);
    map.to_writer(&mut bytes)?;
    Ok(bytes)
}

fn write_nested(alloc: Global, depth: usize) -> Result<String> {
    let map = nested_index(alloc, depth)?;
    let bytes = bytes_of(alloc, &*map)?;
    text_of_bytes(alloc, &*map, bytes.as_slice())
}

// The number of nested index maps, and the result of decoding the JSON text written for them. The
// result is the text of the token at 0:0 and whether the decoded map equals the written map, or the
// error. Maps of any depth are written, but JSON text of more than 127 levels is not decoded.
static WRITTEN: [(usize, &str); 4] = [
    (20, "a.js:0:0 true"),
    (41, "a.js:0:0 true"),
    (42, "bad json: the text is not JSON"),
    (100, "bad json: the text is not JSON"),
];

#[test]
fn nested_index_maps_are_written_at_any_depth(rt: HostRuntime) -> Checked {
    let alloc = rt.alloc();
    for (depth, want) in WRITTEN.iter() {
        check(want, write_nested(alloc, *depth), want)?;
    }
    Ok(())
}
