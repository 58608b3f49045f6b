// Tests of the debug id of an index map. They decode the id from `debugId` or `debug_id`, set it,
// remove it and write it.
use crate::changes::index_of_file;
use crate::maps::{map_of, value_text};
use sourcemap::errors::Result;
use sourcemap::jsontypes::DebugId;
use sourcemap::types::DecodedMap;
use sourcemap_test_support::checks::{Checked, check};
use sourcemap_test_support::results::{box_result, error_of, owned_text, text_or_none};
use std::alloc::Global;

const ID: &str = "0123456789abcdef0123456789abcdef";

/// The debug id of a map.
pub fn id_text(alloc: Global, map: &DecodedMap) -> Result<String> {
    text_or_none(alloc, map.debug_id())
}

// The debug id of a map, and the text that the map is written as.
fn id_and_text(alloc: Global, map: &DecodedMap) -> Result<String> {
    let id = id_text(alloc, map)?;
    let text = value_text(alloc, map.to_value())?;
    owned_text(format!(in alloc; "{id} {text}"))
}

fn read(alloc: Global, text: &str) -> Result<String> {
    match map_of(alloc, text) {
        Ok(map) => id_and_text(alloc, &*map),
        error => error_of(alloc, error),
    }
}

const BOTH: &str = concat!(
    r#"{"sections":[],"debug_id":"11111111-1111-1111-1111-111111111111","#,
    r#""debugId":"00000000-0000-0000-0000-000000000000"}"#,
);

// The text of an index map. Then its debug id and the text that it is written as, or the error.
static READ: [(&str, &str); 8] = [
    (
        r#"{"sections":[]}"#,
        r#"none {"sections":[],"sources":null,"version":3}"#,
    ),
    // An id under `debugId` or `debug_id` is written under `debugId`, with hyphens.
    (
        r#"{"sections":[],"debugId":"0123456789abcdef0123456789abcdef"}"#,
        concat!(
            r#"01234567-89ab-cdef-0123-456789abcdef {"debugId":"01234567-89ab-cdef-0123-456789a"#,
            r#"bcdef","sections":[],"sources":null,"version":3}"#,
        ),
    ),
    (
        r#"{"sections":[],"debug_id":"0123456789abcdef0123456789abcdef"}"#,
        concat!(
            r#"01234567-89ab-cdef-0123-456789abcdef {"debugId":"01234567-89ab-cdef-0123-456789a"#,
            r#"bcdef","sections":[],"sources":null,"version":3}"#,
        ),
    ),
    // `debugId` wins over `debug_id`, in any order of the keys.
    (
        BOTH,
        concat!(
            r#"00000000-0000-0000-0000-000000000000 {"debugId":"00000000-0000-0000-0000-0000000"#,
            r#"00000","sections":[],"sources":null,"version":3}"#,
        ),
    ),
    (
        concat!(
            r#"{"debugId":"00000000-0000-0000-0000-000000000000","#,
            r#""debug_id":"11111111-1111-1111-1111-111111111111","sections":[]}"#,
        ),
        concat!(
            r#"00000000-0000-0000-0000-000000000000 {"debugId":"00000000-0000-0000-0000-0000000"#,
            r#"00000","sections":[],"sources":null,"version":3}"#,
        ),
    ),
    // A key with the value null counts as missing.
    (
        r#"{"sections":[],"debug_id":"11111111-1111-1111-1111-111111111111","debugId":null}"#,
        concat!(
            r#"11111111-1111-1111-1111-111111111111 {"debugId":"11111111-1111-1111-1111-1111111"#,
            r#"11111","sections":[],"sources":null,"version":3}"#,
        ),
    ),
    // Both keys are read, so an invalid id under either key is an error.
    (
        r#"{"sections":[],"debugId":"0123456789abcdef"}"#,
        "bad json: a field has the wrong type",
    ),
    (
        r#"{"sections":[],"debug_id":"x","debugId":"00000000-0000-0000-0000-000000000000"}"#,
        "bad json: a field has the wrong type",
    ),
];

#[test]
fn debug_ids_of_indexes_are_read(rt: HostRuntime) -> Checked {
    let alloc = rt.alloc();
    for (text, want) in READ.iter() {
        check(text, read(alloc, text), want)?;
    }
    Ok(())
}

fn text_with(alloc: Global, map: &mut DecodedMap, id: Option<&str>) -> Result<String> {
    map.set_debug_id(id.and_then(|id| DebugId::parse(id)));
    id_and_text(alloc, map)
}

fn set(alloc: Global, text: &str, id: Option<&str>) -> Result<String> {
    text_with(alloc, &mut *map_of(alloc, text)?, id)
}

// The text of an index map, the debug id to set in the decoded map (`None` to remove the debug id),
// and the wanted result: the new debug id and the JSON text of the changed map.
static SET: [(&str, Option<&str>, &str); 4] = [
    (
        r#"{"sections":[],"file":"test.js"}"#,
        Some(ID),
        concat!(
            r#"01234567-89ab-cdef-0123-456789abcdef {"debugId":"01234567-89ab-cdef-0123-456789a"#,
            r#"bcdef","file":"test.js","sections":[],"sources":null,"version":3}"#,
        ),
    ),
    (
        BOTH,
        Some(ID),
        concat!(
            r#"01234567-89ab-cdef-0123-456789abcdef {"debugId":"01234567-89ab-cdef-0123-456789a"#,
            r#"bcdef","sections":[],"sources":null,"version":3}"#,
        ),
    ),
    (
        BOTH,
        None,
        r#"none {"sections":[],"sources":null,"version":3}"#,
    ),
    // A section's map keeps its own debug id.
    (
        concat!(
            r#"{"debugId":"00000000-0000-0000-0000-000000000000","#,
            r#""sections":[{"offset":{"line":0,"column":0},"map":{"sections":[],"#,
            r#""debugId":"11111111-1111-1111-1111-111111111111"}}]}"#,
        ),
        None,
        concat!(
            r#"none {"sections":[{"map":{"debugId":"11111111-1111-1111-1111-111111111111","#,
            r#""sections":[],"sources":null,"version":3},"offset":{"column":0,"line":0},"#,
            r#""url":null}],"sources":null,"version":3}"#,
        ),
    ),
];

#[test]
fn debug_ids_of_indexes_are_set(rt: HostRuntime) -> Checked {
    let alloc = rt.alloc();
    for (text, id, want) in SET.iter() {
        check(text, set(alloc, text, *id), want)?;
    }
    Ok(())
}

fn empty_index(alloc: Global) -> Result<Box<DecodedMap>> {
    let index = index_of_file(alloc, Vec::new(alloc))?;
    box_result(alloc, Ok(DecodedMap::Index(index)))
}

// Sets the debug id of an index map that was made from parts. Returns whether the map had no debug
// id before, whether the map now equals the map decoded from `text`, and whether the debug id of
// the map is now `ID`.
fn made_text(alloc: Global, map: &mut DecodedMap) -> Result<String> {
    let had_none = map.debug_id().is_none();
    map.set_debug_id(DebugId::parse(ID));
    let text =
        r#"{"version":3,"file":"test.js","sections":[],"debugId":"0123456789abcdef0123456789abcdef"}"#;
    let is_read = *map == *map_of(alloc, text)?;
    let has_it = map.debug_id() == DebugId::parse(ID);
    owned_text(format!(in alloc; "{had_none} {is_read} {has_it}"))
}

fn empty_index_text(alloc: Global) -> Result<String> {
    made_text(alloc, &mut *empty_index(alloc)?)
}

#[test]
fn indexes_that_are_made_get_debug_ids(rt: HostRuntime) -> Checked {
    check("made", empty_index_text(rt.alloc()), "true true true")
}
