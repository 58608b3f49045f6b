// Tests of Hermes maps. A Hermes map is decoded on its own or as the map of a section.
use crate::debug_ids::id_text;
use crate::maps::{map_of, value_text};
use serde_json::Value;
use sourcemap::errors::Result;
use sourcemap::types::DecodedMap;
use sourcemap::{SourceMap, SourceMapHermes};
use sourcemap_test_support::checks::{Checked, check};
use sourcemap_test_support::results::{error_of, owned_text};
use std::alloc::Global;

const TWO_FUNCTIONS: &str = concat!(
    r#"{"version":3,"sources":["a.js"],"mappings":"AAAA,KACK","#,
    r#""x_facebook_sources":[[{"names":["<global>","foo"],"mappings":"AAA,KCC"}]]}"#,
);

const IN_SECTION: &str = concat!(
    r#"{"sections":[{"offset":{"line":4,"column":9},"map":{"version":3,"sources":["a.js"],"#,
    r#""mappings":"AAAA,KACK","x_facebook_sources":[[{"names":["<global>","foo"],"#,
    r#""mappings":"AAA,KCC"}]]}}]}"#,
);

const SECOND_SOURCE: &str = concat!(
    r#"{"mappings":"ACAA","names":[],"sources":["a.js","b.js"],"version":3,"#,
    r#""x_facebook_sources":[null,[{"mappings":"AAA","names":["f"]}]]}"#,
);

const SHORT: &str =
    r#"{"mappings":"ACAA","names":[],"sources":["a.js","b.js"],"version":3,"x_facebook_sources":[]}"#;

const LAST_LINE: &str = concat!(
    r#"{"mappings":"AADA","names":[],"sources":["a.js"],"version":3,"#,
    r#""x_facebook_sources":[[{"mappings":"AAA","names":["f"]}]]}"#,
);

const BROKEN: &str = concat!(
    r#"{"mappings":"AAAA","names":[],"sources":["a.js"],"version":3,"#,
    r#""x_facebook_sources":[[{"mappings":"AAA,!","names":["f"]}]]}"#,
);

// If `map` is a Hermes map, returns this Hermes map. If `map` is an index map, returns the Hermes
// map of the first section. Returns `None` if there is no such Hermes map.
fn hermes_in(map: &DecodedMap) -> Option<&SourceMapHermes> {
    match map {
        DecodedMap::Hermes(map) => Some(map),
        DecodedMap::Index(index) => match index.get_section(0)?.get_sourcemap()? {
            DecodedMap::Hermes(map) => Some(map),
            _ => None,
        },
        DecodedMap::Regular(_) => None,
    }
}

fn name_text(map: &DecodedMap, offset: u32) -> &str {
    match hermes_in(map) {
        Some(map) => map.get_original_function_name(offset).unwrap_or("none"),
        None => "no Hermes map",
    }
}

fn name_at(alloc: Global, text: &str, offset: u32) -> Result<String> {
    let map = map_of(alloc, text)?;
    owned_text(String::from_str(alloc, name_text(&*map, offset)))
}

// A map, a bytecode offset, and the name of the function at this offset, or `none`. For an index
// map, the offset is a bytecode offset in the map of the first section.
static NAMES: [(&str, u32, &str); 8] = [
    (TWO_FUNCTIONS, 0, "<global>"),
    (TWO_FUNCTIONS, 7, "foo"),
    (IN_SECTION, 0, "<global>"),
    (IN_SECTION, 7, "foo"),
    (SECOND_SOURCE, 0, "f"),
    (SHORT, 0, "none"),
    (LAST_LINE, 0, "f"),
    (BROKEN, 0, "none"),
];

#[test]
fn functions_of_a_decoded_map_have_names(rt: HostRuntime) -> Checked {
    let alloc = rt.alloc();
    for (text, offset, want) in NAMES.iter() {
        check(text, name_at(alloc, text, *offset), want)?;
    }
    Ok(())
}

fn value_of(alloc: Global, text: &str) -> Result<Value> {
    map_of(alloc, text)?.to_value()
}

fn read_back(alloc: Global, value: &Value) -> Result<Value> {
    DecodedMap::from_value(alloc, value)?.into_value()
}

// Decodes a text, and writes the map as a JSON value. Then reads the JSON value back, and returns
// the JSON text of the map that was read back.
fn read_back_text(alloc: Global, text: &str) -> Result<String> {
    let value = value_of(alloc, text)?;
    value_text(alloc, read_back(alloc, &value))
}

static WRITTEN: [&str; 3] = [SECOND_SOURCE, SHORT, BROKEN];

#[test]
fn scopes_are_written_as_they_were_read(rt: HostRuntime) -> Checked {
    let alloc = rt.alloc();
    for text in WRITTEN.iter() {
        check(text, read_back_text(alloc, text), text)?;
    }
    Ok(())
}

// Removes the debug id of a map. Returns the debug id before and after the removal (`none` if there
// is no debug id), and the name of the function at bytecode offset 0 after the removal.
fn ids_text(alloc: Global, map: &mut DecodedMap) -> Result<String> {
    let old = id_text(alloc, map)?;
    map.set_debug_id(None);
    let new = id_text(alloc, map)?;
    owned_text(format!(in alloc; "{old} {new} {}", name_text(map, 0)))
}

fn ids(alloc: Global, text: &str) -> Result<String> {
    ids_text(alloc, &mut *map_of(alloc, text)?)
}

#[test]
fn debug_ids_of_hermes_maps_are_set(rt: HostRuntime) -> Checked {
    let text = concat!(
        r#"{"sources":["a.js"],"mappings":"AAAA","debugId":"00000000-0000-0000-0000-0000000"#,
        r#"00000","x_facebook_sources":[[{"names":["f"],"mappings":"AAA"}]]}"#,
    );
    let want = "00000000-0000-0000-0000-000000000000 none f";
    check(text, ids(rt.alloc(), text), want)
}

// The errors of reading a text as a regular map and as a Hermes map.
fn kinds(alloc: Global, text: &str) -> Result<String> {
    let regular = error_of(alloc, SourceMap::from_slice(alloc, text.as_bytes()))?;
    let hermes = error_of(alloc, SourceMapHermes::from_slice(alloc, text.as_bytes()))?;
    owned_text(format!(in alloc; "{regular}; {hermes}"))
}

// A text, and the errors of reading the text as a regular map and as a Hermes map.
static KINDS: [(&str, &str); 3] = [
    (SHORT, "encountered incompatible sourcemap format; no error"),
    (
        r#"{"mappings":""}"#,
        "no error; encountered incompatible sourcemap format",
    ),
    (
        IN_SECTION,
        "encountered incompatible sourcemap format; encountered incompatible sourcemap format",
    ),
];

#[test]
fn each_kind_is_decoded_by_its_own_reader(rt: HostRuntime) -> Checked {
    let alloc = rt.alloc();
    for (text, want) in KINDS.iter() {
        check(text, kinds(alloc, text), want)?;
    }
    Ok(())
}
