// Comparison of maps with one another and with their copies.
use crate::maps::{index_of, map_of};
use crate::samples::{BUNDLE, HERMES, LINKED, NEITHER, NESTED, TWO};
use sourcemap::errors::Result;
use sourcemap::types::{DecodedMap, SourceMapIndex, SourceMapSection};
use sourcemap_test_support::checks::{Checked, check};
use sourcemap_test_support::results::{box_result, owned_text};
use std::alloc::Global;

fn equals_copy(alloc: Global, map: &DecodedMap) -> Result<bool> {
    Ok(*box_result(alloc, map.clone())? == *map)
}

fn equals(alloc: Global, map: &DecodedMap, other: &str) -> Result<bool> {
    Ok(*map == *map_of(alloc, other)?)
}

fn compare_maps(alloc: Global, text: &str, other: &str) -> Result<String> {
    let map = map_of(alloc, text)?;
    let copied = equals_copy(alloc, &*map)?;
    let same = equals(alloc, &*map, other)?;
    owned_text(format!(in alloc; "{copied} {same}"))
}

// Two maps, whether the first equals its copy, and whether the two are equal.
static COMPARED: [(&str, &str, &str); 7] = [
    (NESTED, NESTED, "true true"),
    (LINKED, NEITHER, "true false"),
    (BUNDLE, r#"{"sections":[]}"#, "true false"),
    (r#"{"sections":[]}"#, r#"{"mappings":""}"#, "true false"),
    (HERMES, HERMES, "true true"),
    (
        r#"{"mappings":"","x_facebook_sources":[]}"#,
        r#"{"mappings":"","x_facebook_sources":[null]}"#,
        "true false",
    ),
    (
        r#"{"mappings":"","x_facebook_sources":[]}"#,
        r#"{"mappings":""}"#,
        "true false",
    ),
];

#[test]
fn copies_are_equal(rt: HostRuntime) -> Checked {
    let alloc = rt.alloc();
    for (text, other, want) in COMPARED.iter() {
        check(text, compare_maps(alloc, text, other), want)?;
    }
    Ok(())
}

// An index map and its first section are copied, and each copy is compared with its original.

fn index_equals_copy(alloc: Global, index: &SourceMapIndex) -> Result<bool> {
    Ok(*box_result(alloc, index.clone())? == *index)
}

fn section_equals_copy(alloc: Global, section: Option<&SourceMapSection>) -> Result<bool> {
    match section {
        None => Ok(false),
        Some(section) => Ok(*box_result(alloc, section.clone())? == *section),
    }
}

fn copy_parts(alloc: Global, text: &str) -> Result<String> {
    let index = index_of(alloc, text)?;
    let index_copied = index_equals_copy(alloc, &*index)?;
    let section_copied = section_equals_copy(alloc, index.get_section(0))?;
    owned_text(format!(in alloc; "{index_copied} {section_copied}"))
}

static COPIED: [&str; 5] = [TWO, LINKED, NEITHER, NESTED, HERMES];

#[test]
fn copies_of_indexes_and_sections_are_equal(rt: HostRuntime) -> Checked {
    let alloc = rt.alloc();
    for text in COPIED.iter() {
        check(text, copy_parts(alloc, text), "true true")?;
    }
    Ok(())
}
