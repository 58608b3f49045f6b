// Decoding of index maps from texts and data URLs, and its errors.
use sourcemap::decoder::{decode, decode_data_url, decode_slice, decode_vec};
use sourcemap::errors::Result;
use sourcemap::types::{DecodedMap, SourceMapIndex, SourceMapSection};
use sourcemap_test_support::checks::{Checked, check};
use sourcemap_test_support::readers::HaltingReader;
use sourcemap_test_support::results::{box_result, error_of, owned_text};
use std::alloc::Global;
use std::io::ErrorKind;

fn section_text(alloc: Global, section: &SourceMapSection) -> Result<String> {
    let held = match section.get_sourcemap() {
        None => "no map",
        Some(DecodedMap::Regular(_)) => "a map",
        Some(DecodedMap::Index(_)) => "an index",
        Some(DecodedMap::Hermes(_)) => "a Hermes map",
    };
    let (line, col) = section.get_offset();
    owned_text(format!(in alloc; "{line}:{col} {:?} {held};", section.get_url()))
}

/// Returns a text with the offset, the URL and the kind of map (or `no map`) of each section. The
/// error is `OutOfMemory`.
pub fn sections_text(alloc: Global, index: &SourceMapIndex) -> Result<String> {
    let mut out = String::new(alloc);
    for section in index.sections() {
        out.push_str(section_text(alloc, section)?.as_str())?;
    }
    Ok(out)
}

fn map_text(alloc: Global, map: &DecodedMap) -> Result<String> {
    match map {
        DecodedMap::Index(index) => sections_text(alloc, index),
        DecodedMap::Regular(_) => owned_text(String::from_str(alloc, "a regular map")),
        DecodedMap::Hermes(_) => owned_text(String::from_str(alloc, "a Hermes map")),
    }
}

fn describe(alloc: Global, answer: Result<DecodedMap>) -> Result<String> {
    match box_result(alloc, answer) {
        Ok(map) => map_text(alloc, &*map),
        error => error_of(alloc, error),
    }
}

// A text. Then the result of decoding it: the sections of an index map, the kind of any other map,
// or the error.
static TEXTS: [(&str, &str); 19] = [
    // Sections are sorted stably by offset.
    (
        concat!(
            r#"{"sections":[{"offset":{"line":10,"column":4},"url":"p"},{"offset":{"line":0,"#,
            r#""column":7},"url":"q"},{"offset":{"line":10,"column":4},"url":"r"},"#,
            r#"{"offset":{"line":10,"column":3},"map":{"sections":[]}}]}"#,
        ),
        r#"0:7 Some("q") no map;10:3 None an index;10:4 Some("p") no map;10:4 Some("r") no map;"#,
    ),
    (
        r#"{"sections":[{"offset":{"line":0,"column":0},"url":"u","map":{"mappings":"A"}}]}"#,
        r#"0:0 Some("u") a map;"#,
    ),
    // A map with `sections` is an index map, even if it also has `x_facebook_sources` or invalid
    // mappings. If `sections` is null, it counts as missing.
    (
        r#"{"sections":[],"x_facebook_sources":[],"mappings":"!"}"#,
        "",
    ),
    (r#"{"sections":null,"mappings":"A"}"#, "a regular map"),
    // A map that has `x_facebook_sources` but no `sections` is decoded as a Hermes map. The same
    // holds for the map of a section. If `x_facebook_sources` is null, it counts as missing.
    (
        r#"{"x_facebook_sources":[],"mappings":"A"}"#,
        "a Hermes map",
    ),
    (
        r#"{"x_facebook_sources":null,"mappings":"A"}"#,
        "a regular map",
    ),
    (
        concat!(
            r#"{"sections":[{"offset":{"line":0,"column":0},"map":{"x_facebook_sources":[null],"#,
            r#""mappings":"A"}},{"offset":{"line":1,"column":0},"map":{"sections":[]}}]}"#,
        ),
        "0:0 None a Hermes map;1:0 None an index;",
    ),
    (
        r#"{"x_facebook_sources":[],"mappings":"!"}"#,
        "invalid base64 character: !",
    ),
    // Scopes without `mappings` are an error. Scopes with invalid mappings are not.
    (
        r#"{"x_facebook_sources":[[{"names":["f"]}]],"mappings":"A"}"#,
        "bad json: a field has the wrong type",
    ),
    (
        r#"{"x_facebook_sources":[[{"names":["f"],"mappings":"!"}]],"mappings":"A"}"#,
        "a Hermes map",
    ),
    // If two sections have invalid mappings, decoding returns the error of the section that comes
    // first in the text, whatever the offsets are.
    (
        concat!(
            r#"{"sections":[{"offset":{"line":9,"column":0},"map":{"mappings":"!"}},"#,
            r#"{"offset":{"line":0,"column":0},"map":{"mappings":"AAAAAA"}}]}"#,
        ),
        "invalid base64 character: !",
    ),
    (
        concat!(
            r#"{"sections":[{"offset":{"line":9,"column":0},"map":{"mappings":"AAAAAA"}},"#,
            r#"{"offset":{"line":0,"column":0},"map":{"mappings":"!"}}]}"#,
        ),
        "got 6 segments, expected 4 or 5",
    ),
    (
        concat!(
            r#"{"sections":[{"offset":{"line":9,"column":0},"#,
            r#""map":{"sections":[{"offset":{"line":0,"column":0},"url":"u"},"#,
            r#"{"offset":{"line":0,"column":0},"map":{"mappings":"AAAA"}}]}},"#,
            r#"{"offset":{"line":0,"column":0},"map":{"mappings":"!"}}]}"#,
        ),
        "bad reference to source #0",
    ),
    (
        concat!(
            r#"{"sections":[{"offset":{"line":9,"column":0},"map":{"x_facebook_sources":[],"#,
            r#""mappings":"!"}},{"offset":{"line":0,"column":0},"map":{"mappings":"AAAAAA"}}]}"#,
        ),
        "invalid base64 character: !",
    ),
    (
        concat!(
            r#"{"sections":[{"offset":{"line":0,"column":0},"map":{"mappings":"AAAAAA"}},"#,
            r#"{"offset":{"line":1,"column":0},"map":{"x_facebook_sources":[],"#,
            r#""mappings":"!"}}]}"#,
        ),
        "got 6 segments, expected 4 or 5",
    ),
    // The fields of all sections are read before any mappings are decoded. So the error is for the
    // missing column of the second section, not for the invalid mappings of the first section.
    (
        r#"{"sections":[{"offset":{"line":0,"column":0},"map":{"mappings":"!"}},{"offset":{"line":1}}]}"#,
        "bad json: a field has the wrong type",
    ),
    (
        r#"{"sections":[{"offset":{"line":0,"column":4294967296}}]}"#,
        "bad json: a field has the wrong type",
    ),
    ("", "bad json: the text is not JSON"),
    ("[]", "bad json: a field has the wrong type"),
];

// A reader that returns these bytes one by one and is interrupted before each.
fn one_by_one(bytes: &[u8]) -> HaltingReader<'_> {
    HaltingReader::new(bytes, usize::MAX, ErrorKind::TimedOut)
}

fn read(alloc: Global, bytes: &[u8]) -> Result<String> {
    describe(alloc, decode_slice(alloc, bytes))
}

fn read_owned(alloc: Global, bytes: &[u8]) -> Result<String> {
    let bytes = Vec::from_slice(alloc, bytes)?;
    describe(alloc, decode_vec(alloc, bytes))
}

fn stream(alloc: Global, bytes: &[u8]) -> Result<String> {
    describe(alloc, decode(alloc, bytes))
}

fn stream_one_by_one(alloc: Global, bytes: &[u8]) -> Result<String> {
    describe(alloc, decode(alloc, one_by_one(bytes)))
}

#[test]
fn records_are_read_section_by_section(rt: HostRuntime) -> Checked {
    let alloc = rt.alloc();
    for (text, want) in TEXTS.iter() {
        check(text, read(alloc, text.as_bytes()), want)?;
        check(text, read_owned(alloc, text.as_bytes()), want)?;
        check(text, stream(alloc, text.as_bytes()), want)?;
        check(text, stream_one_by_one(alloc, text.as_bytes()), want)?;
    }
    Ok(())
}

fn index_text(alloc: Global, answer: Result<SourceMapIndex>) -> Result<String> {
    match box_result(alloc, answer) {
        Ok(index) => sections_text(alloc, &*index),
        error => error_of(alloc, error),
    }
}

// A text to decode as an index map. Then the text of the sections, or the text of the error.
static INDEXES: [(&str, &str); 8] = [
    (
        concat!(
            r#"{"sections":[{"offset":{"line":3,"column":0},"url":"p"},{"offset":{"line":1,"#,
            r#""column":2},"map":{"mappings":"A"}}]}"#,
        ),
        r#"1:2 None a map;3:0 Some("p") no map;"#,
    ),
    (r#"{"sections":[]}"#, ""),
    // If `sections` is missing or null and no field has a wrong type, the error is
    // `IncompatibleSourceMap`. The mappings are not decoded, so invalid mappings do not change the
    // error.
    (
        r#"{"mappings":"!"}"#,
        "encountered incompatible sourcemap format",
    ),
    (
        r#"{"x_facebook_sources":[],"mappings":"!"}"#,
        "encountered incompatible sourcemap format",
    ),
    (
        r#"{"sections":null,"mappings":"A"}"#,
        "encountered incompatible sourcemap format",
    ),
    (
        r#"{"sections":[{"offset":{"line":0,"column":0},"map":{"mappings":"!"}}]}"#,
        "invalid base64 character: !",
    ),
    (r#"{"sections":{}}"#, "bad json: a field has the wrong type"),
    ("", "bad json: the text is not JSON"),
];

fn read_index(alloc: Global, bytes: &[u8]) -> Result<String> {
    index_text(alloc, SourceMapIndex::from_slice(alloc, bytes))
}

fn stream_index(alloc: Global, bytes: &[u8]) -> Result<String> {
    index_text(alloc, SourceMapIndex::from_reader(alloc, bytes))
}

fn stream_index_one_by_one(alloc: Global, bytes: &[u8]) -> Result<String> {
    index_text(alloc, SourceMapIndex::from_reader(alloc, one_by_one(bytes)))
}

#[test]
fn indexes_alone_are_read(rt: HostRuntime) -> Checked {
    let alloc = rt.alloc();
    for (text, want) in INDEXES.iter() {
        check(text, read_index(alloc, text.as_bytes()), want)?;
        check(text, stream_index(alloc, text.as_bytes()), want)?;
        check(text, stream_index_one_by_one(alloc, text.as_bytes()), want)?;
    }
    Ok(())
}

// A data URL. Then the text of the sections of its index map, or the text of the error.
static URLS: [(&str, &str); 2] = [
    (
        "data:application/json;base64,eyJzZWN0aW9ucyI6W3sib2Zmc2V0Ijp7ImxpbmUiOjEsImNvbHVtbiI6Mn0sInVybCI6InUifV19",
        r#"1:2 Some("u") no map;"#,
    ),
    (
        "data:application/json;charset=latin1;base64,e30=",
        "the provided data URL is invalid",
    ),
];

#[test]
fn data_urls_are_read(rt: HostRuntime) -> Checked {
    let alloc = rt.alloc();
    for (url, want) in URLS.iter() {
        check(url, describe(alloc, decode_data_url(alloc, url)), want)?;
    }
    Ok(())
}
