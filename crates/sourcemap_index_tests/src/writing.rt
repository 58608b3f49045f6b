// Writing of index maps to JSON values, records and bytes.
use crate::maps::{index_of, map_of, record_text, value_text};
use crate::samples::{BUNDLE, HERMES, LINKED};
use sourcemap::errors::{Error, Result};
use sourcemap_test_support::checks::{Checked, check};
use sourcemap_test_support::results::again;
use std::alloc::Global;

fn write_text(alloc: Global, text: &str) -> Result<String> {
    let map = map_of(alloc, text)?;
    again(|| value_text(alloc, map.to_value()))
}

fn into_value_text(alloc: Global, text: &str) -> Result<String> {
    value_text(alloc, Box::into_inner(map_of(alloc, text)?).into_value())
}

fn into_record_text(alloc: Global, text: &str) -> Result<String> {
    let index = Box::into_inner(index_of(alloc, text)?);
    record_text(alloc, index.into_raw_sourcemap())
}

fn text_of(bytes: Vec<u8>) -> Result<String> {
    match String::from_utf8(bytes) {
        Ok(text) => Ok(text),
        Err(_) => Err(Error::IncompatibleSourceMap),
    }
}

fn to_writer_text(alloc: Global, text: &str) -> Result<String> {
    let map = map_of(alloc, text)?;
    let mut bytes = Vec::new(alloc);
    map.to_writer(&mut bytes)?;
    text_of(bytes)
}

fn index_to_writer_text(alloc: Global, text: &str) -> Result<String> {
    let index = index_of(alloc, text)?;
    let mut bytes = Vec::new(alloc);
    index.to_writer(&mut bytes)?;
    text_of(bytes)
}

// Each row: the text of an index map, and the text written for the decoded index map.
static WRITTEN: [(&str, &str); 9] = [
    (
        r#"{"sections":[],"debugId":"0123456789abcdef0123456789abcdef"}"#,
        r#"{"debugId":"01234567-89ab-cdef-0123-456789abcdef","sections":[],"sources":null,"version":3}"#,
    ),
    (
        BUNDLE,
        r#"{"sections":[],"sources":null,"version":3,"x_facebook_offsets":[5,null],"x_metro_module_paths":["a.js"]}"#,
    ),
    // An index map may have two lists of a RAM bundle, `x_facebook_offsets` and
    // `x_metro_module_paths`. Each list that it has is written, even if the list is empty. The same
    // holds for an index map in a section.
    (
        r#"{"sections":[],"x_facebook_offsets":[]}"#,
        r#"{"sections":[],"sources":null,"version":3,"x_facebook_offsets":[]}"#,
    ),
    (
        concat!(
            r#"{"sections":[{"offset":{"line":0,"column":0},"map":{"sections":[],"#,
            r#""x_facebook_offsets":[5,null],"x_metro_module_paths":["a.js"]}}],"#,
            r#""x_metro_module_paths":["b.js"]}"#,
        ),
        concat!(
            r#"{"sections":[{"map":{"sections":[],"sources":null,"version":3,"#,
            r#""x_facebook_offsets":[5,null],"x_metro_module_paths":["a.js"]},"#,
            r#""offset":{"column":0,"line":0},"url":null}],"sources":null,"version":3,"#,
            r#""x_metro_module_paths":["b.js"]}"#,
        ),
    ),
    // `x_facebook_offsets` and `x_metro_module_paths` of a regular map or a Hermes map are not
    // written.
    (
        concat!(
            r#"{"sections":[{"offset":{"line":0,"column":0},"map":{"mappings":"A","#,
            r#""x_facebook_offsets":[5],"x_metro_module_paths":["a.js"]}},{"offset":{"line":1,"#,
            r#""column":0},"map":{"mappings":"A","x_facebook_offsets":[5],"#,
            r#""x_metro_module_paths":["a.js"],"x_facebook_sources":[]}}]}"#,
        ),
        concat!(
            r#"{"sections":[{"map":{"mappings":"A","names":[],"sources":[],"version":3},"#,
            r#""offset":{"column":0,"line":0},"url":null},{"map":{"mappings":"A","names":[],"#,
            r#""sources":[],"version":3,"x_facebook_sources":[]},"offset":{"column":0,"#,
            r#""line":1},"url":null}],"sources":null,"version":3}"#,
        ),
    ),
    (
        LINKED,
        r#"{"sections":[{"map":null,"offset":{"column":4,"line":1},"url":"u"}],"sources":null,"version":3}"#,
    ),
    (
        r#"{"sections":[{"offset":{"line":0,"column":1},"map":{"mappings":"A"}}],"file":"f"}"#,
        concat!(
            r#"{"file":"f","sections":[{"map":{"mappings":"A","names":[],"sources":[],"#,
            r#""version":3},"offset":{"column":1,"line":0},"url":null}],"sources":null,"#,
            r#""version":3}"#,
        ),
    ),
    (
        concat!(
            r#"{"sections":[{"offset":{"line":2,"column":0},"url":"u","map":{"sections":[],"#,
            r#""debugId":"0123456789abcdef0123456789abcdef"}}],"sourceRoot":"r"}"#,
        ),
        concat!(
            r#"{"sections":[{"map":{"debugId":"01234567-89ab-cdef-0123-456789abcdef","#,
            r#""sections":[],"sources":null,"version":3},"offset":{"column":0,"line":2},"#,
            r#""url":"u"}],"sources":null,"version":3}"#,
        ),
    ),
    (
        HERMES,
        concat!(
            r#"{"sections":[{"map":{"mappings":"AAAA","names":[],"sources":["a.js"],"#,
            r#""version":3},"offset":{"column":0,"line":0},"url":null},"#,
            r#"{"map":{"mappings":"AAAA;AAAA","names":[],"sources":["b.js"],"version":3,"#,
            r#""x_facebook_sources":[[{"mappings":"AAA","names":["f"]}],null]},"#,
            r#""offset":{"column":2,"line":1},"url":null}],"sources":null,"version":3}"#,
        ),
    ),
];

#[test]
fn indexes_are_written(rt: HostRuntime) -> Checked {
    let alloc = rt.alloc();
    for (text, want) in WRITTEN.iter() {
        check(text, write_text(alloc, text), want)?;
        check(text, into_value_text(alloc, text), want)?;
        check(text, into_record_text(alloc, text), want)?;
        check(text, to_writer_text(alloc, text), want)?;
        check(text, index_to_writer_text(alloc, text), want)?;
    }
    Ok(())
}
