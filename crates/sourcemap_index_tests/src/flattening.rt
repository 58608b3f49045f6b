// Flattening of index maps, also with rewriting of the flat map.
use crate::maps::{index_of, record_text};
use crate::samples::{BUNDLE, HERMES, LINKED, NEITHER, NESTED, TWO};
use sourcemap::errors::Result;
use sourcemap::types::{RewriteOptions, SourceMap};
use sourcemap_test_support::checks::{Checked, check};
use sourcemap_test_support::results::{again, error_of};
use std::alloc::Global;
use std::rt::Files;

const PAST_THE_END: &str =
    r#"{"sections":[{"offset":{"line":4294967295,"column":0},"map":{"sources":["a.js"],"mappings":";AAAA"}}]}"#;

// Two sections whose maps have the same source, with different contents.
const SHARED: &str = concat!(
    r#"{"sections":[{"offset":{"line":0,"column":0},"map":{"sources":["a.js"],"#,
    r#""sourcesContent":["x"],"mappings":"AAAA"}},{"offset":{"line":1,"column":0},"#,
    r#""map":{"sources":["a.js"],"sourcesContent":["y"],"mappings":"AAAA","#,
    r#""ignoreList":[0]}}]}"#,
);

// The column of a section's offset moves only the tokens on the first line of the section.
const INDENTED: &str =
    r#"{"sections":[{"offset":{"line":10,"column":4},"map":{"sources":["a.js"],"mappings":"AAAA;AAAA"}}]}"#;

// Neither section can be flattened. `flatten` returns the error for the first section.
const PAST_THE_COLUMNS: &str = concat!(
    r#"{"sections":[{"offset":{"line":0,"column":4294967295},"map":{"sources":["a.js"],"#,
    r#""mappings":"CAAA"}},{"offset":{"line":1,"column":0}}]}"#,
);

fn map_text(alloc: Global, map: Result<SourceMap>) -> Result<String> {
    match map {
        Ok(map) => record_text(alloc, map.into_raw_sourcemap()),
        error => error_of(alloc, error),
    }
}

fn flat(alloc: Global, text: &str) -> Result<String> {
    let index = index_of(alloc, text)?;
    again(|| map_text(alloc, index.flatten()))
}

// Each row: an index map, and what `flatten` returns: a map or an error.
static FLAT: [(&str, &str); 13] = [
    (
        TWO,
        r#"{"mappings":"AAAA;;;;;;;;;;ICAA","names":[],"sources":["a.js","b.js"],"version":3}"#,
    ),
    (
        PAST_THE_END,
        "cannot flatten the indexed sourcemap: a position passes 4294967295",
    ),
    (
        SHARED,
        r#"{"ignoreList":[0],"mappings":"AAAA;AAAA","names":[],"sources":["a.js"],"sourcesContent":["y"],"version":3}"#,
    ),
    (
        INDENTED,
        r#"{"mappings":";;;;;;;;;;IAAA;AAAA","names":[],"sources":["a.js"],"version":3}"#,
    ),
    (
        PAST_THE_COLUMNS,
        "cannot flatten the indexed sourcemap: a position passes 4294967295",
    ),
    (
        LINKED,
        "cannot flatten the indexed sourcemap: Section has an unresolved sourcemap: u",
    ),
    (
        NEITHER,
        "cannot flatten the indexed sourcemap: Section has an unresolved sourcemap: <unknown url>",
    ),
    (
        NESTED,
        concat!(
            r#"{"file":"f","ignoreList":[0],"mappings":";;IAAAA;AAAA","names":["n"],"#,
            r#""sources":["r/a.js"],"sourcesContent":["x"],"version":3}"#,
        ),
    ),
    // In a nested index map, tokens after the first line keep their column.
    (
        concat!(
            r#"{"sections":[{"offset":{"line":2,"column":3},"#,
            r#""map":{"sections":[{"offset":{"line":1,"column":0},"map":{"sources":["a.js"],"#,
            r#""mappings":"AAAA"}}]}}]}"#,
        ),
        r#"{"mappings":";;;AAAA","names":[],"sources":["a.js"],"version":3}"#,
    ),
    // Neither section can be flattened. The error returned is from the nested index map of the
    // first section.
    (
        concat!(
            r#"{"sections":[{"offset":{"line":0,"column":0},"#,
            r#""map":{"sections":[{"offset":{"line":0,"column":0},"url":"inner"}]}},"#,
            r#"{"offset":{"line":1,"column":0},"url":"outer"}]}"#,
        ),
        "cannot flatten the indexed sourcemap: Section has an unresolved sourcemap: inner",
    ),
    // The nested index map has a token on line 4294967295, the last line. The section that holds
    // the nested index map starts on line 1. Flattening returns an error, because the token would
    // move past the last line.
    (
        concat!(
            r#"{"sections":[{"offset":{"line":1,"column":0},"#,
            r#""map":{"sections":[{"offset":{"line":4294967295,"column":0},"#,
            r#""map":{"sources":["a.js"],"mappings":"AAAA"}}]}}]}"#,
        ),
        "cannot flatten the indexed sourcemap: a position passes 4294967295",
    ),
    (
        BUNDLE,
        r#"{"mappings":"","names":[],"sources":[],"version":3}"#,
    ),
    (
        HERMES,
        r#"{"mappings":"AAAA;ECAA;AAAA","names":[],"sources":["a.js","b.js"],"version":3}"#,
    ),
];

#[test]
fn index_maps_are_flattened(rt: HostRuntime) -> Checked {
    let alloc = rt.alloc();
    for (text, want) in FLAT.iter() {
        check(text, flat(alloc, text), want)?;
    }
    Ok(())
}

fn rewrite_flat<F: Files>(
    rt: &F,
    alloc: Global,
    text: &str,
    options: &RewriteOptions<'_>,
) -> Result<String> {
    let index = Box::into_inner(index_of(alloc, text)?);
    map_text(alloc, index.flatten_and_rewrite(rt, options))
}

const UNUSED: &str = concat!(
    r#"{"sections":[{"offset":{"line":0,"column":0},"map":{"sources":["x.js","a.js"],"#,
    r#""sourcesContent":["x","y"],"mappings":"ACAA"}}]}"#,
);

// Each row: an index map, whether names are kept, whether contents are loaded from files, and what
// `flatten_and_rewrite` returns: a map or an error.
static REWRITTEN: [(&str, bool, bool, &str); 6] = [
    (
        TWO,
        true,
        false,
        r#"{"mappings":"AAAA;;;;;;;;;;ICAA","names":[],"sources":["a.js","b.js"],"version":3}"#,
    ),
    (
        UNUSED,
        true,
        false,
        r#"{"mappings":"AAAA","names":[],"sources":["a.js"],"sourcesContent":["y"],"version":3}"#,
    ),
    (
        NESTED,
        true,
        false,
        concat!(
            r#"{"file":"f","mappings":";;IAAAA;AAAA","names":["n"],"sources":["r/a.js"],"#,
            r#""sourcesContent":["x"],"version":3}"#,
        ),
    ),
    (
        NESTED,
        false,
        false,
        r#"{"file":"f","mappings":";;IAAA;AAAA","names":[],"sources":["r/a.js"],"sourcesContent":["x"],"version":3}"#,
    ),
    // The index map cannot be flattened, and the options are invalid. The error of flattening is
    // returned.
    (
        LINKED,
        true,
        true,
        "cannot flatten the indexed sourcemap: Section has an unresolved sourcemap: u",
    ),
    (TWO, true, true, "invalid input parameter"),
];

#[test]
fn flat_maps_are_rewritten(rt: HostRuntime) -> Checked {
    let alloc = rt.alloc();
    for (text, with_names, load_contents, want) in REWRITTEN.iter() {
        let options = RewriteOptions {
            with_names: *with_names,
            load_local_source_contents: *load_contents,
            ..RewriteOptions::default()
        };
        let got = rewrite_flat(&rt, alloc, text, &options);
        check(text, got, want)?;
    }
    Ok(())
}
