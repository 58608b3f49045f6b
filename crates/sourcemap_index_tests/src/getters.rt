// Getters of index maps.
use crate::debug_ids::id_text;
use crate::maps::map_of;
use sourcemap::errors::{Error, Result};
use sourcemap::types::{DecodedMap, SourceMapIndex};
use sourcemap_test_support::checks::{Checked, check};
use sourcemap_test_support::results::owned_text;
use std::alloc::Global;

const FULL: &str = concat!(
    r#"{"version":3,"file":"out.js","debugId":"0123456789abcdef0123456789abcdef","#,
    r#""x_facebook_offsets":[5,null],"x_metro_module_paths":["a.js"],"#,
    r#""sections":[{"offset":{"line":2,"column":0},"map":{"mappings":""}},"#,
    r#"{"offset":{"line":1,"column":4},"url":"u"}]}"#,
);

// Sections that are not sorted by offset.
const UNSORTED: &str = concat!(
    r#"{"sections":[{"offset":{"line":10,"column":4},"map":{"sources":["b.js"],"#,
    r#""mappings":"AAAA"}},{"offset":{"line":0,"column":0},"url":"u"}]}"#,
);

// Which getter a row of `ANSWERS` calls.
#[derive(Clone, Copy)]
enum Getter {
    Parts,
    Lists,
    DebugId,
    // the section of this number
    Section(u32),
}

fn parts_as_text(alloc: Global, index: &SourceMapIndex) -> Result<String> {
    let counts = (index.get_section_count(), index.sections().count());
    owned_text(format!(in alloc; "{:?} {counts:?}", index.get_file()))
}

/// The offsets and module paths of an index map, and whether it is for a RAM bundle.
pub fn lists_text(alloc: Global, index: &SourceMapIndex) -> Result<String> {
    let offsets = index.x_facebook_offsets();
    let paths = index.x_metro_module_paths();
    owned_text(format!(in alloc; "{offsets:?} {paths:?} {}", index.is_for_ram_bundle()))
}

fn section_text(alloc: Global, index: &SourceMapIndex, id: u32) -> Result<String> {
    let Some(section) = index.get_section(id) else {
        return owned_text(String::from_str(alloc, "none"));
    };
    let line = section.get_offset_line();
    let col = section.get_offset_col();
    let has_map = section.get_sourcemap().is_some();
    owned_text(format!(in alloc;
        "{line} {col} {:?} {:?} {has_map}",
        section.get_offset(),
        section.get_url()
    ))
}

fn describe(alloc: Global, map: &DecodedMap, getter: Getter) -> Result<String> {
    let DecodedMap::Index(index) = map else {
        return Err(Error::IncompatibleSourceMap);
    };
    match getter {
        Getter::Parts => parts_as_text(alloc, index),
        Getter::Lists => lists_text(alloc, index),
        Getter::DebugId => id_text(alloc, map),
        Getter::Section(id) => section_text(alloc, index, id),
    }
}

fn answer(alloc: Global, text: &str, getter: Getter) -> Result<String> {
    describe(alloc, &*map_of(alloc, text)?, getter)
}

// An index map, a getter, and its result.
static ANSWERS: [(&str, Getter, &str); 13] = [
    (FULL, Getter::Parts, r#"Some("out.js") (2, 2)"#),
    (
        FULL,
        Getter::Lists,
        r#"Some([Some(5), None]) Some(["a.js"]) true"#,
    ),
    (
        FULL,
        Getter::DebugId,
        "01234567-89ab-cdef-0123-456789abcdef",
    ),
    (FULL, Getter::Section(0), r#"1 4 (1, 4) Some("u") false"#),
    (FULL, Getter::Section(1), "2 0 (2, 0) None true"),
    (FULL, Getter::Section(2), "none"),
    // Sections are numbered in the order of their offsets, not in their order in the text.
    (
        UNSORTED,
        Getter::Section(0),
        r#"0 0 (0, 0) Some("u") false"#,
    ),
    (UNSORTED, Getter::Section(1), "10 4 (10, 4) None true"),
    (r#"{"sections":[]}"#, Getter::Parts, "None (0, 0)"),
    (r#"{"sections":[]}"#, Getter::Lists, "None None false"),
    (r#"{"sections":[]}"#, Getter::DebugId, "none"),
    (
        r#"{"sections":[],"x_facebook_offsets":[]}"#,
        Getter::Lists,
        "Some([]) None false",
    ),
    (
        r#"{"sections":[],"x_metro_module_paths":[]}"#,
        Getter::Lists,
        "None Some([]) false",
    ),
];

#[test]
fn getters_return_parts(rt: HostRuntime) -> Checked {
    let alloc = rt.alloc();
    for (text, getter, want) in ANSWERS.iter() {
        check(want, answer(alloc, text, *getter), want)?;
    }
    Ok(())
}
