// Items of lists that look wrong, contents beside files, segments that go back, range mappings, and
// links.
use sourcemap_check_links::links::{named_id, other_id, other_reference};
use sourcemap_check_lists::contents::contents_doubt;
use sourcemap_check_lists::lists::{LIST_DOUBTS, doubtful_items};
use sourcemap_check_order::order::segments_back;
use sourcemap_check_order::ranges::doubtful_ranges;
use sourcemap_check_suspicious::codes::code_of;
use sourcemap_check_suspicious::suspects::Suspicion;
use sourcemap_errors::errors::Result;
use sourcemap_headers::debug_id::DebugId;
use sourcemap_map_regular::map::SourceMap;
use sourcemap_test_support::checks::{Checked, check, check_that};
use std::alloc::Global;

// What it is about, the keys of the map, and each doubt with the index of the item.
static LISTS: [(&str, &str, &str); 13] = [
    (
        "all is used",
        r#""sources":["a"],"sourcesContent":["x"],"names":["n"],"mappings":"AAAAA""#,
        "",
    ),
    (
        "a source that no token has",
        r#""sources":["a","b"],"sourcesContent":["x","y"],"mappings":"AAAA""#,
        "211@1 ",
    ),
    (
        "a token without a source",
        r#""sources":["a"],"sourcesContent":["x"],"mappings":"A""#,
        "211@0 ",
    ),
    (
        "a name that no token has",
        r#""sources":["a"],"sourcesContent":["x"],"names":["n","m"],"mappings":"AAAAC""#,
        "212@0 ",
    ),
    (
        "equal sources",
        r#""sources":["a","b","a"],"sourcesContent":["x","y","z"],"mappings":"AAAA,CCAA,CCAA""#,
        "213@2 ",
    ),
    (
        "three equal sources",
        r#""sources":["a","a","a"],"sourcesContent":["x","y","z"],"mappings":"AAAA,CCAA,CCAA""#,
        "213@1 213@2 ",
    ),
    (
        "equal behind the root",
        r#""sourceRoot":"/r","sources":["x","/r/x"],"sourcesContent":["x","y"],"mappings":"AAAA,CCAA""#,
        "213@1 ",
    ),
    (
        "no contents",
        r#""sources":["a"],"mappings":"AAAA""#,
        "214@0 ",
    ),
    (
        "null as contents",
        r#""sources":["a","b"],"sourcesContent":[null,"y"],"mappings":"AAAA,CCAA""#,
        "214@0 ",
    ),
    (
        "an empty root",
        r#""sourceRoot":"","sources":["a"],"sourcesContent":["x"],"mappings":"AAAA""#,
        "215@0 ",
    ),
    (
        "a root before absolute sources",
        r#""sourceRoot":"/r","sources":["/a","https://b"],"sourcesContent":["x","y"],"mappings":"AAAA,CCAA""#,
        "215@0 ",
    ),
    (
        "a root before some",
        r#""sourceRoot":"/r","sources":["/a","b"],"sourcesContent":["x","y"],"mappings":"AAAA,CCAA""#,
        "",
    ),
    (
        "all in the order of codes",
        r#""sourceRoot":"","sources":["a","a"],"names":["n"],"mappings":"A""#,
        "211@0 211@1 212@0 213@1 214@0 214@1 215@0 ",
    ),
];

fn items_text(alloc: Global, keys: &str, most: usize) -> Result<String> {
    let json = format!(in alloc; "{{\"version\":3,{keys}}}")?;
    let map = SourceMap::from_slice(alloc, json.as_bytes())?;
    let mut text = String::new(alloc);
    for doubt in LIST_DOUBTS {
        let places = doubtful_items(alloc, &map, doubt, most)?;
        let code = code_of(Suspicion::Item(doubt));
        for index in &places.first {
            text.push_str(format!(in alloc; "{code}@{index} ")?.as_str())?;
        }
    }
    Ok(text)
}

#[test]
fn items_look_wrong(rt: HostRuntime) -> Checked {
    for (name, keys, doubts) in &LISTS {
        check(name, items_text(rt.alloc(), keys, 9), doubts)?;
    }
    let keys = r#""sources":["a","a","a"],"mappings":"A""#;
    let first = "211@0 213@1 214@0 ";
    check("the first of each", items_text(rt.alloc(), keys, 1), first)
}

// What it is about, contents, file, and the code; 0 for none.
static CONTENTS: [(&str, Option<&str>, Option<&str>, u32); 5] = [
    ("the same", Some("a\n"), Some("a\n"), 0),
    ("a line end", Some("a\n"), Some("a\r\n"), 226),
    ("no file", Some("a"), None, 0),
    ("a file alone", None, Some("a"), 0),
    ("neither", None, None, 227),
];

#[test]
fn contents_look_wrong() -> Checked {
    for (name, contents, file, code) in &CONTENTS {
        let found = match contents_doubt(*contents, *file) {
            Some(doubt) => code_of(Suspicion::Contents(doubt)),
            None => 0,
        };
        check_that(name, found == *code)?;
    }
    Ok(())
}

// What it is about, the text `mappings`, the places of at most two segments and the count.
static MAPPINGS: [(&str, &str, &str); 9] = [
    ("in order", "AAAA,CAAC,AAAC;A,C", "0"),
    ("one goes back", "K,D", "0:1 1"),
    ("the first of a line", "K;D", "0"),
    ("in a later line", "A,C;;A,K,D,C", "2:2 1"),
    ("more are counted", "U,D,D,C,D;E,D", "0:1 0:2 4"),
    ("numbers of two digits", "gB,hB", "0:1 1"),
    ("a longer segment", "KAAA,DAAAC", "0:1 1"),
    ("an empty segment", ",D", "0:1 1"),
    ("no number", "K,h", "0"),
];

fn back_text(alloc: Global, mappings: &str) -> Result<String> {
    let places = segments_back(alloc, mappings, 2)?;
    let mut text = String::new(alloc);
    for place in &places.first {
        let line = place.line;
        let index = place.index;
        text.push_str(format!(in alloc; "{line}:{index} ")?.as_str())?;
    }
    let count = places.count;
    text.push_str(format!(in alloc; "{count}")?.as_str())?;
    Ok(text)
}

#[test]
fn segments_go_back(rt: HostRuntime) -> Checked {
    for (name, mappings, places) in &MAPPINGS {
        check(name, back_text(rt.alloc(), mappings), places)?;
    }
    Ok(())
}

// What it is about, the texts `mappings` and `rangeMappings`, and the code; 0 for none.
static RANGES: [(&str, &str, &str, u32); 14] = [
    ("none", "A,C", "", 0),
    ("a bit", "A,C", "C", 0),
    ("one bit too many", "A,C", "E", 223),
    ("both formats", "A,C,C", "B", 0),
    ("numbers alone", "A,C,C,C,C,C,C", "CCC", 222),
    (
        "the last number leads past the segments",
        "A,C,C,C,C,C,C",
        "CCCC",
        223,
    ),
    (
        "a number of two digits",
        ",,,,,,,,,,,,,,,,,,,,,,,,,,,,,,,,,,,,,,,A",
        "gBBBBBBB",
        222,
    ),
    ("no digit", "A,C,C", "!", 223),
    ("a cut number", "A,C,C,C,C,C,C", "gg", 223),
    ("no bit on a line of no segments", "A", ";A", 0),
    ("a bit past the last line", "A", ";B", 223),
    ("a digit of zeros after the last bit", "A", "BA", 0),
    ("by lines", "A,C;A,C", ";C", 0),
    ("by other lines", "A,C;A", ";C", 223),
];

fn range_code(alloc: Global, mappings: &str, ranges: &str) -> Result<String> {
    let code = match doubtful_ranges(alloc, mappings, ranges)? {
        Some(doubt) => code_of(Suspicion::Ranges(doubt)),
        None => 0,
    };
    Ok(format!(in alloc; "{code}")?)
}

#[test]
fn range_mappings_look_wrong(rt: HostRuntime) -> Checked {
    for (name, mappings, ranges, code) in &RANGES {
        let want = format!(in rt.alloc(); "{code}")?;
        check(
            name,
            range_code(rt.alloc(), mappings, ranges),
            want.as_str(),
        )?;
    }
    Ok(())
}

// What it is about, the generated text, and the debug id that it names, if it is not that which ends
// in 0a.
static IDS: [(&str, &str, &str); 7] = [
    ("no id", "a()\n", "none"),
    (
        "the same",
        "a()\n//# debugId=00000000-0000-0000-0000-00000000000a\n",
        "none",
    ),
    (
        "the same in other letters",
        "//# debugId=00000000-0000-0000-0000-00000000000A \r\n",
        "none",
    ),
    (
        "another",
        "a()\n//# debugId=00000000-0000-0000-0000-00000000000b",
        "00000000-0000-0000-0000-00000000000b",
    ),
    (
        "the last counts",
        "//# debugId=00000000-0000-0000-0000-00000000000b\n//# debugId=00000000-0000-0000-0000-00000000000a\n;\n",
        "none",
    ),
    ("no debug id", "//# debugId=b\n", "none"),
    (
        "not at the start of a line",
        " //# debugId=00000000-0000-0000-0000-00000000000b",
        "none",
    ),
];

fn id_text(alloc: Global, text: &str) -> Result<String> {
    let Some(own) = DebugId::parse("0000000000000000000000000000000a") else {
        return Ok(String::from_str(alloc, "no id")?);
    };
    match other_id(text, own) {
        Some(other) => Ok(format!(in alloc; "{other}")?),
        None => Ok(String::from_str(alloc, "none")?),
    }
}

// What it is about, the generated text, and its reference, if it ends in another file name than
// `a.js.map`.
static REFERENCES: [(&str, &str, &str); 10] = [
    ("no reference", "a()", "none"),
    ("the file", "a()\n//# sourceMappingURL=a.js.map\n", "none"),
    ("another", "//# sourceMappingURL=b.js.map", "b.js.map"),
    (
        "a path, a query and a fragment",
        "//# sourceMappingURL=https://a.b/c/a.js.map?v=/b#/c",
        "none",
    ),
    ("an escape", "//# sourceMappingURL=a%2Ejs.map", "none"),
    (
        "a longer name",
        "//# sourceMappingURL=aa.js.map",
        "aa.js.map",
    ),
    ("a folder", "//# sourceMappingURL=a.js.map/", "a.js.map/"),
    ("the legacy mark", "//@ sourceMappingURL=c.map ", "c.map"),
    (
        "the first counts",
        "//# sourceMappingURL=a.js.map\n//# sourceMappingURL=b.js.map",
        "none",
    ),
    (
        "a data URL",
        "//# sourceMappingURL=data:application/json;base64,e30=",
        "none",
    ),
];

fn reference_text(alloc: Global, text: &str) -> Result<String> {
    match other_reference(alloc, text, "a.js.map")? {
        Some(found) => Ok(String::from_str(alloc, found.get_url())?),
        None => Ok(String::from_str(alloc, "none")?),
    }
}

#[test]
fn texts_name_other_maps(rt: HostRuntime) -> Checked {
    for (name, text, id) in &IDS {
        check(name, id_text(rt.alloc(), text), id)?;
    }
    for (name, text, url) in &REFERENCES {
        check(name, reference_text(rt.alloc(), text), url)?;
    }
    let named = named_id("//# debugId=0000000000000000000000000000000b");
    check_that("an id without hyphens", named.is_some())
}
