// What looks wrong in an index map is what looks wrong in its flat map.
use crate::suspects::suspects_text;
use sourcemap_check_suspicious::suspects::suspicious_in_bytes;
use sourcemap_errors::errors::Result;
use sourcemap_test_support::checks::{Checked, check};
use std::alloc::Global;

// What it is about, the keys of the index map, the generated text, and the code, line and index of
// the first two of each kind with the count of all.
static MAPS: [(&str, &str, Option<&str>, &str); 7] = [
    ("no sections", r#""sections":[]"#, Some(""), "0"),
    (
        // the second token of the second section has original line 1
        "past the contents",
        r#""sections":[
            {"offset":{"line":0,"column":0},"map":{"version":3,"sources":["a"],"sourcesContent":["x"],"mappings":"AAAA"}},
            {"offset":{"line":2,"column":3},"map":{"version":3,"sources":["b"],"sourcesContent":["y"],"mappings":"AAAA,CACA;CADC"}}]"#,
        None,
        "202@2:4 1",
    ),
    (
        // flat sources a, b, c and names n, m; a is used in the first section
        "unused sources and names",
        r#""sections":[
            {"offset":{"line":0,"column":0},"map":{"version":3,"sources":["a"],"sourcesContent":["n"],"names":["n"],"mappings":"AAAAA"}},
            {"offset":{"line":1,"column":0},"map":{"version":3,"sources":["b","c","a"],"sourcesContent":["y"],"names":["m"],"mappings":"AAAA"}}]"#,
        None,
        "211@0:2 212@0:1 214@0:2 3",
    ),
    (
        // tokens at 0:0, and at 1:2, 1:3, 1:4 and 2:0
        "past the generated text",
        r#""sections":[
            {"offset":{"line":0,"column":0},"map":{"version":3,"sources":[],"mappings":"A"}},
            {"offset":{"line":1,"column":2},"map":{"version":3,"sources":[],"mappings":"A,C,C;A"}}]"#,
        Some("ab\ncde"),
        "231@2:0 232@1:4 2",
    ),
    (
        // tokens at 1:3, 1:4 and 4:4: the columns 1 and 2 add up on the first line alone. The
        // contents of the source stand in the first section
        "nested",
        r#""sections":[{"offset":{"line":1,"column":1},"map":{"version":3,"sections":[
            {"offset":{"line":0,"column":2},"map":{"version":3,"sources":["a"],"sourcesContent":["x"],"mappings":"AAAA,CACA"}},
            {"offset":{"line":3,"column":4},"map":{"version":3,"sources":["a"],"mappings":"AAAE"}}]}}]"#,
        None,
        "202@1:4 203@4:4 2",
    ),
    (
        // a segment that goes back, range mappings in no format, and a root without effect
        "what is not in the flat map",
        r#""sections":[{"offset":{"line":0,"column":0},"map":{"version":3,"sources":["a"],"sourceRoot":"","mappings":"K,D","rangeMappings":"g","x_facebook_sources":[null]}}],
            "mappings":"K,D","rangeMappings":"g""#,
        None,
        "211@0:0 214@0:0 2",
    ),
    (
        // the second section has the token of the first, with another original column
        "two originals",
        r#""sections":[
            {"offset":{"line":0,"column":0},"map":{"version":3,"sources":["a"],"sourcesContent":["x"],"mappings":"AAAA"}},
            {"offset":{"line":0,"column":0},"map":{"version":3,"sources":["a"],"mappings":"AAAC"}}]"#,
        None,
        "201@0:0 1",
    ),
];

#[test]
fn index_maps_look_wrong(rt: HostRuntime) -> Checked {
    for (name, keys, generated, found) in &MAPS {
        check(
            name,
            suspects_text(rt.alloc(), keys, *generated, None),
            found,
        )?;
    }
    Ok(())
}

// What it is about, what follows the first section of an index map, and how many places that look
// wrong are listed, how many there are, and how many shifts.
static UNREAD: [(&str, &str, &str); 5] = [
    ("a source is not used", "", "1 1 0"),
    (
        "a section without a map",
        r#",{"offset":{"line":9,"column":0},"url":"b"}"#,
        "0 0 0",
    ),
    (
        "one below a section",
        r#",{"offset":{"line":9,"column":0},"map":{"version":3,"sections":[{"offset":{"line":0,"column":0}}]}}"#,
        "0 0 0",
    ),
    (
        "a position past the last line",
        r#",{"offset":{"line":4294967295,"column":0},"map":{"version":3,"sources":[],"mappings":";A"}}"#,
        "0 0 0",
    ),
    (
        "a map that is not decoded",
        r#",{"offset":{"line":9,"column":0},"map":{"version":3,"sources":[],"mappings":"AAAA"}}"#,
        "0 0 0",
    ),
];

fn counts_text(alloc: Global, rest: &str) -> Result<String> {
    let first =
        r#"{"offset":{"line":0,"column":0},"map":{"version":3,"sources":["a"],"sourcesContent":["x"],"mappings":"A"}}"#;
    let json = format!(in alloc; "{{\"version\":3,\"sections\":[{first}{rest}]}}")?;
    let found = suspicious_in_bytes(alloc, json.as_bytes(), None, 2)?;
    let listed = found.places.first.len();
    let count = found.places.count;
    let shifts = found.shifts.len();
    Ok(format!(in alloc; "{listed} {count} {shifts}")?)
}

#[test]
fn what_does_not_flatten_is_not_looked_at(rt: HostRuntime) -> Checked {
    for (name, rest, counts) in &UNREAD {
        check(name, counts_text(rt.alloc(), rest), counts)?;
    }
    Ok(())
}
