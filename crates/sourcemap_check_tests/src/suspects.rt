// What looks wrong in a map, in one list.
use sourcemap_check_suspicious::codes::code_of;
use sourcemap_check_suspicious::reading::read_text_map;
use sourcemap_check_suspicious::suspects::suspects_in;
use sourcemap_errors::errors::Result;
use sourcemap_source_views::sourceview::SourceView;
use sourcemap_test_support::checks::{Checked, check};
use std::alloc::Global;

// What it is about, the keys of the map, the generated text, and the code, line and index of the
// first two of each kind with the count of all.
static MAPS: [(&str, &str, Option<&str>, &str); 9] = [
    (
        "nothing",
        r#""sources":["a"],"sourcesContent":["x"],"mappings":"AAAA""#,
        Some("x"),
        "0",
    ),
    (
        "without a generated text",
        r#""sources":["a","b"],"sourcesContent":["x"],"names":["n"],"mappings":"K,DAAA,A""#,
        None,
        "201@0:4 211@0:1 212@0:0 214@0:1 221@0:1 5",
    ),
    (
        "with a generated text",
        r#""sources":["a","b"],"sourcesContent":["x"],"names":["n"],"mappings":"K,DAAA,A""#,
        Some("abc"),
        "201@0:4 211@0:1 212@0:0 214@0:1 221@0:1 232@0:4 232@0:4 8",
    ),
    (
        "later lines",
        r#""sources":["a"],"sourcesContent":["x"],"mappings":"AAAA;E;;CAAE,DAAA""#,
        Some("x\ny\n\nzz"),
        "203@3:0 203@3:1 221@3:1 232@1:2 4",
    ),
    (
        "lines that the text lacks",
        r#""sources":[],"mappings":"A;A;A;A""#,
        Some("x"),
        "231@1:0 231@2:0 3",
    ),
    (
        "a pair",
        r#""sources":[],"mappings":"C""#,
        Some("😀"),
        "233@0:1 1",
    ),
    (
        "the other format of range mappings",
        r#""sources":[],"mappings":"A,C,C,C,C,C,C","rangeMappings":"CCC""#,
        None,
        "222@0:0 1",
    ),
    (
        "no format of range mappings",
        r#""sources":[],"mappings":"A","rangeMappings":"g""#,
        None,
        "223@0:0 1",
    ),
    (
        "the regular map of a Hermes map",
        r#""sources":["a"],"sourceRoot":"","mappings":"A","x_facebook_sources":[null]"#,
        None,
        "211@0:0 214@0:0 215@0:0 3",
    ),
];

// What it is about, the generated text of a map with a debug id, the name of the map's file, and what
// looks wrong.
static REFERENCES: [(&str, Option<&str>, Option<&str>, &str); 11] = [
    (
        "another file",
        Some("x\n//# sourceMappingURL=b.js.map"),
        Some("a.js.map"),
        "225@0:0 1",
    ),
    (
        "the file",
        Some("x\n//# sourceMappingURL=a.js.map"),
        Some("a.js.map"),
        "0",
    ),
    (
        "a folder and a query",
        Some("//# sourceMappingURL=maps/a.js.map?v=1"),
        Some("a.js.map"),
        "0",
    ),
    (
        "another file in a folder",
        Some("//# sourceMappingURL=a.js.map/b.js.map"),
        Some("a.js.map"),
        "225@0:0 1",
    ),
    (
        "escapes",
        Some("//# sourceMappingURL=a%20b.js.map"),
        Some("a b.js.map"),
        "0",
    ),
    (
        "the name is no URL",
        Some("//# sourceMappingURL=a%20b.js.map"),
        Some("a%20b.js.map"),
        "225@0:0 1",
    ),
    (
        "a data URL",
        Some("//# sourceMappingURL=data:application/json;base64,e30="),
        Some("a.js.map"),
        "0",
    ),
    ("no reference", Some("x"), Some("a.js.map"), "0"),
    ("no generated text", None, Some("a.js.map"), "0"),
    ("no name", Some("//# sourceMappingURL=b.js.map"), None, "0"),
    (
        "another debug id too",
        Some("//# debugId=00000000-0000-0000-0000-000000000002\n//# sourceMappingURL=b.js.map"),
        Some("a.js.map"),
        "224@0:0 225@0:0 2",
    ),
];

/// The codes of what looks wrong in a map with these keys, as they stand in tables of tests.
pub(crate) fn suspects_text(
    alloc: Global,
    keys: &str,
    generated: Option<&str>,
    name: Option<&str>,
) -> Result<String> {
    let json = format!(in alloc; "{{\"version\":3,{keys}}}")?;
    let map = read_text_map(alloc, json.as_bytes(), 2)?;
    let mut view = None;
    if let Some(text) = generated {
        view = Some(SourceView::new(alloc, text)?);
    }
    let found = suspects_in(alloc, &map, view.as_ref(), name, None, 2)?;
    let mut text = String::new(alloc);
    for suspect in &found.first {
        let code = code_of(suspect.suspicion);
        let line = suspect.line;
        let index = suspect.index;
        text.push_str(format!(in alloc; "{code}@{line}:{index} ")?.as_str())?;
    }
    let count = found.count;
    text.push_str(format!(in alloc; "{count}")?.as_str())?;
    Ok(text)
}

#[test]
fn maps_look_wrong(rt: HostRuntime) -> Checked {
    for (name, keys, generated, found) in &MAPS {
        check(
            name,
            suspects_text(rt.alloc(), keys, *generated, None),
            found,
        )?;
    }
    Ok(())
}

// A map without segments.
const NAMED: &str =
    r#""sources":[],"mappings":"","debugId":"00000000-0000-0000-0000-000000000001""#;

#[test]
fn references_lead_to_other_maps(rt: HostRuntime) -> Checked {
    for (about, generated, name, found) in &REFERENCES {
        check(
            about,
            suspects_text(rt.alloc(), NAMED, *generated, *name),
            found,
        )?;
    }
    Ok(())
}
