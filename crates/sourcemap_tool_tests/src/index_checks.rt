// Runs of `check` on index maps: what looks wrong in the flat map.
use crate::checks::check_beside;
use sourcemap_test_support::checks::Checked;

// The second section has tokens at 2:4, 2:5 and 3:0, the last two with original columns past the
// contents. Its second source is not used, and has no contents. The flat sources are a, b and c.
const DOUBTFUL: &str = r#"{"version":3,"sections":[
    {"offset":{"line":0,"column":0},"map":{"version":3,"sources":["a"],"sourcesContent":["x"],"mappings":"AAAA"}},
    {"offset":{"line":2,"column":4},"map":{"version":3,"sources":["b","c"],"sourcesContent":["x"],"mappings":"AAAA,CAAE;AAAA"}}]}"#;

const DOUBTFUL_LINES: &str = "MAP:mappings at 2:5: SM203 the original line has fewer columns
MAP:mappings at 3:0: SM203 the original line has fewer columns
MAP:sources[2]: SM211 no token has the source
MAP:sources[2]: SM214 the map has no contents for the source
0 invalid, 4 suspicious, 4 shown";

const PAST_TEXT: &str = "MAP:mappings at 2:5: SM203 the original line has fewer columns
MAP:mappings at 3:0: SM203 the original line has fewer columns
MAP:sources[2]: SM211 no token has the source
MAP:sources[2]: SM214 the map has no contents for the source
MAP:mappings at 3:0: SM231 the generated text has no such line
MAP:mappings at 2:5: SM232 the generated line has fewer columns
0 invalid, 6 suspicious, 6 shown";

// The root of the only map in a section of a section stands before its source. The token is at 1:0.
const NESTED: &str =
    r#"{"version":3,"sections":[{"offset":{"line":1,"column":0},"map":{"version":3,"sections":[
    {"offset":{"line":0,"column":0},"map":{"version":3,"sourceRoot":"lib","sources":["a"],"mappings":"AAAE"}}]}}]}"#;

// The first section has a source that is not used, the second a token past the last line.
const TOO_FAR: &str = r#"{"version":3,"sections":[
    {"offset":{"line":0,"column":0},"map":{"version":3,"sources":["a"],"mappings":"A"}},
    {"offset":{"line":4294967295,"column":0},"map":{"version":3,"sources":[],"mappings":";A"}}]}"#;

// The second section has no map, so the index is invalid, and nothing else is looked for.
const HOLLOW: &str = r#"{"version":3,"sections":[
    {"offset":{"line":0,"column":0},"map":{"version":3,"sources":["a"],"mappings":"A"}},
    {"offset":{"line":1,"column":0},"url":"b"}]}"#;

// Words, a map, the name and the text of the only file, and the status and output of the run.
static RUNS: [(&str, &str, (&str, &str), u8, &str); 9] = [
    ("check", DOUBTFUL, ("a.js", ""), 0, DOUBTFUL_LINES),
    ("check --strict", DOUBTFUL, ("a.js", ""), 1, DOUBTFUL_LINES),
    (
        "check --generated a.js",
        DOUBTFUL,
        ("a.js", "x\n\n1234"),
        0,
        PAST_TEXT,
    ),
    (
        "check --sources src",
        NESTED,
        ("src/lib/a", "x"),
        0,
        "MAP:mappings at 1:0: SM203 the original line has fewer columns\n0 invalid, 1 suspicious, 1 shown",
    ),
    (
        "check --sources src",
        NESTED,
        ("src/lib/a", "xyz"),
        0,
        "0 invalid, 0 suspicious, 0 shown",
    ),
    (
        "check --sources src",
        NESTED,
        ("src/a", "xyz"),
        0,
        "MAP:sources[0]: SM227 the source has neither contents nor a file\n0 invalid, 1 suspicious, 1 shown",
    ),
    (
        "check --json",
        NESTED,
        ("a.js", ""),
        0,
        r#"{"counts":{"invalid":0,"shown":1,"suspicious":1},"findings":[{"code":"SM214","key":"sources[0]","position":null,"sections":[],"sentence":"the map has no contents for the source","severity":"suspicious"}]}"#,
    ),
    (
        "check --strict --sources src",
        TOO_FAR,
        ("src/a", "x"),
        0,
        "0 invalid, 0 suspicious, 0 shown",
    ),
    (
        "check",
        HOLLOW,
        ("a.js", ""),
        1,
        "MAP:sections[1].map: SM128 there is no map\n1 invalid, 0 suspicious, 1 shown",
    ),
];

#[test]
fn index_maps_are_checked(rt: HostRuntime) -> Checked {
    for (line, map, file, status, text) in RUNS.iter() {
        check_beside(&rt, line, map, *file, *status, text)?;
    }
    Ok(())
}
