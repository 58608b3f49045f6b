// For each code a map that breaks this rule alone.
use crate::codes_of;
use sourcemap_test_support::checks::{Checked, check};

// Code, map.
static MAPS: [(&str, &str); 40] = [
    ("SM101", r#"{"version":3,"#),
    ("SM102", r#"[]"#),
    ("SM103", r#"{"sources":[],"mappings":""}"#),
    ("SM104", r#"{"version":"3","sources":[],"mappings":""}"#),
    ("SM105", r#"{"version":2,"sources":[],"mappings":""}"#),
    (
        "SM106",
        r#"{"version":3,"file":null,"sources":[],"mappings":""}"#,
    ),
    (
        "SM107",
        r#"{"version":3,"sourceRoot":7,"sources":[],"mappings":""}"#,
    ),
    ("SM108", r#"{"version":3,"mappings":""}"#),
    ("SM109", r#"{"version":3,"sources":[1],"mappings":""}"#),
    (
        "SM110",
        r#"{"version":3,"sources":[],"sourcesContent":{},"mappings":""}"#,
    ),
    (
        "SM111",
        r#"{"version":3,"sources":[],"names":[null],"mappings":""}"#,
    ),
    (
        "SM112",
        r#"{"version":3,"sources":["a"],"ignoreList":[0.5],"mappings":""}"#,
    ),
    (
        "SM113",
        r#"{"version":3,"sources":["a"],"ignoreList":[-1],"mappings":""}"#,
    ),
    (
        "SM114",
        r#"{"version":3,"sources":["a"],"ignoreList":[1],"mappings":""}"#,
    ),
    ("SM115", r#"{"version":3,"sources":[]}"#),
    ("SM116", r#"{"version":3,"sources":[],"mappings":[]}"#),
    ("SM117", r#"{"version":3,"sections":[],"mappings":""}"#),
    ("SM118", r#"{"version":3,"sections":{}}"#),
    (
        "SM119",
        r#"{"version":3,"sections":[{"offset":{"line":1,"column":0},"map":{"version":3,"sources":[],"mappings":""}},{"offset":{"line":0,"column":0},"map":{"version":3,"sources":[],"mappings":""}}]}"#,
    ),
    (
        "SM120",
        r#"{"version":3,"sections":[{"offset":{"line":0,"column":0},"map":{"version":3,"sources":[],"mappings":""}},{"offset":{"line":0,"column":0},"map":{"version":3,"sources":[],"mappings":""}}]}"#,
    ),
    ("SM121", r#"{"version":3,"sections":[null]}"#),
    (
        "SM122",
        r#"{"version":3,"sections":[{"map":{"version":3,"sources":[],"mappings":""}}]}"#,
    ),
    (
        "SM123",
        r#"{"version":3,"sections":[{"offset":3,"map":{"version":3,"sources":[],"mappings":""}}]}"#,
    ),
    (
        "SM124",
        r#"{"version":3,"sections":[{"offset":{"column":0},"map":{"version":3,"sources":[],"mappings":""}}]}"#,
    ),
    (
        "SM125",
        r#"{"version":3,"sections":[{"offset":{"line":true,"column":0},"map":{"version":3,"sources":[],"mappings":""}}]}"#,
    ),
    (
        "SM126",
        r#"{"version":3,"sections":[{"offset":{"line":0},"map":{"version":3,"sources":[],"mappings":""}}]}"#,
    ),
    (
        "SM127",
        r#"{"version":3,"sections":[{"offset":{"line":0,"column":-1},"map":{"version":3,"sources":[],"mappings":""}}]}"#,
    ),
    (
        "SM128",
        r#"{"version":3,"sections":[{"offset":{"line":0,"column":0},"url":"a.map"}]}"#,
    ),
    (
        "SM129",
        r#"{"version":3,"sections":[{"offset":{"line":0,"column":0},"map":"a.map"}]}"#,
    ),
    ("SM131", r#"{"version":3,"sources":[],"mappings":"A$"}"#),
    ("SM132", r#"{"version":3,"sources":[],"mappings":"g"}"#),
    ("SM133", r#"{"version":3,"sources":[],"mappings":"AA"}"#),
    (
        "SM134",
        r#"{"version":3,"sources":[],"mappings":"ggggggE"}"#,
    ),
    ("SM135", r#"{"version":3,"sources":[],"mappings":"F"}"#),
    (
        "SM136",
        r#"{"version":3,"sources":["a"],"mappings":"ADAA","names":["n"]}"#,
    ),
    (
        "SM137",
        r#"{"version":3,"sources":["a"],"mappings":"AADA","names":["n"]}"#,
    ),
    (
        "SM138",
        r#"{"version":3,"sources":["a"],"mappings":"AAAD","names":["n"]}"#,
    ),
    (
        "SM139",
        r#"{"version":3,"sources":["a"],"mappings":"AAAAD","names":["n"]}"#,
    ),
    (
        "SM140",
        r#"{"version":3,"sources":["a"],"mappings":"ACAA","names":["n"]}"#,
    ),
    (
        "SM141",
        r#"{"version":3,"sources":["a"],"mappings":"AAAAC","names":["n"]}"#,
    ),
];

#[test]
fn each_rule_is_broken_alone(rt: HostRuntime) -> Checked {
    for (code, map) in &MAPS {
        check(code, codes_of(rt.alloc(), map), code)?;
    }
    Ok(())
}
