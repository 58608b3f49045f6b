// Maps at the edges of the rules. The codes were found by hand.
use crate::codes_of;
use sourcemap_test_support::checks::{Checked, check};

// Name, map, codes.
static MAPS: [(&str, &str, &str); 28] = [
    (
        "a header",
        ")]}'\n{\"version\":3,\"sources\":[],\"mappings\":\"\"}",
        "SM101",
    ),
    (
        "a byte order mark",
        "\u{feff}{\"version\":3,\"sources\":[],\"mappings\":\"\"}",
        "SM101",
    ),
    (
        "3 with a fraction",
        r#"{"version":3.0,"sources":[],"mappings":""}"#,
        "",
    ),
    (
        "3 with an exponent",
        r#"{"version":30e-1,"sources":[],"mappings":""}"#,
        "",
    ),
    (
        "the last of two keys",
        r#"{"version":2,"version":3,"sources":[],"mappings":""}"#,
        "",
    ),
    (
        "the last of two keys is wrong",
        r#"{"version":3,"version":2,"sources":[],"mappings":""}"#,
        "SM105",
    ),
    (
        "unknown keys",
        r#"{"version":3,"sources":[],"mappings":"","x_a":{"sections":[{}]},"sectionz":3}"#,
        "",
    ),
    (
        "null in sources",
        r#"{"version":3,"sources":[null],"mappings":"AAAA"}"#,
        "",
    ),
    (
        "objects in lists",
        r#"{"version":3,"sources":[{"a":1}],"names":[["n"]],"ignoreList":[{}],"mappings":""}"#,
        "SM109 SM111 SM112",
    ),
    (
        "an ignored index with a fraction of 0",
        r#"{"version":3,"sources":["a"],"ignoreList":[0.0],"mappings":""}"#,
        "",
    ),
    (
        "no list of sources has no items",
        r#"{"version":3,"sources":"a","ignoreList":[0],"mappings":"AAAA"}"#,
        "SM109 SM114 SM140",
    ),
    (
        "a zero of many digits",
        r#"{"version":3,"sources":[],"mappings":"gggggggggggggggggA"}"#,
        "",
    ),
    (
        "the greatest number",
        r#"{"version":3,"sources":[],"mappings":"+/////D"}"#,
        "",
    ),
    (
        "the least number",
        r#"{"version":3,"sources":[],"mappings":"B"}"#,
        "SM135",
    ),
    (
        "an empty segment",
        r#"{"version":3,"sources":[],"mappings":"A,;"}"#,
        "SM133",
    ),
    (
        "empty lines",
        r#"{"version":3,"sources":[],"mappings":";;A;"}"#,
        "",
    ),
    (
        "columns begin anew",
        r#"{"version":3,"sources":[],"mappings":"C;D"}"#,
        "SM135",
    ),
    (
        "a column that goes back",
        r#"{"version":3,"sources":[],"mappings":"E,D"}"#,
        "",
    ),
    (
        "sources do not begin anew",
        r#"{"version":3,"sources":["a","b"],"mappings":"AAAA;ACAA"}"#,
        "",
    ),
    (
        "one past the lists",
        r#"{"version":3,"sources":["a"],"mappings":"ACAA,ADAAC","names":["n"]}"#,
        "SM140 SM141",
    ),
    (
        "a segment that is not sound adds nothing",
        r#"{"version":3,"sources":["a"],"mappings":"AC,AAAA"}"#,
        "SM133",
    ),
    (
        "an index map is looked at for four keys alone",
        r#"{"version":3,"sections":[],"sources":1,"names":1,"sourceRoot":1,"ignoreList":1}"#,
        "",
    ),
    (
        "sections that touch",
        r#"{"version":3,"sections":[{"offset":{"line":0,"column":0},"map":{"version":3,"sources":[],"mappings":"A,K"}},{"offset":{"line":0,"column":5},"map":{"version":3,"sources":[],"mappings":""}}]}"#,
        "",
    ),
    (
        "sections that overlap",
        r#"{"version":3,"sections":[{"offset":{"line":0,"column":1},"map":{"version":3,"sources":[],"mappings":"A,K"}},{"offset":{"line":0,"column":5},"map":{"version":3,"sources":[],"mappings":""}}]}"#,
        "SM120",
    ),
    (
        "the column moves on line 0 alone",
        r#"{"version":3,"sections":[{"offset":{"line":0,"column":9},"map":{"version":3,"sources":[],"mappings":";C"}},{"offset":{"line":1,"column":2},"map":{"version":3,"sources":[],"mappings":""}}]}"#,
        "",
    ),
    (
        "the greatest position of an offset",
        r#"{"version":3,"sections":[{"offset":{"line":18446744073709551615,"column":0},"map":{"version":3,"sources":[],"mappings":""}}]}"#,
        "",
    ),
    (
        "one more",
        r#"{"version":3,"sections":[{"offset":{"line":18446744073709551616,"column":0},"map":{"version":3,"sources":[],"mappings":""}}]}"#,
        "SM125",
    ),
    (
        "a map two sections deep",
        r#"{"version":3,"sections":[{"offset":{"line":0,"column":0},"map":{"version":3,"sections":[{"offset":{"line":0,"column":0},"map":{"version":3,"sources":[],"mappings":"AAAA;;A"}}]}},{"offset":{"line":1,"column":0},"map":{"sources":[],"mappings":""}}]}"#,
        "SM103 SM120 SM140",
    ),
];

#[test]
fn each_map_has_its_codes(rt: HostRuntime) -> Checked {
    for (name, map, codes) in &MAPS {
        check(name, codes_of(rt.alloc(), map), codes)?;
    }
    Ok(())
}
