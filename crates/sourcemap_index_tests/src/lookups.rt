// Lookups in index maps.
use crate::maps::{index_of, map_of};
use sourcemap::errors::Result;
use sourcemap::types::SourceMapIndex;
use sourcemap_test_support::checks::{Checked, check};
use sourcemap_test_support::results::{box_result, text_or_none};
use std::alloc::Global;

// Two sections, the second of which starts in the middle of a line.
const TWO: &str = concat!(
    r#"{"version":3,"sections":[{"offset":{"line":0,"column":0},"map":{"version":3,"#,
    r#""sources":["a.js"],"names":[],"mappings":"AAAA"}},{"offset":{"line":10,"column":4},"#,
    r#""map":{"version":3,"sources":["b.js"],"names":[],"mappings":"AAAA"}}]}"#,
);

// On the first line of a section, columns count from the offset's column. On later lines, columns
// count from 0. So the tokens of this section are at 2:4, 2:8 and 3:4.
const LINES: &str =
    r#"{"sections":[{"offset":{"line":2,"column":4},"map":{"sources":["a.js"],"mappings":"AAAA,IAAI;IACA"}}]}"#;

// A section with a range token at its offset. On the token's line, the original column increases by
// one with each generated column after the token, but never exceeds 4294967295.
const RANGED: &str = concat!(
    r#"{"sections":[{"offset":{"line":1,"column":3},"map":{"sources":["a.js"],"#,
    r#""mappings":"AAAO","rangeMappings":"B"}}]}"#,
);

// Two sections with the same offset. The position at the offset is looked up in the first section.
// Later positions are looked up in the second section.
const EQUAL: &str = concat!(
    r#"{"sections":[{"offset":{"line":1,"column":2},"map":{"sources":["a.js"],"#,
    r#""mappings":"AAAA"}},{"offset":{"line":1,"column":2},"map":{"sources":["b.js"],"#,
    r#""mappings":"AAAA"}}]}"#,
);

// A section without a map, and one whose map has no token on its first line.
const LINKED: &str = concat!(
    r#"{"sections":[{"offset":{"line":0,"column":0},"map":{"sources":["a.js"],"#,
    r#""mappings":"AAAA"}},{"offset":{"line":1,"column":0},"url":"u"},{"offset":{"line":2,"#,
    r#""column":0},"map":{"sources":["c.js"],"mappings":";AAAA"}}]}"#,
);

// One section, whose map is an index map.
const NESTED: &str = concat!(
    r#"{"sections":[{"offset":{"line":2,"column":3},"map":{"sections":[{"offset":{"line":1,"#,
    r#""column":0},"map":{"sources":["a.js"],"mappings":"AAAA"}}]}}]}"#,
);

// There is no token before the first section.
const LATE: &str =
    r#"{"sections":[{"offset":{"line":5,"column":0},"map":{"sources":["a.js"],"mappings":"AAAA"}}]}"#;

// The later section begins among the tokens of the earlier one.
const MIXED: &str = concat!(
    r#"{"sections":[{"offset":{"line":0,"column":0},"map":{"sources":["a.js"],"#,
    r#""mappings":"AAAA,SAAA"}},{"offset":{"line":0,"column":5},"map":{"sources":["b.js"],"#,
    r#""mappings":"AAAA"}}]}"#,
);

// The second section has a Hermes map. A lookup in a Hermes map searches its regular map.
const HERMES: &str = concat!(
    r#"{"sections":[{"offset":{"line":0,"column":0},"map":{"sources":["a.js"],"#,
    r#""mappings":"AAAA"}},{"offset":{"line":1,"column":2},"map":{"sources":["b.js"],"#,
    r#""mappings":"AAAO","rangeMappings":"B","x_facebook_sources":[[{"names":["f"],"#,
    r#""mappings":"AAA"}]]}}]}"#,
);

// An index map, a line and a column. Then the text of the token that a lookup of this position
// finds, or `none` if the lookup finds no token.
static POSITIONS: [(&str, u32, u32, &str); 28] = [
    (TWO, 0, 0, "a.js:0:0"),
    (TWO, 10, 3, "a.js:0:0"),
    (TWO, 10, 4, "b.js:0:0"),
    (TWO, 10, 9, "b.js:0:0"),
    (TWO, 11, 0, "b.js:0:0"),
    (LINES, 2, 3, "none"),
    (LINES, 2, 7, "a.js:0:0"),
    (LINES, 2, 8, "a.js:0:4"),
    (LINES, 3, 3, "a.js:0:4"),
    (LINES, 3, 4, "a.js:1:4"),
    (RANGED, 1, 8, "a.js:0:12"),
    (RANGED, 4, 5, "a.js:0:7"),
    (EQUAL, 1, 2, "a.js:0:0"),
    (EQUAL, 1, 3, "b.js:0:0"),
    (LINKED, 0, 9, "a.js:0:0"),
    (LINKED, 1, 5, "none"),
    (LINKED, 2, 7, "none"),
    (LINKED, 3, 0, "c.js:0:0"),
    (NESTED, 3, 0, "a.js:0:0"),
    (NESTED, 2, 9, "none"),
    (LATE, 4, 9, "none"),
    (LATE, 5, 0, "a.js:0:0"),
    (MIXED, 0, 4, "a.js:0:0"),
    (MIXED, 0, 9, "b.js:0:0"),
    (r#"{"sections":[]}"#, 0, 0, "none"),
    (HERMES, 1, 1, "a.js:0:0"),
    (HERMES, 1, 7, "b.js:0:12"),
    (HERMES, 2, 7, "b.js:0:7"),
];

fn lookup_text(alloc: Global, text: &str, line: u32, col: u32) -> Result<String> {
    let map = map_of(alloc, text)?;
    text_or_none(alloc, map.lookup_token(line, col))
}

fn index_lookup_text(alloc: Global, text: &str, line: u32, col: u32) -> Result<String> {
    let index = index_of(alloc, text)?;
    text_or_none(alloc, index.lookup_token(line, col))
}

#[test]
fn positions_are_looked_up_in_the_closest_section(rt: HostRuntime) -> Checked {
    let alloc = rt.alloc();
    for (text, line, col, want) in POSITIONS.iter() {
        check(text, lookup_text(alloc, text, *line, *col), want)?;
        check(text, index_lookup_text(alloc, text, *line, *col), want)?;
    }
    Ok(())
}

// An index map, a line and a column. Then the texts of the tokens that two lookups of this position
// find: first a lookup in the index map, then a lookup in the flattened map. The texts differ for
// `MIXED`. In `MIXED`, the earlier section has a token after the start of the later section. Only a
// lookup in the flattened map finds this token.
static FLAT_POSITIONS: [(&str, u32, u32, &str, &str); 5] = [
    (TWO, 9, 0, "a.js:0:0", "a.js:0:0"),
    (TWO, 10, 4, "b.js:0:0", "b.js:0:0"),
    (TWO, 10, 9, "b.js:0:0", "b.js:0:0"),
    (TWO, 10, 3, "a.js:0:0", "a.js:0:0"),
    (MIXED, 0, 9, "b.js:0:0", "a.js:0:0"),
];

/// Flattens `index`, and looks the position up in the flattened map. Returns the text of the token,
/// or `none` if there is no token. The errors are those of `flatten`.
pub fn flat_token_text(
    alloc: Global,
    index: &SourceMapIndex,
    line: u32,
    col: u32,
) -> Result<String> {
    let map = box_result(alloc, index.flatten())?;
    text_or_none(alloc, map.lookup_token(line, col))
}

fn flat_lookup_text(alloc: Global, text: &str, line: u32, col: u32) -> Result<String> {
    flat_token_text(alloc, &*index_of(alloc, text)?, line, col)
}

#[test]
fn positions_are_looked_up_in_an_index_and_in_its_flat_map(rt: HostRuntime) -> Checked {
    let alloc = rt.alloc();
    for (text, line, col, by_index, by_flat) in FLAT_POSITIONS.iter() {
        let got = index_lookup_text(alloc, text, *line, *col);
        check(text, got, by_index)?;
        let got = flat_lookup_text(alloc, text, *line, *col);
        check(text, got, by_flat)?;
    }
    Ok(())
}
