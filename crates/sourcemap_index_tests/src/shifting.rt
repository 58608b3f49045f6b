// Moving the sections of index maps down.
use crate::decoding::sections_text;
use crate::maps::index_of;
use sourcemap::errors::Result;
use sourcemap::types::SourceMapIndex;
use sourcemap_test_support::checks::{Checked, check};
use sourcemap_test_support::results::owned_text;
use std::alloc::Global;

fn moved_text(alloc: Global, index: &mut SourceMapIndex, rows: u32) -> Result<String> {
    let fits = index.adjust_sections_offset_rows(rows);
    let out = sections_text(alloc, index)?;
    owned_text(format!(in alloc; "{fits} {out}"))
}

fn move_rows(alloc: Global, text: &str, rows: u32) -> Result<String> {
    moved_text(alloc, &mut *index_of(alloc, text)?, rows)
}

const ROWS: &str = concat!(
    r#"{"sections":[{"offset":{"line":0,"column":0}},{"offset":{"line":10,"column":0}},"#,
    r#"{"offset":{"line":20,"column":10}},{"offset":{"line":30,"column":40}}]}"#,
);

const LAST_ROW: &str =
    r#"{"sections":[{"offset":{"line":0,"column":0}},{"offset":{"line":4294967295,"column":0}}]}"#;

const TWO_ROWS: &str =
    r#"{"sections":[{"offset":{"line":0,"column":0}},{"offset":{"line":10,"column":0}}]}"#;

const FOUR_ROWS: &str = concat!(
    r#"{"sections":[{"offset":{"line":0,"column":0}},{"offset":{"line":10,"column":0}},"#,
    r#"{"offset":{"line":20,"column":0}},{"offset":{"line":4294967295,"column":0}}]}"#,
);

// Each row: an index map, the number of lines to move its sections down, and the wanted text. The
// text begins with `true` if the sections are moved, otherwise with `false`. The list of the
// sections after the call follows.
static MOVED: [(&str, u32, &str); 8] = [
    (TWO_ROWS, 0, "true 0:0 None no map;10:0 None no map;"),
    (
        TWO_ROWS,
        1000000,
        "true 1000000:0 None no map;1000010:0 None no map;",
    ),
    (
        TWO_ROWS,
        4294967295,
        "false 0:0 None no map;10:0 None no map;",
    ),
    (
        FOUR_ROWS,
        1,
        "false 0:0 None no map;10:0 None no map;20:0 None no map;4294967295:0 None no map;",
    ),
    (r#"{"sections":[]}"#, 1, "true "),
    (
        ROWS,
        1,
        "true 1:0 None no map;11:0 None no map;21:10 None no map;31:40 None no map;",
    ),
    (
        LAST_ROW,
        1,
        "false 0:0 None no map;4294967295:0 None no map;",
    ),
    (
        LAST_ROW,
        0,
        "true 0:0 None no map;4294967295:0 None no map;",
    ),
];

#[test]
fn sections_move_down_all_or_none(rt: HostRuntime) -> Checked {
    let alloc = rt.alloc();
    for (text, rows, want) in MOVED.iter() {
        check(text, move_rows(alloc, text, *rows), want)?;
    }
    Ok(())
}

// An index map with a file name and a debug id. Its second section starts on line 1, and the map of
// this section is an index map.
const FILED: &str = concat!(
    r#"{"file":"test.js","debugId":"0123456789abcdef0123456789abcdef","#,
    r#""sections":[{"offset":{"line":0,"column":7},"url":"u"},{"offset":{"line":1,"#,
    r#""column":3},"map":{"sections":[{"offset":{"line":0,"column":1},"#,
    r#""map":{"sources":["a.js"],"mappings":"AAAA"}}]}}]}"#,
);

const FILED_LOWER: &str = concat!(
    r#"{"file":"test.js","debugId":"0123456789abcdef0123456789abcdef","#,
    r#""sections":[{"offset":{"line":4294967294,"column":7},"url":"u"},"#,
    r#"{"offset":{"line":4294967295,"column":3},"map":{"sections":[{"offset":{"line":0,"#,
    r#""column":1},"map":{"sources":["a.js"],"mappings":"AAAA"}}]}}]}"#,
);

fn move_and_compare(
    alloc: Global,
    index: &mut SourceMapIndex,
    rows: u32,
    after: &SourceMapIndex,
) -> Result<String> {
    let fits = index.adjust_sections_offset_rows(rows);
    owned_text(format!(in alloc; "{fits} {}", *index == *after))
}

fn decode_and_move(alloc: Global, text: &str, rows: u32, after: &str) -> Result<String> {
    let after = index_of(alloc, after)?;
    move_and_compare(alloc, &mut *index_of(alloc, text)?, rows, &*after)
}

// Each row: an index map, the number of lines to move its sections down, the expected index map
// after the call, and the wanted text. The text says whether the sections are moved, and whether
// the index map after the call equals the expected index map.
static MOVED_WHOLE: [(&str, u32, &str, &str); 4] = [
    (FILED, 0, FILED, "true true"),
    (FILED, 4294967294, FILED_LOWER, "true true"),
    (FILED, 4294967295, FILED, "false true"),
    (FILED_LOWER, 1, FILED_LOWER, "false true"),
];

#[test]
fn only_rows_change_when_sections_move(rt: HostRuntime) -> Checked {
    let alloc = rt.alloc();
    for (text, rows, after, want) in MOVED_WHOLE.iter() {
        check(text, decode_and_move(alloc, text, *rows, after), want)?;
    }
    Ok(())
}
