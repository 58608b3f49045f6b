// Lookups in maps that are in order, and their tokens by index.
use crate::maps::{EMPTY, GREATEST, ONE, map_named};
use crate::texts::{indexed_text, lookup_text, looped_text, parsed_counts, parsed_texts, verified};
use sourcemap_compiled::map::{COMPILED_MAGIC, COMPILED_VERSION, CompiledMap};
use sourcemap_test_support::checks::{Checked, check, check_that};
use sourcemap_tokens::tokens::{NO_ID, RawToken};

// Each row: a map, a line, a column, and the wanted text of the token.
static LOOKUPS: [(&str, u32, u32, &str); 37] = [
    ("empty", 0, 0, "none"),
    ("empty", 4294967295, 4294967295, "none"),
    ("one", 0, 4294967295, "none"),
    ("one", 2, 4, "none"),
    ("one", 2, 5, "0 2:5 a.js 7:9 f g"),
    ("one", 2, 6, "0 2:5 a.js 7:9 f g"),
    ("one", 4294967295, 0, "0 2:5 a.js 7:9 f g"),
    ("block", 0, 0, "0 0:0 a.js 0:0 - -"),
    ("block", 0, 1, "0 0:0 a.js 0:0 - -"),
    ("block", 0, 2, "1 0:2 a.js 1:0 - -"),
    ("block", 0, 125, "62 0:124 a.js 62:0 - -"),
    ("block", 0, 126, "63 0:126 a.js 63:0 - -"),
    ("block", 0, 127, "63 0:126 a.js 63:0 - -"),
    ("block", 1, 0, "63 0:126 a.js 63:0 - -"),
    ("block_and_one", 0, 126, "63 0:126 a.js 63:0 - -"),
    ("block_and_one", 0, 127, "63 0:126 a.js 63:0 - -"),
    ("block_and_one", 0, 128, "64 0:128 a.js 64:0 - -"),
    ("block_and_one", 0, 129, "64 0:128 a.js 64:0 - -"),
    ("equal", 0, 59, "59 0:59 a.js 59:0 n -"),
    ("equal", 0, 99, "59 0:59 a.js 59:0 n -"),
    ("equal", 0, 100, "60 0:100 a.js 60:0 n -"),
    ("equal", 0, 101, "69 0:100 a.js 69:0 n -"),
    ("greatest", 4294967295, 4294967294, "none"),
    (
        "greatest",
        4294967295,
        4294967295,
        "0 4294967295:4294967295 - 4294967295:4294967295 - -",
    ),
    ("range", 0, 3, "0 0:3 a.js 1:4294967290 - - range"),
    ("range", 0, 4, "0 0:3 a.js 1:4294967291 - - range"),
    ("range", 0, 8, "0 0:3 a.js 1:4294967295 - - range"),
    ("range", 0, 9, "0 0:3 a.js 1:4294967295 - - range"),
    ("range", 0, 204, "1 0:203 a.js 1:4294967290 - -"),
    ("range", 1, 5, "2 1:3 a.js 1:4294967292 - - range"),
    ("range", 2, 5, "2 1:3 a.js 1:4294967290 - - range"),
    ("scopes", 0, 4, "0 0:0 a.js 0:0 - -"),
    ("scopes", 0, 5, "1 0:5 a.js 0:1 - main"),
    ("scopes", 0, 8, "1 0:5 a.js 0:1 - main"),
    ("scopes", 0, 9, "2 0:9 a.js 0:2 - foo"),
    ("scopes", 0, 12, "3 0:12 a.js 0:3 - -"),
    ("scopes", 7, 0, "3 0:12 a.js 0:3 - -"),
];

// Each row: a map, an index, and the wanted text of the token.
static TOKENS: [(&str, usize, &str); 20] = [
    ("empty", 0, "none"),
    ("one", 0, "0 2:5 a.js 7:9 f g"),
    ("one", 1, "none"),
    ("one", 4294967296, "none"),
    ("one", 18446744073709551615, "none"),
    ("block", 0, "0 0:0 a.js 0:0 - -"),
    ("block", 1, "1 0:2 a.js 1:0 - -"),
    ("block", 63, "63 0:126 a.js 63:0 - -"),
    ("block", 64, "none"),
    ("block_and_one", 63, "63 0:126 a.js 63:0 - -"),
    ("block_and_one", 64, "64 0:128 a.js 64:0 - -"),
    ("block_and_one", 65, "none"),
    ("equal", 60, "60 0:100 a.js 60:0 n -"),
    ("equal", 61, "61 0:100 a.js 61:0 n -"),
    ("equal", 63, "63 0:100 a.js 63:0 n -"),
    ("equal", 64, "64 0:100 a.js 64:0 n -"),
    ("equal", 69, "69 0:100 a.js 69:0 n -"),
    ("equal", 70, "none"),
    ("range", 0, "0 0:3 a.js 1:4294967290 - - range"),
    ("scopes", 1, "1 0:5 a.js 0:1 - main"),
];

// Each row: a map, the wanted counts, and the wanted texts.
static MAPS: [(&str, &str, &str); 8] = [
    ("empty", "0 0 0 0", "-|-|-|-|-"),
    ("one", "1 1 1 1", "a.js|f|g|x|o.js"),
    ("block", "64 1 0 0", "a.js|-|-|-|-"),
    ("block_and_one", "65 1 0 0", "a.js|-|-|-|-"),
    ("equal", "70 1 1 0", "a.js|n|-|-|-"),
    ("greatest", "1 0 0 0", "-|-|-|-|-"),
    ("range", "3 1 0 0", "a.js|-|-|-|-"),
    ("scopes", "4 1 0 2", "a.js|-|main|-|-"),
];

#[test]
fn closest_tokens(rt: HostRuntime) -> Checked {
    for (name, line, column, want) in &LOOKUPS {
        let bytes = map_named(name);
        check(name, lookup_text(rt.alloc(), bytes, *line, *column), want)?;
        check(name, looped_text(rt.alloc(), bytes, *line, *column), want)?;
    }
    Ok(())
}

#[test]
fn tokens_by_index(rt: HostRuntime) -> Checked {
    for (name, index, want) in &TOKENS {
        check(
            name,
            indexed_text(rt.alloc(), map_named(name), *index),
            want,
        )?;
    }
    Ok(())
}

#[test]
fn whole_maps(rt: HostRuntime) -> Checked {
    for (name, want_counts, want_texts) in &MAPS {
        let bytes = map_named(name);
        check(name, parsed_counts(rt.alloc(), bytes), want_counts)?;
        check(name, parsed_texts(rt.alloc(), bytes), want_texts)?;
        check(name, verified(rt.alloc(), bytes), "ok")?;
    }
    Ok(())
}

#[test]
fn debug_ids() -> Checked {
    let one = CompiledMap::parse(&ONE).ok().and_then(|map| map.debug_id());
    let want = [0, 1, 2, 3, 4, 5, 6, 7, 8, 9, 10, 11, 12, 13, 14, 15];
    check_that("a debug id", one == Some(want))?;
    let none = CompiledMap::parse(&EMPTY)
        .ok()
        .and_then(|map| map.debug_id());
    check_that("no debug id", none.is_none())
}

// The other getters of a token.
fn getters(bytes: &[u8], line: u32, column: u32, want: &RawToken) -> Checked {
    let Ok(map) = CompiledMap::parse(bytes) else {
        return check_that("a map", false);
    };
    let Some(token) = map.lookup_token(line, column) else {
        return check_that("a token", false);
    };
    check_that("raw token", token.get_raw_token() == *want)?;
    let generated = (token.get_dst_line(), token.get_dst_col());
    check_that(
        "generated position",
        generated == (want.dst_line, want.dst_col),
    )?;
    let original = (token.get_src_line(), token.get_src_col());
    check_that(
        "original position",
        original == (want.src_line, want.src_col),
    )?;
    let ids = (token.get_src_id(), token.get_name_id());
    check_that("ids", ids == (want.src_id, want.name_id))?;
    check_that("source", token.has_source() == (want.src_id != NO_ID))?;
    check_that("name", token.has_name() == (want.name_id != NO_ID))?;
    check_that(
        "map",
        token.compiled_map().token_count() == map.token_count(),
    )
}

#[test]
fn getters_of_tokens() -> Checked {
    let one = RawToken {
        dst_line: 2,
        dst_col: 5,
        src_line: 7,
        src_col: 9,
        src_id: 0,
        name_id: 0,
        is_range: false,
    };
    getters(&ONE, 2, 5, &one)?;
    let greatest = RawToken {
        dst_line: 4294967295,
        dst_col: 4294967295,
        src_line: 4294967295,
        src_col: 4294967295,
        src_id: NO_ID,
        name_id: NO_ID,
        is_range: false,
    };
    getters(&GREATEST, 4294967295, 4294967295, &greatest)
}

#[test]
fn constants() -> Checked {
    check_that(
        "magic number",
        COMPILED_MAGIC.to_le_bytes() == [0x8f, b'S', b'M', b'C'],
    )?;
    check_that("version", COMPILED_VERSION == 1)
}
