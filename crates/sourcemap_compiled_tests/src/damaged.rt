// Maps with some bytes changed, cut maps, and longer ones.
use crate::maps::{ONE, map_named};
use crate::texts::{indexed_text, lookup_text, parsed_texts, verified};
use sourcemap_test_support::checks::{Checked, check};
use std::alloc::{AllocError, Global};

type Change = (usize, u8);

// Each row: what it is about, changes to the bytes of `ONE` (offset and byte), and the wanted text
// of the error of parsing.
static REFUSED: [(&str, &[Change], &str); 11] = [
    ("magic number", &[(0, 0x8e)], "not a compiled map"),
    ("its last byte", &[(3, b'c')], "not a compiled map"),
    ("version", &[(4, 2)], "unknown version of a compiled map: 2"),
    (
        "greatest version",
        &[(4, 255), (5, 255), (6, 255), (7, 255)],
        "unknown version of a compiled map: 4294967295",
    ),
    (
        "a greater length",
        &[(8, 153)],
        "the compiled map is truncated",
    ),
    (
        "a smaller length",
        &[(8, 151)],
        "a table of the compiled map has a wrong extent",
    ),
    (
        "tokens",
        &[(12, 255), (13, 255), (14, 255), (15, 255)],
        "a table of the compiled map has a wrong extent",
    ),
    (
        "sources",
        &[(19, 255)],
        "a table of the compiled map has a wrong extent",
    ),
    (
        "names",
        &[(23, 255)],
        "a table of the compiled map has a wrong extent",
    ),
    (
        "contents",
        &[(27, 255)],
        "a table of the compiled map has a wrong extent",
    ),
    (
        "scopes",
        &[(55, 255)],
        "a table of the compiled map has a wrong extent",
    ),
];

// Each row: what it is about, a map, changes, and the wanted text of `verify`.
static VERIFIED: [(&str, &str, &[Change], &str); 17] = [
    (
        "columns 0, 201, 200",
        "bytes",
        &[(65, 201)],
        "the compiled map is out of order at token 2",
    ),
    (
        "columns 0, 10, 9",
        "bytes",
        &[(66, 9)],
        "the compiled map is out of order at token 2",
    ),
    ("columns 0, 10, 10", "bytes", &[(66, 10)], "ok"),
    ("a start at column 10", "bytes", &[(144, 10)], "ok"),
    (
        "a start at column 11",
        "bytes",
        &[(144, 11)],
        "the compiled map is out of order at token 1",
    ),
    ("a start at line 1", "bytes", &[(148, 1)], "ok"),
    (
        "a second start at the first",
        "block_and_one",
        &[(176, 0)],
        "the compiled map is out of order at token 64",
    ),
    (
        "a second start at the last column ahead",
        "block_and_one",
        &[(176, 126)],
        "ok",
    ),
    (
        "the order comes first",
        "block_and_one",
        &[(176, 125), (260, 255)],
        "the compiled map is out of order at token 64",
    ),
    (
        "source",
        "one",
        &[(136, 255)],
        "a text of the compiled map is not UTF-8",
    ),
    (
        "name",
        "one",
        &[(141, 255)],
        "a text of the compiled map is not UTF-8",
    ),
    (
        "scope",
        "one",
        &[(143, 255)],
        "a text of the compiled map is not UTF-8",
    ),
    (
        "file",
        "one",
        &[(145, 255)],
        "a text of the compiled map is not UTF-8",
    ),
    (
        "contents",
        "one",
        &[(150, 255)],
        "a text of the compiled map is not UTF-8",
    ),
    (
        "an end past the file",
        "one",
        &[(132, 153)],
        "a text passes the end of the compiled map",
    ),
    (
        "an end before its start",
        "one",
        &[(112, 142)],
        "a text passes the end of the compiled map",
    ),
    (
        "the first text comes first",
        "one",
        &[(136, 255), (132, 153)],
        "a text of the compiled map is not UTF-8",
    ),
];

// Each row: what it is about, changes to the bytes of `ONE`, and the wanted texts: of source, name,
// scope, contents and file.
static TEXTS: [(&str, &[Change], &str); 10] = [
    (
        "source",
        &[(136, 255)],
        "a text of the compiled map is not UTF-8|f|g|x|o.js",
    ),
    (
        "name",
        &[(141, 255)],
        "a.js|a text of the compiled map is not UTF-8|g|x|o.js",
    ),
    (
        "scope",
        &[(143, 255)],
        "a.js|f|a text of the compiled map is not UTF-8|x|o.js",
    ),
    (
        "contents",
        &[(150, 255)],
        "a.js|f|g|a text of the compiled map is not UTF-8|o.js",
    ),
    (
        "file",
        &[(145, 255)],
        "a.js|f|g|x|a text of the compiled map is not UTF-8",
    ),
    (
        "an end past the file",
        &[(132, 153)],
        "a.js|f|g|a text passes the end of the compiled map|o.js",
    ),
    (
        "an end before its start",
        &[(112, 142)],
        "a text passes the end of the compiled map|f|g|x|o.js",
    ),
    (
        "an empty source, and a longer name",
        &[(116, 137)],
        "|.js\0f|g|x|o.js",
    ),
    (
        "no source, and a longer name",
        &[(116, 136)],
        "-|a.js\0f|g|x|o.js",
    ),
    (
        "tables that end with the file",
        &[(48, 88)],
        "x|a text passes the end of the compiled map|a text passes the end of the compiled map|a text passes the end of the compiled map|a text passes the end of the compiled map",
    ),
];

// Each row: what it is about, a map, changes, a line, a column, and the wanted text of
// the token.
static LOOKUPS: [(&str, &str, &[Change], u32, u32, &str); 9] = [
    (
        "a body at the texts",
        "one",
        &[(80, 145)],
        2,
        5,
        "0 2:5 a.js 7:9 f g",
    ),
    (
        "a body at the last byte",
        "one",
        &[(80, 151)],
        2,
        5,
        "0 2:5 a.js 7:9 f -",
    ),
    (
        "a body past the end",
        "one",
        &[(83, 255)],
        2,
        5,
        "0 2:5 a.js 7:9 f -",
    ),
    (
        "seven bits of a width",
        "one",
        &[(111, 65)],
        2,
        5,
        "0 2:5 a.js 7:9 f g",
    ),
    (
        "a scope past the count",
        "scopes",
        &[(52, 1)],
        0,
        9,
        "2 0:9 a.js 0:2 - -",
    ),
    (
        "a start at another column",
        "bytes",
        &[(144, 5)],
        0,
        5,
        "0 0:5 a.js 0:0 - -",
    ),
    (
        "a start at another line",
        "bytes",
        &[(148, 3)],
        3,
        11,
        "1 3:10 a.js 1:0 - -",
    ),
    (
        "columns 0, 201, 200",
        "bytes",
        &[(65, 201)],
        0,
        200,
        "0 0:0 a.js 0:0 - -",
    ),
    (
        "columns 0, 201, 200",
        "bytes",
        &[(65, 201)],
        0,
        300,
        "2 0:200 a.js 2:0 - -",
    ),
];

fn changed(alloc: Global, bytes: &[u8], changes: &[Change]) -> Result<Vec<u8>, AllocError> {
    let mut copy = Vec::from_slice(alloc, bytes)?;
    for (offset, byte) in changes {
        if let Some(place) = copy.get_mut(*offset) {
            *place = *byte;
        }
    }
    Ok(copy)
}

#[test]
fn refused_maps(rt: HostRuntime) -> Checked {
    for (row, changes, want) in &REFUSED {
        let bytes = changed(rt.alloc(), &ONE, changes)?;
        check(row, parsed_texts(rt.alloc(), &bytes), want)?;
    }
    Ok(())
}

#[test]
fn cut_and_longer_maps(rt: HostRuntime) -> Checked {
    let truncated = "the compiled map is truncated";
    for length in 0..ONE.len() {
        check("cut", parsed_texts(rt.alloc(), &ONE[..length]), truncated)?;
    }
    let mut longer = Vec::from_slice(rt.alloc(), &ONE)?;
    longer.push(0)?;
    let wrong = "a table of the compiled map has a wrong extent";
    check("longer", parsed_texts(rt.alloc(), &longer), wrong)?;
    let bytes = changed(rt.alloc(), &ONE, &[(48, 89)])?;
    check(
        "tables that pass the end",
        parsed_texts(rt.alloc(), &bytes),
        wrong,
    )
}

#[test]
fn verified_maps(rt: HostRuntime) -> Checked {
    for (row, map, changes, want) in &VERIFIED {
        let bytes = changed(rt.alloc(), map_named(map), changes)?;
        check(row, verified(rt.alloc(), &bytes), want)?;
    }
    Ok(())
}

#[test]
fn damaged_texts(rt: HostRuntime) -> Checked {
    for (row, changes, want) in &TEXTS {
        let bytes = changed(rt.alloc(), &ONE, changes)?;
        check(row, parsed_texts(rt.alloc(), &bytes), want)?;
    }
    Ok(())
}

#[test]
fn damaged_lookups(rt: HostRuntime) -> Checked {
    for (row, map, changes, line, column, want) in &LOOKUPS {
        let bytes = changed(rt.alloc(), map_named(map), changes)?;
        check(row, lookup_text(rt.alloc(), &bytes, *line, *column), want)?;
    }
    Ok(())
}

#[test]
fn tokens_out_of_order(rt: HostRuntime) -> Checked {
    let bytes = changed(rt.alloc(), map_named("bytes"), &[(65, 201)])?;
    check(
        "column 201",
        indexed_text(rt.alloc(), &bytes, 1),
        "1 0:201 a.js 1:0 - -",
    )?;
    check(
        "column 200",
        indexed_text(rt.alloc(), &bytes, 2),
        "2 0:200 a.js 2:0 - -",
    )
}
