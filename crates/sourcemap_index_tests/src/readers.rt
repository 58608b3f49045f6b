// Maps of each kind are read from readers that return one byte a read. These readers are
// interrupted before each read. Some of them fail after a number of reads.
use crate::maps::map_of;
use crate::nested::first_token_text;
use sourcemap::SourceMapHermes;
use sourcemap::decoder::decode;
use sourcemap::errors::{Error, Result};
use sourcemap::types::{DecodedMap, SourceMap, SourceMapIndex};
use sourcemap_test_support::checks::{Checked, check, check_that};
use sourcemap_test_support::readers::HaltingReader;
use sourcemap_test_support::results::{again, box_result, error_of, owned_text};
use std::alloc::Global;
use std::io::ErrorKind;

const REGULAR: &str = r#"{"sources":["a.js"],"mappings":"AAAA"}"#;

const HERMES: &str = r#"{"sources":["a.js"],"mappings":"AAAA","x_facebook_sources":[null]}"#;

const INDEX: &str =
    r#"{"sections":[{"offset":{"line":0,"column":0},"map":{"sources":["a.js"],"mappings":"AAAA"}}]}"#;

// Texts of maps of each kind, and of a regular map after a junk header.
static TEXTS: [&str; 4] = [
    REGULAR,
    HERMES,
    INDEX,
    concat!(")]}'\r\n", r#"{"sources":["a.js"],"mappings":"AAAA"}"#),
];

// A reader of the bytes of `text`. Of the reads that do not return `Interrupted`, the first `reads`
// succeed. Each later one fails with an error of kind `kind`.
fn halting_reader(text: &str, reads: usize, kind: ErrorKind) -> HaltingReader<'_> {
    HaltingReader::new(text.as_bytes(), reads, kind)
}

fn decode_halting(alloc: Global, text: &str, reads: usize) -> Result<String> {
    let reader = halting_reader(text, reads, ErrorKind::TimedOut);
    first_token_text(alloc, box_result(alloc, decode(alloc, reader)))
}

// Whether a reader of a text decodes to the same map as a slice of its bytes.
fn is_read_alike(alloc: Global, text: &str) -> Result<String> {
    let reader = halting_reader(text, usize::MAX, ErrorKind::TimedOut);
    let map = box_result(alloc, DecodedMap::from_reader(alloc, reader))?;
    let sliced = map_of(alloc, text)?;
    owned_text(format!(in alloc; "{}", *sliced == *map))
}

fn check_byte_by_byte(alloc: Global, text: &str) -> Checked {
    check(text, again(|| is_read_alike(alloc, text)), "true")?;
    let got = again(|| decode_halting(alloc, text, usize::MAX));
    check(text, got, "a.js:0:0")
}

#[test]
fn maps_are_read_byte_by_byte(rt: HostRuntime) -> Checked {
    let alloc = rt.alloc();
    for text in TEXTS.iter() {
        check_byte_by_byte(alloc, text)?;
    }
    Ok(())
}

fn check_failing(alloc: Global, text: &str) -> Checked {
    for reads in 0..=text.len() {
        check(text, decode_halting(alloc, text, reads), "timed out")?;
    }
    Ok(())
}

#[test]
fn each_read_may_fail(rt: HostRuntime) -> Checked {
    let alloc = rt.alloc();
    for text in TEXTS.iter() {
        check_failing(alloc, text)?;
    }
    Ok(())
}

// The kind of map that is read. Each kind has its own `from_reader`.
#[derive(Clone, Copy)]
enum Kind {
    Regular,
    Hermes,
    Index,
}

// Reads `text` as a map of kind `kind`. The reader fails after `reads` successful reads. Returns
// the text of the error, or `no error`.
fn read_error(alloc: Global, kind: Kind, text: &str, reads: usize) -> Result<String> {
    let reader = halting_reader(text, reads, ErrorKind::TimedOut);
    match kind {
        Kind::Regular => error_of(alloc, SourceMap::from_reader(alloc, reader)),
        Kind::Hermes => error_of(alloc, SourceMapHermes::from_reader(alloc, reader)),
        Kind::Index => error_of(alloc, SourceMapIndex::from_reader(alloc, reader)),
    }
}

// A kind of map, a text of a map of this kind, and a text of a map of another kind.
static KINDS: [(Kind, &str, &str); 3] = [
    (Kind::Regular, REGULAR, INDEX),
    (Kind::Hermes, HERMES, REGULAR),
    (Kind::Index, INDEX, HERMES),
];

fn check_failing_kind(alloc: Global, kind: Kind, text: &str) -> Checked {
    for reads in 0..=text.len() {
        check(text, read_error(alloc, kind, text, reads), "timed out")?;
    }
    Ok(())
}

#[test]
fn maps_of_one_kind_are_read(rt: HostRuntime) -> Checked {
    let alloc = rt.alloc();
    let incompatible = "encountered incompatible sourcemap format";
    for (kind, text, other) in KINDS.iter() {
        let got = read_error(alloc, *kind, text, usize::MAX);
        check(text, got, "no error")?;
        let got = read_error(alloc, *kind, other, usize::MAX);
        check(other, got, incompatible)?;
        check_failing_kind(alloc, *kind, text)?;
    }
    Ok(())
}

fn ran_out(alloc: Global, text: &str, reads: usize) -> bool {
    let reader = halting_reader(text, reads, ErrorKind::OutOfMemory);
    matches!(decode(alloc, reader), Err(Error::OutOfMemory))
}

#[test]
fn a_read_that_runs_out_of_memory_is_out_of_memory(rt: HostRuntime) -> Checked {
    let alloc = rt.alloc();
    for reads in 0..=REGULAR.len() {
        check_that("out of memory", ran_out(alloc, REGULAR, reads))?;
    }
    Ok(())
}
