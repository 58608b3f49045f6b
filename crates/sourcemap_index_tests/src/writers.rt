// Maps of each kind are written to writers that take one byte a write. Some writers fail after a
// number of bytes. Other writers are interrupted before each byte. Some of the interrupted writers
// take only a limited number of bytes in total. Maps are also written to buffers passed by value.
use crate::maps::map_of;
use sourcemap::encoder::encode;
use sourcemap::errors::{Error, Result};
use sourcemap::types::DecodedMap;
use sourcemap_test_support::checks::{Checked, check};
use sourcemap_test_support::results::owned_text;
use sourcemap_test_support::writers::{HaltingWriter, NarrowWriter};
use std::alloc::Global;
use std::io::{BufWriter, Write};
use std::str;

// A regular map, a Hermes map and an index, as they are written.
static WRITTEN: [&str; 3] = [
    r#"{"mappings":"A","names":[],"sources":[],"version":3}"#,
    r#"{"mappings":"AAAA","names":[],"sources":["a.js"],"version":3,"x_facebook_sources":[null]}"#,
    r#"{"sections":[{"map":null,"offset":{"column":4,"line":1},"url":"u"}],"sources":null,"version":3}"#,
];

// No text that these tests write has more than `LONGEST` bytes.
const LONGEST: usize = 1 << 12;

// The writer that a map is written to.
#[derive(Clone, Copy)]
enum Way {
    // a writer whose writes fail after this many bytes; `None` is no limit
    Failing(Option<usize>),
    // a writer that is interrupted before each byte, and takes at most this many bytes in total;
    // `None` is no limit
    Halting(Option<usize>),
    // a buffer that the `to_writer` of the map's kind consumes
    Buffered,
    // a buffer that `encode` consumes; `encode` writes maps of any kind
    AnyBuffered,
}

// Writes a map by the `to_writer` of its kind.
fn put<W: Write + Drop>(map: &DecodedMap, writer: W) -> Result<()> {
    match map {
        DecodedMap::Regular(map) => map.to_writer(writer),
        DecodedMap::Hermes(map) => map.to_writer(writer),
        DecodedMap::Index(map) => map.to_writer(writer),
    }
}

fn held_text(alloc: Global, held: &[u8], outcome: Result<()>) -> Result<String> {
    let held = str::from_utf8(held)?;
    match outcome {
        Ok(()) => owned_text(String::from_str(alloc, held)),
        Err(Error::OutOfMemory) => Err(Error::OutOfMemory),
        Err(error) => owned_text(format!(in alloc; "{held} {error}")),
    }
}

fn narrow(alloc: Global, left: Option<usize>) -> NarrowWriter {
    NarrowWriter {
        held: Vec::new(alloc),
        left,
    }
}

fn by_failing(alloc: Global, map: &DecodedMap, left: Option<usize>) -> Result<String> {
    let mut writer = narrow(alloc, left);
    let outcome = put(map, &mut writer);
    held_text(alloc, writer.held.as_slice(), outcome)
}

fn by_halting(alloc: Global, map: &DecodedMap, left: Option<usize>) -> Result<String> {
    let mut writer = HaltingWriter {
        held: Vec::new(alloc),
        left,
        is_interrupted: false,
    };
    let outcome = put(map, &mut writer);
    held_text(alloc, writer.held.as_slice(), outcome)
}

fn put_buffered(alloc: Global, map: &DecodedMap, writer: &mut NarrowWriter) -> Result<()> {
    put(map, BufWriter::new(alloc, writer)?)
}

fn encode_buffered(alloc: Global, map: &DecodedMap, writer: &mut NarrowWriter) -> Result<()> {
    encode(alloc, map, BufWriter::new(alloc, writer)?)
}

// A dropped `BufWriter` writes its remaining bytes and ignores errors. `NarrowWriter` gets enough
// memory beforehand, so these writes cannot run out of memory.
fn by_buffer(alloc: Global, map: &DecodedMap, is_any: bool) -> Result<String> {
    let mut writer = NarrowWriter {
        held: Vec::with_capacity(alloc, LONGEST)?,
        left: None,
    };
    let outcome = if is_any {
        encode_buffered(alloc, map, &mut writer)
    } else {
        put_buffered(alloc, map, &mut writer)
    };
    held_text(alloc, writer.held.as_slice(), outcome)
}

fn describe(alloc: Global, map: &DecodedMap, way: Way) -> Result<String> {
    match way {
        Way::Failing(left) => by_failing(alloc, map, left),
        Way::Halting(left) => by_halting(alloc, map, left),
        Way::Buffered => by_buffer(alloc, map, false),
        Way::AnyBuffered => by_buffer(alloc, map, true),
    }
}

fn write_by(alloc: Global, text: &str, way: Way) -> Result<String> {
    describe(alloc, &*map_of(alloc, text)?, way)
}

static WHOLE: [Way; 4] = [
    Way::Failing(None),
    Way::Halting(None),
    Way::Buffered,
    Way::AnyBuffered,
];

fn check_whole(alloc: Global, text: &str) -> Checked {
    for way in WHOLE.iter() {
        check(text, write_by(alloc, text, *way), text)?;
    }
    Ok(())
}

#[test]
fn all_bytes_are_written(rt: HostRuntime) -> Checked {
    let alloc = rt.alloc();
    for text in WRITTEN.iter() {
        check_whole(alloc, text)?;
    }
    Ok(())
}

// Checks that a text is written up to `most` bytes, and that the error follows.
fn check_cut(alloc: Global, text: &str, way: Way, (most, error): (usize, &str)) -> Checked {
    let held = text.get(..most).unwrap_or("none");
    let want = format!(in alloc; "{held} {error}")?;
    check(text, write_by(alloc, text, way), want.as_str())
}

fn check_cuts(alloc: Global, text: &str) -> Checked {
    for most in 0..text.len() {
        check_cut(alloc, text, Way::Failing(Some(most)), (most, "broken pipe"))?;
        let full = (most, "failed to write whole buffer");
        check_cut(alloc, text, Way::Halting(Some(most)), full)?;
    }
    Ok(())
}

#[test]
fn each_write_may_fail_or_take_nothing(rt: HostRuntime) -> Checked {
    let alloc = rt.alloc();
    for text in WRITTEN.iter() {
        check_cuts(alloc, text)?;
    }
    Ok(())
}
