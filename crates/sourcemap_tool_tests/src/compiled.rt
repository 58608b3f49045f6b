// Runs of `compile`, and of `lookup` and `trace` on compiled maps.
use crate::fake_files::files_with;
use crate::memory::unless_out;
use crate::runs::{MAP, RUNS, named_input, words_of};
use sourcemap::{Error, decode_slice};
use sourcemap_cache::{CompiledMap, CompiledMapError, WithContents};
use sourcemap_cli::command::Command;
use sourcemap_cli::output::apply;
use sourcemap_cli::program::run;
use sourcemap_test_support::checks::{Checked, check_that};
use std::alloc::{AllocError, Global};
use std::test::Fail;

const POSITIONS: &str = "0:5\n0:18\nx\n1:0";

// How a run on these bytes ends, and what it prints. The file `a.txt` has `POSITIONS`.
fn run_on(rt: &HostRuntime, line: &str, input: &[u8]) -> Result<(u8, Vec<u8>), Fail> {
    let words = words_of(rt.alloc(), line)?;
    let files = files_with("a.txt", POSITIONS);
    let mut rest = input;
    let mut output = Vec::new(rt.alloc());
    let status = run(&files, rt.alloc(), words.as_slice(), &mut rest, &mut output)?;
    unless_out(status, output.as_slice())?;
    Ok((status, output))
}

/// Checks that a run on these bytes prints this text and a newline, and ends with this status.
pub fn check_run(rt: &HostRuntime, line: &str, input: &[u8], status: u8, text: &str) -> Checked {
    let (ended, output) = run_on(rt, line, input)?;
    let is_text = output.as_slice().strip_suffix(b"\n") == Some(text.as_bytes());
    check_that(line, ended == status && is_text)
}

// The file that `compile` prints, or an error.
fn compiled(rt: &HostRuntime, line: &str, map: &str) -> Result<Vec<u8>, Fail> {
    let (status, output) = run_on(rt, line, map.as_bytes())?;
    check_that(map, status == 0)?;
    Ok(output)
}

// Checks a row of `RUNS` on the compiled map, if it is a lookup with an answer.
fn check_row(rt: &HostRuntime, row: &str) -> Checked {
    let (line, rest) = row.split_once('|').ok_or("a short row")?;
    let (input, want) = rest.split_once('|').ok_or("a short row")?;
    match want.strip_prefix("0 ") {
        Some(text) if line.starts_with("lookup") => {
            let file = compiled(rt, "compile", named_input(input))?;
            check_run(rt, line, file.as_slice(), 0, text)
        }
        _ => Ok(()),
    }
}

#[test]
fn compiled_maps_are_looked_up(rt: HostRuntime) -> Checked {
    for row in RUNS.lines() {
        check_row(&rt, row)?;
    }
    Ok(())
}

#[test]
fn compiled_maps_are_traced(rt: HostRuntime) -> Checked {
    let file = compiled(&rt, "compile --without-contents", MAP)?;
    let file = file.as_slice();
    check_run(
        &rt,
        "trace a.txt",
        file,
        0,
        "coolstuff.js:0:4 name=x\ncoolstuff.js:2:2 name=alert\nbad position\ncoolstuff.js:2:8",
    )?;
    check_run(
        &rt,
        "trace --from-1 a.txt",
        file,
        0,
        "bad position\nbad position\nbad position\nbad position",
    )?;
    check_run(&rt, "trace b.txt", file, 1, "entity not found")?;
    check_run(&rt, "tokens", file, 1, "bad json: the text is not JSON")
}

// The file of a map without tokens and texts: a header of 64 bytes, and where the one text, the name
// of the generated file, starts and ends.
const EMPTY: [u8; 72] = [
    0x8f, b'S', b'M', b'C', 1, 0, 0, 0, 72, 0, 0, 0, 0, 0, 0, 0, 0, 0, 0, 0, 0, 0, 0, 0, 0, 0, 0,
    0, 0, 0, 0, 0, 0, 0, 0, 0, 0, 0, 0, 0, 0, 0, 0, 0, 0, 0, 0, 0, 64, 0, 0, 0, 0, 0, 0, 0, 0, 0,
    0, 0, 0, 0, 0, 0, 72, 0, 0, 0, 72, 0, 0, 0,
];

// What is compiled, and what is printed instead of a file.
static REFUSED: [(&str, &str); 4] = [
    ("", "bad json: the text is not JSON"),
    ("[]", "bad json: a field has the wrong type"),
    (
        r#"{"sections":[{"offset":{"line":0,"column":0},"url":"u"}]}"#,
        "cannot flatten the indexed sourcemap: Section has an unresolved sourcemap: u",
    ),
    (
        r#"{"sections":[{"offset":{"line":4294967295,"column":0},"map":{"sources":["a.js"],"mappings":";AAAA"}}]}"#,
        "cannot flatten the indexed sourcemap: a position passes 4294967295",
    ),
];

#[test]
fn files_are_printed(rt: HostRuntime) -> Checked {
    let file = compiled(&rt, "compile", "{}")?;
    check_that("{}", file.as_slice() == EMPTY.as_slice())?;
    for (map, text) in REFUSED.iter() {
        check_run(&rt, "compile", map.as_bytes(), 1, text)?;
    }
    Ok(())
}

const WITH_CONTENTS: &str = r#"{"sources":["a.js"],"sourcesContent":["x"],"mappings":"AAAA"}"#;

fn contents(file: &[u8]) -> Result<Option<&str>, CompiledMapError> {
    CompiledMap::parse(file)?.source_contents(0)
}

#[test]
fn contents_are_a_choice(rt: HostRuntime) -> Checked {
    let file = compiled(&rt, "compile", WITH_CONTENTS)?;
    check_that("with", contents(file.as_slice()) == Ok(Some("x")))?;
    let file = compiled(&rt, "compile --without-contents", WITH_CONTENTS)?;
    check_that("without", contents(file.as_slice()) == Ok(None))
}

// A byte of `EMPTY` that is changed, and why the file is refused.
static DAMAGED: [(usize, u8, &str); 5] = [
    (4, 2, "unknown version of a compiled map: 2"),
    (8, 73, "the compiled map is truncated"),
    (8, 71, "a table of the compiled map has a wrong extent"),
    (12, 1, "a table of the compiled map has a wrong extent"),
    (68, 73, "a text passes the end of the compiled map"),
];

fn damaged(alloc: Global, file: &[u8], at: usize, byte: u8) -> Result<Vec<u8>, AllocError> {
    let mut copy = Vec::from_slice(alloc, file)?;
    if let Some(place) = copy.get_mut(at) {
        *place = byte;
    }
    Ok(copy)
}

#[test]
fn damaged_files_are_refused(rt: HostRuntime) -> Checked {
    for (at, byte, text) in DAMAGED.iter() {
        let file = damaged(rt.alloc(), &EMPTY, *at, *byte)?;
        check_run(&rt, "lookup 0 0", file.as_slice(), 1, text)?;
        check_run(&rt, "trace b.txt", file.as_slice(), 1, text)?;
    }
    let short = EMPTY.get(..4).unwrap_or(&[]);
    check_run(&rt, "lookup 0 0", short, 1, "the compiled map is truncated")?;
    let shorter = EMPTY.get(..3).unwrap_or(&[]);
    check_run(
        &rt,
        "lookup 0 0",
        shorter,
        1,
        "bad json: the text is not JSON",
    )
}

// The last text is the name `alert`, with a zero byte after it.
#[test]
fn names_that_are_no_text_are_refused(rt: HostRuntime) -> Checked {
    let file = compiled(&rt, "compile", MAP)?;
    let at = file.len().saturating_sub(2);
    let file = damaged(rt.alloc(), file.as_slice(), at, 0xff)?;
    check_run(
        &rt,
        "lookup 0 0",
        file.as_slice(),
        1,
        "a text of the compiled map is not UTF-8",
    )
}

#[test]
fn compiling_is_not_applied(rt: HostRuntime) -> Checked {
    let map = decode_slice(rt.alloc(), MAP.as_bytes())?;
    let command = Command::Compile(WithContents::Yes);
    match apply(&rt, rt.alloc(), &command, map, None) {
        Err(Error::OutOfMemory) => Err(Error::OutOfMemory.into()),
        answer => check_that(
            "compile",
            matches!(answer, Err(Error::IncompatibleSourceMap)),
        ),
    }
}
