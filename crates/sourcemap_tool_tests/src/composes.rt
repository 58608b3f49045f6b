// Runs of `compose FILE`.
use crate::fake_files::{FakeFiles, files_with};
use crate::memory::unless_out;
use crate::runs::words_of;
use sourcemap_cli::program::{reply_to, run};
use std::io;
use std::io::ErrorKind;
use std::test::Fail;

// A map, the file's text, the status and output of the run, and whether the file was opened. It is
// not opened if the map is invalid.
const ROWS: &str =
    r#"{"sources":["o.js"],"mappings":"AAAA,KAAK"}|{"sources":["t.js"],"mappings":"EAAA"}|0 {"mappings":"EAAA,KAAK","names":[],"sources":["o.js"],"version":3}|opened
{"sources":["a.js"],"mappings":"AAAO","rangeMappings":"B"}|{"sources":["t.js"],"mappings":"EAAU"}|0 {"mappings":"EAAiB","names":[],"rangeMappings":"B","sources":["a.js"],"version":3}|opened
{"sources":["a.js"],"mappings":"AAAO"}|{"sources":["t.js"],"mappings":"EAAU"}|0 {"mappings":"EAAO","names":[],"sources":["a.js"],"version":3}|opened
{"sources":["o.js"],"mappings":"AAAA"}|{"mappings":"A"}|0 {"mappings":"","names":[],"sources":["o.js"],"version":3}|opened
{"file":"f","sources":["o.js"],"names":["n"],"sourcesContent":["x"],"sourceRoot":"r","ignoreList":[0],"mappings":"AAAAA"}|{"file":"g","sources":["t.js"],"names":["z"],"mappings":"EAAAA"}|0 {"file":"f","ignoreList":[0],"mappings":"EAAAA","names":["n"],"sourceRoot":"r","sources":["o.js"],"sourcesContent":["x"],"version":3}|opened
{"sources":["o.js"],"mappings":"AAAA"}|{"sources":["t.js"],"mappings":"+/////HAAA"}|0 {"mappings":"+/////HAAA","names":[],"sources":["o.js"],"version":3}|opened
{"sources":["o.js"],"mappings":"AAAA,CAAC"}|{"sources":["t.js"],"mappings":"+/////HAAA"}|1 encountered incompatible sourcemap format|opened
{"sources":["o.js"],"mappings":"AAAA,KAAK"}|{"sources":["t.js"],"mappings":"AAAA,AAAK"}|0 {"mappings":"AAAA,AAAK","names":[],"sources":["o.js"],"version":3}|opened
{"sections":[]}|{"sources":["t.js"],"mappings":"EAAA"}|1 encountered incompatible sourcemap format|opened
{"sources":["o.js"],"mappings":"AAAA"}|{"sections":[]}|1 encountered incompatible sourcemap format|opened
{"sections":[]}|{"sections":[]}|1 encountered incompatible sourcemap format|opened
{"sources":["o.js"],"mappings":"AAAA"}|{"sources":["t.js"],"mappings":"EAAA","x_facebook_sources":[]}|1 encountered incompatible sourcemap format|opened
{"sources":["o.js"],"mappings":"AAAA","x_facebook_sources":[]}|{"sources":["t.js"],"mappings":"EAAA"}|1 encountered incompatible sourcemap format|opened
{"sections":[]}|{"mappings":"AAAA"}|1 bad reference to source #0|opened
{}|[]|1 bad json: a field has the wrong type|opened
{}||1 bad json: the text is not JSON|opened
{"mappings":"AAAAAA"}|{"mappings":"AAAA"}|1 got 6 segments, expected 4 or 5|closed
[]||1 bad json: a field has the wrong type|closed
|[]|1 bad json: the text is not JSON|closed"#;

// A row of `ROWS`.
#[derive(Drop)]
struct Row<'a> {
    input: &'a str,
    file: &'a str,
    status: u8,
    text: &'a str,
    is_opened: bool,
}

fn row_of(line: &str) -> Result<Row<'_>, Fail> {
    let (input, rest) = line.split_once('|').ok_or("a short row")?;
    let (file, rest) = rest.split_once('|').ok_or("a short row")?;
    let (want, opened) = rest.split_once('|').ok_or("a short row")?;
    let (status, text) = want.split_once(' ').ok_or("a short row")?;
    Ok(Row {
        input,
        file,
        status: status.parse()?,
        text,
        is_opened: opened == "opened",
    })
}

// Whether `text` is `want` and a newline.
fn is_line(text: &[u8], want: &str) -> bool {
    text.strip_suffix(b"\n") == Some(want.as_bytes())
}

// Calls `reply_to` once, with the input and the file of a row. Returns whether the reply has the
// status of the row, and the text of the row plus a newline.
fn replies_with(rt: &HostRuntime, words: &[String], row: &Row<'_>) -> Result<bool, Fail> {
    let bytes = Vec::from_slice(rt.alloc(), row.input.as_bytes())?;
    let file = Vec::from_slice(rt.alloc(), row.file.as_bytes())?;
    let reply = reply_to(rt, rt.alloc(), words, bytes, Ok(file))?;
    Ok(reply.status == row.status && is_line(reply.output.as_slice(), row.text))
}

// Whether a run with these files prints this line and ends with this status.
fn is_run(
    rt: &HostRuntime,
    files: &FakeFiles<'_>,
    words: &[String],
    input: &str,
    status: u8,
    text: &str,
) -> Result<bool, Fail> {
    let mut output = Vec::new(rt.alloc());
    let ended = run(files, rt.alloc(), words, &mut input.as_bytes(), &mut output)?;
    unless_out(ended, output.as_slice())?;
    Ok(ended == status && is_line(output.as_slice(), text))
}

// Whether a run with the file of a row ends as the row says.
fn is_met(rt: &HostRuntime, words: &[String], row: &Row<'_>) -> Result<bool, Fail> {
    let files = files_with("a.map", row.file);
    let is_so = is_run(rt, &files, words, row.input, row.status, row.text)?;
    Ok(is_so && files.is_opened.get() == row.is_opened)
}

#[test]
fn maps_are_composed(rt: HostRuntime) -> Result<(), Fail> {
    let words = words_of(rt.alloc(), "compose a.map")?;
    for line in ROWS.lines() {
        let row = row_of(line)?;
        assert!(rt; replies_with(&rt, words.as_slice(), &row)?, "{line}");
        assert!(rt; is_met(&rt, words.as_slice(), &row)?, "{line}");
    }
    Ok(())
}

// `MAP` is the input, and `ADJUSTMENT` is the map in the file.
const MAP: &str = r#"{"sources":["o.js"],"mappings":"AAAA,KAAK"}"#;

const ADJUSTMENT: &str = r#"{"sources":["t.js"],"mappings":"EAAA"}"#;

// Runs the tool with `MAP` as input. The file `a.map` contains `ADJUSTMENT`, and its reads fail
// after `left` bytes. Returns whether the run prints `broken pipe` and a newline and ends with
// status 1.
fn is_refused(rt: &HostRuntime, words: &[String], left: usize) -> Result<bool, Fail> {
    let mut files = files_with("a.map", ADJUSTMENT);
    files.left = Some(left);
    is_run(rt, &files, words, MAP, 1, "broken pipe")
}

#[test]
fn a_file_that_fails_is_refused(rt: HostRuntime) -> Result<(), Fail> {
    let words = words_of(rt.alloc(), "compose a.map")?;
    for left in 0..=ADJUSTMENT.len() {
        assert!(rt;
            is_refused(&rt, words.as_slice(), left)?,
            "after {left} bytes"
        );
    }
    Ok(())
}

#[test]
fn a_file_that_is_missing_is_refused(rt: HostRuntime) -> Result<(), Fail> {
    let words = words_of(rt.alloc(), "compose b.map")?;
    let files = files_with("a.map", ADJUSTMENT);
    assert!(rt; is_run(&rt, &files, words.as_slice(), MAP, 1, "entity not found")?);
    let faulty = is_run(
        &rt,
        &files,
        words.as_slice(),
        "",
        1,
        "bad json: the text is not JSON",
    )?;
    assert!(rt; faulty);
    Ok(())
}

#[test]
fn read_errors_of_files_are_reported(rt: HostRuntime) -> Result<(), Fail> {
    let words = words_of(rt.alloc(), "compose b.map")?;
    let bytes = Vec::from_slice(rt.alloc(), MAP.as_bytes())?;
    let cause = io::Error::from(ErrorKind::NotFound);
    let reply = reply_to(&rt, rt.alloc(), words.as_slice(), bytes, Err(cause.into()))?;
    assert!(rt; reply.status == 1 && is_line(reply.output.as_slice(), "entity not found"));
    Ok(())
}

#[test]
fn no_other_command_opens_a_file(rt: HostRuntime) -> Result<(), Fail> {
    let words = words_of(rt.alloc(), "lookup 0 5")?;
    let files = files_with("a.map", ADJUSTMENT);
    assert!(rt; is_run(&rt, &files, words.as_slice(), MAP, 0, "o.js:0:5")?);
    assert!(rt; !files.is_opened.get());
    Ok(())
}
