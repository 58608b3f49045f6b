// Runs of `check`.
use crate::compiled::check_run;
use crate::fake_files::files_with;
use crate::memory::unless_out;
use crate::runs::{MAP, ask_for, words_of};
use sourcemap_check_print::Form;
use sourcemap_cli::checking::{Checking, Strictness};
use sourcemap_cli::command::Command;
use sourcemap_cli::program::run;
use sourcemap_test_support::checks::{Checked, check_that};
use std::alloc::{AllocError, Global};

// An index map with two sections. The first has a map without a version, whose second line has the
// segments `g` and `F`. The second has no map, and starts where the first starts.
const INVALID: &str =
    r#"{"version":3,"sections":[{"offset":{"line":0,"column":0},"map":{"sources":[],"mappings":"A;g,F"}},{"offset":{"line":0,"column":0}}]}"#;

const LINES: &str = "MAP:sections[0].map.version: SM103 there is no version
MAP:sections[0].map.mappings 1:0: SM132 the segment ends within a number
MAP:sections[0].map.mappings 1:1: SM135 the generated column is below 0
MAP:sections[1].map: SM128 there is no map
MAP:sections[1].offset: SM120 the section overlaps the one before it
5 invalid, 0 suspicious, 5 shown";

const JSON: &str = concat!(
    r#"{"counts":{"invalid":5,"shown":5,"suspicious":0},"findings":["#,
    r#"{"code":"SM103","key":"version","position":null,"sections":[0],"#,
    r#""sentence":"there is no version","severity":"invalid"},"#,
    r#"{"code":"SM132","key":"mappings","position":{"index":0,"line":1},"sections":[0],"#,
    r#""sentence":"the segment ends within a number","severity":"invalid"},"#,
    r#"{"code":"SM135","key":"mappings","position":{"index":1,"line":1},"sections":[0],"#,
    r#""sentence":"the generated column is below 0","severity":"invalid"},"#,
    r#"{"code":"SM128","key":"sections[1].map","position":null,"sections":[],"#,
    r#""sentence":"there is no map","severity":"invalid"},"#,
    r#"{"code":"SM120","key":"sections[1].offset","position":null,"sections":[],"#,
    r#""sentence":"the section overlaps the one before it","severity":"invalid"}]}"#,
);

// The map in the second section of the map in the only section has names that are no list.
const NESTED: &str =
    r#"{"version":3,"sections":[{"offset":{"line":0,"column":0},"map":{"version":3,"sections":[{"offset":{"line":0,"column":0},"map":{"version":3,"sources":[],"mappings":""}},{"offset":{"line":1,"column":0},"map":{"version":3,"sources":[],"mappings":"","names":0}}]}}]}"#;

// A map of which nothing looks wrong.
const RIGHT: &str = r#"{"version":3,"sources":["a"],"sourcesContent":["x"],"mappings":"AAAA"}"#;

const NO_CONTENTS: &str = "MAP:sources[0]: SM214 the map has no contents for the source
0 invalid, 1 suspicious, 1 shown";

// The name of the first segment does not stand in the contents, the column of the second is past
// their line, and the third has a lower column than the second. The second source and the second name
// are not used, the second source has no contents. `g` is a cut number, and names a sixth segment.
const DOUBTFUL: &str =
    r#"{"version":3,"sourceRoot":"","sources":["a","b"],"sourcesContent":["xy"],"names":["n","m"],"mappings":"AAAAA,EAAG,D","rangeMappings":"g"}"#;

const DOUBTFUL_LINES: &str = "MAP:mappings at 0:2: SM203 the original line has fewer columns
MAP:mappings at 0:0: SM205 the name does not stand at the original position
MAP:sources[1]: SM211 no token has the source
MAP:names[1]: SM212 no token has the name
MAP:sources[1]: SM214 the map has no contents for the source
MAP:sourceRoot: SM215 sourceRoot changes no source
MAP:mappings 0:2: SM221 the segment has a lower column than the one before it
MAP:rangeMappings: SM223 rangeMappings does not fit mappings
0 invalid, 8 suspicious, 8 shown";

const DOUBTFUL_JSON: &str = concat!(
    r#"{"counts":{"invalid":0,"shown":8,"suspicious":8},"findings":["#,
    r#"{"code":"SM203","key":"mappings","position":{"column":2,"line":0},"sections":[],"#,
    r#""sentence":"the original line has fewer columns","severity":"suspicious"},"#,
    r#"{"code":"SM205","key":"mappings","position":{"column":0,"line":0},"sections":[],"#,
    r#""sentence":"the name does not stand at the original position","severity":"suspicious"},"#,
    r#"{"code":"SM211","key":"sources[1]","position":null,"sections":[],"#,
    r#""sentence":"no token has the source","severity":"suspicious"},"#,
    r#"{"code":"SM212","key":"names[1]","position":null,"sections":[],"#,
    r#""sentence":"no token has the name","severity":"suspicious"},"#,
    r#"{"code":"SM214","key":"sources[1]","position":null,"sections":[],"#,
    r#""sentence":"the map has no contents for the source","severity":"suspicious"},"#,
    r#"{"code":"SM215","key":"sourceRoot","position":null,"sections":[],"#,
    r#""sentence":"sourceRoot changes no source","severity":"suspicious"},"#,
    r#"{"code":"SM221","key":"mappings","position":{"index":2,"line":0},"sections":[],"#,
    r#""sentence":"the segment has a lower column than the one before it","severity":"suspicious"},"#,
    r#"{"code":"SM223","key":"rangeMappings","position":null,"sections":[],"#,
    r#""sentence":"rangeMappings does not fit mappings","severity":"suspicious"}]}"#,
);

// Words, a map, and the status and output of the run.
static RUNS: [(&str, &str, u8, &str); 21] = [
    ("check", INVALID, 1, LINES),
    ("check --strict", INVALID, 1, LINES),
    ("check --json", INVALID, 1, JSON),
    ("check --json --strict", INVALID, 1, JSON),
    ("check", RIGHT, 0, "0 invalid, 0 suspicious, 0 shown"),
    (
        "check --strict",
        RIGHT,
        0,
        "0 invalid, 0 suspicious, 0 shown",
    ),
    (
        "check --json --strict",
        RIGHT,
        0,
        r#"{"counts":{"invalid":0,"shown":0,"suspicious":0},"findings":[]}"#,
    ),
    ("check", MAP, 0, NO_CONTENTS),
    ("check --strict", MAP, 1, NO_CONTENTS),
    ("check", DOUBTFUL, 0, DOUBTFUL_LINES),
    ("check --strict", DOUBTFUL, 1, DOUBTFUL_LINES),
    ("check --json", DOUBTFUL, 0, DOUBTFUL_JSON),
    ("check --json --strict", DOUBTFUL, 1, DOUBTFUL_JSON),
    ("check", SHIFTED, 0, SHIFTED_LINES),
    ("check --strict", ONE_COLUMN_OFF, 1, ONE_COLUMN_OFF_LINES),
    (
        "check",
        NESTED,
        1,
        "MAP:sections[0].map.sections[1].map.names: SM111 names is no list of texts\n1 invalid, 0 suspicious, 1 shown",
    ),
    (
        "check --json",
        NESTED,
        1,
        r#"{"counts":{"invalid":1,"shown":1,"suspicious":0},"findings":[{"code":"SM111","key":"names","position":null,"sections":[0,1],"sentence":"names is no list of texts","severity":"invalid"}]}"#,
    ),
    (
        "check",
        "",
        1,
        "MAP:: SM101 the bytes are no JSON text\n1 invalid, 0 suspicious, 1 shown",
    ),
    (
        "check --json",
        "[]",
        1,
        r#"{"counts":{"invalid":1,"shown":1,"suspicious":0},"findings":[{"code":"SM102","key":"","position":null,"sections":[],"sentence":"the JSON value is no object","severity":"invalid"}]}"#,
    ),
    (
        "check",
        r#"{"version":3,"sources":[],"mappings":"AA"}"#,
        1,
        "MAP:mappings 0:0: SM133 the segment does not have 1, 4 or 5 numbers\n1 invalid, 0 suspicious, 1 shown",
    ),
    (
        "check --json",
        r#"{"version":"3","sources":[],"mappings":""}"#,
        1,
        r#"{"counts":{"invalid":1,"shown":1,"suspicious":0},"findings":[{"code":"SM104","key":"version","position":null,"sections":[],"sentence":"version is no number","severity":"invalid"}]}"#,
    ),
];

#[test]
fn reports_are_printed(rt: HostRuntime) -> Checked {
    for (line, map, status, text) in RUNS.iter() {
        check_run(&rt, line, map.as_bytes(), *status, text)?;
    }
    Ok(())
}

// Four names stand in the contents one line after the lines that the map names. Each has a token of
// its own on a generated line.
const SHIFTED: &str =
    r#"{"version":3,"sources":["a"],"sourcesContent":["//\nalpha\nbeta\ngamma\ndelta"],"names":["alpha","beta","gamma","delta"],"mappings":"AAAAA;AACAC;AACAC;AACAC"}"#;

const SHIFTED_LINES: &str =
    "MAP:mappings at 0:0: SM205 the name does not stand at the original position
MAP:mappings at 1:0: SM205 the name does not stand at the original position
MAP:mappings at 2:0: SM205 the name does not stand at the original position
MAP:mappings at 3:0: SM205 the name does not stand at the original position
MAP:mappings by 1:0: SM241 names stand in the sources after this shift
0 invalid, 5 suspicious, 5 shown";

// A word of the source on each of four generated lines.
const LINED: &str =
    r#"{"version":3,"sources":["a"],"sourcesContent":["alpha\nbeta\ngamma\ndelta"],"mappings":"AAAA;AACA;AACA;AACA"}"#;

const BANNER_JSON: &str =
    r#"{"counts":{"invalid":0,"shown":1,"suspicious":1},"findings":[{"code":"SM242","key":"mappings","position":{"columns":0,"lines":3},"sections":[],"sentence":"words stand in the generated text after this shift","severity":"suspicious"}]}"#;

// Words, a map, the text in the file `a.js`, and the status and output of the run.
static BESIDE: [(&str, &str, &str, u8, &str); 11] = [
    (
        "check --generated a.js",
        LINED,
        "alpha\nbeta\ngamma\ndelta\n",
        0,
        "0 invalid, 0 suspicious, 0 shown",
    ),
    (
        "check --json --generated a.js",
        LINED,
        "/*\n *\n */\nalpha\nbeta\ngamma\ndelta\n",
        0,
        BANNER_JSON,
    ),
    (
        "check --json --strict --generated a.js",
        LINED,
        "/*\n *\n */\nalpha\nbeta\ngamma\ndelta\n",
        1,
        BANNER_JSON,
    ),
    (
        "check --strict --generated a.js",
        LINED,
        "(alpha\n(beta\n(gamma\n(delta\n",
        1,
        "MAP:mappings by 0:1: SM242 words stand in the generated text after this shift\n0 invalid, 1 suspicious, 1 shown",
    ),
    (
        "check --generated a.js",
        LINED,
        "x\ny",
        0,
        "MAP:mappings at 2:0: SM231 the generated text has no such line\nMAP:mappings at 3:0: SM231 the generated text has no such line\n0 invalid, 2 suspicious, 2 shown",
    ),
    (
        "check --generated a.js",
        r#"{"version":3,"sources":[],"mappings":"E"}"#,
        "x",
        0,
        "MAP:mappings at 0:2: SM232 the generated line has fewer columns\n0 invalid, 1 suspicious, 1 shown",
    ),
    (
        "check --generated a.js",
        r#"{"version":3,"sources":[]}"#,
        "x",
        1,
        "MAP:mappings: SM115 there is no mappings\n1 invalid, 0 suspicious, 1 shown",
    ),
    ("check --generated b.js", LINED, "x", 1, "entity not found"),
    (
        "check --generated a.js",
        NAMED,
        "x\n//# debugId=00000000-0000-0000-0000-000000000002",
        0,
        "MAP:debugId: SM224 the generated text names another debug id\n0 invalid, 1 suspicious, 1 shown",
    ),
    (
        "check --generated a.js",
        NAMED,
        "x\n//# debugId=00000000-0000-0000-0000-000000000001",
        0,
        "0 invalid, 0 suspicious, 0 shown",
    ),
    (
        "check --generated a.js",
        LINED,
        "delta\ngamma\nbeta",
        0,
        "MAP:mappings at 3:0: SM231 the generated text has no such line\n0 invalid, 1 suspicious, 1 shown",
    ),
];

// A map with a debug id.
const NAMED: &str =
    r#"{"version":3,"sources":[],"mappings":"A","debugId":"00000000-0000-0000-0000-000000000001"}"#;

const OTHER_REFERENCE_JSON: &str =
    r#"{"counts":{"invalid":0,"shown":1,"suspicious":1},"findings":[{"code":"SM225","key":"","position":null,"sections":[],"sentence":"the reference of the generated text ends in another file name","severity":"suspicious"}]}"#;

// A map of which nothing looks wrong, whatever the generated text.
const NO_SEGMENTS: &str = r#"{"version":3,"sources":[],"mappings":""}"#;

// Words, the generated text in the file `a.js`, and the status and output of the run.
static LINKED: [(&str, &str, u8, &str); 10] = [
    (
        "check --generated a.js --name a.js.map",
        "x\n//# sourceMappingURL=b.js.map",
        0,
        "MAP:: SM225 the reference of the generated text ends in another file name\n0 invalid, 1 suspicious, 1 shown",
    ),
    (
        "check --json --strict --generated a.js --name a.js.map",
        "x\n//# sourceMappingURL=b.js.map",
        1,
        OTHER_REFERENCE_JSON,
    ),
    (
        "check --strict --generated a.js --name b.js.map",
        "x\n//# sourceMappingURL=b.js.map",
        0,
        NOTHING,
    ),
    (
        "check --strict --generated a.js",
        "x\n//# sourceMappingURL=b.js.map",
        0,
        NOTHING,
    ),
    (
        "check --strict --name a.js.map",
        "x\n//# sourceMappingURL=b.js.map",
        0,
        NOTHING,
    ),
    (
        "check --strict --generated a.js --name a.js.map",
        "//# sourceMappingURL=maps/a.js.map?v=1",
        0,
        NOTHING,
    ),
    (
        "check --strict --generated a.js --name a.js.map",
        "//# sourceMappingURL=data:application/json;base64,e30=",
        0,
        NOTHING,
    ),
    (
        "check --strict --generated a.js --name a.js.map",
        "//# sourceMappingURL=%61.js.map",
        0,
        NOTHING,
    ),
    (
        "check --strict --generated a.js --name a.js.map",
        "x",
        0,
        NOTHING,
    ),
    (
        "check --generated a.js --name a.js.map --sources src",
        "x\n//# sourceMappingURL=b.js.map",
        0,
        "MAP:: SM225 the reference of the generated text ends in another file name\n0 invalid, 1 suspicious, 1 shown",
    ),
];

const NOTHING: &str = "0 invalid, 0 suspicious, 0 shown";

// Names stand in the contents one column after the columns that the map names.
const ONE_COLUMN_OFF: &str =
    r#"{"version":3,"sources":["a"],"sourcesContent":[" alpha\n beta\n gamma\n delta"],"names":["alpha","beta","gamma","delta"],"mappings":"AAAAA;AACAC;AACAC;AACAC"}"#;

const ONE_COLUMN_OFF_LINES: &str =
    "MAP:mappings at 0:0: SM205 the name does not stand at the original position
MAP:mappings at 1:0: SM205 the name does not stand at the original position
MAP:mappings at 2:0: SM205 the name does not stand at the original position
MAP:mappings at 3:0: SM205 the name does not stand at the original position
MAP:mappings by 0:1: SM241 names stand in the sources after this shift
0 invalid, 5 suspicious, 5 shown";

// Keys of a map, the name and the text of the only file, and the output of `check --sources src`.
static SOURCES: [(&str, &str, &str, &str); 12] = [
    (
        r#""sources":["a"],"sourcesContent":["x"],"mappings":"AAAA""#,
        "src/a",
        "x",
        "0 invalid, 0 suspicious, 0 shown",
    ),
    (
        r#""sources":["a"],"sourcesContent":["x"],"mappings":"AAAA""#,
        "src/a",
        "y",
        "MAP:sources[0]: SM226 the contents are not those of the file\n0 invalid, 1 suspicious, 1 shown",
    ),
    (
        r#""sources":["a"],"sourcesContent":["x"],"mappings":"AAAA""#,
        "a",
        "y",
        "0 invalid, 0 suspicious, 0 shown",
    ),
    (
        r#""sources":["a"],"mappings":"AAAA""#,
        "src/a",
        "x",
        "0 invalid, 0 suspicious, 0 shown",
    ),
    (
        r#""sources":["a"],"mappings":"AAAA""#,
        "src/b",
        "x",
        "MAP:sources[0]: SM227 the source has neither contents nor a file\n0 invalid, 1 suspicious, 1 shown",
    ),
    (
        r#""sources":["../a"],"mappings":"AAAA""#,
        "src/../a",
        "x",
        "MAP:sources[0]: SM227 the source has neither contents nor a file\n0 invalid, 1 suspicious, 1 shown",
    ),
    (
        r#""sources":["/a"],"mappings":"AAAA""#,
        "/a",
        "x",
        "MAP:sources[0]: SM227 the source has neither contents nor a file\n0 invalid, 1 suspicious, 1 shown",
    ),
    (
        r#""sourceRoot":"b","sources":["a",null],"mappings":"AAAA,CCAA""#,
        "src/b/a",
        "x",
        "MAP:sources[1]: SM227 the source has neither contents nor a file\n0 invalid, 1 suspicious, 1 shown",
    ),
    (
        r#""sources":["a"],"names":["n"],"mappings":"AAAA,CAAE,CACFA""#,
        "src/a",
        "x",
        "MAP:mappings at 0:2: SM202 the source has no such line
MAP:mappings at 0:1: SM203 the original line has fewer columns
0 invalid, 2 suspicious, 2 shown",
    ),
    (
        r#""sources":["a"],"sourcesContent":["xyz"],"mappings":"AAAE""#,
        "src/a",
        "x",
        "MAP:sources[0]: SM226 the contents are not those of the file\n0 invalid, 1 suspicious, 1 shown",
    ),
    (
        r#""sources":["a"],"names":["alpha","beta","gamma","delta"],"mappings":"AAAAA;AACAC;AACAC;AACAC""#,
        "src/a",
        " alpha\n beta\n gamma\n delta",
        ONE_COLUMN_OFF_LINES,
    ),
    (
        r#""sections":[]"#,
        "src/a",
        "x",
        "0 invalid, 0 suspicious, 0 shown",
    ),
];

// Words behind `check`, and what they ask for: whether the report is JSON, whether the check is
// strict, the file of the generated text, the name of the map's file, and the folder of the sources.
static OPTIONS: [(&str, bool, bool, Option<&str>, Option<&str>, Option<&str>); 11] = [
    ("", false, false, None, None, None),
    (" --json", true, false, None, None, None),
    (" --strict", false, true, None, None, None),
    (" --json --strict", true, true, None, None, None),
    (
        " --generated --json",
        false,
        false,
        Some("--json"),
        None,
        None,
    ),
    (
        " --json --generated a.js",
        true,
        false,
        Some("a.js"),
        None,
        None,
    ),
    (
        " --name a.js.map",
        false,
        false,
        None,
        Some("a.js.map"),
        None,
    ),
    (" --name --name", false, false, None, Some("--name"), None),
    (
        " --strict --name a.map --sources src",
        false,
        true,
        None,
        Some("a.map"),
        Some("src"),
    ),
    (
        " --strict --sources src",
        false,
        true,
        None,
        None,
        Some("src"),
    ),
    (
        " --json --strict --generated --sources --name --sources --sources src",
        true,
        true,
        Some("--sources"),
        Some("--sources"),
        Some("src"),
    ),
];

// Words behind `check` that ask for nothing: out of their order, or without a value.
static NO_OPTIONS: [&str; 6] = [
    " --name",
    " --name a.map --generated a.js",
    " --sources src --name a.map",
    " --name a.map --strict",
    " --name a.map --name b.map",
    " --name a.map b.map",
];

/// Checks what a run prints, and its status, where the only file has this name and text.
pub fn check_beside(
    rt: &HostRuntime,
    line: &str,
    map: &str,
    file: (&str, &str),
    status: u8,
    text: &str,
) -> Checked {
    let words = words_of(rt.alloc(), line)?;
    let files = files_with(file.0, file.1);
    let mut rest = map.as_bytes();
    let mut output = Vec::new(rt.alloc());
    let ended = run(&files, rt.alloc(), words.as_slice(), &mut rest, &mut output)?;
    unless_out(ended, output.as_slice())?;
    let is_text = output.as_slice().strip_suffix(b"\n") == Some(text.as_bytes());
    check_that(line, ended == status && is_text)
}

#[test]
fn maps_are_checked_beside_texts(rt: HostRuntime) -> Checked {
    for (line, map, generated, status, text) in BESIDE.iter() {
        check_beside(&rt, line, map, ("a.js", generated), *status, text)?;
    }
    Ok(())
}

#[test]
fn references_name_the_file_of_the_map(rt: HostRuntime) -> Checked {
    for (line, generated, status, text) in LINKED.iter() {
        check_beside(&rt, line, NO_SEGMENTS, ("a.js", generated), *status, text)?;
    }
    Ok(())
}

#[test]
fn maps_are_checked_beside_sources(rt: HostRuntime) -> Checked {
    for (keys, path, file, text) in SOURCES.iter() {
        let map = format!(in rt.alloc(); "{{\"version\":3,{keys}}}")?;
        check_beside(
            &rt,
            "check --sources src",
            map.as_str(),
            (path, file),
            0,
            text,
        )?;
    }
    Ok(())
}

// A source that leads out of the folder is not even opened.
#[test]
fn sources_stay_below_the_folder(rt: HostRuntime) -> Checked {
    let map = r#"{"version":3,"sources":["../a","b/../../a","/a",".."],"mappings":""}"#;
    let words = words_of(rt.alloc(), "check --sources src")?;
    let files = files_with("src/../a", "x");
    let mut rest = map.as_bytes();
    let mut output = Vec::new(rt.alloc());
    let ended = run(&files, rt.alloc(), words.as_slice(), &mut rest, &mut output)?;
    unless_out(ended, output.as_slice())?;
    check_that("opened", !files.is_opened.get())
}

fn text(alloc: Global, word: Option<&str>) -> Result<Option<String>, AllocError> {
    match word {
        Some(word) => Ok(Some(String::from_str(alloc, word)?)),
        None => Ok(None),
    }
}

fn form(is_json: bool) -> Form {
    if is_json { Form::Json } else { Form::Lines }
}

fn strictness(is_strict: bool) -> Strictness {
    if is_strict {
        Strictness::Strict
    } else {
        Strictness::Usual
    }
}

#[test]
fn words_ask_for_checks(rt: HostRuntime) -> Checked {
    let alloc = rt.alloc();
    for (words, is_json, is_strict, generated, name, sources) in OPTIONS.iter() {
        let line = format!(in alloc; "check{words}")?;
        let command = Command::Check(Checking {
            form: form(*is_json),
            strictness: strictness(*is_strict),
            generated: text(alloc, *generated)?,
            name: text(alloc, *name)?,
            sources: text(alloc, *sources)?,
        });
        check_that(words, ask_for(alloc, line.as_str(), Some(command))?)?;
    }
    Ok(())
}

#[test]
fn words_out_of_order_ask_for_nothing(rt: HostRuntime) -> Checked {
    let alloc = rt.alloc();
    for words in NO_OPTIONS.iter() {
        let line = format!(in alloc; "check{words}")?;
        check_that(words, ask_for(alloc, line.as_str(), None)?)?;
    }
    Ok(())
}
