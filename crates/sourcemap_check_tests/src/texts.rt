// Tokens that look wrong.
use sourcemap_check_suspicious::codes::code_of;
use sourcemap_check_suspicious::suspects::Suspicion;
use sourcemap_check_texts::tokens::{DOUBTS, doubtful_tokens};
use sourcemap_errors::errors::Result;
use sourcemap_map_regular::map::SourceMap;
use sourcemap_source_views::sourceview::SourceView;
use sourcemap_test_support::checks::{Checked, check};
use std::alloc::Global;

// What it is about, the text `mappings`, and each doubt with the index of the token.
static TOKENS: [(&str, &str, &str); 11] = [
    ("the start", "AAAA", ""),
    ("two originals", "AAAA,AAAC", "201@1 "),
    ("twice the same", "AAAA,AAAA", ""),
    ("another name", "AAACA,AAAAC", "201@1 205@1 "),
    ("the last line", "AACA", ""),
    ("past the last line", "A,CAEA", "202@1 "),
    ("the end of a line", "AAAE", ""),
    ("past the end of a line", "AAAG", "203@0 "),
    ("in the middle of a pair", "AACC", "204@0 "),
    ("after the pair", "AACEE", ""),
    ("a name elsewhere", "AAAAA", "205@0 "),
];

// The lines of the first source of these tokens.
static TEXT: &str = "ab\n😀c";

// What it is about, `sourcesContent` of the first source, the files of both, the text `mappings`,
// and the doubts.
static FILES: [(&str, &str, &[Option<&str>], &str, &str); 9] = [
    ("no file", "null", &[None, None], "AAAG", ""),
    (
        "past a line of the file",
        "null",
        &[Some("ab"), None],
        "AAAG",
        "203@0 ",
    ),
    (
        "past the file",
        "null",
        &[Some("ab"), None],
        "AACA",
        "202@0 ",
    ),
    ("an empty file", "null", &[Some(""), None], "AAAC", "203@0 "),
    (
        "a pair in the file",
        "null",
        &[Some("😀"), None],
        "AAAC",
        "204@0 ",
    ),
    (
        "a name in the file",
        "null",
        &[Some("xb"), None],
        "AAACA,CAACA",
        "205@1 ",
    ),
    (
        "contents before a file",
        r#""abcd""#,
        &[Some("ab"), None],
        "AAAG",
        "",
    ),
    (
        "empty contents are contents",
        r#""""#,
        &[Some("abcd"), None],
        "AAAC",
        "203@0 ",
    ),
    (
        "the file of the second source",
        "null",
        &[None, Some("a")],
        "ACAA,CAAE",
        "203@1 ",
    ),
];

// A map of two sources. The second has no contents.
fn map_of(alloc: Global, contents: &str, mappings: &str) -> Result<SourceMap> {
    let text = format!(in alloc;
        "{{\"version\":3,\"sources\":[\"a\",\"d\"],\"sourcesContent\":[{contents}],\"names\":[\"b\",\"x\",\"c\"],\"mappings\":\"{mappings}\"}}"
    )?;
    SourceMap::from_slice(alloc, text.as_bytes())
}

fn doubts_text(
    alloc: Global,
    map: &SourceMap,
    files: Option<&[Option<SourceView>]>,
) -> Result<String> {
    let mut text = String::new(alloc);
    for doubt in DOUBTS {
        let places = doubtful_tokens(alloc, map, files, doubt, 9)?;
        let code = code_of(Suspicion::Token(doubt));
        for index in &places.first {
            text.push_str(format!(in alloc; "{code}@{index} ")?.as_str())?;
        }
    }
    Ok(text)
}

fn views(alloc: Global, files: &[Option<&str>]) -> Result<Vec<Option<SourceView>>> {
    let mut views = Vec::new(alloc);
    for file in files {
        match file {
            Some(text) => views.push(Some(SourceView::new(alloc, text)?))?,
            None => views.push(None)?,
        }
    }
    Ok(views)
}

fn in_contents(alloc: Global, mappings: &str) -> Result<String> {
    let map = map_of(alloc, r#""ab\n😀c""#, mappings)?;
    doubts_text(alloc, &map, None)
}

fn in_files(
    alloc: Global,
    contents: &str,
    files: &[Option<&str>],
    mappings: &str,
) -> Result<String> {
    let map = map_of(alloc, contents, mappings)?;
    let views = views(alloc, files)?;
    doubts_text(alloc, &map, Some(views.as_slice()))
}

#[test]
fn tokens_look_wrong(rt: HostRuntime) -> Checked {
    for (name, mappings, doubts) in &TOKENS {
        check(name, in_contents(rt.alloc(), mappings), doubts)?;
    }
    Ok(())
}

#[test]
fn a_file_is_looked_at_as_contents_are(rt: HostRuntime) -> Checked {
    for (name, mappings, doubts) in &TOKENS {
        let found = in_files(rt.alloc(), "null", &[Some(TEXT)], mappings);
        check(name, found, doubts)?;
    }
    Ok(())
}

#[test]
fn files_stand_for_missing_contents(rt: HostRuntime) -> Checked {
    for (name, contents, files, mappings, doubts) in &FILES {
        let found = in_files(rt.alloc(), contents, files, mappings);
        check(name, found, doubts)?;
    }
    Ok(())
}
