// Maps that are compiled, and what the files answer. Expected values are worked out by hand.
use crate::maps::map_of;
use sourcemap::{DecodedMap, Error, Result};
use sourcemap_cache::{CompiledMap, CompiledMapError, CompiledToken, WithContents, compile};
use sourcemap_test_support::checks::{Checked, check};
use sourcemap_test_support::results::{error_of, owned_text};
use std::alloc::Global;

// Tokens at columns 0, 4, 9 of line 0 and at column 2 of line 1.
const REGULAR: &str = concat!(
    r#"{"version":3,"file":"out.js","sourceRoot":"/r","sources":["/a/x.js","b.js"],"#,
    r#""sourcesContent":["x",null],"names":["f","g"],"#,
    r#""mappings":"AAAAA,ICAAC,KDCA;EAEE"}"#,
);

// A range token at column 0, and no other.
const RANGE: &str = r#"{"version":3,"sources":["a.js"],"mappings":"AAAO","rangeMappings":"B"}"#;

// Tokens at columns 0 and 5, in the functions `<global>` and `foo`.
const HERMES: &str = concat!(
    r#"{"version":3,"sources":["a.js"],"mappings":"AAAA,KACK","#,
    r#""x_facebook_sources":[[{"names":["<global>","foo"],"mappings":"AAA,KCC"}]]}"#,
);

// Sections at 0:0 and 10:4. Both have the source `a.js`.
const INDEX: &str = concat!(
    r#"{"sections":[{"offset":{"line":0,"column":0},"map":"#,
    r#"{"sources":["a.js"],"sourcesContent":["x"],"mappings":"AAAA"}},"#,
    r#"{"offset":{"line":10,"column":4},"map":{"sources":["a.js","b.js"],"mappings":"AAAA,CCEA"}}]}"#,
);

const EMPTY: &str = r#"{"version":3,"sources":[],"mappings":""}"#;

// The second section has no map.
const UNRESOLVED: &str = r#"{"sections":[{"offset":{"line":1,"column":4},"url":"u"}]}"#;

// A map, a generated position, and what the file answers: source, line and column, name, scope.
static ANSWERS: [(&str, u32, u32, &str); 16] = [
    (REGULAR, 0, 0, "/a/x.js:0:0 f -"),
    (REGULAR, 0, 3, "/a/x.js:0:0 f -"),
    (REGULAR, 0, 4, "/r/b.js:0:0 g -"),
    (REGULAR, 0, 9, "/a/x.js:1:0 - -"),
    (REGULAR, 1, 1, "/a/x.js:1:0 - -"),
    (REGULAR, 1, 2, "/a/x.js:3:2 - -"),
    (REGULAR, 4294967295, 4294967295, "/a/x.js:3:2 - -"),
    (RANGE, 0, 5, "a.js:0:12 - -"),
    (RANGE, 1, 5, "a.js:0:7 - -"),
    (HERMES, 0, 0, "a.js:0:0 - <global>"),
    (HERMES, 0, 5, "a.js:1:5 - foo"),
    (INDEX, 9, 0, "a.js:0:0 - -"),
    (INDEX, 10, 3, "a.js:0:0 - -"),
    (INDEX, 10, 4, "a.js:0:0 - -"),
    (INDEX, 10, 5, "b.js:2:0 - -"),
    (EMPTY, 0, 0, "none"),
];

// A map, a source id, and the contents: with contents, and without.
static CONTENTS: [(&str, u32, &str, &str); 4] = [
    (REGULAR, 0, "x", "-"),
    (REGULAR, 1, "-", "-"),
    (REGULAR, 2, "-", "-"),
    (INDEX, 0, "x", "-"),
];

fn file_of(alloc: Global, text: &str, contents: WithContents) -> Result<Vec<u8>> {
    let map = map_of(alloc, text)?;
    let file = compile(alloc, &*map, contents)?;
    Ok(file)
}

fn shown(found: std::result::Result<Option<&str>, CompiledMapError>) -> &str {
    match found {
        Ok(Some(text)) => text,
        Ok(None) => "-",
        Err(_) => "?",
    }
}

fn token_text(alloc: Global, token: Option<CompiledToken<'_>>) -> Result<String> {
    let Some(token) = token else {
        return owned_text(String::from_str(alloc, "none"));
    };
    let source = shown(token.get_source());
    let (line, column) = token.get_src();
    let name = shown(token.get_name());
    let scope = shown(token.get_scope());
    owned_text(format!(in alloc; "{source}:{line}:{column} {name} {scope}"))
}

fn answer_of(alloc: Global, file: &[u8], line: u32, column: u32) -> Result<String> {
    match CompiledMap::parse(file) {
        Ok(map) => token_text(alloc, map.lookup_token(line, column)),
        Err(error) => owned_text(format!(in alloc; "{error}")),
    }
}

fn answer(alloc: Global, text: &str, line: u32, column: u32) -> Result<String> {
    let file = file_of(alloc, text, WithContents::Yes)?;
    answer_of(alloc, file.as_slice(), line, column)
}

#[test]
fn positions(rt: HostRuntime) -> Checked {
    let alloc = rt.alloc();
    for (text, line, column, want) in ANSWERS.iter() {
        check(text, answer(alloc, text, *line, *column), want)?;
    }
    Ok(())
}

fn contents_in(alloc: Global, file: &[u8], id: u32) -> Result<String> {
    let text = match CompiledMap::parse(file) {
        Ok(map) => shown(map.source_contents(id)),
        Err(_) => "?",
    };
    owned_text(String::from_str(alloc, text))
}

fn contents(alloc: Global, text: &str, id: u32, choice: WithContents) -> Result<String> {
    let file = file_of(alloc, text, choice)?;
    contents_in(alloc, file.as_slice(), id)
}

#[test]
fn contents_of_sources(rt: HostRuntime) -> Checked {
    let alloc = rt.alloc();
    for (text, id, with, without) in CONTENTS.iter() {
        check(text, contents(alloc, text, *id, WithContents::Yes), with)?;
        check(text, contents(alloc, text, *id, WithContents::No), without)?;
    }
    Ok(())
}

fn name_of_file(alloc: Global, text: &str) -> Result<String> {
    let file = file_of(alloc, text, WithContents::No)?;
    let name = match CompiledMap::parse(file.as_slice()) {
        Ok(map) => shown(map.file()),
        Err(_) => "?",
    };
    owned_text(String::from_str(alloc, name))
}

#[test]
fn names_of_files(rt: HostRuntime) -> Checked {
    check("regular", name_of_file(rt.alloc(), REGULAR), "out.js")?;
    check("index", name_of_file(rt.alloc(), INDEX), "-")
}

#[test]
fn refusals(rt: HostRuntime) -> Checked {
    let alloc = rt.alloc();
    let got = error_of(alloc, file_of(alloc, UNRESOLVED, WithContents::Yes));
    let want = "cannot flatten the indexed sourcemap: Section has an unresolved sourcemap: u";
    check("unresolved", got, want)
}
