// The shift after which most words stand where a map says.
use sourcemap_check_texts::shifts::{Matches, generated_shift, original_shift};
use sourcemap_errors::errors::Result;
use sourcemap_map_regular::map::SourceMap;
use sourcemap_source_views::sourceview::SourceView;
use sourcemap_test_support::checks::{Checked, check};
use std::alloc::Global;

// What it is about, the contents of the source, the text `mappings`, and the counts: words, those
// that stand where the map says, those that do after the shift, the shift, whether it is suspicious.
static SOURCES: [(&str, &str, &str, &str); 14] = [
    (
        "right",
        "alpha\\nbeta\\ngamma\\ndelta",
        "AAAAA,CACAC,CACAC,CACAC",
        "4 4 4 0:0 false",
    ),
    (
        "a line before",
        "//\\nalpha\\nbeta\\ngamma\\ndelta",
        "AAAAA,CACAC,CACAC,CACAC",
        "4 0 4 1:0 true",
    ),
    (
        "a banner",
        "/*\\n *\\n */\\nalpha\\nbeta\\ngamma\\ndelta",
        "AAAAA,CACAC,CACAC,CACAC",
        "4 0 4 3:0 true",
    ),
    (
        "a line less",
        "beta\\ngamma\\ndelta",
        "AAAAA,CACAC,CACAC,CACAC",
        "4 0 3 -1:0 false",
    ),
    (
        "a column before",
        " alpha\\n beta\\n gamma\\n delta",
        "AAAAA,CACAC,CACAC,CACAC",
        "4 0 4 0:1 true",
    ),
    (
        "a column less",
        "alpha\\nbeta\\ngamma\\ndelta",
        "AAACA,CACAC,CACAC,CACAC",
        "4 0 4 0:-1 true",
    ),
    (
        "a line was put in",
        "alpha\\nbeta\\n\\ngamma\\ndelta",
        "AAAAA,CACAC,CACAC,CACAC",
        "4 2 2 0:0 false",
    ),
    (
        "another text",
        "one\\ntwo\\nthree\\nfour",
        "AAAAA,CACAC,CACAC,CACAC",
        "4 0 0 0:0 false",
    ),
    (
        "an empty text",
        "",
        "AAAAA,CACAC,CACAC,CACAC",
        "4 0 0 0:0 false",
    ),
    (
        "pairs before",
        "😀 alpha\\n😀 beta\\n😀 gamma\\n😀 delta",
        "AAAGA,CACAC,CACAC,CACAC",
        "4 4 4 0:0 false",
    ),
    ("no names", "alpha", "AAAA,CAAA", "none"),
    ("a name of one letter", "e", "AAAAI", "none"),
    (
        "the first of equal shifts",
        "alpha alpha",
        "AAAGA,CAAAA,CAAAA,CAAAA",
        "4 0 4 0:3 true",
    ),
    (
        "the nearest of equal shifts",
        "alpha  alpha",
        "AAAEA,CAAAA,CAAAA,CAAAA",
        "4 0 4 0:-2 true",
    ),
];

// The same for the generated text. The source has a word on each of four lines.
static TEXTS: [(&str, &str, &str, &str); 11] = [
    (
        "right",
        "alpha\nbeta\ngamma\ndelta",
        "AAAA;AACA;AACA;AACA",
        "4 4 4 0:0 false",
    ),
    (
        "a banner",
        "/*\n *\n */\nalpha\nbeta\ngamma\ndelta",
        "AAAA;AACA;AACA;AACA",
        "4 0 4 3:0 true",
    ),
    (
        "a column before",
        "(alpha\n(beta\n(gamma\n(delta",
        "AAAA;AACA;AACA;AACA",
        "4 0 4 0:1 true",
    ),
    (
        "a line less",
        "alpha\nbeta\ngamma\ndelta",
        ";AAAA;AACA;AACA;AACA",
        "4 0 4 -1:0 true",
    ),
    (
        "another build",
        "delta\ngamma\nbeta\nalpha",
        "AAAA;AACA;AACA;AACA",
        "4 0 1 1:0 false",
    ),
    (
        "replaced words",
        "a\nb\nc\nd",
        "AAAA;AACA;AACA;AACA",
        "4 0 0 0:0 false",
    ),
    (
        "a name is not looked for",
        "alpha",
        "AAAAI",
        "1 1 1 0:0 false",
    ),
    ("no words", "alpha", "AAAK,CAEA", "none"),
    (
        "no such line, so a name",
        "gamma",
        "AAKAE",
        "1 1 1 0:0 false",
    ),
    ("the last column", "x", "+/HAAA", "1 0 0 0:0 false"),
    ("a far column", "x", "ggIAAA", "none"),
];

// A source with the names `alpha`, `beta`, `gamma`, `delta` and `e`.
fn map_of(alloc: Global, contents: &str, mappings: &str) -> Result<SourceMap> {
    let text = format!(in alloc;
        "{{\"version\":3,\"sources\":[\"a\"],\"sourcesContent\":[\"{contents}\"],\"names\":[\"alpha\",\"beta\",\"gamma\",\"delta\",\"e\"],\"mappings\":\"{mappings}\"}}"
    )?;
    SourceMap::from_slice(alloc, text.as_bytes())
}

fn counts_text(alloc: Global, found: Option<Matches>) -> Result<String> {
    match found {
        Some(matches) => {
            let is_suspicious = matches.is_suspicious();
            let Matches {
                shift,
                looked_at,
                unshifted,
                shifted,
            } = matches;
            let lines = shift.lines;
            let columns = shift.columns;
            let text = format!(in alloc;
                "{looked_at} {unshifted} {shifted} {lines}:{columns} {is_suspicious}"
            )?;
            Ok(text)
        }
        None => Ok(String::from_str(alloc, "none")?),
    }
}

// No source has a file.
fn source_counts(alloc: Global, contents: &str, mappings: &str) -> Result<String> {
    let map = map_of(alloc, contents, mappings)?;
    let files: Vec<Option<SourceView>> = Vec::new(alloc);
    counts_text(alloc, original_shift(alloc, &map, Some(files.as_slice()))?)
}

fn text_counts(alloc: Global, generated: &str, mappings: &str) -> Result<String> {
    let map = map_of(alloc, "alpha\\nbeta\\ngamma\\ndelta", mappings)?;
    let view = SourceView::new(alloc, generated)?;
    counts_text(alloc, generated_shift(alloc, &map, None, &view)?)
}

#[test]
fn names_stand_after_shifts(rt: HostRuntime) -> Checked {
    for (name, contents, mappings, counts) in &SOURCES {
        check(name, source_counts(rt.alloc(), contents, mappings), counts)?;
    }
    Ok(())
}

#[test]
fn words_stand_after_shifts(rt: HostRuntime) -> Checked {
    for (name, generated, mappings, counts) in &TEXTS {
        check(name, text_counts(rt.alloc(), generated, mappings), counts)?;
    }
    Ok(())
}

// The map has no contents.
fn file_counts(alloc: Global, generated: Option<&str>) -> Result<String> {
    let json =
        r#"{"version":3,"sources":["a"],"names":["alpha","beta","gamma","delta"],"mappings":"AAAAA;AACAC;AACAC;AACAC"}"#;
    let map = SourceMap::from_slice(alloc, json.as_bytes())?;
    let mut files = Vec::new(alloc);
    let file = SourceView::new(alloc, "//\nalpha\nbeta\ngamma\ndelta")?;
    files.push(Some(file))?;
    let found = match generated {
        Some(text) => {
            let view = SourceView::new(alloc, text)?;
            generated_shift(alloc, &map, Some(files.as_slice()), &view)?
        }
        None => original_shift(alloc, &map, Some(files.as_slice()))?,
    };
    counts_text(alloc, found)
}

#[test]
fn words_of_files_are_looked_at(rt: HostRuntime) -> Checked {
    check("names", file_counts(rt.alloc(), None), "4 0 4 1:0 true")?;
    check(
        "words, but `//` is none",
        file_counts(rt.alloc(), Some("x\n//\nalpha\nbeta\ngamma")),
        "3 0 3 1:0 false",
    )
}
