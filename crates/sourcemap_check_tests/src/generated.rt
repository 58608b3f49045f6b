// Tokens that do not fit the generated text.
use sourcemap_check_suspicious::codes::code_of;
use sourcemap_check_suspicious::suspects::Suspicion;
use sourcemap_check_texts::generated::{GENERATED_DOUBTS, GeneratedDoubt, doubtful_positions};
use sourcemap_errors::errors::Result;
use sourcemap_map_regular::map::SourceMap;
use sourcemap_source_views::sourceview::SourceView;
use sourcemap_test_support::checks::{Checked, check, check_that};
use std::alloc::Global;

// What it is about, the text `mappings`, the generated text, and each doubt with the index of the
// token.
static TOKENS: [(&str, &str, &str, &str); 15] = [
    ("the start", "A", "ab", ""),
    ("the end of a line", "E", "ab", ""),
    ("past the end of a line", "G", "ab", "232@0 "),
    ("the end of a last line", ";E", "ab\ncd", ""),
    ("past the end of a last line", ";G", "ab\ncd", "232@0 "),
    ("a line after the last newline", ";A", "ab\r\n", ""),
    ("past that line", ";;A", "ab\r\n", "231@0 "),
    ("an empty text", "A", "", ""),
    ("a column of an empty text", "C", "", "232@0 "),
    ("a line of an empty text", ";A", "", "231@0 "),
    ("in the middle of a pair", "C", "😀c", "233@0 "),
    ("twice there", "C,A", "😀c", "233@0 233@1 "),
    ("after the pair", "E", "😀c", ""),
    (
        "one after another",
        "A,C,C,C,C,C",
        "😀c",
        "232@4 232@5 233@1 ",
    ),
    (
        "back to a line",
        "G;C;A,C,C",
        "ab\n😀\nd",
        "232@0 232@4 233@1 ",
    ),
];

fn map_of(alloc: Global, mappings: &str) -> Result<SourceMap> {
    let text = format!(in alloc; "{{\"version\":3,\"sources\":[],\"mappings\":\"{mappings}\"}}")?;
    SourceMap::from_slice(alloc, text.as_bytes())
}

fn doubts_text(alloc: Global, mappings: &str, generated: &str) -> Result<String> {
    let map = map_of(alloc, mappings)?;
    let view = SourceView::new(alloc, generated)?;
    let mut text = String::new(alloc);
    for doubt in GENERATED_DOUBTS {
        let places = doubtful_positions(alloc, &map, &view, doubt, 9)?;
        let code = code_of(Suspicion::Generated(doubt));
        for index in &places.first {
            text.push_str(format!(in alloc; "{code}@{index} ")?.as_str())?;
        }
    }
    Ok(text)
}

#[test]
fn positions_miss_the_text(rt: HostRuntime) -> Checked {
    for (name, mappings, generated, doubts) in &TOKENS {
        check(name, doubts_text(rt.alloc(), mappings, generated), doubts)?;
    }
    Ok(())
}

#[test]
fn positions_are_counted(rt: HostRuntime) -> Checked {
    let alloc = rt.alloc();
    let map = map_of(alloc, "A,C,C,C")?;
    let view = SourceView::new(alloc, "")?;
    let places = doubtful_positions(alloc, &map, &view, GeneratedDoubt::PastLine, 2)?;
    check_that("two are kept", places.first.as_slice() == [1, 2].as_slice())?;
    check_that("three are counted", places.count == 3)
}
