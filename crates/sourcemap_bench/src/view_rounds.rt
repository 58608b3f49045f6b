//! Rounds of an operation on views of texts, and their checksums.
ghost use Rattle.std.specs.Prelude.{◌≡◌, IfOk};
ghost use Rattle.sourcemap_bench.specs.ViewSums.{line_sum, name_sum, rounds_sum};

use crate::command::ViewOperation;
use crate::starts::walk_starts;
use crate::view_sums::{line_sum, name_sum};
use sourcemap::{Result, SourceMap, SourceView};
use std::alloc::Global;
use std::str;

// Makes a view of a text, iterates over its lines, and returns the new checksum.
fn view_sum(alloc: Global, text: &str, sum: u32) -> Result<u32>
    ensures { IfOk result (λ new. new ≡ line_sum text.now sum) }
{
    let view = SourceView::new(alloc, text)?;
    Ok(line_sum(&view, sum))
}

fn line_rounds(alloc: Global, text: &str, rounds: u32) -> Result<u32>
    ensures { IfOk result (λ sum. sum ≡ rounds_sum (line_sum text.now) rounds) }
{
    let mut sum = 0;
    for _ in 0..rounds {
        sum = view_sum(alloc, text, sum)?;
    }
    Ok(sum)
}

// Each round tries to guess a name at each position in `starts`.
fn name_rounds(map: &SourceMap, view: &SourceView, starts: &[(u32, u32)], rounds: u32) -> u32
    ensures { result ≡ rounds_sum (name_sum map.now view.now starts.now) rounds }
{
    let mut sum = 0;
    for _ in 0..rounds {
        sum = name_sum(map, view, starts, sum);
    }
    sum
}

// The map is on the first line of `lines`. All text after this line is the generated text. If
// `lines` has no `\n`, the text of the map counts as empty, so the call fails.
fn guessed_rounds(alloc: Global, lines: &str, rounds: u32) -> Result<u32> {
    let (line, text) = lines.split_once('\n').unwrap_or_default();
    let map = SourceMap::from_slice(alloc, line.as_bytes())?;
    let view = SourceView::new(alloc, text)?;
    let starts = walk_starts(alloc, &map)?;
    Ok(name_rounds(&map, &view, starts.as_slice(), rounds))
}

/// Repeats an operation and returns the checksum of all rounds. For `Lines`, `bytes` are the text.
/// For `Names`, the first line of `bytes` is a source map, and all text after this line is the
/// generated text.
pub fn repeat_on_view(
    alloc: Global,
    operation: ViewOperation,
    rounds: u32,
    bytes: &[u8],
) -> Result<u32> {
    let text = str::from_utf8(bytes)?;
    match operation {
        ViewOperation::Lines => line_rounds(alloc, text, rounds),
        ViewOperation::Names => guessed_rounds(alloc, text, rounds),
    }
}
