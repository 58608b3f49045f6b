//! Offsets of far columns in the lines of sources, so that a position is found in any order without
//! reading its line from the start.
ghost use Rattle.std.specs.Prelude.{◌≡◌, ◌<◌, ℕ, List, IfErr, IfOk, IfSome, OnOk, Some};
ghost use Rattle.std.specs.Option.{option_copied};
ghost use Rattle.std.specs.Str.{IsUtf8};
ghost use Rattle.sourcemap_errors.specs.declared.errors.Error.TheVariants.{OutOfMemory};
ghost use Rattle.sourcemap_source_views.specs.Columns.{IsOffset};
ghost use Rattle.sourcemap_map_regular.specs.Map.{MapValue};
ghost use Rattle.sourcemap_check_texts.specs.Checkpoints.{AreCheckpoints, is_not_after, is_on_line};
ghost use Rattle.sourcemap_check_texts.specs.Doubts.{original_line};
ghost use Rattle.sourcemap_check_texts.specs.Sources.{Files, line_of, source_text};

use crate::sources::source_text;
use crate::spots::find_near;
use sourcemap_errors::errors::Result;
use sourcemap_map_regular::map::SourceMap;
use sourcemap_source_views::columns::LineOffset;
use sourcemap_source_views::sourceview::SourceView;
use sourcemap_tokens::tokens::RawToken;
use std::alloc::Global;

/// The start of a line.
pub(crate) const START: LineOffset = LineOffset {
    offset: 0,
    units: 0,
};

// So many UTF-16 units lie between two checkpoints of a line.
const APART: u64 = 1024;

// An offset of a line of a source.
#[derive(Clone, Copy)]
pub(crate) struct Checkpoint {
    source: u32,
    line: u32,
    at: LineOffset,
}

impl Checkpoint {
    // Whether it is on the original line of a token.
    fn is_on_line(&self, token: RawToken) -> bool
        ensures { result ≡ is_on_line self.now token }
    {
        self.source == token.src_id && self.line == token.src_line
    }

    // Whether it is not after the original position of a token.
    fn is_not_after(&self, token: RawToken) -> bool
        ensures { result ≡ is_not_after self.now token }
    {
        if self.source != token.src_id {
            return self.source < token.src_id;
        }
        if self.line != token.src_line {
            return self.line < token.src_line;
        }
        self.at.units <= u64::from(token.src_col)
    }
}

// The offset of the column 1024 units further. `None` if the line is too short.
fn next_offset(line: &str, from: LineOffset) -> Option<LineOffset>
    requires { IsOffset line.now from.offset from.units }
    ensures offset { IfSome result (λ at. IsOffset line.now at.offset at.units) }
    ensures ahead { IfSome result (λ at. from.units < at.units) }
{
    if line.len().saturating_sub(from.offset) < APART as usize {
        return None;
    }
    let column = from.units.checked_add(APART)?;
    let at = find_near(line, from, column)?;
    (at.units >= column).then_some(at)
}

// Adds the checkpoints of a line.
fn add_line(found: &mut Vec<Checkpoint>, source: u32, number: u32, line: &str) -> Result<()>
    ensures added { (m : MapValue) (files : Files) → AreCheckpoints m files found.old.items
        → line_of m files source number ≡ Some line.now
        → OnOk result (AreCheckpoints m files found.new.items) }
    ensures memory { IfErr result (λ e. e ≡ OutOfMemory) }
{
    let mut from = START;
    while let Some(at) = next_offset(line, from) {
        found.push(Checkpoint {
            source,
            line: number,
            at,
        })?;
        from = at;
    }
    Ok(())
}

// Adds the checkpoints of a text's first 4294967295 lines.
fn add_text(found: &mut Vec<Checkpoint>, source: u32, text: &SourceView) -> Result<()>
    ensures added { (m : MapValue) (files : Files) → AreCheckpoints m files found.old.items
        → source_text m files source ≡ Some text.now
        → OnOk result (AreCheckpoints m files found.new.items) }
    ensures memory { IfErr result (λ e. e ≡ OutOfMemory) }
{
    let count = u32::try_from(text.line_count()).unwrap_or(u32::MAX);
    for number in 0..count {
        if let Some(line) = text.get_line(number) {
            add_line(found, source, number, line)?;
        }
    }
    Ok(())
}

/// The checkpoints of the long lines of a map's sources, in order of their positions. The only error
/// is `OutOfMemory`.
pub(crate) fn checkpoints(
    alloc: Global,
    map: &SourceMap,
    files: Option<&[Option<SourceView>]>,
) -> Result<Vec<Checkpoint>>
    ensures are { IfOk result
        (λ found. AreCheckpoints map.now (option_copied files.entry) found.items) }
    ensures memory { IfErr result (λ e. e ≡ OutOfMemory) }
{
    let mut found = Vec::new(alloc);
    for source in 0..map.get_source_count() {
        if let Some(text) = source_text(map, files, source) {
            add_text(&mut found, source, text)?;
        }
    }
    Ok(found)
}

// The last checkpoint of the original line of a token that is not after its original position,
// otherwise the start of the line. From any other offset of the line the token is found too, later.
pub(crate) fn start_near(checkpoints: &[Checkpoint], token: RawToken) -> LineOffset
    ensures { (m : MapValue) (files : Files) (line : List ℕ) → IsUtf8 line
        → AreCheckpoints m files checkpoints.now → original_line m files token ≡ Some line
        → IsOffset line result.offset result.units }
{
    let before = checkpoints.partition_point(|checkpoint| checkpoint.is_not_after(token));
    match checkpoints[..before].last() {
        Some(checkpoint) if checkpoint.is_on_line(token) => checkpoint.at,
        _ => START,
    }
}
