//! The last generated position of a text.
ghost use Rattle.std.specs.Prelude.{◌≡◌, ◌≤ℤ◌, ℕ, List, [], None, pos, min, unsigned_abs, option_map};
ghost use Rattle.std.specs.Option.{option_or};
ghost use Rattle.sourcemap_check_segments.specs.Segments.{segments_of, sum_at};
ghost use Rattle.sourcemap_check_segments.specs.Last.{column_at, columns_in, greatest_from, last_position};
ghost use Rattle.sourcemap_check_segments.specs.Steps.{IsSegment};

use crate::check::first_part;
use crate::segment::{Segment, read_segment};
use crate::sums::added;

/// A generated position, counted from 0.
#[derive(Clone, Copy, Debug, PartialEq, Eq)]
pub struct Position {
    /// The line.
    pub line: u64,
    /// The column.
    pub column: u64,
}

fn capped(column: i128) -> u64
    requires { pos 0 ≤ℤ column }
    ensures { result ≡ min (unsigned_abs column) 18446744073709551615 }
{
    if column < 18446744073709551615 {
        column as u64
    } else {
        18446744073709551615
    }
}

// The greatest column so far. `column` is that of the segment.
fn further(best: Option<u64>, segment: &Segment, column: i128) -> Option<u64>
    ensures { (line : List (List ℕ)) (bytes : List ℕ) → IsSegment bytes segment.now
        → column ≡ sum_at 0 line → result ≡ greatest_from best (column_at line bytes) }
{
    if !segment.sound || column < 0 {
        return best;
    }
    Some(capped(column).max(best.unwrap_or(0)))
}

// The greatest column of a line.
fn last_column(text: &str) -> Option<u64>
    ensures { result ≡ greatest_from None (columns_in [] (segments_of text.now)) }
{
    if text.is_empty() {
        return None;
    }
    let mut rest = Some(text);
    let mut column = 0;
    let mut count = 0;
    let mut best = None;
    while let Some(line) = rest {
        let (part, later) = first_part(line, ',');
        let segment = read_segment(part.as_bytes());
        column = added(column, segment.column, count);
        best = further(best, &segment, column);
        rest = later;
        count += 1;
    }
    best
}

// The position of the column, or else the best one before.
fn on_line(best: Option<Position>, number: usize, column: Option<u64>) -> Option<Position>
    ensures { result ≡ option_or
        (option_map (λ c. record { line = number; column = c }) column) best }
{
    match column {
        Some(column) => Some(Position {
            line: number as u64,
            column,
        }),
        None => best,
    }
}

/// The last generated position of the text `mappings`, by the segments that are sound and have a
/// column that is not below 0.
pub fn last_position(mappings: &str) -> Option<Position>
    ensures { result ≡ last_position mappings.now }
{
    let mut rest = Some(mappings);
    let mut number = 0;
    let mut best = None;
    while let Some(text) = rest {
        let (line, later) = first_part(text, ';');
        best = on_line(best, number, last_column(line));
        rest = later;
        number += 1;
    }
    best
}
