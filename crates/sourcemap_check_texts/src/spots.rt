//! Positions in a text that are looked up one after another.
ghost use Rattle.std.specs.Prelude.{◌≡◌, IfSome, option_map};
ghost use Rattle.sourcemap_source_views.specs.Columns.{IsOffset, column_offset, reached_offset};

use sourcemap_source_views::columns::{LineOffset, reach, reach_back, reach_or_end};

// A line of the generated text, and the offset of a column in it, or the end of the line.
#[derive(Clone, Copy)]
pub(crate) struct Spot<'text> {
    pub(crate) number: u32,
    pub(crate) line: &'text str,
    pub(crate) at: LineOffset,
    ghost sound: { IsOffset line.now at.offset at.units },
}

impl<'text> Spot<'text> {
    pub(crate) fn new(number: u32, line: &'text str, column: u32) -> Spot<'text>
        ensures number { result.number ≡ number }
        ensures line { result.line.now ≡ line.now }
        ensures at { reached_offset column result.at.offset result.at.units
            ≡ column_offset line.now column }
    {
        let at = reach_or_end(line, u64::from(column));
        Spot { number, line, at }
    }

    // The spot at another column of the line. Reads the line from this column to that one alone.
    pub(crate) fn moved_to(&self, column: u32) -> Spot<'text>
        ensures number { result.number ≡ self.now.number }
        ensures line { result.line.now ≡ self.now.line.now }
        ensures at { reached_offset column result.at.offset result.at.units
            ≡ column_offset self.now.line.now column }
    {
        let at = reach_near(self.line, self.at, u64::from(column));
        Spot {
            number: self.number,
            line: self.line,
            at,
        }
    }
}

// The offset of a column, or the end of a line that is too short. `from` is an offset of the line.
fn reach_near(line: &str, from: LineOffset, column: u64) -> LineOffset
    requires { IsOffset line.now from.offset from.units }
    ensures value { reached_offset column result.offset result.units
        ≡ column_offset line.now column }
    ensures offset { IsOffset line.now result.offset result.units }
{
    if column <= from.units {
        return reach_back(line, from, column);
    }
    let ahead = reach_or_end(&line[from.offset..], column - from.units);
    LineOffset {
        offset: from.offset + ahead.offset,
        units: from.units + ahead.units,
    }
}

// The offset of a column. `None` if the line is too short. Reads the line from `from` alone.
pub(crate) fn find_near(line: &str, from: LineOffset, column: u64) -> Option<LineOffset>
    requires { IsOffset line.now from.offset from.units }
    ensures value { option_map (λ at. at.offset) result ≡ column_offset line.now column }
    ensures offset { IfSome result (λ at. IsOffset line.now at.offset at.units) }
{
    if column <= from.units {
        return Some(reach_back(line, from, column));
    }
    let ahead = reach(&line[from.offset..], column - from.units)?;
    Some(LineOffset {
        offset: from.offset + ahead.offset,
        units: from.units + ahead.units,
    })
}
