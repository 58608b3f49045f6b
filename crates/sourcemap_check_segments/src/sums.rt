//! The sums of the numbers of segments, and the rules on them.
ghost use Rattle.std.specs.Prelude.{◌≡◌, ℕ, ◌+◌, ◌+ℤ◌, ◌<◌, ◌^◌, ◌∷◌, ◌++◌, [], List};
ghost use Rattle.sourcemap_check_segments.specs.Rules.{breaks};
ghost use Rattle.sourcemap_check_segments.specs.Steps.{IsSegment, AreSums, AreTextSums, AreWithin, IsWithin, counts_of};

use crate::segment::{Segment, may_have};
use sourcemap_check_report::rules::SegmentRule;

// The sums of the numbers of the sound segments so far. The sum of columns begins anew on each
// line.
#[derive(Clone, Copy)]
pub(crate) struct Sums {
    // How many segments there are, sound or not.
    pub(crate) count: usize,
    pub(crate) column: i128,
    pub(crate) source: i128,
    pub(crate) line: i128,
    pub(crate) source_column: i128,
    pub(crate) name: i128,
}

// How many sources and how many names the map has.
#[derive(Clone, Copy)]
pub(crate) struct Limits {
    pub(crate) sources: usize,
    pub(crate) names: usize,
}

// The sums before the first segment.
pub(crate) const START: Sums = Sums {
    count: 0,
    column: 0,
    source: 0,
    line: 0,
    source_column: 0,
    name: 0,
};

// The sums at the start of the next line.
pub(crate) fn at_line(sums: Sums) -> Sums
    requires { AreWithin sums }
    ensures sums { (text : List (List ℕ)) → AreTextSums text sums → AreSums text [] result }
    ensures within { AreWithin result }
    ensures count { result.count ≡ sums.count }
{
    Sums { column: 0, ..sums }
}

// A sum of `count` numbers and one more.
pub(crate) fn added(sum: i128, number: i64, count: usize) -> i128
    requires within { IsWithin count sum }
    requires few { count < 2 ^ 63 }
    ensures sum { result ≡ sum +ℤ number }
    ensures within { IsWithin (count + 1) result }
{
    sum + i128::from(number)
}

// The sums after a segment.
pub(crate) fn after(sums: Sums, segment: &Segment) -> Sums
    requires within { AreWithin sums }
    requires few { sums.count < 2 ^ 63 }
    ensures sums { (before here : List (List ℕ)) (bytes : List ℕ)
        → AreSums (before ++ here) here sums → IsSegment bytes segment.now
        → AreSums (before ++ (here ++ bytes ∷ [])) (here ++ bytes ∷ []) result }
    ensures within { AreWithin result }
    ensures count { result.count ≡ sums.count + 1 }
{
    let count = sums.count;
    Sums {
        count: count + 1,
        column: added(sums.column, segment.column, count),
        source: added(sums.source, segment.source, count),
        line: added(sums.line, segment.line, count),
        source_column: added(sums.source_column, segment.source_column, count),
        name: added(sums.name, segment.name, count),
    }
}

// Whether a segment breaks a rule. The sums include the segment.
pub(crate) fn breaks(rule: SegmentRule, segment: &Segment, sums: &Sums, limits: Limits) -> bool
    ensures { (text line : List (List ℕ)) (bytes : List ℕ) → AreSums text line sums.now
        → IsSegment bytes segment.now
        → result
        ≡ breaks (counts_of limits) rule text line bytes }
{
    let with_source = segment.sound && segment.count > 1;
    let with_name = segment.sound && segment.count > 4;
    match rule {
        SegmentRule::ForeignByte => segment.foreign,
        SegmentRule::CutNumber => segment.cut,
        SegmentRule::FieldCount => !segment.foreign && !segment.cut && !may_have(segment.count),
        SegmentRule::LargeNumber => !segment.foreign && !segment.cut && segment.large,
        SegmentRule::ColumnBelowZero => segment.sound && sums.column < 0,
        SegmentRule::SourceBelowZero => with_source && sums.source < 0,
        SegmentRule::LineBelowZero => with_source && sums.line < 0,
        SegmentRule::SourceColumnBelowZero => with_source && sums.source_column < 0,
        SegmentRule::NameBelowZero => with_name && sums.name < 0,
        SegmentRule::SourcePastList => with_source && sums.source >= limits.sources as i128,
        SegmentRule::NamePastList => with_name && sums.name >= limits.names as i128,
    }
}
