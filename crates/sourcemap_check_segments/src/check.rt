//! Checks a text.
ghost use Rattle.std.specs.Prelude.{◌≡◌, ℕ, ◌+◌, ◌<◌, ◌≤◌, ◌^◌, ◌∷◌, ◌++◌, [], List, length, IfOk, IfErr, OnOk};
ghost use Rattle.std.specs.Prelude.{◌==◌, map, cond};
ghost use Rattle.std.specs.List.{slice_split};
ghost use Rattle.sourcemap_errors.specs.declared.errors.Error.TheVariants.{OutOfMemory};
ghost use Rattle.sourcemap_check_report.specs.declared.report.Finding.{Finding};
ghost use Rattle.sourcemap_check_report.specs.declared.rules.Rule.TheVariants.{Segment as SegmentRuleOf};
ghost use Rattle.sourcemap_check_report.specs.Report.{Reports};
ghost use Rattle.sourcemap_check_segments.specs.Segments.{segments_of};
ghost use Rattle.sourcemap_check_segments.specs.Findings.{segment_findings, line_findings, findings_of};
ghost use Rattle.sourcemap_check_segments.specs.Steps.{IsSegment, AreSums, AreTextSums, AreWithin, counts_of};
ghost use Rattle.sourcemap_check_segments.specs.Steps.{parts_left, bytes_left};

use crate::segment::{Segment, read_segment};
use crate::sums::{Limits, START, Sums, after, at_line, breaks};
use sourcemap_check_report::report::{Finding, Report};
use sourcemap_check_report::rules::{Rule, SEGMENT_RULES, SegmentRule};
use sourcemap_errors::errors::Result;

// The place of a segment: the number of its map, its line and its index, counted from 0.
#[derive(Clone, Copy)]
struct Place {
    map: usize,
    line: usize,
    index: usize,
}

// Splits off the first part of a text. Returns the part, and the text after the separator.
pub(crate) fn first_part(text: &str, separator: char) -> (&str, Option<&str>)
    requires { separator < 128 }
    ensures split { slice_split (λ b. b == separator) text.now
        ≡ result.0.now ∷ parts_left separator result.1 }
    ensures shorter { length result.0.now + 1 + bytes_left result.1 ≡ length text.now + 1 }
{
    match text.split_once(separator) {
        Some((part, rest)) => (part, Some(rest)),
        None => (text, None),
    }
}

// Adds the finding of a rule if it is broken.
fn add_if(
    report: &mut Report,
    most: usize,
    place: Place,
    rule: SegmentRule,
    is_broken: bool,
) -> Result<()>
    ensures added { (all : List Finding) → Reports most all report.old
        → OnOk result (Reports most
        (all ++ map (λ r. record { rule = SegmentRuleOf r; map = place.map; line = place.line; index = place.index })
        (cond is_broken (rule ∷ []) [])) report.new) }
    ensures memory { IfErr result (λ e. e ≡ OutOfMemory) }
{
    if !is_broken {
        return Ok(());
    }
    let Place { map, line, index } = place;
    report.push(
        most,
        Finding {
            rule: Rule::Segment(rule),
            map,
            line,
            index,
        },
    )
}

// Adds the findings of a segment. The sums include the segment.
fn add_segment(
    report: &mut Report,
    most: usize,
    place: Place,
    segment: &Segment,
    sums: &Sums,
    limits: Limits,
) -> Result<()>
    ensures added { (all : List Finding) (before here : List (List ℕ)) (bytes : List ℕ)
        → AreSums (before ++ (here ++ bytes ∷ [])) (here ++ bytes ∷ []) sums.now
        → IsSegment bytes segment.now → Reports most all report.old
        → OnOk result (Reports most (all ++ segment_findings (counts_of limits)
        place.map place.line place.index before here bytes) report.new) }
    ensures memory { IfErr result (λ e. e ≡ OutOfMemory) }
{
    for rule in SEGMENT_RULES {
        let is_broken = breaks(rule, segment, sums, limits);
        add_if(report, most, place, rule, is_broken)?;
    }
    Ok(())
}

// Adds the findings of a line. Returns the sums after it.
fn add_line(
    report: &mut Report,
    most: usize,
    map: usize,
    text: &str,
    number: usize,
    sums: Sums,
    limits: Limits,
) -> Result<Sums>
    requires within { AreWithin sums }
    requires few { sums.count + length text.now + 1 ≤ 2 ^ 63 }
    ensures added { (all : List Finding) (before : List (List ℕ)) → AreTextSums before sums
        → Reports most all report.old
        → IfOk result (λ after. AreTextSums (before ++ segments_of text.now) after
        × Reports most (all ++ line_findings (counts_of limits) map number 0 before []
        (segments_of text.now)) report.new) }
    ensures within { IfOk result AreWithin }
    ensures few { IfOk result (λ after. after.count ≤ sums.count + length text.now + 1) }
    ensures memory { IfErr result (λ e. e ≡ OutOfMemory) }
{
    if text.is_empty() {
        return Ok(sums);
    }
    let mut sums = at_line(sums);
    let mut rest = Some(text);
    let mut index = 0;
    while let Some(line) = rest {
        let (part, later) = first_part(line, ',');
        let segment = read_segment(part.as_bytes());
        sums = after(sums, &segment);
        let place = Place {
            map,
            line: number,
            index,
        };
        add_segment(report, most, place, &segment, &sums, limits)?;
        rest = later;
        index += 1;
    }
    Ok(sums)
}

/// Adds the findings of the text `mappings` of a map with so many sources and names. `map` is the
/// number of the map. Keeps at most `most` findings of each rule in the report. The only error is
/// `OutOfMemory`.
pub fn add_segments(
    report: &mut Report,
    most: usize,
    map: usize,
    mappings: &str,
    sources: usize,
    names: usize,
) -> Result<()>
    ensures added { (all : List Finding) → Reports most all report.old
        → OnOk result (Reports most (all ++ findings_of
        (record { sources = sources; names = names }) map mappings.now) report.new) }
    ensures memory { IfErr result (λ e. e ≡ OutOfMemory) }
{
    let limits = Limits { sources, names };
    let mut sums = START;
    let mut rest = Some(mappings);
    let mut number = 0;
    while let Some(text) = rest {
        let (line, later) = first_part(text, ';');
        sums = add_line(report, most, map, line, number, sums, limits)?;
        rest = later;
        number += 1;
    }
    Ok(())
}
