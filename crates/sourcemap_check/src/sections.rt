//! Where sections start, and their order.
ghost use Rattle.std.specs.Prelude.{◌≡◌, ◌++◌, ◌∷◌, [], ◌&&◌, ◌==◌, not, cond, List, OnOk, IfErr, option_and_then};
ghost use Rattle.std.specs.Prelude.{if◌then◌else◌};
ghost use Rattle.serde_json.specs.Find.{get};
ghost use Rattle.serde_json.specs.View.{view};
ghost use Rattle.sourcemap_errors.specs.declared.errors.Error.TheVariants.{OutOfMemory};
ghost use Rattle.sourcemap_check_report.specs.Report.{Reports};
ghost use Rattle.sourcemap_check_report.specs.declared.report.Finding.{Finding};
ghost use Rattle.sourcemap_check_keys.specs.Values.{position_of};
ghost use Rattle.sourcemap_check.specs.Positions.{capped_sum, is_before, moved, moved_by, later_of, start_of};
ghost use Rattle.sourcemap_check.specs.Findings.{at, both, order_findings, section_findings};
ghost use Rattle.sourcemap_check.specs.Findings.{section_key_findings};

use serde_json::Value;
use sourcemap_check_keys::section_rules::breaks;
use sourcemap_check_keys::values::position_of;
use sourcemap_check_report::report::{Finding, Report};
use sourcemap_check_report::rules::{Rule, SECTION_RULES};
use sourcemap_check_segments::last::Position;
use sourcemap_errors::errors::Result;

// The section before a section: where it starts, and the last position in it.
#[derive(Clone, Copy)]
pub(crate) struct Previous {
    pub(crate) start: Option<Position>,
    pub(crate) last: Option<Position>,
}

fn is_before(a: Position, b: Position) -> bool
    ensures { result ≡ is_before a b }
{
    a.line < b.line || (a.line == b.line && a.column < b.column)
}

// A position in a section, as a position in the map that has the section.
fn moved(offset: Position, position: Position) -> Position
    ensures { result ≡ moved offset position }
{
    Position {
        line: offset.line.saturating_add(position.line),
        column: moved_column(offset, position),
    }
}

fn moved_column(offset: Position, position: Position) -> u64
    ensures { result ≡ (if position.line == 0 then capped_sum offset.column position.column
        else position.column) }
{
    if position.line == 0 {
        offset.column.saturating_add(position.column)
    } else {
        position.column
    }
}

pub(crate) fn moved_by(offset: Option<Position>, position: Option<Position>) -> Option<Position>
    ensures { result ≡ moved_by offset position }
{
    Some(moved(offset?, position?))
}

pub(crate) fn later_of(a: Option<Position>, b: Option<Position>) -> Option<Position>
    ensures { result ≡ later_of a b }
{
    let Some(first) = a else {
        return b;
    };
    let Some(second) = b else {
        return a;
    };
    if is_before(first, second) { b } else { a }
}

fn number_at(object: &Value, key: &str) -> Option<u64>
    ensures { result ≡ option_and_then position_of (get key.now (view object.now)) }
{
    position_of(object.get(key)?)
}

// Where a section starts, if its offset is valid.
pub(crate) fn start_of(section: &Value) -> Option<Position>
    ensures { result ≡ start_of (view section.now) }
{
    let offset = section.get("offset")?;
    let line = number_at(offset, "line")?;
    let column = number_at(offset, "column")?;
    Some(Position { line, column })
}

fn both_before(a: Option<Position>, b: Option<Position>) -> bool
    ensures { result ≡ both is_before a b }
{
    let Some(first) = a else {
        return false;
    };
    let Some(second) = b else {
        return false;
    };
    is_before(first, second)
}

fn both_same(a: Option<Position>, b: Option<Position>) -> bool
    ensures { result ≡ both (λ p q. not (is_before p q) && not (is_before q p)) a b }
{
    let Some(first) = a else {
        return false;
    };
    let Some(second) = b else {
        return false;
    };
    !is_before(first, second) && !is_before(second, first)
}

// Adds a finding if its rule is broken.
pub(crate) fn push_if(
    report: &mut Report,
    most: usize,
    finding: Finding,
    is_broken: bool,
) -> Result<()>
    ensures added { (all : List Finding) → Reports most all report.old
        → OnOk result (Reports most (all ++ cond is_broken (finding ∷ []) []) report.new) }
    ensures memory { IfErr result (λ e. e ≡ OutOfMemory) }
{
    if !is_broken {
        return Ok(());
    }
    report.push(most, finding)
}

// The place of a finding on a section.
#[derive(Clone, Copy)]
pub(crate) struct SectionPlace {
    // The number of the map that has the section.
    pub(crate) map: usize,
    pub(crate) index: usize,
}

fn finding_at(place: SectionPlace, rule: Rule) -> Finding
    ensures { result ≡ at place.map place.index rule }
{
    Finding {
        rule,
        map: place.map,
        line: 0,
        index: place.index,
    }
}

// Adds the findings on the order of a section and the one before it.
fn add_order(
    report: &mut Report,
    most: usize,
    place: SectionPlace,
    previous: Previous,
    start: Option<Position>,
) -> Result<()>
    ensures added { (all : List Finding) → Reports most all report.old
        → OnOk result (Reports most
        (all ++ order_findings place.map place.index previous start) report.new) }
    ensures memory { IfErr result (λ e. e ≡ OutOfMemory) }
{
    let out_of_order = both_before(start, previous.start);
    let overlap = !out_of_order
        & (both_same(start, previous.start) | both_before(start, previous.last));
    push_if(
        report,
        most,
        finding_at(place, Rule::OutOfOrder),
        out_of_order,
    )?;
    push_if(report, most, finding_at(place, Rule::Overlap), overlap)
}

// Adds the findings of a section by the rules on its keys.
fn add_section_keys(
    report: &mut Report,
    most: usize,
    place: SectionPlace,
    section: &Value,
) -> Result<()>
    ensures added { (all : List Finding) → Reports most all report.old
        → OnOk result (Reports most (all ++ section_key_findings place.map place.index
        (view section.now)) report.new) }
    ensures memory { IfErr result (λ e. e ≡ OutOfMemory) }
{
    for rule in SECTION_RULES {
        let is_broken = breaks(section, rule);
        push_if(
            report,
            most,
            finding_at(place, Rule::Section(rule)),
            is_broken,
        )?;
    }
    Ok(())
}

// Adds the findings of a section, without those of the map in it.
pub(crate) fn add_section(
    report: &mut Report,
    most: usize,
    place: SectionPlace,
    previous: Previous,
    section: &Value,
) -> Result<()>
    ensures added { (all : List Finding) → Reports most all report.old
        → OnOk result (Reports most (all ++ section_findings place.map place.index previous
        (view section.now)) report.new) }
    ensures memory { IfErr result (λ e. e ≡ OutOfMemory) }
{
    add_section_keys(report, most, place, section)?;
    add_order(report, most, place, previous, start_of(section))
}
