//! What a report shows: findings of the rules, then what looks wrong.
ghost use Rattle.std.specs.Prelude.{◌≡◌, ◌++◌, IfErr, MatchResult, OnOk, map};
ghost use Rattle.sourcemap_errors.specs.declared.errors.Error.TheVariants.{OutOfMemory};
ghost use Rattle.sourcemap_check_print.specs.Entries.{code_of, entries, position_of, sentence_of, severity_of};
ghost use Rattle.sourcemap_check_print.specs.declared.entries.Entry.TheVariants.{Doubtful, Invalid, Off};

use crate::suspicions::{shift_sentence, suspicion_sentence};
use crate::words::sentence;
use sourcemap_check_report::report::Finding;
use sourcemap_check_report::rules::{Rule, number_of};
use sourcemap_check_suspicious::codes::code_of as code_of_suspicion;
use sourcemap_check_suspicious::shifted::{Shifted, code_of_shifted};
use sourcemap_check_suspicious::suspects::{Suspect, Suspicion, Suspicious};
use sourcemap_errors::errors::Result;
use std::alloc::Global;

/// What one line of a report shows.
#[derive(Clone, Copy, Debug, PartialEq, Eq)]
pub enum Entry {
    /// A rule is broken.
    Invalid(Finding),
    /// Something looks wrong.
    Doubtful(Suspect),
    /// Positions are off throughout.
    Off(Shifted),
}

/// A position as it is printed.
#[derive(Clone, Copy, Debug, PartialEq, Eq)]
pub enum Position {
    /// There is none.
    Nowhere,
    /// Line and index of a segment.
    Segment(usize, usize),
    /// Generated line and column of a token.
    Token(usize, usize),
    /// Positions off by lines and columns.
    Shift(i32, i32),
}

fn push_findings(entries: &mut Vec<Entry>, findings: &[Finding]) -> Result<()>
    ensures pushed { OnOk result (entries.new.items
        ≡ entries.old.items ++ map Invalid findings.now) }
    ensures memory { IfErr result (λ e. e ≡ OutOfMemory) }
{
    for finding in findings {
        entries.push(Entry::Invalid(*finding))?;
    }
    Ok(())
}

fn push_suspects(entries: &mut Vec<Entry>, suspects: &[Suspect]) -> Result<()>
    ensures pushed { OnOk result (entries.new.items
        ≡ entries.old.items ++ map Doubtful suspects.now) }
    ensures memory { IfErr result (λ e. e ≡ OutOfMemory) }
{
    for suspect in suspects {
        entries.push(Entry::Doubtful(*suspect))?;
    }
    Ok(())
}

fn push_shifts(entries: &mut Vec<Entry>, shifts: &[Shifted]) -> Result<()>
    ensures pushed { OnOk result (entries.new.items ≡ entries.old.items ++ map Off shifts.now) }
    ensures memory { IfErr result (λ e. e ≡ OutOfMemory) }
{
    for shifted in shifts {
        entries.push(Entry::Off(*shifted))?;
    }
    Ok(())
}

/// Returns what a report shows. The only error is `OutOfMemory`.
pub fn entries(alloc: Global, findings: &[Finding], found: &Suspicious) -> Result<Vec<Entry>>
    ensures { MatchResult result (λ all. all.items ≡ entries findings.now found.now)
        (λ e. e ≡ OutOfMemory) }
{
    let mut all = Vec::new(alloc);
    push_findings(&mut all, findings)?;
    push_suspects(&mut all, found.places.first.as_slice())?;
    push_shifts(&mut all, found.shifts.as_slice())?;
    Ok(all)
}

/// The number of the code. The code is `SM` and this number.
pub fn code_of(entry: &Entry) -> u32
    ensures { result ≡ code_of entry.now }
{
    match entry {
        Entry::Invalid(finding) => number_of(finding.rule) as u32 + 101,
        Entry::Doubtful(suspect) => code_of_suspicion(suspect.suspicion),
        Entry::Off(shifted) => code_of_shifted(*shifted),
    }
}

/// How the rule is broken, or what looks wrong.
pub fn sentence_of(entry: &Entry) -> &'static str
    ensures { result.now ≡ sentence_of entry.now }
{
    match entry {
        Entry::Invalid(finding) => sentence(finding.rule),
        Entry::Doubtful(suspect) => suspicion_sentence(suspect.suspicion),
        Entry::Off(shifted) => shift_sentence(*shifted),
    }
}

/// `invalid` or `suspicious`.
pub fn severity_of(entry: &Entry) -> &'static str
    ensures { result.now ≡ severity_of entry.now }
{
    match entry {
        Entry::Invalid(_) => "invalid",
        Entry::Doubtful(_) | Entry::Off(_) => "suspicious",
    }
}

fn finding_position(finding: &Finding) -> Position
    ensures { result ≡ position_of (Invalid finding.now) }
{
    match finding.rule {
        Rule::Segment(_) => Position::Segment(finding.line, finding.index),
        _ => Position::Nowhere,
    }
}

fn suspect_position(suspect: &Suspect) -> Position
    ensures { result ≡ position_of (Doubtful suspect.now) }
{
    match suspect.suspicion {
        Suspicion::Token(_) | Suspicion::Generated(_) => {
            Position::Token(suspect.line, suspect.index)
        }
        Suspicion::SegmentBack => Position::Segment(suspect.line, suspect.index),
        _ => Position::Nowhere,
    }
}

fn shift_position(shifted: Shifted) -> Position
    ensures { result ≡ position_of (Off shifted) }
{
    match shifted {
        Shifted::Original(shift) | Shifted::Generated(shift) => {
            Position::Shift(shift.lines, shift.columns)
        }
    }
}

/// Where in the text `mappings` or in the generated text it is, or by how much positions are off.
pub fn position_of(entry: &Entry) -> Position
    ensures { result ≡ position_of entry.now }
{
    match entry {
        Entry::Invalid(finding) => finding_position(finding),
        Entry::Doubtful(suspect) => suspect_position(suspect),
        Entry::Off(shifted) => shift_position(*shifted),
    }
}
