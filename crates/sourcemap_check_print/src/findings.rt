//! All findings on bytes: the rules that they break, then what looks wrong in a valid map.
ghost use Rattle.std.specs.Prelude.{◌≡◌, ◌<◌, IfErr, IfOk};
ghost use Rattle.std.specs.Option.{option_copied};
ghost use Rattle.sourcemap_errors.specs.declared.errors.Error.TheVariants.{OutOfMemory};
ghost use Rattle.sourcemap_check_print.specs.Findings.{AreShown, HasVerdict, Shows, count_of, total, verdict_of};

use crate::entries::{Entry, entries};
use sourcemap_check::check::{Options, check};
use sourcemap_check::laws::validity_is_decided;
use sourcemap_check::tree::MapPlace;
use sourcemap_check_report::report::Report;
use sourcemap_check_suspicious::suspects::{Suspicious, nothing, suspicious_beside};
use sourcemap_errors::errors::Result;
use sourcemap_source_views::sourceview::SourceView;
use std::alloc::Global;

/// What a check says of a map.
#[derive(Clone, Copy, Debug, PartialEq, Eq)]
pub enum Verdict {
    /// It breaks a rule.
    Invalid,
    /// It is valid, but something looks wrong.
    Doubtful,
    /// It is valid, and nothing looks wrong.
    Right,
}

/// How many findings there are. A count stops at 18446744073709551615.
#[derive(Clone, Copy)]
pub struct Counts {
    /// Of broken rules.
    pub invalid: u64,
    /// Of what looks wrong.
    pub suspicious: u64,
}

/// What a check has found.
#[derive(Drop)]
pub struct Findings {
    /// The maps that were checked, by their numbers.
    pub maps: Vec<MapPlace>,
    /// The findings: those of broken rules in the order of the text, then what looks wrong in the
    /// order of codes.
    pub entries: Vec<Entry>,
    /// How many there are, also of those that are left out of `entries`.
    pub counts: Counts,
    /// What they say of the map.
    pub verdict: Verdict,
}

// How many findings there are. The number stops at 18446744073709551615.
fn total(report: &Report) -> u64
    ensures { result ≡ total report.now }
{
    report
        .counts
        .iter()
        .fold(0u64, |sum: u64, count: &u64| sum.saturating_add(*count))
}

// How much looks wrong. The number stops at 18446744073709551615.
fn count_of(found: &Suspicious) -> u64
    ensures { result ≡ count_of found.now }
{
    found.places.count.saturating_add(found.shifts.len() as u64)
}

// Only a valid map is looked at for what looks wrong.
fn suspicious_if_valid(
    alloc: Global,
    bytes: &[u8],
    generated: Option<&SourceView>,
    name: Option<&str>,
    files: Option<&[Option<SourceView>]>,
    most: usize,
    is_valid: bool,
) -> Result<Suspicious>
    ensures shown { IfOk result (AreShown most is_valid bytes.now
        (option_copied generated.entry) (option_copied name.entry) (option_copied files.entry)) }
    ensures memory { IfErr result (λ e. e ≡ OutOfMemory) }
{
    if !is_valid {
        return Ok(nothing(alloc));
    }
    suspicious_beside(alloc, bytes, generated, name, files, most)
}

fn verdict_of(is_valid: bool, count: u64) -> Verdict
    ensures { result ≡ verdict_of is_valid count }
{
    if !is_valid {
        return Verdict::Invalid;
    }
    if count > 0 {
        Verdict::Doubtful
    } else {
        Verdict::Right
    }
}

/// Checks whether bytes are a valid map by ECMA-426, and looks in a valid map for what looks wrong,
/// also beside a generated text and the files of its sources, if they are given. `name` is that of
/// the map's file, if it is known. At most `most` findings of each code are listed. The only error is
/// `OutOfMemory`.
pub fn check_findings(
    alloc: Global,
    bytes: &[u8],
    generated: Option<&SourceView>,
    name: Option<&str>,
    files: Option<&[Option<SourceView>]>,
    most: usize,
) -> Result<Findings>
    requires { 0 < most }
    ensures findings { IfOk result (Shows most bytes.now (option_copied generated.entry)
        (option_copied name.entry) (option_copied files.entry)) }
    ensures verdict { IfOk result (λ found. HasVerdict most found.verdict bytes.now
        (option_copied generated.entry) (option_copied name.entry) (option_copied files.entry)) }
    ensures memory { IfErr result (λ e. e ≡ OutOfMemory) }
{
    validity_is_decided(); // prover: a report without findings is that of a valid map
    let checked = check(alloc, bytes, Options { most })?;
    let is_valid = checked.report.findings.is_empty();
    let found = suspicious_if_valid(alloc, bytes, generated, name, files, most, is_valid)?;
    let entries = entries(alloc, checked.report.findings.as_slice(), &found)?;
    let counts = Counts {
        invalid: total(&checked.report),
        suspicious: count_of(&found),
    };
    let verdict = verdict_of(is_valid, counts.suspicious);
    Ok(Findings {
        maps: checked.maps,
        entries,
        counts,
        verdict,
    })
}
