//! Checks bytes, and makes the report for C.
ghost use Rattle.std.specs.Prelude.{◌≡◌, ◌++◌, ◌<◌, IfErr, MatchResult, OnOk, map, max, string_bytes};
ghost use Rattle.std.specs.Option.{option_copied};
ghost use Rattle.sourcemap_errors.specs.declared.errors.Error.TheVariants.{OutOfMemory};
ghost use Rattle.sourcemap_check_print.specs.Places.{key_text};
ghost use Rattle.sourcemap_c_check.specs.Report.{IsReportOf, IsReportOn, finding_value, numbers_of, severity_of, shown};

use sourcemap_c_handles::report::{CheckReport, FindingNumbers, ReportCounts, ReportFinding};
use sourcemap_check::laws::validity_is_decided;
use sourcemap_check::tree::MapPlace;
use sourcemap_check_print::entries::{Entry, Position, code_of, position_of, sentence_of};
use sourcemap_check_print::findings::{Findings, check_findings};
use sourcemap_check_print::places::{push_key, sections_of};
use sourcemap_errors::errors::Result;
use sourcemap_source_views::sourceview::SourceView;
use std::alloc::Global;

// `SM_INVALID` and `SM_SUSPICIOUS` of the C header.
const INVALID: u32 = 0;

const SUSPICIOUS: u32 = 1;

// `SM_PLACE_..` of the C header.
const KEY: u32 = 0;

const SEGMENT: u32 = 1;

const TOKEN: u32 = 2;

const SHIFT: u32 = 3;

fn severity_of(entry: &Entry) -> u32
    ensures { result ≡ severity_of entry.now }
{
    match entry {
        Entry::Invalid(_) => INVALID,
        Entry::Doubtful(_) | Entry::Off(_) => SUSPICIOUS,
    }
}

fn numbers_of(entry: &Entry) -> FindingNumbers
    ensures { result ≡ numbers_of entry.now }
{
    let nowhere = FindingNumbers {
        code: code_of(entry),
        severity: severity_of(entry),
        place: KEY,
        lines: 0,
        columns: 0,
        line: 0,
        index: 0,
    };
    match position_of(entry) {
        Position::Nowhere => nowhere,
        Position::Segment(line, index) => FindingNumbers {
            place: SEGMENT,
            line,
            index,
            ..nowhere
        },
        Position::Token(line, column) => FindingNumbers {
            place: TOKEN,
            line,
            index: column,
            ..nowhere
        },
        Position::Shift(lines, columns) => FindingNumbers {
            place: SHIFT,
            lines,
            columns,
            ..nowhere
        },
    }
}

fn key_of(alloc: Global, entry: &Entry) -> Result<String>
    ensures { MatchResult result (λ key. string_bytes key ≡ key_text entry.now)
        (λ e. e ≡ OutOfMemory) }
{
    let mut key = String::new(alloc);
    push_key(&mut key, entry)?;
    Ok(key)
}

fn finding_of(alloc: Global, maps: &[MapPlace], entry: &Entry) -> Result<ReportFinding>
    ensures { MatchResult result (λ made. finding_value made ≡ shown maps.now entry.now)
        (λ e. e ≡ OutOfMemory) }
{
    let numbers = numbers_of(entry);
    let sections = sections_of(alloc, maps, entry)?;
    let key = key_of(alloc, entry)?;
    let sentence = String::from_str(alloc, sentence_of(entry))?;
    Ok(ReportFinding {
        numbers,
        sections,
        key,
        sentence,
    })
}

fn push_findings(
    alloc: Global,
    made: &mut Vec<ReportFinding>,
    maps: &[MapPlace],
    entries: &[Entry],
) -> Result<()>
    ensures pushed { OnOk result (map finding_value made.new.items
        ≡ map finding_value made.old.items ++ map (shown maps.now) entries.now) }
    ensures memory { IfErr result (λ e. e ≡ OutOfMemory) }
{
    for entry in entries {
        let one = finding_of(alloc, maps, entry)?;
        made.push(one)?;
    }
    Ok(())
}

fn report_of(alloc: Global, found: &Findings) -> Result<CheckReport>
    ensures { MatchResult result (IsReportOf found.now) (λ e. e ≡ OutOfMemory) }
{
    let entries = found.entries.as_slice();
    let mut findings = Vec::new(alloc);
    push_findings(alloc, &mut findings, found.maps.as_slice(), entries)?;
    let counts = ReportCounts {
        invalid: found.counts.invalid,
        suspicious: found.counts.suspicious,
        findings: entries.len(),
    };
    Ok(CheckReport { findings, counts })
}

fn report_beside(
    alloc: Global,
    bytes: &[u8],
    generated: Option<&SourceView>,
    name: Option<&str>,
    files: Option<&[Option<SourceView>]>,
    most: usize,
) -> Result<CheckReport>
    requires { 0 < most }
    ensures { MatchResult result (IsReportOn most bytes.now (option_copied generated.entry)
        (option_copied name.entry) (option_copied files.entry)) (λ e. e ≡ OutOfMemory) }
{
    validity_is_decided(); // prover: a report without findings is that of a valid map
    let found = check_findings(alloc, bytes, generated, name, files, most)?;
    let report = report_of(alloc, &found)?; // prover: bound before it is returned
    Ok(report)
}

/// Checks whether bytes are a valid map by ECMA-426, and looks in a valid map for what looks wrong,
/// also beside a generated text and the files of its sources, if they are given. `name` is that of
/// the map's file, if it is known. Of files there is one for each source. The report has at most
/// `most` findings of each code; 0 counts as 1. The map is valid exactly if no finding is invalid.
/// The only error is `OutOfMemory`.
pub fn report_on(
    alloc: Global,
    bytes: &[u8],
    generated: Option<&str>,
    name: Option<&str>,
    files: Option<&[Option<SourceView>]>,
    most: u32,
) -> Result<CheckReport>
    ensures { MatchResult result (IsReportOn (max most 1) bytes.now (option_copied generated.entry)
        (option_copied name.entry) (option_copied files.entry)) (λ e. e ≡ OutOfMemory) }
{
    let most = most.max(1) as usize;
    match generated {
        Some(text) => {
            let view = SourceView::new(alloc, text)?;
            report_beside(alloc, bytes, Some(&view), name, files, most)
        }
        None => report_beside(alloc, bytes, None, name, files, most),
    }
}
