//! Checks of bytes, and their reports.
ghost use Rattle.std.specs.Prelude.{◌≡◌, MatchResult, None, Some, map as list_map, option_map};
ghost use Rattle.std.specs.Borrow.{sem};
ghost use Rattle.std.specs.Option.{option_copied};
ghost use Rattle.sourcemap_c_check.specs.Files.{files_if};
ghost use Rattle.sourcemap_c_handles.specs.Handles.{EndsAsBefore, held_in};
ghost use Rattle.sourcemap_c.specs.Checks.{HoldsReport, finding_at, key_at, name_in, numbers_at, sections_at, sentence_at, written};
ghost use Rattle.sourcemap_c.specs.Codes.{Answers, Does, IsNoText, IsNoTextIf, OfLibrary, OrNoText, ReturnsValue, text_if};
ghost use Rattle.sourcemap_c.specs.Kinds.{report_in};

use crate::codes::{ABSENT, OK, WRONG_KIND, put_text, text_if, text_in};
use crate::segments::overwrite;
use sourcemap::Result;
use sourcemap_c_check::checks::report_on;
use sourcemap_c_check::files::files_if;
use sourcemap_c_handles::errors::{ErrorReport, Outcome, finish};
use sourcemap_c_handles::report::{CheckReport, FindingNumbers, ReportCounts, ReportFinding};
use sourcemap_c_handles::{Handle, Held};
use sourcemap_source_views::sourceview::SourceView;
use std::alloc::Global;

fn report_in<'a>(handle: &'a mut Handle) -> Option<&'a CheckReport>
    ensures* after { sem 𝓛 (EndsAsBefore handle.entry) }
    ensures value { option_copied result ≡ report_in (held_in handle.old) }
{
    match handle.get() {
        Some(Held::Report(report)) => Some(report),
        _ => None,
    }
}

/// Checks bytes, and fills `report` with what is found. The errors are `Utf8` if `has_generated` is
/// true and `generated` is not UTF-8, and `OutOfMemory`. After an error the value of the handle is
/// unchanged.
#[unsafe(no_mangle)]
pub extern "C" fn sm_check(
    alloc: Global,
    report: &mut Handle,
    bytes: &[u8],
    has_generated: bool,
    generated: &[u8],
    most: u32,
    error: &mut ErrorReport,
) -> u32
    ensures { Answers result error.old error.new
        (HoldsReport most bytes.now (text_if has_generated generated.now) None None
        (report_in (held_in report.new)))
        (IsNoTextIf has_generated generated.now) (held_in report.new ≡ held_in report.old) }
{
    finish(
        alloc,
        fill(
            alloc,
            report,
            bytes,
            has_generated,
            generated,
            None,
            None,
            most,
        ),
        error,
    )
}

/// As `sm_check`, also beside the name of the map's file, if it has bytes, and the files of sources, if
/// `has_files` is true. The file of the source with an id is that of this index; a source has none where
/// it is not UTF-8, or where the list ends. The error is `Utf8` also if the name is not UTF-8.
#[unsafe(no_mangle)]
pub extern "C" fn sm_check_files(
    alloc: Global,
    report: &mut Handle,
    bytes: &[u8],
    has_generated: bool,
    generated: &[u8],
    name: &[u8],
    has_files: bool,
    files: &[&[u8]],
    most: u32,
    error: &mut ErrorReport,
) -> u32
    ensures { let texts = files_if has_files (list_map (λ file. file.now) files.now) in
        Answers result error.old error.new
        (HoldsReport most bytes.now (text_if has_generated generated.now) (name_in name.now)
        texts (report_in (held_in report.new)))
        (OrNoText has_generated generated.now (OfLibrary (IsNoText name.now))) (held_in report.new ≡ held_in report.old) }
{
    finish(
        alloc,
        fill_beside(
            alloc,
            report,
            bytes,
            has_generated,
            generated,
            name,
            has_files,
            files,
            most,
        ),
        error,
    )
}

// The name of the map's file: none if there are no bytes.
fn name_in(bytes: &[u8]) -> Result<Option<&str>>
    ensures { MatchResult result (λ name. option_copied name ≡ name_in bytes.now) (IsNoText bytes.now) }
{
    if bytes.is_empty() {
        return Ok(None);
    }
    Ok(Some(text_in(bytes)?))
}

fn fill_beside(
    alloc: Global,
    report: &mut Handle,
    bytes: &[u8],
    has_generated: bool,
    generated: &[u8],
    name: &[u8],
    has_files: bool,
    files: &[&[u8]],
    most: u32,
) -> Outcome<()>
    ensures { let texts = files_if has_files (list_map (λ file. file.now) files.now) in
        Does result
        (HoldsReport most bytes.now (text_if has_generated generated.now) (name_in name.now)
        texts (report_in (held_in report.new)))
        (OrNoText has_generated generated.now (OfLibrary (IsNoText name.now))) (held_in report.new ≡ held_in report.old) }
{
    let name = name_in(name)?;
    let texts = files_if(alloc, has_files, files)?;
    fill(
        alloc,
        report,
        bytes,
        has_generated,
        generated,
        name,
        texts.as_deref(),
        most,
    )
}

fn fill(
    alloc: Global,
    report: &mut Handle,
    bytes: &[u8],
    has_generated: bool,
    generated: &[u8],
    name: Option<&str>,
    files: Option<&[Option<SourceView>]>,
    most: u32,
) -> Outcome<()>
    ensures { Does result
        (HoldsReport most bytes.now (text_if has_generated generated.now)
        (option_copied name.entry) (option_copied files.entry) (report_in (held_in report.new)))
        (IsNoTextIf has_generated generated.now) (held_in report.new ≡ held_in report.old) }
{
    let text = text_if(has_generated, generated)?;
    let made = report_on(alloc, bytes, text, name, files, most)?;
    report.fill(alloc, Held::Report(made))?;
    Ok(())
}

/// Writes how many findings there are.
#[unsafe(no_mangle)]
pub extern "C" fn sm_report_count(report: &mut Handle, counts: &mut ReportCounts) -> u32
    ensures counts { ReturnsValue (option_map (λ r. Some r.counts) (report_in (held_in report.old)))
        result counts.old counts.new }
    ensures kept { held_in report.new ≡ held_in report.old }
{
    match report_in(report) {
        Some(report) => {
            *counts = report.counts;
            OK
        }
        None => WRONG_KIND,
    }
}

fn finding_at(report: &CheckReport, index: u32) -> Option<&ReportFinding>
    ensures { option_copied result ≡ finding_at index report.now }
{
    report.findings.get(index as usize)
}

/// Writes the code, the severity and the position of the finding with this index.
#[unsafe(no_mangle)]
pub extern "C" fn sm_report_finding(
    report: &mut Handle,
    index: u32,
    finding: &mut FindingNumbers,
) -> u32
    ensures finding { ReturnsValue (option_map (numbers_at index) (report_in (held_in report.old)))
        result finding.old finding.new }
    ensures kept { held_in report.new ≡ held_in report.old }
{
    match report_in(report) {
        Some(report) => put_numbers(report, index, finding),
        None => WRONG_KIND,
    }
}

fn put_numbers(report: &CheckReport, index: u32, finding: &mut FindingNumbers) -> u32
    ensures { ReturnsValue (Some (numbers_at index report.now)) result finding.old finding.new }
{
    match finding_at(report, index) {
        Some(found) => {
            *finding = found.numbers;
            OK
        }
        None => ABSENT,
    }
}

/// Writes the indexes of the sections that lead to the map of a finding, the outermost first, as
/// many as fit. Writes to `count` how many lead to it.
#[unsafe(no_mangle)]
pub extern "C" fn sm_report_sections(
    report: &mut Handle,
    index: u32,
    sections: &mut [usize],
    count: &mut usize,
) -> u32
    ensures sections { ReturnsValue
        (option_map (λ r. option_map (written sections.old) (sections_at index r)) (report_in (held_in report.old)))
        result (sections.old, count.old) (sections.new, count.new) }
    ensures kept { held_in report.new ≡ held_in report.old }
{
    match report_in(report) {
        Some(report) => put_sections(report, index, sections, count),
        None => WRONG_KIND,
    }
}

fn put_sections(report: &CheckReport, index: u32, sections: &mut [usize], count: &mut usize) -> u32
    ensures { ReturnsValue (Some (option_map (written sections.old) (sections_at index report.now)))
        result (sections.old, count.old) (sections.new, count.new) }
{
    match finding_at(report, index) {
        Some(found) => {
            overwrite(sections, found.sections.as_slice());
            *count = found.sections.len();
            OK
        }
        None => ABSENT,
    }
}

/// Borrows the key of the finding with this index.
#[unsafe(no_mangle)]
pub extern "C" fn sm_report_key<'a>(report: &'a mut Handle, index: u32, text: &mut &'a [u8]) -> u32
    ensures* after { sem 𝓛 (EndsAsBefore report.entry) }
    ensures value { ReturnsValue (option_map (key_at index) (report_in (held_in report.old)))
        result text.old.now text.new.now }
{
    put_key(report_in(report), index, text)
}

fn put_key<'a>(report: Option<&'a CheckReport>, index: u32, text: &mut &'a [u8]) -> u32
    ensures { ReturnsValue (option_map (key_at index) (option_copied report.entry))
        result text.old.now text.new.now }
{
    match report {
        Some(report) => put_text(key_at(report, index), text),
        None => WRONG_KIND,
    }
}

fn key_at(report: &CheckReport, index: u32) -> Option<&str>
    ensures { option_copied result ≡ key_at index report.now }
{
    Some(finding_at(report, index)?.key.as_str())
}

/// Borrows the sentence of the finding with this index.
#[unsafe(no_mangle)]
pub extern "C" fn sm_report_sentence<'a>(
    report: &'a mut Handle,
    index: u32,
    text: &mut &'a [u8],
) -> u32
    ensures* after { sem 𝓛 (EndsAsBefore report.entry) }
    ensures value { ReturnsValue (option_map (sentence_at index) (report_in (held_in report.old)))
        result text.old.now text.new.now }
{
    put_sentence(report_in(report), index, text)
}

fn put_sentence<'a>(report: Option<&'a CheckReport>, index: u32, text: &mut &'a [u8]) -> u32
    ensures { ReturnsValue (option_map (sentence_at index) (option_copied report.entry))
        result text.old.now text.new.now }
{
    match report {
        Some(report) => put_text(sentence_at(report, index), text),
        None => WRONG_KIND,
    }
}

fn sentence_at(report: &CheckReport, index: u32) -> Option<&str>
    ensures { option_copied result ≡ sentence_at index report.now }
{
    Some(finding_at(report, index)?.sentence.as_str())
}
