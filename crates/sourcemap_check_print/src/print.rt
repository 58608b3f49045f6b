//! The report of a check, as it is printed.
ghost use Rattle.std.specs.Prelude.{◌≡◌, IfErr, IfOk, MatchResult, string_bytes};
ghost use Rattle.std.specs.Option.{option_copied};
ghost use Rattle.sourcemap_errors.specs.declared.errors.Error.TheVariants.{OutOfMemory};
ghost use Rattle.sourcemap_check_print.specs.Findings.{HasVerdict};
ghost use Rattle.sourcemap_check_print.specs.Print.{IsReportOf, report_text};

use crate::findings::{Findings, Verdict, check_findings};
use crate::json::json_text;
use crate::lines::lines_text;
use sourcemap_errors::errors::Result;
use sourcemap_source_views::sourceview::SourceView;
use std::alloc::Global;

/// How many findings of each code are shown.
pub const MOST: usize = 20;

/// The form of a printed report.
#[derive(Clone, Copy, Debug, PartialEq, Eq)]
pub enum Form {
    /// A line for each finding, and a last line with counts.
    Lines,
    /// One JSON object and a newline.
    Json,
}

/// A printed report.
#[derive(Drop)]
pub struct CheckText {
    /// The report.
    pub text: String,
    /// What it says.
    pub verdict: Verdict,
}

fn report_text(alloc: Global, found: &Findings, form: Form) -> Result<String>
    ensures { MatchResult result
        (λ text. string_bytes text ≡ report_text form found.now)
        (λ e. e ≡ OutOfMemory) }
{
    let maps = found.maps.as_slice();
    let entries = found.entries.as_slice();
    match form {
        Form::Lines => lines_text(alloc, maps, entries, found.counts),
        Form::Json => json_text(alloc, maps, entries, found.counts),
    }
}

/// Prints what `check_findings` finds. At most 20 findings of each code are shown.
///
/// A line is `MAP:`, for each section that leads to the map `sections[I].map.`, the key, for a
/// segment its line and its index, for a token `at` with its generated line and column, for a shift
/// `by` with lines and columns, `: `, the code and a sentence. The last line is
/// `N invalid, N suspicious, N shown`.
///
/// The JSON object is compact, and its keys are sorted. `counts` has `invalid`, `shown` and
/// `suspicious`. Each of `findings` has `code`, `key`, `position` (`index` and `line` of a segment,
/// `column` and `line` of a token, `columns` and `lines` of a shift, or null), `sections` (the
/// indexes of the sections that lead to the map), `sentence` and `severity`.
///
/// The only error is `OutOfMemory`.
pub fn check_text(
    alloc: Global,
    bytes: &[u8],
    generated: Option<&SourceView>,
    name: Option<&str>,
    files: Option<&[Option<SourceView>]>,
    form: Form,
) -> Result<CheckText>
    ensures report { IfOk result (λ printed. IsReportOf form bytes.now
        (option_copied generated.entry) (option_copied name.entry) (option_copied files.entry)
        (string_bytes printed.text)) }
    ensures verdict { IfOk result (λ printed. HasVerdict MOST printed.verdict bytes.now
        (option_copied generated.entry) (option_copied name.entry) (option_copied files.entry)) }
    ensures memory { IfErr result (λ e. e ≡ OutOfMemory) }
{
    let found = check_findings(alloc, bytes, generated, name, files, MOST)?;
    let text = report_text(alloc, &found, form)?;
    Ok(CheckText {
        text,
        verdict: found.verdict,
    })
}
