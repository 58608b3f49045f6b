//! The reply of `check`, and the files that it reads.
ghost use Rattle.std.specs.Prelude.{◌≡◌, ◌≢◌, [], if◌then◌else◌, IfErr, IfOk, MatchResult, Ok, is_some, option_map, string_bytes};
ghost use Rattle.std.specs.Option.{option_copied};
ghost use Rattle.sourcemap.specs.Answer.{IsAnswer};
ghost use Rattle.sourcemap.specs.declared.errors.Error.TheVariants.{OutOfMemory};
ghost use Rattle.sourcemap_cli.specs.Checks.{AreBelow, AreSourceFiles, IsReadFailure, IsReportReply, ReadsFiles, ReadsGenerated, StaysBelow, below, files_read, has_parent, is_missing, is_missing_kind, leads_out, passes, texts_of};
ghost use Rattle.sourcemap_cli.specs.declared.command.Command.TheVariants.{Check};
ghost use Rattle.sourcemap_cli.specs.Program.{RepliesOn, file_read};

use crate::checking::{Checking, Strictness};
use crate::files::read_file;
use crate::program::{Reply, into_reply, text_reply};
use sourcemap::{Error, Result};
use sourcemap_check_print::findings::Verdict;
use sourcemap_check_print::print::{CheckText, check_text};
use sourcemap_check_suspicious::reading::read_map;
use sourcemap_map_regular::map::SourceMap;
use sourcemap_source_views::sourceview::SourceView;
use std::alloc::Global;
use std::io::ErrorKind;
use std::path::Path;
use std::rt::Files;
use std::str;

fn check_status(strictness: Strictness, verdict: Verdict) -> u8
    ensures { result ≡ (if passes strictness verdict then 0 else 1) }
{
    match (verdict, strictness) {
        (Verdict::Invalid, _) => 1,
        (Verdict::Doubtful, Strictness::Strict) => 1,
        (Verdict::Doubtful, Strictness::Usual) => 0,
        (Verdict::Right, _) => 0,
    }
}

fn report_reply(
    alloc: Global,
    checking: &Checking,
    bytes: &[u8],
    generated: Option<&SourceView>,
    files: Option<&[Option<SourceView>]>,
) -> Result<Reply>
    ensures { MatchResult result
        (IsReportReply checking.now bytes.now (option_copied generated.entry)
        (option_copied files.entry))
        (λ e. e ≡ OutOfMemory) }
{
    let name = checking.name.as_deref();
    let report = check_text(alloc, bytes, generated, name, files, checking.form)?;
    let CheckText { text, verdict } = report;
    Ok(text_reply(text, check_status(checking.strictness, verdict)))
}

// The generated text, if a file is named for it.
fn generated_view(
    alloc: Global,
    path: &Option<String>,
    file: Result<Vec<u8>>,
) -> Result<Option<SourceView>>
    ensures { IsAnswer (λ view. view) (ReadsGenerated (is_some path.now) (file_read file)) result }
{
    if path.is_none() {
        return Ok(None);
    }
    let bytes = file?;
    let text = str::from_utf8(bytes.as_slice())?;
    Ok(Some(SourceView::new(alloc, text)?))
}

// Whether a path is absolute, or has a part `..`.
fn leads_out(path: &str) -> bool
    ensures { result ≡ leads_out path.now }
{
    if path.as_bytes().starts_with(b"/") {
        return true;
    }
    has_parent(path)
}

fn has_parent(path: &str) -> bool
    ensures { result ≡ has_parent path.now }
{
    for part in path.split('/') {
        if part == ".." {
            return true;
        }
    }
    false
}

// The path of a source below a folder, `None` if it leads out of the folder.
fn path_below(alloc: Global, folder: &str, source: &str) -> Result<Option<String>>
    ensures { MatchResult result
        (λ path. option_map string_bytes path ≡ below folder.now source.now)
        (λ e. e ≡ OutOfMemory) }
{
    if leads_out(source) {
        return Ok(None);
    }
    let path = Path::new(folder).join(alloc, source)?;
    Ok(Some(path.into_string()))
}

// Whether there is no file of this name: an error of opening or reading it says so.
fn is_missing(error: &Error) -> bool
    ensures { result ≡ is_missing error.now }
{
    match error {
        Error::Io(cause) => is_missing_kind(cause.kind()),
        _ => false,
    }
}

fn is_missing_kind(kind: ErrorKind) -> bool
    ensures { result ≡ is_missing_kind kind }
{
    match kind {
        ErrorKind::NotFound => true,
        ErrorKind::IsADirectory => true,
        ErrorKind::NotADirectory => true,
        ErrorKind::InvalidInput => true,
        ErrorKind::InvalidFilename => true,
        _ => false,
    }
}

fn text_view(alloc: Global, bytes: Vec<u8>) -> Result<Option<SourceView>>
    ensures { IfErr result (λ e. e ≡ OutOfMemory) }
{
    match String::from_utf8(bytes) {
        Ok(text) => Ok(Some(SourceView::from_string(alloc, text)?)),
        Err(_) => Ok(None),
    }
}

// The text of a file, `None` if there is no file, or if it is not UTF-8.
fn text_in<F: Files>(rt: &F, alloc: Global, path: &str) -> Result<Option<SourceView>>
    ensures { IfErr result IsReadFailure }
{
    match read_file(rt, alloc, path) {
        Ok(bytes) => text_view(alloc, bytes),
        Err(error) => {
            if is_missing(&error) {
                return Ok(None);
            }
            Err(error)
        }
    }
}

// The text of the file of a source below a folder. No file out of the folder is read.
fn source_file<F: Files>(
    rt: &F,
    alloc: Global,
    folder: &str,
    source: &str,
) -> Result<Option<SourceView>>
    ensures below { IfOk result (λ file. StaysBelow source.now file) }
    ensures error { IfErr result IsReadFailure }
{
    match path_below(alloc, folder, source)? {
        Some(path) => text_in(rt, alloc, path.as_str()),
        None => Ok(None),
    }
}

fn source_files<F: Files>(
    rt: &F,
    alloc: Global,
    folder: &str,
    map: &SourceMap,
) -> Result<Vec<Option<SourceView>>>
    ensures below { IfOk result (λ files. AreBelow map.now files.items) }
    ensures error { IfErr result IsReadFailure }
{
    let mut files = Vec::new(alloc);
    for id in 0..map.get_source_count() {
        let source = map.get_source(id).unwrap_or("");
        files.push(source_file(rt, alloc, folder, source)?)?;
    }
    Ok(files)
}

// The texts of the files of sources below a folder, if there is a folder. There are none for bytes
// that `read_map` does not decode.
fn files_below<F: Files>(
    rt: &F,
    alloc: Global,
    folder: &Option<String>,
    bytes: &[u8],
) -> Result<Option<Vec<Option<SourceView>>>>
    ensures { ReadsFiles (is_some folder.now) bytes.now (files_read result) }
{
    match folder {
        Some(folder) => Ok(Some(map_files(rt, alloc, folder.as_str(), bytes)?)),
        None => Ok(None),
    }
}

fn map_files<F: Files>(
    rt: &F,
    alloc: Global,
    folder: &str,
    bytes: &[u8],
) -> Result<Vec<Option<SourceView>>>
    ensures files { IfOk result (λ files. AreSourceFiles bytes.now files.items) }
    ensures error { IfErr result IsReadFailure }
{
    match read_map(alloc, bytes) {
        Ok(map) => source_files(rt, alloc, folder, &map),
        Err(error) => no_files_after(alloc, &error),
    }
}

// No files, after another error than want of memory.
fn no_files_after(alloc: Global, error: &Error) -> Result<Vec<Option<SourceView>>>
    ensures { MatchResult result
        (λ files. (error.now ≢ OutOfMemory) × (files.items ≡ []))
        (λ e. e ≡ OutOfMemory) }
{
    match error {
        Error::OutOfMemory => Err(Error::OutOfMemory),
        _ => Ok(Vec::new(alloc)),
    }
}

fn listed(files: &Option<Vec<Option<SourceView>>>) -> Option<&[Option<SourceView>]>
    ensures { option_copied result ≡ texts_of files.now }
{
    match files {
        Some(files) => Some(files.as_slice()),
        None => None,
    }
}

fn shown(view: &Option<SourceView>) -> Option<&SourceView>
    ensures { option_copied result ≡ view.now }
{
    match view {
        Some(view) => Some(view),
        None => None,
    }
}

// The reply of a check beside a generated text and files, or the error of reading the files.
fn beside_reply(
    alloc: Global,
    checking: &Checking,
    bytes: &[u8],
    generated: Option<&SourceView>,
    files: Result<Option<Vec<Option<SourceView>>>>,
) -> Result<Reply>
    ensures { (file : _)
        → ReadsGenerated (is_some checking.now.generated) file (Ok (option_copied generated.entry))
        → ReadsFiles (is_some checking.now.sources) bytes.now (files_read files)
        → MatchResult result (RepliesOn (Check checking.now) bytes.now file) (λ e. e ≡ OutOfMemory) }
{
    match files {
        Ok(files) => report_reply(alloc, checking, bytes, generated, listed(&files)),
        Err(error) => into_reply(alloc, Err(error)),
    }
}

/// The reply of a check. `file` is the bytes of the generated text, or the error of reading it. The
/// only error is `OutOfMemory`.
pub(crate) fn check_reply<F: Files>(
    rt: &F,
    alloc: Global,
    checking: &Checking,
    bytes: &[u8],
    file: Result<Vec<u8>>,
) -> Result<Reply>
    ensures { MatchResult result
        (RepliesOn (Check checking.now) bytes.now (file_read file))
        (λ e. e ≡ OutOfMemory) }
{
    // prover: error passed on by `match`
    match generated_view(alloc, &checking.generated, file) {
        Ok(view) => {
            let files = files_below(rt, alloc, &checking.sources, bytes);
            beside_reply(alloc, checking, bytes, shown(&view), files)
        }
        Err(error) => into_reply(alloc, Err(error)),
    }
}
