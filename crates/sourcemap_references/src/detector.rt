//! References to source maps.
ghost use Rattle.std.specs.Prelude.{◌≡◌, ◌+◌, ◌<◌, ◌≤◌, ℕ, drop, Err, IsOkUnless, List, MatchOption, MatchResult, None};
ghost use Rattle.std.specs.Prelude.{Ok, Option, Some, false, is_some, length, option_map, string_bytes, true};
ghost use Rattle.std.specs.Io.BufRead.{strip_last};
ghost use Rattle.std.specs.Io.Buffered.{reader_remaining};
ghost use Rattle.std.specs.Result.{result_ok};
ghost use Rattle.url.specs.Parser.{parse_url};
ghost use Rattle.url.specs.Parts.{serialize};
ghost use Rattle.sourcemap_errors.specs.Answer.{Gives, IsAnswer};
ghost use Rattle.sourcemap_errors.specs.declared.errors.Error.{Error};
ghost use Rattle.sourcemap_errors.specs.declared.errors.Error.TheVariants.{OutOfMemory};
ghost use Rattle.sourcemap_file_urls.specs.Places.{url_text};
ghost use Rattle.sourcemap_file_urls.specs.Urls.{IsLong};
ghost use Rattle.sourcemap_references.specs.Lines.{AreUnmarked, IsFirstMarked, LeavesOnly, ReadsLine};
ghost use Rattle.sourcemap_references.specs.Reference.{first_reference, line_reference, reference_on, url_after_mark};
ghost use Rattle.sourcemap_references.specs.References.{IsInvalidData, IsReadError, Locates, LocatesRead, reference};
ghost use Rattle.sourcemap_references.specs.References.{url_of};
ghost use Rattle.sourcemap_references.specs.declared.detector.SourceMapRef.{SourceMapRef};
ghost use Rattle.sourcemap_references.specs.Resolution.{IsLongJoin, UnlessLong, is_data_url, resolved, resolved_path};

use crate::lines::{Line, Lines, first_lines};
use simdutf8::compat::from_utf8;
use sourcemap_errors::errors::{Error, Result};
use sourcemap_file_urls::places::{named_path, path_url};
use sourcemap_file_urls::urls;
use std::alloc::Global;
use std::io;
use std::io::{BufRead, BufReader, Read};
use url::Url;

/// A reference to a source map.
#[derive(Debug, PartialEq, Eq, Drop)]
pub enum SourceMapRef {
    /// A reference marked with `//#`.
    Ref(String),
    /// A reference with the legacy mark `//@`.
    LegacyRef(String),
}

impl SourceMapRef {
    /// Returns the URL of the source map, unchanged.
    pub fn get_url(&self) -> &str
        ensures { result.now ≡ url_of self.now }
    {
        self.url().as_str()
    }

    fn url(&self) -> &String
        ensures { string_bytes result.now ≡ url_of self.now }
    {
        match self {
            SourceMapRef::Ref(url) => url,
            SourceMapRef::LegacyRef(url) => url,
        }
    }

    /// Resolves the URL of the source map against the URL of the file that holds the reference.
    ///
    /// Returns `None` if the URL in the reference starts with `data:`, or if either URL is
    /// rejected. It may also return `None` if `minified_url` has 2^28 bytes or more. It may also
    /// return `None` if the URL in the reference and the parsed `minified_url` have 2^28 bytes or
    /// more in total. The size of the parsed `minified_url` includes the escapes that parsing adds.
    /// The only error is `OutOfMemory`.
    pub fn resolve(&self, minified_url: &str) -> Result<Option<String>>
        ensures { IsAnswer (option_map string_bytes)
            (UnlessLong (resolved minified_url.now (url_of self.now))
            (IsLongJoin minified_url.now (url_of self.now))) result }
    {
        if is_data_url(self.get_url()) {
            return Ok(None);
        }
        match urls::parse(*self.url().allocator(), minified_url)? {
            Some(base) => joined_text(&base, self.get_url()),
            None => Ok(None),
        }
    }

    /// Resolves the path of the source map against the path of the file that holds the reference.
    ///
    /// Returns `None` in four cases:
    /// - The URL in the reference starts with `data:`.
    /// - `minified_path` does not start with `/`.
    /// - The URL in the reference, or the `file` URL of `minified_path`, is rejected.
    /// - The resolved URL is not a `file` URL, has a host, or has a decoded path that is not UTF-8.
    ///
    /// May also return `None` if the `file` URL of `minified_path` and the URL in the reference
    /// together have 2^28 bytes or more. The size of the `file` URL includes its escapes and its
    /// `..` components. The only error is `OutOfMemory`.
    pub fn resolve_path(&self, minified_path: &str) -> Result<Option<String>>
        ensures { IsAnswer (option_map string_bytes)
            (UnlessLong (resolved_path minified_path.now (url_of self.now))
            (IsLongJoin (url_text minified_path.now false) (url_of self.now))) result }
    {
        if is_data_url(self.get_url()) {
            return Ok(None);
        }
        let alloc = *self.url().allocator();
        match path_url(alloc, minified_path, false)? {
            Some(base) => named_path(alloc, &base, self.get_url()),
            None => Ok(None),
        }
    }
}

/// Whether a URL starts with `data:`.
pub fn is_data_url(url: &str) -> bool
    ensures { result ≡ is_data_url url.now }
{
    url.as_bytes().starts_with(b"data:")
}

// The text of `reference` resolved against `base`. `None` if `reference` is rejected. The result
// may also be `None` if `base` and `reference` together have 2^28 bytes or more.
fn joined_text(base: &Url, reference: &str) -> Result<Option<String>>
    ensures { IsAnswer (option_map string_bytes) (UnlessLong
        (option_map serialize (result_ok (parse_url (Some base.now) reference.now)))
        (IsLong (length (serialize base.now) + length reference.now))) result }
{
    match urls::join(base, reference)? {
        Some(url) => Ok(Some(String::from(url))),
        None => Ok(None),
    }
}

// Lines are searched in blocks of at least this many bytes; only the last block may be smaller.
// After the search each block is tested for UTF-8. A block of about this size is then still in the
// first-level cache.
const BLOCK: usize = 1 << 14;

/// Returns the reference in a text, as `locate_sourcemap_reference_slice` finds it in bytes. The
/// only error is `OutOfMemory`.
pub fn locate_in_text(alloc: Global, text: &str) -> Result<Option<SourceMapRef>>
    ensures value { Locates result (first_reference text.now) }
    ensures memory { IsOkUnless result OutOfMemory }
{
    match first_lines(text.as_bytes(), text.len()) {
        Lines::Marked(line) => reference_on_line(alloc, &text[..line.end][line.start..]),
        Lines::Unmarked(_) => Ok(None),
    }
}

/// Returns the reference on the first line that starts with a mark: `//# sourceMappingURL=` or the
/// legacy `//@ sourceMappingURL=`. The URL is the rest of the line after the mark, trimmed. Lines
/// end at `\n`. Returns `None` if all lines are UTF-8 and no line starts with a mark. If a line is
/// not UTF-8 and no earlier line starts with a mark, the error is `Io` of kind `InvalidData`. The
/// only other error is `OutOfMemory`.
pub fn locate_sourcemap_reference_slice(alloc: Global, bytes: &[u8]) -> Result<Option<SourceMapRef>>
    ensures { Locates result (first_reference bytes.now) }
{
    let mut rest = bytes;
    loop {
        match first_lines(rest, rest.len().min(BLOCK)) {
            Lines::Marked(line) => return reference_at(alloc, rest, line),
            Lines::Unmarked(end) => match rest_after(rest, end)? {
                Some(later) => rest = later,
                None => return Ok(None),
            },
        }
    }
}

// The reference on `line`, the first line with a mark. The error is `InvalidData` if the bytes up
// to the end of the line are not UTF-8.
fn reference_at(alloc: Global, bytes: &[u8], line: Line) -> Result<Option<SourceMapRef>>
    requires { IsFirstMarked bytes.now line }
    ensures { Locates result (first_reference bytes.now) }
{
    match from_utf8(&bytes[..line.end]) {
        Ok(text) => reference_on_line(alloc, &text[line.start..]),
        Err(_) => Err(not_utf8()),
    }
}

// The bytes after the first lines. These lines have no mark, and the last of them ends at `end`.
// `None` if no line is left. The error is `InvalidData` if the first lines are not UTF-8.
fn rest_after(bytes: &[u8], end: usize) -> Result<Option<&[u8]>>
    requires { AreUnmarked bytes.now end }
    ensures { MatchResult result
        (λ rest. LeavesOnly bytes.now (option_map (λ r. r.now) rest))
        (λ e. (first_reference bytes.now ≡ None) × IsInvalidData e) }
{
    match from_utf8(&bytes[..end]) {
        Ok(_) => Ok(lines_after_end(bytes, end)),
        Err(_) => Err(not_utf8()),
    }
}

// The bytes after the newline at an index, `None` if the text ends there.
fn lines_after_end(bytes: &[u8], end: usize) -> Option<&[u8]>
    requires { end ≤ length bytes.now }
    ensures { MatchOption result (end ≡ length bytes.now)
        (λ rest. (end < length bytes.now) × (rest.now ≡ drop (end + 1) bytes.now)) }
{
    if end == bytes.len() {
        return None;
    }
    Some(&bytes[end + 1..])
}

/// Returns the reference in a reader's bytes, as `locate_sourcemap_reference_slice` finds it in a
/// slice. Reads lines through a `BufReader`, up to the line with the reference, and buffers one
/// line at a time.
///
/// Interrupted reads are retried. Any other error of the reader is returned in `Io`; only kind
/// `OutOfMemory` becomes `Error::OutOfMemory`. If a line that was read is not UTF-8, the error is
/// `Io` of kind `InvalidData`. If 2^64 - 1 lines were read and none of them has a reference, the
/// error is `Io` of kind `Other`. If memory runs out, the error is `OutOfMemory`.
pub fn locate_sourcemap_reference<R: Read + Drop>(
    alloc: Global,
    reader: R,
) -> Result<Option<SourceMapRef>>
    ensures { LocatesRead (R.remaining reader) result }
{
    let mut reader = BufReader::new(alloc, reader)?;
    let mut line = Vec::new(alloc);
    for _ in 0..u64::MAX {
        if !read_line(&mut reader, &mut line)? {
            return Ok(None);
        }
        if let Some(found) = reference_in_bytes(alloc, line.as_slice())? {
            return Ok(Some(found));
        }
    }
    Err(Error::Io(io::Error::from(io::ErrorKind::Other)))
}

/// A law about a reader and a slice of the same bytes. If `locate_sourcemap_reference` and
/// `locate_sourcemap_reference_slice` both return `Ok`, they return equal values. If only
/// `locate_sourcemap_reference` returns `Ok`, the other function returns `OutOfMemory`.
pub fn readers_find_what_slices_do()
    ensures found { (text : List ℕ) (read sliced : Option SourceMapRef)
        → LocatesRead (Some text) (Ok read) → Locates (Ok sliced) (first_reference text)
        → option_map reference read ≡ option_map reference sliced }
    ensures refused { (text : List ℕ) (read : Option SourceMapRef) (e : Error)
        → LocatesRead (Some text) (Ok read) → Locates (Err e) (first_reference text)
        → e ≡ OutOfMemory }
{}

// Reads the next line into `line`, without its newline. Returns false if there is no next line.
fn read_line<R: Read + Drop>(reader: &mut BufReader<R>, line: &mut Vec<u8>) -> Result<bool>
    ensures { MatchResult result
        (λ more. ReadsLine (reader_remaining R.remaining reader.old)
        (reader_remaining R.remaining reader.new) more line.new.items)
        IsReadError }
{
    line.clear();
    reader.read_until(b'\n', line)?;
    if line.is_empty() {
        return Ok(false);
    }
    strip_newline(line);
    Ok(true)
}

fn strip_newline(line: &mut Vec<u8>)
    ensures { line.new.items ≡ strip_last 10 line.old.items }
{
    if line.last() == Some(&b'\n') {
        line.pop();
    }
}

// The reference on a line of bytes, `None` if the line starts with no mark. The error is
// `InvalidData` if the line is not UTF-8.
fn reference_in_bytes(alloc: Global, line: &[u8]) -> Result<Option<SourceMapRef>>
    ensures { Locates result (line_reference line.now) }
{
    match from_utf8(line) {
        Ok(text) => reference_on_line(alloc, text),
        Err(_) => Err(not_utf8()),
    }
}

fn not_utf8() -> Error
    ensures { IsInvalidData result }
{
    Error::Io(io::Error::from(io::ErrorKind::InvalidData))
}

// The reference on a line, `None` if the line starts with no mark.
fn reference_on_line(alloc: Global, line: &str) -> Result<Option<SourceMapRef>>
    ensures { Gives (option_map reference) result (Ok (reference_on line.now)) }
{
    if line.as_bytes().starts_with(b"//# sourceMappingURL=") {
        return Ok(Some(SourceMapRef::Ref(url_after_mark(alloc, line)?)));
    }
    if line.as_bytes().starts_with(b"//@ sourceMappingURL=") {
        return Ok(Some(SourceMapRef::LegacyRef(url_after_mark(alloc, line)?)));
    }
    Ok(None)
}

// The rest of a line after its mark, trimmed.
fn url_after_mark(alloc: Global, line: &str) -> Result<String>
    requires { is_some (reference_on line.now) ≡ true }
    ensures { Gives string_bytes result (Ok (url_after_mark line.now)) }
{
    Ok(String::from_str(alloc, line[21..].trim())?)
}
