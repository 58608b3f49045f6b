//! The lines of a text up to the first one with the mark of a reference.
ghost use Rattle.std.specs.Prelude.{◌≡◌, ◌≤◌, is_some, length};
ghost use Rattle.sourcemap_references.specs.Lines.{IfMarked, IfUnmarked, IsFirstMarked, AreUnmarked, EndsAt};
ghost use Rattle.sourcemap_references.specs.Reference.{reference_on};

use memchr::memchr;

/// The range of a line in a text, in bytes.
#[derive(Clone, Copy, Debug)]
pub struct Line {
    /// The index of the first byte of the line.
    pub start: usize,
    /// The index of the newline after the line, or the length of the text.
    pub end: usize,
}

/// The result of a search for a mark in the first lines of a text.
#[derive(Clone, Copy, Debug)]
pub enum Lines {
    /// The first line with a mark.
    Marked(Line),
    /// No line that was read has a mark. Holds the end of the last line that was read.
    Unmarked(usize),
}

/// Reads lines until a line has a mark, or until a line ends at index `least` or later.
pub fn first_lines(bytes: &[u8], least: usize) -> Lines
    requires { least ≤ length bytes.now }
    ensures marked { IfMarked result (λ line. IsFirstMarked bytes.now line) }
    ensures unmarked { IfUnmarked result (λ end. AreUnmarked bytes.now end) }
    ensures many { IfUnmarked result (λ end. least ≤ end) }
{
    let mut start = 0;
    loop {
        let end = line_end(bytes, start);
        if has_mark(&bytes[start..end]) {
            return Lines::Marked(Line { start, end });
        }
        if end >= least {
            return Lines::Unmarked(end);
        }
        start = end + 1;
    }
}

// The end of the line that starts at `start`: its newline, or the end of the text.
fn line_end(bytes: &[u8], start: usize) -> usize
    requires { start ≤ length bytes.now }
    ensures { EndsAt bytes.now start result }
{
    match memchr(b'\n', &bytes[start..]) {
        Some(length) => start + length,
        None => bytes.len(),
    }
}

// Whether a line starts with a mark.
fn has_mark(line: &[u8]) -> bool
    ensures { result ≡ is_some (reference_on line.now) }
{
    line.starts_with(b"//# sourceMappingURL=") || line.starts_with(b"//@ sourceMappingURL=")
}
