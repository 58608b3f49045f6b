//! A table of the lines of a text.
ghost use Rattle.std.specs.Prelude.{◌≡◌, ◌+◌, ◌++◌, ◌<◌, ◌≤◌, ◌==◌, [], ◌∷◌, MatchResult, Ok, ℕ, cond, drop, false};
ghost use Rattle.std.specs.Prelude.{length, map, slice_get, slice_index, take, true};
ghost use Rattle.std.specs.List.{AllByRecursion};
ghost use Rattle.std.specs.Simd.Lanes.{mask_l};
ghost use Rattle.sourcemap_errors.specs.Answer.{Changes, Gives};
ghost use Rattle.sourcemap_errors.specs.declared.errors.Error.TheVariants.{OutOfMemory};
ghost use Rattle.sourcemap_source_views.specs.Columns.{column_offset};
ghost use Rattle.sourcemap_source_views.specs.Lines.{IsPartialTable, HasNoTerminator, count_ends, is_terminator};
ghost use Rattle.sourcemap_source_views.specs.Lines.{joined, line_ranges, lines_of, starts_with_crlf};

use crate::columns::reach;
use memchr::memchr2;
use sourcemap_errors::errors::Result;
use std::alloc::Global;
use std::marker::Model;
use std::simd::prelude::*;

// The number of bytes that are examined in one step.
const BLOCK: usize = 64;

/// The ranges of the lines of a text, in bytes. A line ends at `\n`, `\r` or `\r\n`, and there is
/// one line more than line terminators.
#[derive(Debug, Drop)]
pub struct LineTable {
    // The ranges of the first lines: all lines whose start and end fit 32 bits. Offsets of 32 bits
    // halve the size of the table of most texts.
    near: Vec<(u32, u32)>,
    // The ranges of the lines after the lines in `near`.
    far: Vec<(usize, usize)>,
}

impl Model for LineTable {
    ghost use Rattle.std.specs.Prelude.{List, ℕ, ◌++◌};

    ghost Value = { List (ℕ × ℕ) };

    ghost view = { λ table. table.near.items ++ table.far.items };
}

impl LineTable {
    /// Builds the table of a text. The only error is out of memory.
    pub fn new(alloc: Global, text: &str) -> Result<LineTable>
        ensures { Gives (λ table. table) result (Ok (line_ranges text.now)) }
    {
        let bytes = text.as_bytes();
        let mut table = LineTable {
            near: Vec::new(alloc),
            far: Vec::new(alloc),
        };
        let mut start = 0;
        let mut offset = 0;
        while bytes.len() - offset >= BLOCK {
            let ends = ends(u8x64::from_slice(&bytes[offset..]));
            start = table.push_block(bytes, start, offset, ends)?;
            offset = next_offset(bytes, offset + BLOCK, ends == 0);
        }
        start = table.push_rest(bytes, start, offset)?;
        table.push(start, bytes.len())?;
        Ok(table)
    }

    // Adds the lines that end in the block at `from`. The bits of `ends` mark the terminators in
    // the block. Returns the start of the line after the added lines.
    #[inline(always)]
    fn push_block(&mut self, bytes: &[u8], start: usize, from: usize, ends: u64) -> Result<usize>
        requires bounded { from + 64 ≤ length bytes.now }
        requires ends { ends ≡ mask_l (map is_terminator (take 64 (drop from bytes.now))) }
        requires before { IsPartialTable bytes.now self.old start from }
        ensures { MatchResult result (λ next. IsPartialTable bytes.now self.new next (from + 64))
            (λ e. e ≡ OutOfMemory) }
    {
        let mut left = ends;
        let mut start = start;
        let mut offset = from;
        while left != 0 {
            let gap = left.trailing_zeros();
            let end = offset + gap as usize;
            start = self.push_end(bytes, start, end)?;
            left = left >> gap >> 1;
            offset = end + 1;
        }
        Ok(start)
    }

    // Adds the lines whose terminators are at `from` or later, byte by byte. Returns the start of
    // the last line, which has no terminator.
    fn push_rest(&mut self, bytes: &[u8], start: usize, from: usize) -> Result<usize>
        requires bounded { from ≤ length bytes.now }
        requires before { IsPartialTable bytes.now self.old start from }
        ensures { MatchResult result
            (λ next. IsPartialTable bytes.now self.new next (length bytes.now))
            (λ e. e ≡ OutOfMemory) }
    {
        let mut start = start;
        for offset in from..bytes.len() {
            if is_end(bytes[offset]) {
                start = self.push_end(bytes, start, offset)?;
            }
        }
        Ok(start)
    }

    // Adds the line from `start` up to the terminator at `end`. Returns the start of the next line.
    // If `end` is before `start`, the table already has the line with this terminator. Then nothing
    // is added, and `start` is returned. The callers in this module pass such an `end` only for the
    // `\n` of a `\r\n`. The only error is out of memory.
    #[inline(always)]
    fn push_end(&mut self, bytes: &[u8], start: usize, end: usize) -> Result<usize>
        requires inside { end < length bytes.now }
        requires ends { is_terminator (slice_index bytes.now end) ≡ true }
        requires before { IsPartialTable bytes.now self.old start end }
        ensures { MatchResult result (λ next. IsPartialTable bytes.now self.new next (end + 1))
            (λ e. e ≡ OutOfMemory) }
    {
        if end < start {
            return Ok(start);
        }
        self.push(start, end)?;
        Ok(end + terminator_length(&bytes[end..]))
    }

    #[inline(always)]
    fn push(&mut self, start: usize, end: usize) -> Result<()>
        requires { start ≤ end }
        ensures { Changes result self.old self.new (self.old ++ (start, end) ∷ []) }
    {
        if end <= u32::MAX as usize && self.far.is_empty() {
            self.near.push((start as u32, end as u32))?;
        } else {
            self.far.push((start, end))?;
        }
        Ok(())
    }

    /// Returns the start and end of a line in bytes, without its terminator. Lines are 0-based.
    /// Returns `None` if there is no such line.
    pub fn range(&self, line: u32) -> Option<(usize, usize)>
        ensures { result ≡ slice_get self.now line }
    {
        let line = line as usize;
        match self.near.get(line) {
            Some((start, end)) => Some((*start as usize, *end as usize)),
            None => self.far.get(line - self.near.len()).copied(),
        }
    }

    /// The number of lines, at least one.
    pub fn count(&self) -> usize
        ensures { result ≡ length self.now }
    {
        self.near.len() + self.far.len()
    }

    pub(crate) fn copy(&self) -> Result<LineTable>
        ensures { Gives (λ table. table) result (Ok self.now) }
    {
        let alloc = *self.near.allocator();
        let near = Vec::from_slice(alloc, self.near.as_slice())?;
        let far = Vec::from_slice(alloc, self.far.as_slice())?;
        Ok(LineTable { near, far })
    }
}

/// Returns the byte offset of column `col` in a line. The column is 0-based and in UTF-16 units.
/// Its offset is the first character boundary with at least `col` units before it. Returns `None`
/// if the line is too short. Allocates nothing.
pub fn utf16_offset(line: &str, col: u64) -> Option<usize>
    ensures { result ≡ column_offset line.now col }
{
    Some(reach(line, col)?.offset)
}

// The offset where the search for terminators continues. `is_long` says that the block that ends at
// `from` has no terminator. If `is_long` is true, the search continues at the first terminator at
// or after `from`, or at the end of the text if there is no such terminator. If `is_long` is false,
// the search continues at `from`.
#[inline(always)]
fn next_offset(bytes: &[u8], from: usize, is_long: bool) -> usize
    requires { from ≤ length bytes.now }
    ensures ahead { from ≤ result }
    ensures within { result ≤ length bytes.now }
    ensures quiet { (k : ℕ) → from ≤ k → k < result
        → is_terminator (slice_index bytes.now k) ≡ false }
{
    if !is_long {
        return from;
    }
    match memchr2(b'\n', b'\r', &bytes[from..]) {
        Some(gap) => from + gap,
        None => bytes.len(),
    }
}

// The line terminators in these bytes: one bit for each byte, the lowest for the first.
#[inline(always)]
fn ends(bytes: u8x64) -> u64
    ensures { result ≡ mask_l (map is_terminator bytes) }
{
    let newlines = bytes.simd_eq(u8x64::splat(b'\n'));
    let returns = bytes.simd_eq(u8x64::splat(b'\r'));
    (newlines | returns).to_bitmask()
}

fn is_end(byte: u8) -> bool
    ensures { result ≡ is_terminator byte }
{
    byte == b'\n' || byte == b'\r'
}

// The length in bytes of the line terminator at the start of a text: 2 for CRLF, otherwise 1.
fn terminator_length(text: &[u8]) -> usize
    ensures { result ≡ (cond (starts_with_crlf text.now) 2 1) }
{
    match text {
        [b'\r', b'\n', ..] => 2,
        _ => 1,
    }
}

/// A law: the lines of a text with their terminators, joined, are the text. The number of lines is
/// the number of terminators plus one, and `\r\n` counts as one terminator. Apart from its
/// terminator, a line contains neither `\n` nor `\r`.
pub fn lines_make_their_text(text: &str)
    ensures joined { joined (lines_of text.now) ≡ text.now }
    ensures counted { length (lines_of text.now) ≡ count_ends text.now + 1 }
    ensures uncut { AllByRecursion HasNoTerminator (lines_of text.now) }
{}
