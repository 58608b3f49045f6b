//! A table of the lines that hold tokens, and the lookup that uses it.
ghost use Rattle.std.specs.Prelude.{◌≡◌, ℕ, ◌<◌, ◌≤◌, ◌+◌, ◌-◌, ◌*◌, ◌^◌, Ok, IfErr, IfOk, IfSome, false, length, min};
ghost use Rattle.std.specs.Prelude.{option_map, slice_index, true};
ghost use Rattle.sourcemap_errors.specs.Answer.{Changes, Gives};
ghost use Rattle.sourcemap_errors.specs.declared.errors.Error.TheVariants.{OutOfMemory};
ghost use Rattle.sourcemap_tokens.specs.Tokens.{AreInOrder, closest_token};
ghost use Rattle.sourcemap_tokens.specs.declared.tokens.RawToken.{RawToken};
ghost use Rattle.sourcemap_line_index.specs.LineIndex.{BeginsLine, ContinuesLine, IsTableOf, IsSpan, Rises};
ghost use Rattle.sourcemap_line_index.specs.LineIndex.{binary_digits, no_rows, with_row};
ghost use Rattle.sourcemap_line_index.specs.Samples.{AreSamples};

use crate::probe::Probe;
use crate::samples::first_by_samples;
use sourcemap_errors::errors::Result;
use sourcemap_tokens::tokens::RawToken;
use std::alloc::Global;
use std::cmp::Ordering;
use std::marker::Model;

/// The generated lines that hold tokens, each with the index of its first token.
#[derive(Debug, Drop)]
pub struct LineIndex {
    // the lines, separate from `firsts` so that a search for a line reads little memory
    lines: Vec<u32>,
    // the index of the first token of each line
    firsts: Vec<usize>,
}

impl Model for LineIndex {
    ghost use Rattle.sourcemap_line_index.specs.LineIndex.{LineTable};

    ghost Value = { LineTable };

    ghost view = { λ table. record { lines = table.lines.items; firsts = table.firsts.items } };
}

impl LineIndex {
    /// Builds the table of the lines that hold tokens. `tokens` must be sorted by generated
    /// position. The only error is out of memory.
    pub fn new(alloc: Global, tokens: &[RawToken]) -> Result<LineIndex>
        requires { AreInOrder tokens.now }
        ensures table { IfOk result (λ table. IsTableOf tokens.now table) }
        ensures memory { IfErr result (λ cause. cause ≡ OutOfMemory) }
    {
        let rows = rows_at_most(tokens);
        let mut lines = Vec::with_capacity(alloc, rows)?;
        let mut firsts = Vec::with_capacity(alloc, rows)?;
        for index in 0..tokens.len() {
            if begins_line(tokens, index) {
                lines.push(tokens[index].dst_line)?;
                firsts.push(index)?;
            }
        }
        // the capacity may be too high if some lines hold no token
        lines.shrink_to_fit();
        firsts.shrink_to_fit();
        Ok(LineIndex { lines, firsts })
    }

    /// The table of an empty list. It allocates nothing.
    pub fn of_none(alloc: Global) -> LineIndex
        ensures { result ≡ no_rows }
    {
        LineIndex {
            lines: Vec::new(alloc),
            firsts: Vec::new(alloc),
        }
    }

    /// Appends a line with the index of its first token. For callers that build the table while
    /// parsing. The only error is out of memory, which leaves the table unchanged.
    pub fn push(&mut self, line: u32, first: usize) -> Result<()>
        ensures { Changes result self.old self.new (with_row self.old line first) }
    {
        // reserved first, so that nothing can fail after the first push
        self.firsts.reserve(1)?;
        self.lines.push(line)?;
        self.firsts.push(first)?;
        Ok(())
    }

    pub(crate) fn duplicate(&self, alloc: Global) -> Result<LineIndex>
        ensures { Gives (λ table. table) result (Ok self.now) }
    {
        Ok(LineIndex {
            lines: Vec::from_slice(alloc, self.lines.as_slice())?,
            firsts: Vec::from_slice(alloc, self.firsts.as_slice())?,
        })
    }

    /// Returns the index of the token closest to the probe's position: the first token at the
    /// position, else the last token before it. Returns `None` if all tokens are after the
    /// position. `tokens` is the list that the table was built from. If the count of tokens has d
    /// binary digits, the search makes at most 2 (d + 1) comparisons, however many tokens have the
    /// same position. Allocates nothing.
    pub fn closest<P: Probe>(&self, tokens: &[RawToken], probe: &mut P) -> Option<usize>
        requires { IsTableOf tokens.now self.now }
        ensures answer { result
            ≡ option_map (λ found. found.0) (closest_token tokens.now (P.position probe.old)) }
        ensures inside { IfSome result (λ index. index < length tokens.now) }
        ensures kept { P.position probe.new ≡ P.position probe.old }
        ensures counted { P.comparisons probe.new
            ≤ P.comparisons probe.old + 2 * (binary_digits (length tokens.now) + 1) }
        ensures at_least_one { 0 < length tokens.now
            → min (P.comparisons probe.old + 1) 4294967295 ≤ P.comparisons probe.new }
    {
        self.closest_by_samples(tokens, &[], probe)
    }

    // As `closest`. `samples` holds the column samples of the list, or is empty.
    #[inline(always)]
    pub(crate) fn closest_by_samples<P: Probe>(
        &self,
        tokens: &[RawToken],
        samples: &[u32],
        probe: &mut P,
    ) -> Option<usize>
        requires made { IsTableOf tokens.now self.now }
        requires sampled { AreSamples tokens.now (length self.now.lines) samples.now }
        ensures answer { result
            ≡ option_map (λ found. found.0) (closest_token tokens.now (P.position probe.old)) }
        ensures inside { IfSome result (λ index. index < length tokens.now) }
        ensures kept { P.position probe.new ≡ P.position probe.old }
        ensures counted { P.comparisons probe.new
            ≤ P.comparisons probe.old + 2 * (binary_digits (length tokens.now) + 1) }
        ensures at_least_one { 0 < length tokens.now
            → min (P.comparisons probe.old + 1) 4294967295 ≤ P.comparisons probe.new }
    {
        if tokens.is_empty() {
            return None;
        }
        let (first, end) = self.span_of(tokens, probe);
        let index = first_by_samples(tokens, samples, first, end, probe);
        // this uses arithmetic instead of a branch, which would be mispredicted for a third of the
        // positions
        let nearest = index.min(tokens.len() - 1);
        let is_hit = (index < end) & probe.column(tokens[nearest].dst_col).is_eq();
        index.checked_sub(usize::from(!is_hit))
    }

    // Returns the range of the tokens on the probe's line: its first index, and its end, which is
    // the index after its last token. If the line holds no token, both are the index of the first
    // token on a later line, or the token count if there is no such token.
    #[inline(always)]
    fn span_of<P: Probe>(&self, tokens: &[RawToken], probe: &mut P) -> (usize, usize)
        requires { IsTableOf tokens.now self.now }
        ensures span { IsSpan tokens.now (P.position probe.old).0 result.0 result.1 }
        ensures kept { P.position probe.new ≡ P.position probe.old }
        ensures counted { (d : ℕ) → length self.now.lines < 2 ^ d
            → P.comparisons probe.new ≤ P.comparisons probe.old + (d + 1) }
        ensures at_least_one { 0 < length tokens.now
            → min (P.comparisons probe.old + 1) 4294967295 ≤ P.comparisons probe.new }
    {
        let lines = self.lines.as_slice();
        if lines.len() == 1 {
            return span_of_one(lines[0], tokens.len(), probe);
        }
        let row = first_at_line(lines, probe);
        let first = self.first_of(row, tokens.len());
        if row < lines.len() && probe.line(lines[row]).is_eq() {
            return (first, self.first_of(row + 1, tokens.len()));
        }
        (first, first)
    }

    pub(crate) fn rows(&self) -> usize
        ensures { result ≡ length self.now.lines }
    {
        self.lines.len()
    }

    // The index of the first token of this row's line, or `end` if there is no such row.
    #[inline(always)]
    fn first_of(&self, row: usize, end: usize) -> usize
        ensures within { row < length self.now.firsts → result ≡ slice_index self.now.firsts row }
        ensures past { length self.now.firsts ≤ row → result ≡ end }
    {
        if row < self.firsts.len() {
            self.firsts[row]
        } else {
            end
        }
    }
}

// Returns the range that `span_of` returns for `count` tokens that are all on the line `line`, as
// in most minified code. This function reads no index from the table, so the search that follows
// need not wait for such a read.
#[inline(always)]
fn span_of_one<P: Probe>(line: u32, count: usize, probe: &mut P) -> (usize, usize)
    ensures same { (P.position probe.old).0 ≡ line → result ≡ (0, count) }
    ensures before { (P.position probe.old).0 < line → result ≡ (0, 0) }
    ensures after { line < (P.position probe.old).0 → result ≡ (count, count) }
    ensures kept { P.position probe.new ≡ P.position probe.old }
    ensures counted { P.comparisons probe.new ≡ min (P.comparisons probe.old + 1) 4294967295 }
{
    match probe.line(line) {
        Ordering::Less => (0, 0),
        Ordering::Equal => (0, count),
        Ordering::Greater => (count, count),
    }
}

// An upper bound for the number of lines that hold tokens, if the tokens are in order. With this
// capacity, no list of the table grows while it is filled.
fn rows_at_most(tokens: &[RawToken]) -> usize {
    match tokens.last() {
        None => 0,
        Some(token) => tokens
            .len()
            .min((token.dst_line as usize).saturating_add(1)),
    }
}

fn begins_line(tokens: &[RawToken], index: usize) -> bool
    requires { index < length tokens.now }
    ensures begins { result ≡ true → BeginsLine tokens.now index }
    ensures continues { result ≡ false → ContinuesLine tokens.now index }
{
    index == 0 || tokens[index].dst_line != tokens[index - 1].dst_line
}

// The index of the first row whose line is at or after the probe's line, or the number of rows if
// there is no such row.
#[inline(always)]
fn first_at_line<P: Probe>(lines: &[u32], probe: &mut P) -> usize
    requires { Rises (slice_index lines.now) 0 (length lines.now) }
    ensures within { result ≤ length lines.now }
    ensures before { 0 < result → slice_index lines.now (result - 1) < (P.position probe.old).0 }
    ensures from { result < length lines.now
        → (P.position probe.old).0 ≤ slice_index lines.now result }
    ensures kept { P.position probe.new ≡ P.position probe.old }
    ensures counted { (d : ℕ) → length lines.now < 2 ^ d
        → P.comparisons probe.new ≤ P.comparisons probe.old + d }
    ensures at_least_one { 0 < length lines.now
        → min (P.comparisons probe.old + 1) 4294967295 ≤ P.comparisons probe.new }
{
    let mut row = 0;
    let mut left = lines.len();
    while left > 0 {
        let half = left / 2;
        let rest = left - half;
        row += probe.skip_by_line(lines[row + rest - 1], rest);
        left = half;
    }
    row
}

/// A law: a count with d binary digits is below 2^d, but not below a smaller power of 2.
pub fn binary_digits_are_fewest()
    ensures enough { (count : ℕ) → count < 2 ^ binary_digits count }
    ensures fewest { (count digits : ℕ) → count < 2 ^ digits → binary_digits count ≤ digits }
{}
