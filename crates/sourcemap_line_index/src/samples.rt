//! The columns of every eighth token, so that a search in a long line reads little memory.
ghost use Rattle.std.specs.Prelude.{◌≡◌, ℕ, ◌<◌, ◌≤◌, ◌+◌, ◌-◌, ◌^◌, IfOk, length, min, slice_index};
ghost use Rattle.sourcemap_line_index.specs.LineIndex.{Rises};
ghost use Rattle.sourcemap_line_index.specs.Samples.{AreColumns, AreSamples, HasRisingColumns, IsFirstAtColumn};

use crate::probe::Probe;
use sourcemap_tokens::tokens::RawToken;
use std::alloc::{AllocError, Global};
use std::marker::Model;

// The distance between two samples, in tokens.
const SPACING: usize = 8;

// Fewer tokens than this fit in the first-level cache, and need no samples.
const MANY: usize = 1024;

// A list of at least this many tokens does not fit in a core's second-level cache. The bound on
// comparisons for such a list is high enough for a linear search of a short line.
const LARGE: usize = 1 << 16;

// The longest line that is searched linearly, in tokens.
const FEW: usize = 16;

// A list has samples only if its lines hold at least this many tokens on average. Lines without
// tokens are not counted. With shorter lines, a search by samples could exceed the bound on
// comparisons.
const LONG: usize = 32;

/// The columns of every eighth token of a long list with long lines. Empty for any other list.
#[derive(Debug, Drop)]
pub(crate) struct ColumnSamples {
    columns: Vec<u32>,
}

impl Model for ColumnSamples {
    ghost use Rattle.std.specs.Prelude.{List, ℕ};

    ghost Value = { List ℕ };

    ghost view = { λ samples. samples.columns.items };
}

impl ColumnSamples {
    /// Samples the columns of `tokens`. `lines` is the number of lines that hold tokens. There are
    /// no samples if the tokens are few or the lines are short. The only error is out of memory.
    pub(crate) fn new(
        alloc: Global,
        tokens: &[RawToken],
        lines: usize,
    ) -> Result<ColumnSamples, AllocError>
        ensures { IfOk result (λ samples. AreSamples tokens.now lines samples) }
    {
        if tokens.len() < MANY || tokens.len() / LONG < lines {
            return Ok(ColumnSamples {
                columns: Vec::new(alloc),
            });
        }
        let columns = columns_of(alloc, tokens)?;
        Ok(ColumnSamples { columns })
    }

    pub(crate) fn as_slice(&self) -> &[u32]
        ensures { result.now ≡ self.now }
    {
        self.columns.as_slice()
    }
}

fn columns_of(alloc: Global, tokens: &[RawToken]) -> Result<Vec<u32>, AllocError>
    ensures { IfOk result (λ columns. AreColumns tokens.now columns.items) }
{
    let count = tokens.len().div_ceil(SPACING);
    let mut columns = Vec::with_capacity(alloc, count)?;
    for sample in 0..count {
        columns.push(tokens[sample * SPACING].dst_col)?;
    }
    Ok(columns)
}

// Searches the tokens from `first` up to, not including, `end`. Returns the index of the first of
// these tokens whose column is at or after the probe's column, or `end` if there is no such token.
// If there are samples, and `end - first` is at least `SPACING`, the samples are searched first,
// and then fewer than `SPACING` tokens.
#[inline(always)]
pub(crate) fn first_by_samples<P: Probe>(
    tokens: &[RawToken],
    samples: &[u32],
    first: usize,
    end: usize,
    probe: &mut P,
) -> usize
    requires sampled { 0 < length samples.now → AreColumns tokens.now samples.now }
    requires rising { HasRisingColumns tokens.now first end }
    ensures found { IsFirstAtColumn tokens.now first end (P.position probe.old).1 result }
    ensures kept { P.position probe.new ≡ P.position probe.old }
    ensures counted_none { (d : ℕ) → length samples.now ≡ 0 → length tokens.now < 2 ^ d
        → P.comparisons probe.new ≤ P.comparisons probe.old + d }
    ensures counted { (d : ℕ) → length tokens.now < 2 ^ d
        → P.comparisons probe.new ≤ P.comparisons probe.old + (d + 5) }
    ensures raised { min (P.comparisons probe.old) 4294967295 ≤ P.comparisons probe.new }
{
    if samples.is_empty() || end - first < SPACING {
        return first_without_samples(tokens, first, end, probe);
    }
    let low = first.div_ceil(SPACING);
    let high = end.div_ceil(SPACING);
    let index = SPACING * first_sample(samples, low, high, probe);
    // If `index` is not 0, the result is above `index - SPACING`. The reason: `index - SPACING` is
    // below `first`, or the token at `index - SPACING` has a column before the probe's column.
    let from = first.max(index.saturating_sub(SPACING - 1));
    first_linear(tokens, from, end.min(index), probe)
}

// Searches the samples from `first` up to, not including, `end`. Returns the index of the first of
// these samples that is at or after the probe's column, or `end` if there is no such sample.
// `first`, `end` and the result count samples, not tokens.
fn first_sample<P: Probe>(samples: &[u32], first: usize, end: usize, probe: &mut P) -> usize
    requires ordered { first ≤ end }
    requires within { end ≤ length samples.now }
    requires rises { Rises (slice_index samples.now) first end }
    ensures at_least { first ≤ result }
    ensures at_most { result ≤ end }
    ensures before { first < result
        → slice_index samples.now (result - 1) < (P.position probe.old).1 }
    ensures from { result < end → (P.position probe.old).1 ≤ slice_index samples.now result }
    ensures kept { P.position probe.new ≡ P.position probe.old }
    ensures counted { (d : ℕ) → end - first < 2 ^ d
        → P.comparisons probe.new ≤ P.comparisons probe.old + d }
    ensures raised { min (P.comparisons probe.old) 4294967295 ≤ P.comparisons probe.new }
{
    let mut sample = first;
    let mut left = end - first;
    while left > 0 {
        let half = left / 2;
        let rest = left - half;
        sample += probe.skip_by_column(samples[sample + rest - 1], rest);
        left = half;
    }
    sample
}

// As `first_by_samples`, but without samples. The search is linear if there are at least `LARGE`
// tokens and `end - first` is at most `FEW`. Otherwise the search is binary.
#[inline(always)]
fn first_without_samples<P: Probe>(
    tokens: &[RawToken],
    first: usize,
    end: usize,
    probe: &mut P,
) -> usize
    requires { HasRisingColumns tokens.now first end }
    ensures found { IsFirstAtColumn tokens.now first end (P.position probe.old).1 result }
    ensures kept { P.position probe.new ≡ P.position probe.old }
    ensures counted { (d : ℕ) → length tokens.now < 2 ^ d
        → P.comparisons probe.new ≤ P.comparisons probe.old + d }
    ensures raised { min (P.comparisons probe.old) 4294967295 ≤ P.comparisons probe.new }
{
    if tokens.len() >= LARGE && end - first <= FEW {
        return first_linear(tokens, first, end, probe);
    }
    first_at_column(tokens, first, end, probe)
}

// Searches the tokens from `first` up to, not including, `end`, by a binary search. Returns the
// index of the first of these tokens whose column is at or after the probe's column, or `end` if
// there is no such token.
#[inline(always)]
fn first_at_column<P: Probe>(tokens: &[RawToken], first: usize, end: usize, probe: &mut P) -> usize
    requires { HasRisingColumns tokens.now first end }
    ensures found { IsFirstAtColumn tokens.now first end (P.position probe.old).1 result }
    ensures kept { P.position probe.new ≡ P.position probe.old }
    ensures counted { (d : ℕ) → end - first < 2 ^ d
        → P.comparisons probe.new ≤ P.comparisons probe.old + d }
    ensures raised { min (P.comparisons probe.old) 4294967295 ≤ P.comparisons probe.new }
{
    let mut index = first;
    let mut left = end - first;
    while left > 0 {
        let half = left / 2;
        let rest = left - half;
        index += probe.skip_by_column(tokens[index + rest - 1].dst_col, rest);
        left = half;
    }
    index
}

// As `first_at_column`, but by a linear search. For few tokens this is faster, since the processor
// can fetch ahead.
fn first_linear<P: Probe>(tokens: &[RawToken], first: usize, end: usize, probe: &mut P) -> usize
    requires { HasRisingColumns tokens.now first end }
    ensures found { IsFirstAtColumn tokens.now first end (P.position probe.old).1 result }
    ensures kept { P.position probe.new ≡ P.position probe.old }
    ensures counted { P.comparisons probe.new ≤ P.comparisons probe.old + (end - first) }
    ensures raised { min (P.comparisons probe.old) 4294967295 ≤ P.comparisons probe.new }
{
    let mut index = first;
    for at in first..end {
        index += probe.skip_by_column(tokens[at].dst_col, 1);
    }
    index
}
