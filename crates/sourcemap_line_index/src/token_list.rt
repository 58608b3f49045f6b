//! A list of tokens in order, with the table of their lines.
ghost use Rattle.std.specs.Prelude.{◌≡◌, ◌<◌, ◌≤◌, ◌+◌, ◌*◌, ◌^◌, Ok, Some, IfSome, length, option_map, slice_get};
ghost use Rattle.std.specs.Bool.{Decides};
ghost use Rattle.std.specs.Cmp.{partial_equiv_from_equiv};
ghost use Rattle.sourcemap_errors.specs.Answer.{Gives};
ghost use Rattle.sourcemap_tokens.specs.Tokens.{AreInOrder, closest_token, in_order};
ghost use Rattle.sourcemap_line_index.specs.LineIndex.{IsTableOf, binary_digits};
ghost use Rattle.sourcemap_line_index.specs.TokenList.{same_tokens, same_tokens_equiv};

use crate::line_index::LineIndex;
use crate::probe::{KeyProbe, Probe};
use crate::samples::ColumnSamples;
use sourcemap_errors::errors::Result;
use sourcemap_tokens::tokens::{RawToken, closest_token, sort_tokens};
use std::alloc::Global;
use std::marker::Model;

/// Tokens sorted by generated position, with the table of their lines, and samples of their columns
/// if the list and its lines are long. No method changes the tokens, so the table and the samples
/// always match them.
#[derive(Debug)]
pub struct TokenList {
    tokens: Vec<RawToken>,
    lines: LineIndex,
    samples: ColumnSamples,
}

impl Model for TokenList {
    ghost use Rattle.std.specs.Prelude.{List, length};
    ghost use Rattle.sourcemap_line_index.specs.LineIndex.{IsTableOf};
    ghost use Rattle.sourcemap_line_index.specs.Samples.{AreSamples};
    ghost use Rattle.sourcemap_tokens.specs.declared.tokens.RawToken.{RawToken};

    ghost Value = { List RawToken };

    ghost view = { λ list. list.tokens.items };

    ghost invariant = { λ list. IsTableOf list.tokens.items list.lines
        × AreSamples list.tokens.items (length list.lines.lines) list.samples };
}

// prover: one drop
impl Drop for TokenList {
    fn drop(self) {
        let TokenList {
            tokens: _,
            lines: _,
            samples: _,
        } = self;
    }
}

impl TokenList {
    /// Sorts tokens by generated position. The sort is stable. The only error is out of memory, and
    /// the tokens are dropped then.
    pub fn from_unsorted(mut tokens: Vec<RawToken>) -> Result<TokenList>
        ensures { Gives (λ list. list) result (Ok (in_order tokens.items)) }
    {
        sort_tokens(&mut tokens)?;
        TokenList::of_sorted(tokens)
    }

    /// Takes tokens that are sorted by generated position. The only error is out of memory, and the
    /// tokens are dropped then.
    pub fn of_sorted(tokens: Vec<RawToken>) -> Result<TokenList>
        requires { AreInOrder tokens.items }
        ensures { Gives (λ list. list) result (Ok tokens.items) }
    {
        let lines = LineIndex::new(*tokens.allocator(), tokens.as_slice())?;
        TokenList::with_table(tokens, lines)
    }

    /// Takes tokens that are sorted by generated position, and the table of their lines. The only
    /// error is out of memory, and both are dropped then.
    pub fn with_table(tokens: Vec<RawToken>, lines: LineIndex) -> Result<TokenList>
        requires { IsTableOf tokens.items lines }
        ensures { Gives (λ list. list) result (Ok tokens.items) }
    {
        let samples = ColumnSamples::new(*tokens.allocator(), tokens.as_slice(), lines.rows())?;
        Ok(TokenList {
            tokens,
            lines,
            samples,
        })
    }

    /// The tokens as a slice.
    pub fn as_slice(&self) -> &[RawToken]
        ensures value { result.now ≡ self.now }
        ensures in_order { AreInOrder result.now }
    {
        self.tokens.as_slice()
    }

    /// The number of tokens.
    pub fn len(&self) -> usize
        ensures { result ≡ length self.now }
    {
        self.tokens.len()
    }

    /// The token at this index, `None` past the end.
    pub fn get(&self, index: usize) -> Option<RawToken>
        ensures value { result ≡ slice_get self.now index }
        ensures small { IfSome result (λ _. index + 1 < 2 ^ 64) }
    {
        self.tokens.get(index).copied()
    }

    /// Returns the token closest to a generated position, with its index in the list. The closest
    /// token is the first token at the position, else the last token before the position. Returns
    /// `None` if all tokens are after the position. Line and column count from 0.
    ///
    /// The second value is how often the search compared `line` or `col` with the line or column of
    /// a token. If the count of tokens has d binary digits, the search makes at most 2 (d + 1) such
    /// comparisons, however many tokens have the same position. Allocates nothing.
    #[inline(always)]
    pub fn closest_steps(&self, line: u32, col: u32) -> (Option<(usize, RawToken)>, u32)
        ensures answer { result.0 ≡ closest_token self.now (line, col) }
        // the list has this token at this index
        ensures own_index { IfSome result.0 (λ found. slice_get self.now found.0 ≡ Some found.1) }
        ensures small { IfSome result.0 (λ found. found.0 + 1 < 2 ^ 64) }
        ensures counted { result.1 ≤ 2 * (binary_digits (length self.now) + 1) }
        ensures at_least_one { 0 < length self.now → 0 < result.1 }
    {
        let mut probe = KeyProbe::new(line, col);
        let tokens = self.tokens.as_slice();
        let samples = self.samples.as_slice();
        let index = self.lines.closest_by_samples(tokens, samples, &mut probe);
        (with_token(tokens, index), probe.count())
    }

    /// Returns the same token and index as `closest_steps`, found by a binary search among all
    /// tokens. This is for callers that search many lists in turn. Usually, such lists are not in
    /// the processor's cache. For a list outside the cache, this binary search is faster than the
    /// search of `closest_steps`, since the branches of the binary search let the processor fetch
    /// ahead.
    pub fn closest_among_many(&self, line: u32, col: u32) -> Option<(usize, RawToken)>
        ensures answer { result ≡ closest_token self.now (line, col) }
        // the list has this token at this index
        ensures own_index { IfSome result (λ found. slice_get self.now found.0 ≡ Some found.1) }
        ensures small { IfSome result (λ found. found.0 + 1 < 2 ^ 64) }
    {
        closest_token(self.tokens.as_slice(), line, col)
    }

    /// Returns the tokens, moved and not copied.
    pub fn into_vec(self) -> Vec<RawToken>
        ensures value { result.items ≡ self }
        ensures in_order { AreInOrder self }
    {
        let TokenList {
            tokens,
            lines: _lines,
            samples: _samples,
        } = self;
        tokens
    }

    /// A copy of the list. The only error is out of memory.
    pub fn clone(&self) -> Result<Self>
        ensures { Gives (λ list. list) result (Ok self.now) }
    {
        let alloc = self.allocator();
        let tokens = Vec::from_slice(alloc, self.tokens.as_slice())?;
        let lines = self.lines.duplicate(alloc)?;
        TokenList::with_table(tokens, lines)
    }

    /// The allocator of the list.
    pub fn allocator(&self) -> Global {
        *self.tokens.allocator()
    }
}

#[inline(always)]
fn with_token(tokens: &[RawToken], index: Option<usize>) -> Option<(usize, RawToken)>
    requires { IfSome index (λ at. at < length tokens.now) }
    ensures kept { option_map (λ found. found.0) result ≡ index }
    ensures own_index { IfSome result (λ found. slice_get tokens.now found.0 ≡ Some found.1) }
    ensures small { IfSome result (λ found. found.0 + 1 < 2 ^ 64) }
{
    match index {
        None => None,
        Some(at) => Some((at, tokens[at])),
    }
}

fn same_items(a: &Vec<RawToken>, b: &Vec<RawToken>) -> bool
    ensures { result ≡ same_tokens a.now.items b.now.items }
{
    a == b
}

/// Lists are equal exactly if they hold the same tokens in the same order.
impl PartialEq for TokenList {
    ghost eq = { same_tokens };

    ghost laws = { partial_equiv_from_equiv same_tokens_equiv };

    fn eq(&self, other: &Self) -> bool
        ensures value { result ≡ same_tokens self.now other.now }
        ensures same { Decides result (self.now ≡ other.now) }
    {
        same_items(&self.tokens, &other.tokens)
    }
}
