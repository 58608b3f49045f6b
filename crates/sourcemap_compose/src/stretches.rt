//! The positions that each token of a sorted list covers.
ghost use Rattle.std.specs.Prelude.{◌≡◌, ◌<◌, ◌+◌, ◌*◌, Ok, Some, IsSortedByKey, IsTrue, length, slice_get};
ghost use Rattle.sourcemap_errors.specs.Answer.{Gives};
ghost use Rattle.sourcemap_tokens.specs.Tokens.{position_cmp, sorted_by};
ghost use Rattle.sourcemap_compose.specs.Stretches.{copy_or, earlier, is_before, position_by, stretches};

use crate::block_sort::{next_descent, sort_stably};
use sourcemap_errors::errors::Result;
use sourcemap_tokens::tokens::RawToken;
use std::alloc::Global;

/// Which of two maps a token belongs to. The intermediate text is the generated text of the
/// original, and the source text of the adjustment.
#[derive(Clone, Copy, Debug)]
pub enum Side {
    /// The map that is adjusted.
    Original,
    /// The map that adjusts the original.
    Adjustment,
}

/// A token, and the positions that it covers in the intermediate text: from `start` up to, not
/// including, `end`, each as line and column.
#[derive(Clone, Copy, Debug)]
pub struct Stretch {
    /// The token.
    pub token: RawToken,
    /// The token's position.
    pub start: (u32, u32),
    /// The next token's position or column 4294967295 of the line of `start`, whichever comes
    /// first. If there is no next token, column 4294967295 of that line.
    pub end: (u32, u32),
}

// The position of a token in the intermediate text.
pub(crate) fn position_by(side: Side, token: &RawToken) -> (u32, u32)
    ensures { result ≡ position_by side token.now }
{
    match side {
        Side::Original => (token.dst_line, token.dst_col),
        Side::Adjustment => (token.src_line, token.src_col),
    }
}

// A position as one number, so that two positions are compared without a branch.
fn number_of(p: (u32, u32)) -> u64
    ensures { result ≡ 4294967296 * p.0 + p.1 }
{
    4294967296 * u64::from(p.0) + u64::from(p.1)
}

// Whether a position comes before another, line first.
pub(crate) fn is_before(p: (u32, u32), q: (u32, u32)) -> bool
    ensures { result ≡ is_before p q }
{
    number_of(p) < number_of(q)
}

fn earlier(p: (u32, u32), q: (u32, u32)) -> (u32, u32)
    ensures { result ≡ earlier p q }
{
    if is_before(p, q) { p } else { q }
}

// The stretch of the token at this index of a sorted list, `None` past the end.
pub(crate) fn stretch_at(side: Side, tokens: &[RawToken], index: usize) -> Option<Stretch>
    ensures { result ≡ slice_get (stretches (position_by side) tokens.now) index }
{
    let token = *tokens.get(index)?;
    let start = position_by(side, &token);
    let line_end = (start.0, 4294967295);
    let end = match tokens.get(index + 1) {
        Some(next) => earlier(position_by(side, next), line_end),
        None => line_end,
    };
    Some(Stretch { token, start, end })
}

// Returns a stably sorted copy of the tokens. If they are in order already, returns `None` and
// allocates nothing.
pub(crate) fn sorted_copy(
    alloc: Global,
    side: Side,
    tokens: &[RawToken],
) -> Result<Option<Vec<RawToken>>>
    ensures { Gives (copy_or tokens.now) result
        (Ok (sorted_by (position_by side) position_cmp tokens.now)) }
{
    if next_descent(side, tokens, 1) == tokens.len() {
        return Ok(None);
    }
    let copy = Vec::from_slice(alloc, tokens)?;
    Ok(Some(sort_stably(side, copy)?))
}

pub(crate) fn copy_or<'a>(tokens: &'a [RawToken], copy: &'a Option<Vec<RawToken>>) -> &'a [RawToken]
    ensures { result.now ≡ copy_or tokens.now copy.now }
{
    match copy {
        Some(copy) => copy.as_slice(),
        None => tokens,
    }
}
