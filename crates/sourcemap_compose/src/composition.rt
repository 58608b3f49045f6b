//! Composition of the tokens of two maps.
ghost use Rattle.std.specs.Prelude.{◌≡◌, ◌≤◌, ◌+◌, ◌++◌, IfErr, IfOk, IsSortedByKey, OnOk, Err, Ok, cond, length};
ghost use Rattle.std.specs.Prelude.{false, true};
ghost use Rattle.std.specs.List.{list_any};
ghost use Rattle.sourcemap_errors.specs.Answer.{Gives};
ghost use Rattle.sourcemap_errors.specs.declared.errors.Error.TheVariants.{IncompatibleSourceMap};
ghost use Rattle.sourcemap_tokens.specs.Tokens.{AreInOrder, destination, position_cmp};
ghost use Rattle.sourcemap_compose.specs.Stretches.{source, stretches};
ghost use Rattle.sourcemap_compose.specs.Composition.{StartsOnBothLines, FailsIf, shifted_column, composed};
ghost use Rattle.sourcemap_compose.specs.Composition.{composed_all, composition, later_start, overlap, pair};
ghost use Rattle.sourcemap_compose.specs.Composition.{overflows_column};

use crate::block_sort::sort_stably;
use crate::stretches::{Side, Stretch, copy_or, is_before, sorted_copy, stretch_at};
use sourcemap_errors::errors::{Error, Result};
use sourcemap_tokens::tokens::{NO_ID, RawToken};
use std::alloc::Global;

/// Returns the tokens of `original`, adjusted by the tokens of `adjustment`. The intermediate text
/// is the generated text of the original and the source text of the adjustment. Both lists may be
/// in any order.
///
/// Each token covers a part of the intermediate text. For a token of `original`, the part begins at
/// the generated position of the token. For a token of `adjustment`, the part begins at the
/// original position of the token. With each list stably sorted by these positions, a part ends
/// where the part of the next token begins, or at column 4294967295 of its line, whichever comes
/// first. Two tokens overlap if the part of each begins before the part of the other ends.
///
/// Each overlapping pair gives one new token. Its generated position is the position to which the
/// adjustment moves the start of the overlap. Its original position, source, name and range flag
/// are those of the token of `original`. If that token is a range token with a source, the columns
/// from its generated position to the start of the overlap are added to the original column, up to
/// column 4294967295.
///
/// The new tokens are sorted by generated position. There are at most
/// `original.len() + adjustment.len()` new tokens. Sources and names of the adjustment are ignored.
/// The errors are `IncompatibleSourceMap` if a generated column exceeds 4294967295, and out of
/// memory.
pub fn compose(
    alloc: Global,
    original: &[RawToken],
    adjustment: &[RawToken],
) -> Result<Vec<RawToken>>
    ensures answer { Gives (λ tokens. tokens.items) result
        (composition original.now adjustment.now) }
    ensures in_order { IfOk result (λ tokens. AreInOrder tokens.items) }
    ensures few { IfOk result (λ tokens. length tokens.items
        ≤ length original.now + length adjustment.now) }
{
    let original_copy = sorted_copy(alloc, Side::Original, original)?;
    let adjustment_copy = sorted_copy(alloc, Side::Adjustment, adjustment)?;
    let originals = copy_or(original, &original_copy);
    let adjustments = copy_or(adjustment, &adjustment_copy);
    let walked = walk(alloc, adjustments, originals)?;
    // prover: bound before it is returned
    let tokens = sort_stably(Side::Original, walked)?;
    Ok(tokens)
}

// Returns the tokens of all overlapping pairs of stretches, by one walk along both sorted lists.
fn walk(alloc: Global, adjustments: &[RawToken], originals: &[RawToken]) -> Result<Vec<RawToken>>
    requires adjustments { IsSortedByKey source position_cmp adjustments.now }
    requires originals { IsSortedByKey destination position_cmp originals.now }
    ensures pairs { IfOk result (λ tokens. tokens.items
        ≡ composed_all (stretches source adjustments.now) (stretches destination originals.now)) }
    ensures within { OnOk result (list_any overflows_column
        (composed_all (stretches source adjustments.now) (stretches destination originals.now))
        ≡ false) }
    ensures refused { IfErr result (FailsIf (list_any overflows_column
        (composed_all (stretches source adjustments.now) (stretches destination originals.now)))) }
    ensures few { IfOk result (λ tokens. length tokens.items
        ≤ length originals.now + length adjustments.now) }
{
    // the result is at most twice as long as the longer list, so the buffer grows at most once
    let mut tokens = Vec::with_capacity(alloc, adjustments.len().max(originals.len()))?;
    let mut at_adjustment = 0;
    let mut at_original = 0;
    let mut adjustment = stretch_at(Side::Adjustment, adjustments, at_adjustment);
    let mut original = stretch_at(Side::Original, originals, at_original);
    while let (Some(a), Some(o)) = (adjustment, original) {
        push_pair(&mut tokens, a, o)?;
        // if `o.end` is before `a.end`, no later stretch of the adjustment overlaps `o`: each
        // starts at `a.end` or later
        if is_before(o.end, a.end) {
            at_original += 1;
            original = stretch_at(Side::Original, originals, at_original);
        } else if is_before(a.end, o.end) {
            at_adjustment += 1;
            adjustment = stretch_at(Side::Adjustment, adjustments, at_adjustment);
        } else {
            // the usual case: `a` and `o` end at the same position. In each list, the next stretch
            // starts at this position or later
            at_adjustment += 1;
            at_original += 1;
            adjustment = stretch_at(Side::Adjustment, adjustments, at_adjustment);
            original = stretch_at(Side::Original, originals, at_original);
        }
    }
    Ok(tokens)
}

// Appends the token of a pair of stretches, if they overlap.
fn push_pair(tokens: &mut Vec<RawToken>, a: Stretch, o: Stretch) -> Result<()>
    requires { overlap a o ≡ true → StartsOnBothLines a o }
    ensures pushed { OnOk result (tokens.new.items ≡ tokens.old.items ++ pair a o) }
    ensures within { OnOk result (list_any overflows_column (pair a o) ≡ false) }
    ensures refused { IfErr result (FailsIf (list_any overflows_column (pair a o))) }
{
    if overlap(a, o) {
        // prover: bound before it is returned
        let token = compose_pair(a, o)?;
        tokens.push(token)?;
    }
    Ok(())
}

fn overlap(a: Stretch, o: Stretch) -> bool
    ensures { result ≡ overlap a o }
{
    is_before(a.start, o.end) && is_before(o.start, a.end)
}

fn later_start(a: Stretch, o: Stretch) -> (u32, u32)
    ensures { result ≡ later_start a o }
{
    if is_before(a.start, o.start) {
        o.start
    } else {
        a.start
    }
}

// Returns the token of `o` with a new generated position: the position to which `a` moves the start
// of the overlap. If the token is a range token with a source, the columns from the start of `o` to
// the start of the overlap are added to its original column. If this sum exceeds 4294967295, the
// original column is 4294967295. Returns `IncompatibleSourceMap` if the generated column exceeds
// 4294967295.
fn compose_pair(a: Stretch, o: Stretch) -> Result<RawToken>
    requires { StartsOnBothLines a o }
    ensures { result ≡ cond (overflows_column (composed a o)) (Err IncompatibleSourceMap)
        (Ok (composed a o)) }
{
    let start = later_start(a, o);
    let into_adjustment = start.1 - a.token.src_col;
    match into_adjustment.checked_add(a.token.dst_col) {
        None => Err(Error::IncompatibleSourceMap),
        Some(dst_col) => Ok(RawToken {
            dst_line: a.token.dst_line,
            dst_col,
            src_line: o.token.src_line,
            src_col: shifted_column(o.token, start.1 - o.start.1),
            src_id: o.token.src_id,
            name_id: o.token.name_id,
            is_range: o.token.is_range,
        }),
    }
}

// The original column of a token. If the token is a range token with a source, `columns` is added
// to the column. If the sum exceeds 4294967295, the result is 4294967295.
fn shifted_column(token: RawToken, columns: u32) -> u32
    ensures { result ≡ shifted_column token columns }
{
    if !token.is_range {
        return token.src_col;
    }
    if token.src_id == NO_ID {
        return token.src_col;
    }
    token.src_col.saturating_add(columns)
}
