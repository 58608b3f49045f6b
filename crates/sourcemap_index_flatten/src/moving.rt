//! Moves tokens by the offset of their map, and gives them the source ids and name ids of the
//! flattened map.
ghost use Rattle.std.specs.Prelude.{◌≡◌, ◌++◌, IfErr, IfOk, OnOk, IsOkUnless, codes, map, unwrap_or, slice_get, fold, false};
ghost use Rattle.std.specs.List.{list_any};
ghost use Rattle.std.specs.BTreeSet.{insert_key};
ghost use Rattle.std.specs.Ordering.{nat_cmp};
ghost use Rattle.sourcemap_errors.specs.declared.errors.Error.TheVariants.{OutOfMemory};
ghost use Rattle.sourcemap_index_flatten.specs.Errors.{RefusesBy};
ghost use Rattle.sourcemap_index_flatten.specs.Moving.{IsMoved, AreMoved, moved_by, new_number, ignored_numbers, is_past_end};

use crate::errors::past_the_end;
use crate::positions::absolute_position;
use sourcemap_errors::errors::Result;
use sourcemap_tokens::tokens::{NO_ID, RawToken};
use std::alloc::Global;
use std::collections::BTreeSet;
use std::mem;

// The offset of a map, and the new ids of its sources and names.
#[derive(Clone, Copy)]
pub(crate) struct Move<'a> {
    pub(crate) line: u32,
    pub(crate) column: u32,
    pub(crate) sources: &'a [u32],
    pub(crate) names: &'a [u32],
}

// The item of `numbers` at the index `id`, or `NO_ID` if there is no such item.
fn new_number(numbers: &[u32], id: u32) -> u32
    ensures { result ≡ new_number numbers.now id }
{
    match numbers.get(id as usize) {
        Some(number) => *number,
        None => NO_ID,
    }
}

fn move_token(alloc: Global, token: RawToken, to: Move<'_>) -> Result<RawToken>
    ensures ok { IfOk result (IsMoved to.entry token) }
    ensures refused { IfErr result (RefusesBy (is_past_end to.entry token)
        (codes "a position passes 4294967295")) }
{
    match absolute_position(to.line, to.column, (token.dst_line, token.dst_col)) {
        None => Err(past_the_end(alloc)),
        Some((line, col)) => Ok(RawToken {
            dst_line: line,
            dst_col: col,
            src_line: token.src_line,
            src_col: token.src_col,
            src_id: new_number(to.sources, token.src_id),
            name_id: new_number(to.names, token.name_id),
            is_range: token.is_range,
        }),
    }
}

// Appends a copy of each of `tokens` to `all`, in order. A copy has the generated position of the
// token in the flattened map. The source id and name id of a copy are the new ids from `to`, or
// `NO_ID` where `to` has no new id. The error is `CannotFlatten` if a generated line or column
// would be above 4294967295. The only other error is `OutOfMemory`. After an error, `all` is empty.
pub(crate) fn move_all(
    alloc: Global,
    all: &mut Vec<RawToken>,
    tokens: &[RawToken],
    to: Move<'_>,
) -> Result<()>
    ensures ok { OnOk result (AreMoved to.entry tokens.now all.old.items all.new.items) }
    ensures refused { IfErr result (RefusesBy (list_any (is_past_end to.entry) tokens.now)
        (codes "a position passes 4294967295")) }
{
    // The loop pushes to a local list. A push through the reference `all` would load and store the
    // length of the list each time.
    let mut list = mem::replace(all, Vec::new(alloc));
    list.reserve(tokens.len())?;
    for token in tokens {
        // prover: `?` on its own line
        let token = move_token(alloc, *token, to)?;
        list.push(token)?;
    }
    *all = list;
    Ok(())
}

// Adds to `all` the new source id of each token whose old source id is in `ignored`. If `sources`
// has no new id for such a token, adds `NO_ID`.
pub(crate) fn add_ignored(
    all: &mut BTreeSet<u32>,
    tokens: &[RawToken],
    ignored: &BTreeSet<u32>,
    sources: &[u32],
) -> Result<()>
    ensures ok { OnOk result (all.new.keys
        ≡ fold (insert_key nat_cmp) all.old.keys
        (ignored_numbers ignored.now.keys sources.now tokens.now)) }
    ensures memory { IsOkUnless result OutOfMemory }
{
    if ignored.is_empty() {
        return Ok(());
    }
    for token in tokens {
        if ignored.contains(&token.src_id) {
            all.insert(new_number(sources, token.src_id))?;
        }
    }
    Ok(())
}
