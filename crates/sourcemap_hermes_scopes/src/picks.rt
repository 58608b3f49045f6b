//! Items taken out of a list by their ids.
ghost use Rattle.std.specs.Prelude.{◌≡◌, IfOk, IsOkUnless};
ghost use Rattle.sourcemap_errors.specs.declared.errors.Error.TheVariants.{OutOfMemory};
ghost use Rattle.sourcemap_hermes_scopes.specs.Picks.{moved_items};

use sourcemap_errors::errors::Result;
use sourcemap_tokens::items::take_item;
use std::alloc::Global;

// Moves out the items with the ids in `ids`, in the order of `ids`. The result has `None` for an id
// without an item, and for each repetition of an id.
pub(crate) fn take_items<T: Drop>(
    alloc: Global,
    mut items: Vec<Option<T>>,
    ids: &[u32],
) -> Result<Vec<Option<T>>>
    ensures moved { IfOk result (λ moved. moved.items ≡ moved_items items.items ids.now) }
    ensures memory { IsOkUnless result OutOfMemory }
{
    let mut moved = Vec::with_capacity(alloc, ids.len())?;
    for id in ids {
        moved.push(take_item(&mut items, *id as usize))?;
    }
    Ok(moved)
}
