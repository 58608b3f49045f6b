//! Moves contents to the new numbers of their sources.
ghost use Rattle.std.specs.Prelude.{◌≡◌, ◌<◌, None, IfOk, IsOkUnless, cond, is_some, replicate, slice_set, vec_len};
ghost use Rattle.std.specs.List.{AllByRecursion};
ghost use Rattle.sourcemap_errors.specs.declared.errors.Error.TheVariants.{OutOfMemory};
ghost use Rattle.sourcemap_tokens.specs.Items.{item_at};
ghost use Rattle.sourcemap_map_rewrite.specs.KeptContents.{AreKept, HasNewNumber};

use sourcemap_errors::errors::Result;
use sourcemap_source_views::sourceview::SourceView;
use sourcemap_tokens::items::take_item;
use std::alloc::Global;

// Moves the contents of `id` to `new_id`, unless `new_id` has contents already.
fn move_contents(
    contents: &mut Vec<Option<SourceView>>,
    id: usize,
    kept: &mut Vec<Option<SourceView>>,
    new_id: usize,
)
    requires { new_id < vec_len kept.old }
    ensures kept { kept.new.items ≡ cond (is_some (item_at kept.old.items new_id)) kept.old.items
        (slice_set kept.old.items new_id (item_at contents.old.items id)) }
    ensures left { contents.new.items
        ≡ cond (is_some (item_at kept.old.items new_id)) contents.old.items
        (slice_set contents.old.items id None) }
{
    if kept[new_id].is_none() {
        kept[new_id] = take_item(contents, id);
    }
}

pub(crate) fn without_contents(alloc: Global, count: usize) -> Result<Vec<Option<SourceView>>>
    ensures ok { IfOk result (λ list. list.items ≡ replicate count None) }
    ensures memory { IsOkUnless result OutOfMemory }
{
    let mut list = Vec::with_capacity(alloc, count)?;
    for _ in 0..count {
        list.push(None)?;
    }
    Ok(list)
}

// The contents by new number. If several old numbers have the same new number, the contents come
// from the first of them that has contents. `order` decides which one is first.
pub(crate) fn kept_contents(
    alloc: Global,
    mut contents: Vec<Option<SourceView>>,
    order: &[u32],
    numbers: &[u32],
    count: usize,
) -> Result<Vec<Option<SourceView>>>
    requires { AllByRecursion (HasNewNumber numbers.now count) order.now }
    ensures ok { IfOk result
        (λ kept. AreKept numbers.now order.now contents.items count kept.items) }
    ensures memory { IsOkUnless result OutOfMemory }
{
    let mut kept = without_contents(alloc, count)?;
    for id in order {
        let id = *id as usize;
        move_contents(&mut contents, id, &mut kept, numbers[id] as usize);
    }
    Ok(kept)
}
