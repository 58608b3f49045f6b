//! Lists of optional items. The id of an item is its index.
ghost use Rattle.std.specs.Prelude.{◌≡◌, None, slice_set};
ghost use Rattle.std.specs.Option.{option_copied};
ghost use Rattle.sourcemap_tokens.specs.Items.{item_at};

/// Returns the item with this id, or `None` if the id is past the end of the list, or if the item
/// is missing.
#[inline]
pub fn item_at<T>(items: &[Option<T>], id: usize) -> Option<&T>
    ensures { option_copied result ≡ item_at items.now id }
{
    match items.get(id) {
        Some(Some(item)) => Some(item),
        _ => None,
    }
}

/// Returns the item with this id, moved out of the list, and leaves `None` at its index. If the id
/// is past the end of the list, or if the item is missing, returns `None` and leaves the list
/// unchanged.
#[inline]
pub fn take_item<T: Drop>(items: &mut Vec<Option<T>>, id: usize) -> Option<T>
    ensures taken { result ≡ item_at items.old.items id }
    ensures left { items.new.items ≡ slice_set items.old.items id None }
{
    if id < items.len() {
        items[id].take()
    } else {
        None
    }
}
