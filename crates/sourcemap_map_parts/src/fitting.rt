//! Sets the length of a list of optional items. A longer list is truncated. A shorter list is
//! filled with `None` at its end. `put` also sets one item.
ghost use Rattle.std.specs.Prelude.{◌≡◌, ◌<◌, slice_set, vec_len, OnOk, OnErr, IsOkUnless};
ghost use Rattle.sourcemap_errors.specs.Answer.{Changes};
ghost use Rattle.sourcemap_errors.specs.declared.errors.Error.TheVariants.{OutOfMemory};
ghost use Rattle.sourcemap_map_parts.specs.Contents.{fitted};

use sourcemap_errors::errors::{Error, Result};

/// Makes the list `count` items long, as `fit` does. Then sets the item at `index`. The only error
/// is `OutOfMemory`, and then the list is unchanged.
pub fn put<T: Drop>(
    items: &mut Vec<Option<T>>,
    count: usize,
    index: usize,
    item: Option<T>,
) -> Result<()>
    requires { index < count }
    ensures { Changes result items.old.items items.new.items
        (slice_set (fitted count items.old.items) index item) }
{
    fit(items, count)?;
    items[index] = item;
    Ok(())
}

/// Makes the list `count` items long. A longer list is truncated. A shorter list is filled with
/// `None` at its end. The only error is `OutOfMemory`, and then the list is unchanged.
pub fn fit<T: Drop>(items: &mut Vec<Option<T>>, count: usize) -> Result<()>
    ensures ok { OnOk result (items.new.items ≡ fitted count items.old.items) }
    ensures len { OnOk result (vec_len items.new ≡ count) }
    ensures err { OnErr result (items.new.items ≡ items.old.items) }
    ensures memory { IsOkUnless result OutOfMemory }
{
    let len = items.len();
    while items.len() < count {
        let Ok(()) = items.push(None) else {
            items.truncate(len);
            return Err(Error::OutOfMemory);
        };
    }
    items.truncate(count);
    Ok(())
}
