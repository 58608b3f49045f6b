//! The item of a sorted slice that is closest to a key.
ghost use Rattle.std.specs.Prelude.{◌≡◌, ℕ, Some, IsTrue, IfSome, IsSortedByKey, option_map, slice_get};
ghost use Rattle.std.specs.Ordering.{is_le};
ghost use Rattle.sourcemap_tokens.specs.Search.{GivesKey, closest};

use std::cmp::Ordering;

/// Returns the item closest to `key`, with its index: the first item with this key, otherwise the
/// last item with a smaller key. Returns `None` if there is no such item. `map` returns the key of
/// an item. If the slice is not sorted by these keys, the result is some item whose key is at most
/// `key`, or `None`.
pub fn greatest_lower_bound<'a, T, K: Ord + Drop, F: Fn(&'a T) -> K>(
    slice: &'a [T],
    key: &K,
    map: F,
) -> Option<(usize, &'a T)>
    requires { F.IsAlwaysCallable map }
    // the returned index is the index of the returned item, in an unsorted slice too
    ensures own_index { IfSome result (λ found. slice_get slice.now found.0 ≡ Some found.1.now) }
    ensures closest { (key_of : T → K) → GivesKey (F.post map) key_of
        → IsSortedByKey key_of K.cmp slice.now
        → option_map (λ found. (found.0, found.1.now)) result
        ≡ closest key_of K.cmp slice.now key.now }
    ensures at_most { (key_of : T → K) → GivesKey (F.post map) key_of
        → IfSome result (λ found. IsTrue (is_le (K.cmp (key_of found.1.now) key.now))) }
{
    let mut low = 0;
    let mut high = slice.len();
    while low < high {
        let middle = low + (high - low) / 2;
        if map(&slice[middle]).cmp(key) == Ordering::Less {
            low = middle + 1;
        } else {
            high = middle;
        }
    }
    if low < slice.len() {
        let item = &slice[low];
        if map(item).cmp(key) == Ordering::Equal {
            return Some((low, item));
        }
    }
    if low == 0 {
        return None;
    }
    Some((low - 1, &slice[low - 1]))
}
