//! Writes the ignore list to an array.
ghost use Rattle.std.specs.Prelude.{◌≡◌, Some};
ghost use Rattle.sourcemap_c_handles.specs.Handles.{held_in};
ghost use Rattle.sourcemap_index.specs.Family.{map_tree};
ghost use Rattle.sourcemap_c.specs.IgnoreLists.{ids_from, ignored_from};
ghost use Rattle.sourcemap_c.specs.Kinds.{tree_in};
ghost use Rattle.sourcemap_c.specs.Segments.{Overwrites};

use crate::getters::leaf_in;
use crate::kinds::map_in;
use sourcemap::{DecodedMap, SourceMap};
use sourcemap_c_handles::Handle;
use std::collections::btree_set::Range;

/// Writes the ids of the ignore list that are not below `from`, as many as fit. Returns the number
/// of ids written, or 0 if the handle holds an index map or no map.
#[unsafe(no_mangle)]
pub extern "C" fn sm_ignore_list_from(map: &mut Handle, from: u32, ids: &mut [u32]) -> usize
    ensures ids { Overwrites (ignored_from from (tree_in (held_in map.old))) result ids.old ids.new }
    ensures kept { held_in map.new ≡ held_in map.old }
{
    match map_in(map) {
        Some(map) => put_ids(map, from, ids),
        None => 0,
    }
}

fn put_ids(map: &DecodedMap, from: u32, ids: &mut [u32]) -> usize
    ensures { Overwrites (ignored_from from (Some (map_tree map.now))) result ids.old ids.new }
{
    match leaf_in(map) {
        Some(map) => put_ignored(map, from, ids),
        None => 0,
    }
}

fn put_ignored(map: &SourceMap, from: u32, ids: &mut [u32]) -> usize
    ensures { Overwrites (ids_from from map.now.ignored) result ids.old ids.new }
{
    let mut left = map.lists().ignored.range(from..);
    write_ids(&mut left, ids)
}

fn write_ids(left: &mut Range<'_, u32>, ids: &mut [u32]) -> usize
    ensures { Overwrites left.old result ids.old ids.new }
{
    let mut count: usize = 0;
    while count < ids.len() {
        match left.next() {
            Some(id) => ids[count] = *id,
            None => return count,
        }
        count += 1;
    }
    count
}
