//! How many paths of modules an index map has.
ghost use Rattle.std.specs.Prelude.{◌≡◌, Some};
ghost use Rattle.sourcemap_c_handles.specs.Handles.{held_in};
ghost use Rattle.sourcemap_index.specs.Family.{map_tree};
ghost use Rattle.sourcemap_c.specs.Codes.{ReturnsValue};
ghost use Rattle.sourcemap_c.specs.Kinds.{tree_in};
ghost use Rattle.sourcemap_c.specs.ModulePaths.{path_count_in};

use crate::codes::{ABSENT, OK, WRONG_KIND};
use crate::kinds::map_in;
use sourcemap::DecodedMap;
use sourcemap_c_handles::Handle;

/// Writes the length of `x_metro_module_paths` of an index map. Returns `SM_ABSENT` if it has no such
/// list, and `SM_WRONG_KIND` if `map` holds no index map.
#[unsafe(no_mangle)]
pub extern "C" fn sm_module_path_count(map: &mut Handle, paths: &mut usize) -> u32
    ensures count { ReturnsValue (path_count_in (tree_in (held_in map.old))) result paths.old paths.new }
    ensures kept { held_in map.new ≡ held_in map.old }
{
    match map_in(map) {
        Some(map) => put_count(map, paths),
        None => WRONG_KIND,
    }
}

fn put_count(map: &DecodedMap, paths: &mut usize) -> u32
    ensures { ReturnsValue (path_count_in (Some (map_tree map.now))) result paths.old paths.new }
{
    let DecodedMap::Index(index) = map else {
        return WRONG_KIND;
    };
    match index.x_metro_module_paths() {
        Some(list) => {
            *paths = list.len();
            OK
        }
        None => ABSENT,
    }
}
