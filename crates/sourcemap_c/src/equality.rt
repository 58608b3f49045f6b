//! Equality of maps.
ghost use Rattle.std.specs.Prelude.{◌≡◌};
ghost use Rattle.sourcemap_c_handles.specs.Handles.{held_in};
ghost use Rattle.sourcemap_c.specs.Codes.{ReturnsValue};
ghost use Rattle.sourcemap_c.specs.Equality.{are_same};
ghost use Rattle.sourcemap_c.specs.Kinds.{tree_in};

use crate::codes::{OK, WRONG_KIND};
use crate::kinds::map_in;
use sourcemap_c_handles::Handle;

/// Writes whether the maps of two handles are of one kind and equal in all their parts.
#[unsafe(no_mangle)]
pub extern "C" fn sm_equal(map: &mut Handle, other: &mut Handle, answer: &mut bool) -> u32
    ensures answer { ReturnsValue (are_same (tree_in (held_in map.old)) (tree_in (held_in other.old)))
        result answer.old answer.new }
    ensures kept { held_in map.new ≡ held_in map.old }
    ensures other_kept { held_in other.new ≡ held_in other.old }
{
    match (map_in(map), map_in(other)) {
        (Some(map), Some(other)) => {
            *answer = map == other;
            OK
        }
        _ => WRONG_KIND,
    }
}
