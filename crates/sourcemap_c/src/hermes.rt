//! Copies the regular map in a Hermes map.
ghost use Rattle.std.specs.Prelude.{◌≡◌, None, Some, option_and_then, option_map};
ghost use Rattle.sourcemap_c_handles.specs.Handles.{held_in};
ghost use Rattle.sourcemap_index.specs.Family.{map_tree};
ghost use Rattle.sourcemap_c.specs.Codes.{Answers, Does, NoError, OfLibrary, OfLibraryOrKind};
ghost use Rattle.sourcemap_c.specs.Hermes.{HoldsRegular, hermes_in, regular_tree};
ghost use Rattle.sourcemap_c.specs.Kinds.{tree_in};

use crate::kinds::{map_in, put_map};
use sourcemap::{DecodedMap, SourceMap};
use sourcemap_c_handles::Handle;
use sourcemap_c_handles::errors::{ErrorReport, Failure, Outcome, finish};
use std::alloc::Global;

/// Fills `regular` with a copy of the regular map in a Hermes map.
#[unsafe(no_mangle)]
pub extern "C" fn sm_hermes_map(
    alloc: Global,
    map: &mut Handle,
    regular: &mut Handle,
    error: &mut ErrorReport,
) -> u32
    ensures copied { Answers result error.old error.new
        (HoldsRegular (option_and_then hermes_in (tree_in (held_in map.old))) (tree_in (held_in regular.new)))
        (OfLibraryOrKind NoError (option_and_then hermes_in (tree_in (held_in map.old)) ≡ None))
        (held_in regular.new ≡ held_in regular.old) }
    ensures kept { held_in map.new ≡ held_in map.old }
{
    finish(alloc, copy_regular(alloc, map, regular), error)
}

fn copy_regular(alloc: Global, map: &mut Handle, regular: &mut Handle) -> Outcome<()>
    ensures copied { Does result (HoldsRegular (option_and_then hermes_in (tree_in (held_in map.old)))
        (tree_in (held_in regular.new)))
        (OfLibraryOrKind NoError (option_and_then hermes_in (tree_in (held_in map.old)) ≡ None))
        (held_in regular.new ≡ held_in regular.old) }
    ensures kept { held_in map.new ≡ held_in map.old }
{
    match map_in(map) {
        Some(DecodedMap::Hermes(map)) => put_copy(alloc, map, regular),
        _ => Err(Failure::WrongKind),
    }
}

fn put_copy(alloc: Global, map: &SourceMap, handle: &mut Handle) -> Outcome<()>
    ensures { Does result (tree_in (held_in handle.new) ≡ Some (regular_tree map.now)) (OfLibrary NoError)
        (held_in handle.new ≡ held_in handle.old) }
{
    put_map(alloc, handle, DecodedMap::Regular(map.clone()?))
}
