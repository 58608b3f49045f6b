//! Compiling of maps.
ghost use Rattle.std.specs.Prelude.{◌≡◌, None};
ghost use Rattle.sourcemap_c_compiled.specs.Compiling.{choice_of};
ghost use Rattle.sourcemap_c_handles.specs.Handles.{held_in};
ghost use Rattle.sourcemap_c.specs.Codes.{Answers, Does, OfLibraryOrKind};
ghost use Rattle.sourcemap_c.specs.Compiling.{FailsToCompile, HoldsCompiled};
ghost use Rattle.sourcemap_c.specs.Kinds.{bytes_in, tree_in};

use crate::kinds::{map_in, put_bytes};
use sourcemap_c_compiled::compiling::compiled;
use sourcemap_c_handles::Handle;
use sourcemap_c_handles::errors::{ErrorReport, Failure, Outcome, finish};
use std::alloc::Global;

/// Fills `bytes` with the compiled map.
#[unsafe(no_mangle)]
pub extern "C" fn sm_compile(
    alloc: Global,
    map: &mut Handle,
    with_contents: bool,
    bytes: &mut Handle,
    error: &mut ErrorReport,
) -> u32
    ensures written { Answers result error.old error.new
        (HoldsCompiled (choice_of with_contents) (tree_in (held_in map.old)) (bytes_in (held_in bytes.new)))
        (OfLibraryOrKind (FailsToCompile (choice_of with_contents) (tree_in (held_in map.old)))
        (tree_in (held_in map.old) ≡ None)) (held_in bytes.new ≡ held_in bytes.old) }
    ensures kept { held_in map.new ≡ held_in map.old }
{
    finish(alloc, compile(alloc, map, with_contents, bytes), error)
}

fn compile(alloc: Global, map: &mut Handle, with_contents: bool, bytes: &mut Handle) -> Outcome<()>
    ensures written { Does result
        (HoldsCompiled (choice_of with_contents) (tree_in (held_in map.old)) (bytes_in (held_in bytes.new)))
        (OfLibraryOrKind (FailsToCompile (choice_of with_contents) (tree_in (held_in map.old)))
        (tree_in (held_in map.old) ≡ None)) (held_in bytes.new ≡ held_in bytes.old) }
    ensures kept { held_in map.new ≡ held_in map.old }
{
    match map_in(map) {
        Some(map) => put_bytes(alloc, bytes, compiled(alloc, map, with_contents)?),
        None => Err(Failure::WrongKind),
    }
}
