//! Setters of maps.
ghost use Rattle.std.specs.Prelude.{◌≡◌, true};
ghost use Rattle.sourcemap_c_handles.specs.Handles.{held_in};
ghost use Rattle.sourcemap_c.specs.Changing.{ChangesMap, HasContents, HasFile, HasId, HasNoNames, HasRoot, HasSource, Ignores, SetsText};
ghost use Rattle.sourcemap_c.specs.Codes.{Answers, Does, text_if};

use crate::changing::{Change, change_map};
use crate::codes::{id_if, text_if, text_in};
use sourcemap_c_handles::Handle;
use sourcemap_c_handles::errors::{ErrorReport, Outcome, finish};
use sourcemap_c_handles::layout::IdBytes;
use std::alloc::Global;

/// Sets or removes the name of the generated file.
#[unsafe(no_mangle)]
pub extern "C" fn sm_set_file(
    alloc: Global,
    map: &mut Handle,
    present: bool,
    text: &[u8],
    error: &mut ErrorReport,
) -> u32
    ensures { SetsText (Answers result error.old error.new) present text.now (HasFile (text_if present text.now))
        (held_in map.old) (held_in map.new) }
{
    finish(alloc, set_file(alloc, map, present, text), error)
}

fn set_file(alloc: Global, map: &mut Handle, present: bool, text: &[u8]) -> Outcome<()>
    ensures { SetsText (Does result) present text.now (HasFile (text_if present text.now))
        (held_in map.old) (held_in map.new) }
{
    let text = text_if(present, text)?;
    change_map(alloc, map, &Change::File(text))
}

/// Sets or removes the `sourceRoot`.
#[unsafe(no_mangle)]
pub extern "C" fn sm_set_source_root(
    alloc: Global,
    map: &mut Handle,
    present: bool,
    text: &[u8],
    error: &mut ErrorReport,
) -> u32
    ensures { SetsText (Answers result error.old error.new) present text.now (HasRoot (text_if present text.now))
        (held_in map.old) (held_in map.new) }
{
    finish(alloc, set_source_root(alloc, map, present, text), error)
}

fn set_source_root(alloc: Global, map: &mut Handle, present: bool, text: &[u8]) -> Outcome<()>
    ensures { SetsText (Does result) present text.now (HasRoot (text_if present text.now))
        (held_in map.old) (held_in map.new) }
{
    let text = text_if(present, text)?;
    change_map(alloc, map, &Change::Root(text))
}

/// Sets or removes the contents of a source.
#[unsafe(no_mangle)]
pub extern "C" fn sm_set_contents(
    alloc: Global,
    map: &mut Handle,
    id: u32,
    present: bool,
    text: &[u8],
    error: &mut ErrorReport,
) -> u32
    ensures { SetsText (Answers result error.old error.new) present text.now (HasContents id (text_if present text.now))
        (held_in map.old) (held_in map.new) }
{
    finish(alloc, set_contents(alloc, map, id, present, text), error)
}

fn set_contents(alloc: Global, map: &mut Handle, id: u32, present: bool, text: &[u8]) -> Outcome<()>
    ensures { SetsText (Does result) present text.now (HasContents id (text_if present text.now))
        (held_in map.old) (held_in map.new) }
{
    let text = text_if(present, text)?;
    change_map(alloc, map, &Change::Contents(id, text))
}

/// Changes the source with this id. The map stores `text` as it is given.
#[unsafe(no_mangle)]
pub extern "C" fn sm_set_source(
    alloc: Global,
    map: &mut Handle,
    id: u32,
    text: &[u8],
    error: &mut ErrorReport,
) -> u32
    ensures { SetsText (Answers result error.old error.new) true text.now (HasSource id text.now) (held_in map.old) (held_in map.new) }
{
    finish(alloc, set_source(alloc, map, id, text), error)
}

fn set_source(alloc: Global, map: &mut Handle, id: u32, text: &[u8]) -> Outcome<()>
    ensures { SetsText (Does result) true text.now (HasSource id text.now) (held_in map.old) (held_in map.new) }
{
    let text = text_in(text)?;
    change_map(alloc, map, &Change::Source(id, text))
}

/// Sets or removes the debug id.
#[unsafe(no_mangle)]
pub extern "C" fn sm_set_debug_id(
    alloc: Global,
    map: &mut Handle,
    present: bool,
    id: &IdBytes,
    error: &mut ErrorReport,
) -> u32
    ensures { ChangesMap (Answers result error.old error.new) (HasId (text_if present id.now.bytes)) (held_in map.old) (held_in map.new) }
{
    let id = id_if(present, id);
    finish(alloc, change_map(alloc, map, &Change::Id(id)), error)
}

/// Adds a source to the ignore list.
#[unsafe(no_mangle)]
pub extern "C" fn sm_ignore_source(
    alloc: Global,
    map: &mut Handle,
    id: u32,
    error: &mut ErrorReport,
) -> u32
    ensures { ChangesMap (Answers result error.old error.new) (Ignores id) (held_in map.old) (held_in map.new) }
{
    finish(alloc, change_map(alloc, map, &Change::Ignored(id)), error)
}

/// Removes all names.
#[unsafe(no_mangle)]
pub extern "C" fn sm_remove_names(alloc: Global, map: &mut Handle, error: &mut ErrorReport) -> u32
    ensures { ChangesMap (Answers result error.old error.new) HasNoNames (held_in map.old) (held_in map.new) }
{
    finish(alloc, change_map(alloc, map, &Change::NoNames), error)
}
