//! Changes of maps. A map is changed directly, or copied first if other handles share it.
ghost use Rattle.std.specs.Prelude.{◌≡◌, ◌<◌, ◌≤◌, Err, MatchResult, Ok, Some, length};
ghost use Rattle.std.specs.Option.{option_copied};
ghost use Rattle.std.specs.Arc.{arc_value};
ghost use Rattle.sourcemap_c_handles.specs.Handles.{held_in};
ghost use Rattle.sourcemap_index.specs.Family.{map_tree};
ghost use Rattle.sourcemap_c_handles.specs.declared.errors.Failure.TheVariants.{Absent};
ghost use Rattle.sourcemap_c.specs.Changing.{ChangesMap, ChangesSource, ChangesTo, HasFile, HasId, HasNoNames, HasRoot, IsDown, with_source_change};
ghost use Rattle.sourcemap_c.specs.Codes.{Answers, Does, UnlessMemory};
ghost use Rattle.sourcemap_c.specs.Kinds.{IsSameMap};

use sourcemap::jsontypes::DebugId;
use sourcemap::{DecodedMap, Error, SourceMap};
use sourcemap_c_handles::errors::{ErrorReport, Failure, Outcome, finish};
use sourcemap_c_handles::{Handle, Held};
use std::alloc::Global;
use std::sync::Arc;

/// A change of a source of a map or a builder.
#[derive(Clone, Copy)]
pub(crate) enum SourceChange<'a> {
    Text(&'a str),
    Contents(Option<&'a str>),
    Ignored,
}

/// A change of a map.
#[derive(Clone, Copy)]
pub(crate) enum Change<'a> {
    File(Option<&'a str>),
    Root(Option<&'a str>),
    Id(Option<DebugId>),
    Source(u32, &'a str),
    Contents(u32, Option<&'a str>),
    Ignored(u32),
    NoNames,
    Down(u32),
}

/// Moves each section of an index map down by `lines` lines.
#[unsafe(no_mangle)]
pub extern "C" fn sm_shift(
    alloc: Global,
    map: &mut Handle,
    lines: u32,
    error: &mut ErrorReport,
) -> u32
    ensures { ChangesMap (Answers result error.old error.new) (IsDown lines) (held_in map.old) (held_in map.new) }
{
    finish(alloc, change_map(alloc, map, &Change::Down(lines)), error)
}

/// Changes the map in the handle. After an error the value of the handle is unchanged.
pub(crate) fn change_map(alloc: Global, handle: &mut Handle, change: &Change<'_>) -> Outcome<()>
    ensures { ChangesMap (Does result) (ChangesTo change.now) (held_in handle.old) (held_in handle.new) }
{
    match handle.take(alloc) {
        Some(mut held) => {
            let outcome = change_held(alloc, &mut held, change);
            handle.put(held);
            outcome
        }
        None => Err(Failure::WrongKind),
    }
}

fn change_held(alloc: Global, held: &mut Held, change: &Change<'_>) -> Outcome<()>
    ensures { ChangesMap (Does result) (ChangesTo change.now) (Some held.old) (Some held.new) }
{
    match held {
        Held::Map(map) => change_shared(alloc, map, change),
        _ => Err(Failure::WrongKind),
    }
}

// Changes the map directly if no other handle shares it. Otherwise changes a copy, which replaces
// the shared map in this handle.
fn change_shared(alloc: Global, map: &mut Arc<DecodedMap>, change: &Change<'_>) -> Outcome<()>
    ensures { Does result
        (ChangesTo change.now (map_tree (arc_value map.old)) (Ok (map_tree (arc_value map.new))))
        (λ failure. ChangesTo change.now (map_tree (arc_value map.old)) (Err failure))
        (IsSameMap map.old map.new) }
{
    match Arc::get_mut(map) {
        Some(map) => apply(map, change),
        None => match change_copy(alloc, map, change) {
            Ok(changed) => {
                *map = changed;
                Ok(())
            }
            Err(failure) => Err(failure),
        },
    }
}

fn change_copy(alloc: Global, map: &DecodedMap, change: &Change<'_>) -> Outcome<Arc<DecodedMap>>
    ensures { MatchResult result
        (λ new. ChangesTo change.now (map_tree map.now) (Ok (map_tree (arc_value new))))
        (λ failure. UnlessMemory failure (ChangesTo change.now (map_tree map.now) (Err failure))) }
{
    let mut copy = map.clone()?;
    apply(&mut copy, change)?;
    match Arc::new(alloc, copy) {
        Ok(new) => Ok(new),
        Err(_) => Err(Failure::Library(Error::OutOfMemory)),
    }
}

fn apply(map: &mut DecodedMap, change: &Change<'_>) -> Outcome<()>
    ensures { Does result (ChangesTo change.now (map_tree map.old) (Ok (map_tree map.new)))
        (λ failure. ChangesTo change.now (map_tree map.old) (Err failure))
        (map_tree map.new ≡ map_tree map.old) }
{
    match change {
        Change::File(file) => set_file(map, *file),
        Change::Root(root) => set_root(map, *root),
        Change::Id(id) => set_id(map, *id),
        Change::Source(id, source) => change_source(map, *id, &SourceChange::Text(source)),
        Change::Contents(id, contents) => {
            change_source(map, *id, &SourceChange::Contents(*contents))
        }
        Change::Ignored(id) => change_source(map, *id, &SourceChange::Ignored),
        Change::NoNames => remove_names(map),
        Change::Down(lines) => move_down(map, *lines),
    }
}

fn set_file(map: &mut DecodedMap, file: Option<&str>) -> Outcome<()>
    ensures { Does result (HasFile (option_copied file.entry) (map_tree map.old) (Ok (map_tree map.new)))
        (λ failure. HasFile (option_copied file.entry) (map_tree map.old) (Err failure))
        (map_tree map.new ≡ map_tree map.old) }
{
    match map {
        DecodedMap::Regular(map) => map.set_file(file)?,
        DecodedMap::Hermes(map) => map.set_file(file)?,
        DecodedMap::Index(index) => index.set_file(file)?,
    }
    Ok(())
}

fn set_root(map: &mut DecodedMap, root: Option<&str>) -> Outcome<()>
    ensures { Does result (HasRoot (option_copied root.entry) (map_tree map.old) (Ok (map_tree map.new)))
        (λ failure. HasRoot (option_copied root.entry) (map_tree map.old) (Err failure))
        (map_tree map.new ≡ map_tree map.old) }
{
    match map {
        DecodedMap::Regular(map) => map.set_source_root(root)?,
        DecodedMap::Hermes(map) => map.set_source_root(root)?,
        DecodedMap::Index(_) => return Err(Failure::WrongKind),
    }
    Ok(())
}

fn set_id(map: &mut DecodedMap, id: Option<DebugId>) -> Outcome<()>
    ensures { Does result (HasId id (map_tree map.old) (Ok (map_tree map.new)))
        (λ failure. HasId id (map_tree map.old) (Err failure)) (map_tree map.new ≡ map_tree map.old) }
{
    map.set_debug_id(id);
    Ok(())
}

fn change_source(map: &mut DecodedMap, id: u32, change: &SourceChange<'_>) -> Outcome<()>
    ensures { Does result (ChangesSource id change.now (map_tree map.old) (Ok (map_tree map.new)))
        (λ failure. ChangesSource id change.now (map_tree map.old) (Err failure))
        (map_tree map.new ≡ map_tree map.old) }
{
    match map {
        DecodedMap::Regular(map) => change_source_of(map, id, change),
        DecodedMap::Hermes(map) => change_source_of(map, id, change),
        DecodedMap::Index(_) => Err(Failure::WrongKind),
    }
}

fn change_source_of(map: &mut SourceMap, id: u32, change: &SourceChange<'_>) -> Outcome<()>
    ensures { Does result
        ((id < length map.old.sources) × (map.new ≡ with_source_change id change.now map.old))
        (λ failure. (length map.old.sources ≤ id) × (failure ≡ Absent)) (map.new ≡ map.old) }
{
    if id >= map.get_source_count() {
        return Err(Failure::Absent);
    }
    match change {
        SourceChange::Text(source) => map.set_source(id, source)?,
        SourceChange::Contents(contents) => map.set_source_contents(id, *contents)?,
        SourceChange::Ignored => map.add_to_ignore_list(id)?,
    }
    Ok(())
}

fn remove_names(map: &mut DecodedMap) -> Outcome<()>
    ensures { Does result (HasNoNames (map_tree map.old) (Ok (map_tree map.new)))
        (λ failure. HasNoNames (map_tree map.old) (Err failure)) (map_tree map.new ≡ map_tree map.old) }
{
    match map {
        DecodedMap::Regular(map) => map.remove_names(),
        DecodedMap::Hermes(map) => map.remove_names(),
        DecodedMap::Index(_) => return Err(Failure::WrongKind),
    }
    Ok(())
}

fn move_down(map: &mut DecodedMap, lines: u32) -> Outcome<()>
    ensures { Does result (IsDown lines (map_tree map.old) (Ok (map_tree map.new)))
        (λ failure. IsDown lines (map_tree map.old) (Err failure)) (map_tree map.new ≡ map_tree map.old) }
{
    match map {
        DecodedMap::Index(index) => {
            if index.adjust_sections_offset_rows(lines) {
                Ok(())
            } else {
                Err(Failure::PastLimit)
            }
        }
        DecodedMap::Regular(_) | DecodedMap::Hermes(_) => Err(Failure::WrongKind),
    }
}
