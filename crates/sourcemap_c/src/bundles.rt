//! RAM bundles, and the maps of their modules.
ghost use Rattle.std.specs.Prelude.{◌≡◌, Err, None, Ok, Option, Result, Some, option_map};
ghost use Rattle.std.specs.Borrow.{sem};
ghost use Rattle.std.specs.Option.{option_copied};
ghost use Rattle.sourcemap_bundles.specs.Modules.{bundle_count, bundle_startup, indexed_bundle};
ghost use Rattle.sourcemap_errors.specs.declared.errors.Error.{Error};
ghost use Rattle.sourcemap_c_handles.specs.Handles.{EndsAsBefore, held_in};
ghost use Rattle.sourcemap_index.specs.Family.{index_value, map_tree};
ghost use Rattle.sourcemap_bundle_split.specs.Split.{ModuleParts, YieldsPart, parts_value};
ghost use Rattle.sourcemap_index_model.specs.MapTree.{index_tree};
ghost use Rattle.sourcemap_c.specs.Bundles.{HasMap, IsNoItem, IsSplit, IsUnsplit, bundle_in, due_in, module_bytes};
ghost use Rattle.sourcemap_c.specs.Codes.{Answers, Does, OfLibrary, OfLibraryKindOrAbsent, OfLibraryOrKind, ReturnsValue};
ghost use Rattle.sourcemap_c.specs.Kinds.{tree_in};

use crate::codes::{OK, WRONG_KIND};
use crate::kinds::{map_in, put_map};
use sourcemap::ram_bundle::RamBundle;
use sourcemap::{DecodedMap, Error, Result, SourceMap, SourceMapIndex, SourceView};
use sourcemap_bundle_split::split::BundleSplitter;
use sourcemap_c_handles::errors::{ErrorReport, Failure, Outcome, finish};
use sourcemap_c_handles::{Handle, Held};
use std::alloc::Global;
use std::sync::Arc;

fn bundle_in<'a>(handle: &'a mut Handle) -> Option<&'a RamBundle<'static>>
    ensures* after { sem 𝓛 (EndsAsBefore handle.entry) }
    ensures value { option_copied result ≡ bundle_in (held_in handle.old) }
{
    match handle.get() {
        Some(Held::Bundle(bundle)) => Some(&**bundle),
        _ => None,
    }
}

/// Copies the bytes of an indexed RAM bundle, and fills the handle with the bundle.
#[unsafe(no_mangle)]
pub extern "C" fn sm_bundle_open(
    alloc: Global,
    bundle: &mut Handle,
    bytes: &[u8],
    error: &mut ErrorReport,
) -> u32
    ensures { Answers result error.old error.new
        (option_map Ok (bundle_in (held_in bundle.new)) ≡ Some (indexed_bundle bytes.now))
        (OfLibrary (λ e. indexed_bundle bytes.now ≡ Err e)) (held_in bundle.new ≡ held_in bundle.old) }
{
    finish(alloc, open(alloc, bundle, bytes), error)
}

fn open(alloc: Global, bundle: &mut Handle, bytes: &[u8]) -> Outcome<()>
    ensures { Does result (option_map Ok (bundle_in (held_in bundle.new)) ≡ Some (indexed_bundle bytes.now))
        (OfLibrary (λ e. indexed_bundle bytes.now ≡ Err e)) (held_in bundle.new ≡ held_in bundle.old) }
{
    let copy = Vec::from_slice(alloc, bytes)?;
    let parsed = RamBundle::parse_indexed_from_vec(copy)?;
    match Arc::new(alloc, parsed) {
        Ok(parsed) => {
            bundle.fill(alloc, Held::Bundle(parsed))?;
            Ok(())
        }
        Err(_) => Err(Failure::Library(Error::OutOfMemory)),
    }
}

/// Writes the number of entries that the header states for the module table. The bundle may end
/// before the last entry. An entry may have no module.
#[unsafe(no_mangle)]
pub extern "C" fn sm_bundle_count(bundle: &mut Handle, modules: &mut usize) -> u32
    ensures modules { ReturnsValue (option_map (λ b. Some (bundle_count b)) (bundle_in (held_in bundle.old)))
        result modules.old modules.new }
    ensures kept { held_in bundle.new ≡ held_in bundle.old }
{
    match bundle_in(bundle) {
        Some(bundle) => {
            *modules = bundle.module_count();
            OK
        }
        None => WRONG_KIND,
    }
}

/// Borrows the startup code.
#[unsafe(no_mangle)]
pub extern "C" fn sm_bundle_startup<'a>(
    alloc: Global,
    bundle: &'a mut Handle,
    bytes: &mut &'a [u8],
    error: &mut ErrorReport,
) -> u32
    ensures* after { sem 𝓛 (EndsAsBefore bundle.entry) }
    ensures answer { Answers result error.old error.new
        (option_map bundle_startup (bundle_in (held_in bundle.old)) ≡ Some (Ok bytes.new.now))
        (OfLibraryOrKind (λ e. option_map bundle_startup (bundle_in (held_in bundle.old)) ≡ Some (Err e))
        (bundle_in (held_in bundle.old) ≡ None)) (bytes.new.now ≡ bytes.old.now) }
{
    answer_startup(alloc, bundle.get(), bytes, error)
}

fn answer_startup<'a>(
    alloc: Global,
    held: Option<&'a Held>,
    bytes: &mut &'a [u8],
    error: &mut ErrorReport,
) -> u32
    ensures { Answers result error.old error.new
        (option_map bundle_startup (bundle_in (option_copied held.entry)) ≡ Some (Ok bytes.new.now))
        (OfLibraryOrKind (λ e. option_map bundle_startup (bundle_in (option_copied held.entry)) ≡ Some (Err e))
        (bundle_in (option_copied held.entry) ≡ None)) (bytes.new.now ≡ bytes.old.now) }
{
    finish(alloc, startup(held, bytes), error)
}

fn startup<'a>(held: Option<&'a Held>, bytes: &mut &'a [u8]) -> Outcome<()>
    ensures { Does result
        (option_map bundle_startup (bundle_in (option_copied held.entry)) ≡ Some (Ok bytes.new.now))
        (OfLibraryOrKind (λ e. option_map bundle_startup (bundle_in (option_copied held.entry)) ≡ Some (Err e))
        (bundle_in (option_copied held.entry) ≡ None)) (bytes.new.now ≡ bytes.old.now) }
{
    match held {
        Some(Held::Bundle(bundle)) => {
            *bytes = bundle.startup_code()?;
            Ok(())
        }
        _ => Err(Failure::WrongKind),
    }
}

/// Borrows the bytes of a module.
#[unsafe(no_mangle)]
pub extern "C" fn sm_bundle_module<'a>(
    alloc: Global,
    bundle: &'a mut Handle,
    id: usize,
    bytes: &mut &'a [u8],
    error: &mut ErrorReport,
) -> u32
    ensures* after { sem 𝓛 (EndsAsBefore bundle.entry) }
    ensures answer { Answers result error.old error.new
        (option_map (λ b. module_bytes b id) (bundle_in (held_in bundle.old)) ≡ Some (Ok (Some bytes.new.now)))
        (OfLibraryKindOrAbsent
        (λ e. option_map (λ b. module_bytes b id) (bundle_in (held_in bundle.old)) ≡ Some (Err e))
        (bundle_in (held_in bundle.old) ≡ None)
        (option_map (λ b. module_bytes b id) (bundle_in (held_in bundle.old)) ≡ Some (Ok None)))
        (bytes.new.now ≡ bytes.old.now) }
{
    answer_module(alloc, bundle.get(), id, bytes, error)
}

fn answer_module<'a>(
    alloc: Global,
    held: Option<&'a Held>,
    id: usize,
    bytes: &mut &'a [u8],
    error: &mut ErrorReport,
) -> u32
    ensures { Answers result error.old error.new
        (option_map (λ b. module_bytes b id) (bundle_in (option_copied held.entry)) ≡ Some (Ok (Some bytes.new.now)))
        (OfLibraryKindOrAbsent
        (λ e. option_map (λ b. module_bytes b id) (bundle_in (option_copied held.entry)) ≡ Some (Err e))
        (bundle_in (option_copied held.entry) ≡ None)
        (option_map (λ b. module_bytes b id) (bundle_in (option_copied held.entry)) ≡ Some (Ok None)))
        (bytes.new.now ≡ bytes.old.now) }
{
    finish(alloc, module(held, id, bytes), error)
}

fn module<'a>(held: Option<&'a Held>, id: usize, bytes: &mut &'a [u8]) -> Outcome<()>
    ensures { Does result
        (option_map (λ b. module_bytes b id) (bundle_in (option_copied held.entry)) ≡ Some (Ok (Some bytes.new.now)))
        (OfLibraryKindOrAbsent
        (λ e. option_map (λ b. module_bytes b id) (bundle_in (option_copied held.entry)) ≡ Some (Err e))
        (bundle_in (option_copied held.entry) ≡ None)
        (option_map (λ b. module_bytes b id) (bundle_in (option_copied held.entry)) ≡ Some (Ok None)))
        (bytes.new.now ≡ bytes.old.now) }
{
    match held {
        Some(Held::Bundle(bundle)) => match bundle.get_module(id)? {
            Some(found) => {
                *bytes = found.data();
                Ok(())
            }
            None => Err(Failure::Absent),
        },
        _ => Err(Failure::WrongKind),
    }
}

/// Fills `split` with what the index map in `index` says about the modules of its bundle.
#[unsafe(no_mangle)]
pub extern "C" fn sm_split_open(
    alloc: Global,
    split: &mut Handle,
    index: &mut Handle,
    error: &mut ErrorReport,
) -> u32
    ensures split { Answers result error.old error.new
        (IsSplit (tree_in (held_in index.old)) (held_in split.new)) (IsUnsplit (tree_in (held_in index.old)))
        (held_in split.new ≡ held_in split.old) }
    ensures index { held_in index.new ≡ held_in index.old }
{
    finish(alloc, open_split(alloc, split, index), error)
}

fn open_split(alloc: Global, split: &mut Handle, index: &mut Handle) -> Outcome<()>
    ensures split { Does result (IsSplit (tree_in (held_in index.old)) (held_in split.new))
        (IsUnsplit (tree_in (held_in index.old))) (held_in split.new ≡ held_in split.old) }
    ensures index { held_in index.new ≡ held_in index.old }
{
    match map_in(index) {
        Some(DecodedMap::Index(index)) => put_split(alloc, split, index),
        _ => Err(Failure::WrongKind),
    }
}

fn put_split(alloc: Global, split: &mut Handle, index: &SourceMapIndex) -> Outcome<()>
    ensures { Does result (IsSplit (Some (index_tree (index_value index.now))) (held_in split.new))
        (IsUnsplit (Some (index_tree (index_value index.now)))) (held_in split.new ≡ held_in split.old) }
{
    match BundleSplitter::new(alloc, index) {
        Ok(splitter) => {
            split.fill(alloc, Held::Split(splitter))?;
            Ok(())
        }
        Err(error) => Err(Failure::Library(error)),
    }
}

/// Fills `map` with the map of module `id` of the bundle.
#[unsafe(no_mangle)]
pub extern "C" fn sm_split_map(
    alloc: Global,
    split: &mut Handle,
    bundle: &mut Handle,
    id: usize,
    map: &mut Handle,
    error: &mut ErrorReport,
) -> u32
    ensures map { Answers result error.old error.new
        (HasMap (due_in (held_in split.old) (bundle_in (held_in bundle.old)) id) (tree_in (held_in map.new)))
        (IsNoItem (due_in (held_in split.old) (bundle_in (held_in bundle.old)) id))
        (held_in map.new ≡ held_in map.old) }
    ensures split { held_in split.new ≡ held_in split.old }
    ensures bundle { held_in bundle.new ≡ held_in bundle.old }
{
    finish(alloc, split_map(alloc, split, bundle, id, map), error)
}

fn split_map(
    alloc: Global,
    split: &mut Handle,
    bundle: &mut Handle,
    id: usize,
    map: &mut Handle,
) -> Outcome<()>
    ensures map { Does result
        (HasMap (due_in (held_in split.old) (bundle_in (held_in bundle.old)) id) (tree_in (held_in map.new)))
        (IsNoItem (due_in (held_in split.old) (bundle_in (held_in bundle.old)) id))
        (held_in map.new ≡ held_in map.old) }
    ensures split { held_in split.new ≡ held_in split.old }
    ensures bundle { held_in bundle.new ≡ held_in bundle.old }
{
    match bundle_in(bundle) {
        Some(bundle) => map_of_module(alloc, split, bundle, id, map),
        None => Err(Failure::WrongKind),
    }
}

fn map_of_module(
    alloc: Global,
    split: &mut Handle,
    bundle: &RamBundle<'static>,
    id: usize,
    map: &mut Handle,
) -> Outcome<()>
    ensures map { Does result (HasMap (due_in (held_in split.old) (Some bundle.now) id) (tree_in (held_in map.new)))
        (IsNoItem (due_in (held_in split.old) (Some bundle.now) id)) (held_in map.new ≡ held_in map.old) }
    ensures split { held_in split.new ≡ held_in split.old }
{
    match split.take(alloc) {
        Some(mut held) => {
            let outcome = put_map_of(alloc, &mut held, bundle, id, map);
            split.put(held);
            outcome
        }
        None => Err(Failure::WrongKind),
    }
}

fn put_map_of(
    alloc: Global,
    held: &mut Held,
    bundle: &RamBundle<'static>,
    id: usize,
    map: &mut Handle,
) -> Outcome<()>
    ensures map { Does result (HasMap (due_in (Some held.old) (Some bundle.now) id) (tree_in (held_in map.new)))
        (IsNoItem (due_in (Some held.old) (Some bundle.now) id)) (held_in map.new ≡ held_in map.old) }
    ensures held { held.new ≡ held.old }
{
    match held {
        Held::Split(splitter) => put_part(alloc, splitter.part(bundle, id), map),
        _ => Err(Failure::WrongKind),
    }
}

fn put_part(
    alloc: Global,
    part: Option<Result<(String, SourceView, SourceMap)>>,
    map: &mut Handle,
) -> Outcome<()>
    ensures { (due : Option (Result ModuleParts Error)) → YieldsPart parts_value part due
        → Does result (HasMap (Some due) (tree_in (held_in map.new)))
        (IsNoItem (Some due)) (held_in map.new ≡ held_in map.old) }
{
    match part {
        Some(Ok((_, _, made))) => put_map(alloc, map, DecodedMap::Regular(made)),
        Some(Err(error)) => Err(Failure::Library(error)),
        None => Err(Failure::Absent),
    }
}
