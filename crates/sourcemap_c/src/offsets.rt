//! Calls that read the paths of modules, and the lines at which modules begin. A call that makes a
//! relative path.
ghost use Rattle.std.specs.Prelude.{◌≡◌, ◌≤◌, ◌-◌, ℕ, Some, length, min, slice_get};
ghost use Rattle.std.specs.Borrow.{sem};
ghost use Rattle.std.specs.Option.{option_and_then, option_copied};
ghost use Rattle.sourcemap_c_handles.specs.Handles.{EndsAsBefore, held_in};
ghost use Rattle.sourcemap_index.specs.Family.{index_value, map_tree};
ghost use Rattle.sourcemap_file_urls.specs.RelativePaths.{relative_path};
ghost use Rattle.sourcemap_c.specs.Getters.{AreFrom};
ghost use Rattle.sourcemap_c.specs.Codes.{Answers, Does, NoError, OfLibrary, ReturnsValue};
ghost use Rattle.sourcemap_c.specs.Kinds.{bytes_in, tree_in, tree_of};
ghost use Rattle.sourcemap_c.specs.Offsets.{AreTexts, IsNoTextOf, WritesLines, lines_in, or_none, path_in};

use crate::codes::{ABSENT, OK, WRONG_KIND, put_text, text_in};
use crate::kinds::{map_in, put_bytes};
use sourcemap::{DecodedMap, SourceMapIndex, make_relative_path};
use sourcemap_c_handles::Handle;
use sourcemap_c_handles::errors::{ErrorReport, Failure, Outcome, finish};
use std::alloc::Global;

// `SM_NONE` of the C header.
pub(crate) const NONE: u32 = u32::MAX;

/// Writes the generated lines at which the modules from `first` on begin, as many as fit.
#[unsafe(no_mangle)]
pub extern "C" fn sm_module_offsets(
    map: &mut Handle,
    first: u32,
    offsets: &mut [u32],
    written: &mut usize,
) -> u32
    ensures lines { WritesLines (lines_in (tree_in (held_in map.old))) first result
        offsets.old offsets.new written.old written.new }
    ensures kept { held_in map.new ≡ held_in map.old }
{
    match map_in(map) {
        Some(map) => put_lines(map, first as usize, offsets, written),
        None => WRONG_KIND,
    }
}

fn put_lines(map: &DecodedMap, first: usize, offsets: &mut [u32], written: &mut usize) -> u32
    ensures { WritesLines (lines_in (Some (map_tree map.now))) first result
        offsets.old offsets.new written.old written.new }
{
    let DecodedMap::Index(index) = map else {
        return WRONG_KIND;
    };
    match index.x_facebook_offsets() {
        Some(lines) => {
            *written = put_numbers(lines, first, offsets);
            OK
        }
        None => ABSENT,
    }
}

fn put_numbers(lines: &[Option<u32>], first: usize, offsets: &mut [u32]) -> usize
    ensures count { result ≡ min (length offsets.old) (length lines.now - first) }
    ensures each { AreFrom or_none first lines.now offsets.new result }
    ensures rest { (i : ℕ) → result ≤ i → slice_get offsets.new i ≡ slice_get offsets.old i }
{
    let count = lines.len().saturating_sub(first).min(offsets.len());
    for i in 0..count {
        offsets[i] = lines[first + i].unwrap_or(NONE);
    }
    count
}

/// Borrows the path of module `id`: item `id` of `x_metro_module_paths` in an index map. Returns
/// `SM_ABSENT` if there is no such item, and `SM_WRONG_KIND` if `map` holds no index map.
#[unsafe(no_mangle)]
pub extern "C" fn sm_module_path<'a>(map: &'a mut Handle, id: u32, text: &mut &'a [u8]) -> u32
    ensures* after { sem 𝓛 (EndsAsBefore map.entry) }
    ensures value { ReturnsValue (path_in id (tree_in (held_in map.old))) result text.old.now text.new.now }
{
    put_path(map_in(map), id, text)
}

fn put_path<'a>(map: Option<&'a DecodedMap>, id: u32, text: &mut &'a [u8]) -> u32
    ensures { ReturnsValue (path_in id (tree_of map.entry)) result text.old.now text.new.now }
{
    match map {
        Some(DecodedMap::Index(index)) => put_text(path_of(index, id as usize), text),
        _ => WRONG_KIND,
    }
}

fn path_of(index: &SourceMapIndex, id: usize) -> Option<&str>
    ensures { option_copied result ≡ option_and_then (λ paths. slice_get paths id)
        (index_value index.now).parts.x_metro_module_paths }
{
    let path = index.x_metro_module_paths()?.get(id)?;
    Some(path.as_str())
}

/// Fills `path` with the relative path from the folder of the file `base` to the file `target`.
#[unsafe(no_mangle)]
pub extern "C" fn sm_relative_path(
    alloc: Global,
    base: &[u8],
    target: &[u8],
    path: &mut Handle,
    error: &mut ErrorReport,
) -> u32
    ensures { Answers result error.old error.new (AreTexts base.now target.now
        × (bytes_in (held_in path.new) ≡ Some (relative_path base.now target.now)))
        (OfLibrary (IsNoTextOf base.now target.now)) (held_in path.new ≡ held_in path.old) }
{
    finish(alloc, put_relative(alloc, base, target, path), error)
}

fn put_relative(alloc: Global, base: &[u8], target: &[u8], path: &mut Handle) -> Outcome<()>
    ensures { Does result (AreTexts base.now target.now
        × (bytes_in (held_in path.new) ≡ Some (relative_path base.now target.now)))
        (OfLibrary (IsNoTextOf base.now target.now)) (held_in path.new ≡ held_in path.old) }
{
    let base = text_in(base)?;
    let target = text_in(target)?;
    let found = make_relative_path(alloc, base, target)?;
    put_bytes(alloc, path, found.into_bytes())
}
