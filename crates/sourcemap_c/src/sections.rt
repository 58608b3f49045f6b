//! Sections of index maps.
ghost use Rattle.std.specs.Prelude.{◌≡◌, ◌≢◌, None, Some, length, option_and_then, option_map, slice_get};
ghost use Rattle.std.specs.Borrow.{sem};
ghost use Rattle.std.specs.Option.{option_copied};
ghost use Rattle.sourcemap_c_handles.specs.Handles.{EndsAsBefore, held_in};
ghost use Rattle.sourcemap_index.specs.Family.{index_value, map_tree, section_value};
ghost use Rattle.sourcemap_c_handles.specs.declared.errors.Failure.TheVariants.{Absent};
ghost use Rattle.sourcemap_c.specs.Codes.{Answers, Does, NoError, OfLibrary, ReturnsValue};
ghost use Rattle.sourcemap_c.specs.Kinds.{tree_in};
ghost use Rattle.sourcemap_c.specs.Sections.{HoldsMapAt, LacksMapAt, map_at, sections_in, start_of, url_of};

use crate::codes::{ABSENT, OK, WRONG_KIND, put_text};
use crate::kinds::{map_in, put_map};
use sourcemap::{DecodedMap, SourceMapIndex, SourceMapSection};
use sourcemap_c_handles::Handle;
use sourcemap_c_handles::errors::{ErrorReport, Failure, Outcome, finish};
use sourcemap_c_handles::layout::SectionStart;
use std::alloc::Global;

fn index_in<'a>(handle: &'a mut Handle) -> Option<&'a SourceMapIndex>
    ensures* after { sem 𝓛 (EndsAsBefore handle.entry) }
    ensures value { option_map (λ i. (index_value i.now).sections) result
        ≡ option_and_then sections_in (tree_in (held_in handle.old)) }
{
    match map_in(handle) {
        Some(map) => index_of(map),
        None => None,
    }
}

fn index_of(map: &DecodedMap) -> Option<&SourceMapIndex>
    ensures { option_map (λ i. (index_value i.now).sections) result ≡ sections_in (map_tree map.now) }
{
    match map {
        DecodedMap::Index(index) => Some(index),
        DecodedMap::Regular(_) | DecodedMap::Hermes(_) => None,
    }
}

/// Writes the offset of a section, whether it has a map, and whether it has a URL.
#[unsafe(no_mangle)]
pub extern "C" fn sm_section_start_of(map: &mut Handle, id: u32, start: &mut SectionStart) -> u32
    ensures start { ReturnsValue (option_map (λ ss. option_map start_of (slice_get ss id))
        (option_and_then sections_in (tree_in (held_in map.old)))) result start.old start.new }
    ensures kept { held_in map.new ≡ held_in map.old }
{
    match index_in(map) {
        Some(index) => match index.get_section(id) {
            Some(section) => {
                *start = start_of(section);
                OK
            }
            None => ABSENT,
        },
        None => WRONG_KIND,
    }
}

fn start_of(section: &SourceMapSection) -> SectionStart
    ensures { result ≡ start_of (section_value section.now) }
{
    SectionStart {
        line: section.get_offset_line(),
        column: section.get_offset_col(),
        has_map: section.get_sourcemap().is_some(),
        has_url: section.get_url().is_some(),
    }
}

/// Borrows the URL of a section.
#[unsafe(no_mangle)]
pub extern "C" fn sm_section_url<'a>(map: &'a mut Handle, id: u32, text: &mut &'a [u8]) -> u32
    ensures* after { sem 𝓛 (EndsAsBefore map.entry) }
    ensures value { ReturnsValue (option_map (λ ss. option_and_then url_of (slice_get ss id))
        (option_and_then sections_in (tree_in (held_in map.old)))) result text.old.now text.new.now }
{
    put_url(index_in(map), id, text)
}

fn put_url<'a>(index: Option<&'a SourceMapIndex>, id: u32, text: &mut &'a [u8]) -> u32
    ensures { ReturnsValue (option_map (λ ss. option_and_then url_of (slice_get ss id))
        (option_map (λ i. (index_value i.now).sections) index.entry)) result text.old.now text.new.now }
{
    match index {
        Some(index) => put_text(url_at(index, id), text),
        None => WRONG_KIND,
    }
}

fn url_at(index: &SourceMapIndex, id: u32) -> Option<&str>
    ensures { option_copied result ≡ option_and_then url_of (slice_get (index_value index.now).sections id) }
{
    index.get_section(id)?.get_url()
}

/// Fills `section` with a copy of the map of a section.
#[unsafe(no_mangle)]
pub extern "C" fn sm_section(
    alloc: Global,
    map: &mut Handle,
    id: u32,
    section: &mut Handle,
    error: &mut ErrorReport,
) -> u32
    ensures copied { Answers result error.old error.new
        (HoldsMapAt id (option_and_then sections_in (tree_in (held_in map.old)))
        (tree_in (held_in section.new)))
        (LacksMapAt id (option_and_then sections_in (tree_in (held_in map.old))))
        (held_in section.new ≡ held_in section.old) }
    ensures kept { held_in map.new ≡ held_in map.old }
{
    finish(alloc, copy_section(alloc, map, id, section), error)
}

fn copy_section(alloc: Global, map: &mut Handle, id: u32, section: &mut Handle) -> Outcome<()>
    ensures copied { Does result (HoldsMapAt id (option_and_then sections_in (tree_in (held_in map.old)))
        (tree_in (held_in section.new)))
        (LacksMapAt id (option_and_then sections_in (tree_in (held_in map.old))))
        (held_in section.new ≡ held_in section.old) }
    ensures kept { held_in map.new ≡ held_in map.old }
{
    match index_in(map) {
        Some(index) => put_section(alloc, index, id, section),
        None => Err(Failure::WrongKind),
    }
}

fn put_section(alloc: Global, index: &SourceMapIndex, id: u32, section: &mut Handle) -> Outcome<()>
    ensures { Does result
        (HoldsMapAt id (Some (index_value index.now).sections) (tree_in (held_in section.new)))
        (LacksMapAt id (Some (index_value index.now).sections)) (held_in section.new ≡ held_in section.old) }
{
    match map_at(index, id) {
        Some(map) => put_map(alloc, section, map.clone()?),
        None => Err(Failure::Absent),
    }
}

fn map_at(index: &SourceMapIndex, id: u32) -> Option<&DecodedMap>
    ensures { option_map (λ m. map_tree m.now) result ≡ map_at id (index_value index.now).sections }
{
    index.get_section(id)?.get_sourcemap()
}
