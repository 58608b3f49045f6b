//! `sm_trace` looks up each generated position of a list. The other calls look up function names.
ghost use Rattle.std.specs.Prelude.{◌≡◌, None, Some};
ghost use Rattle.std.specs.Borrow.{sem};
ghost use Rattle.std.specs.Option.{option_copied};
ghost use Rattle.sourcemap_c_handles.specs.Handles.{EndsAsBefore, held_in};
ghost use Rattle.sourcemap_index.specs.Family.{map_tree};
ghost use Rattle.sourcemap_c.specs.Codes.{Answers, Does};
ghost use Rattle.sourcemap_c.specs.Functions.{Guesses, IsTrace, Names, NamesAt, NamesIn};
ghost use Rattle.sourcemap_c.specs.Kinds.{tree_in, tree_of, view_in};
ghost use Rattle.sourcemap_c.specs.Writing.{FillsFrom};

use crate::codes::{WRONG_KIND, put_text, text_in};
use crate::kinds::{map_in, put_bytes};
use crate::views::view_in;
use sourcemap::{DecodedMap, SourceView};
use sourcemap_c_handles::Handle;
use sourcemap_c_handles::errors::{Code, ErrorReport, Failure, Outcome, finish};
use sourcemap_trace::trace_text;
use std::alloc::Global;

/// Looks up each generated position of a list, and fills `text` with the answers, one for each
/// line.
#[unsafe(no_mangle)]
pub extern "C" fn sm_trace(
    alloc: Global,
    map: &mut Handle,
    positions: &[u8],
    text: &mut Handle,
    error: &mut ErrorReport,
) -> u32
    ensures trace { FillsFrom (Answers result error.old error.new) (IsTrace positions.now) (tree_in (held_in map.old))
        (held_in text.old) (held_in text.new) }
    ensures kept { held_in map.new ≡ held_in map.old }
{
    finish(alloc, trace(alloc, map, positions, text), error)
}

fn trace(alloc: Global, map: &mut Handle, positions: &[u8], text: &mut Handle) -> Outcome<()>
    ensures trace { FillsFrom (Does result) (IsTrace positions.now) (tree_in (held_in map.old))
        (held_in text.old) (held_in text.new) }
    ensures kept { held_in map.new ≡ held_in map.old }
{
    match map_in(map) {
        Some(map) => {
            let answers = trace_text(alloc, map, positions)?;
            put_bytes(alloc, text, answers.into_bytes())
        }
        None => Err(Failure::WrongKind),
    }
}

/// Borrows the name of the function at a generated position: the stored name for a Hermes map, a
/// guess for other maps.
#[unsafe(no_mangle)]
pub extern "C" fn sm_function_name<'a>(
    map: &'a mut Handle,
    line: u32,
    column: u32,
    minified: &[u8],
    view: &mut Handle,
    text: &mut &'a [u8],
) -> u32
    ensures* after { sem 𝓛 (EndsAsBefore map.entry) }
    ensures name { NamesIn (tree_in (held_in map.old)) (view_in (held_in view.old)) minified.now
        (line, column) result text.old.now text.new.now }
    ensures kept { held_in view.new ≡ held_in view.old }
{
    put_name_in(map_in(map), line, column, minified, view, text)
}

fn put_name_in<'a>(
    map: Option<&'a DecodedMap>,
    line: u32,
    column: u32,
    minified: &[u8],
    view: &mut Handle,
    text: &mut &'a [u8],
) -> u32
    ensures name { NamesIn (tree_of map.entry) (view_in (held_in view.old)) minified.now
        (line, column) result text.old.now text.new.now }
    ensures kept { held_in view.new ≡ held_in view.old }
{
    match map {
        Some(map) => put_name(map, line, column, minified, view_in(view), text),
        None => WRONG_KIND,
    }
}

fn put_name<'a>(
    map: &'a DecodedMap,
    line: u32,
    column: u32,
    minified: &[u8],
    view: Option<&SourceView>,
    text: &mut &'a [u8],
) -> u32
    ensures { Names (map_tree map.now) (option_copied view.entry) minified.now (line, column) result
        text.old.now text.new.now }
{
    match map {
        DecodedMap::Hermes(_) => put_text(
            map.get_original_function_name(line, column, None, None),
            text,
        ),
        DecodedMap::Regular(_) | DecodedMap::Index(_) => match view {
            Some(view) => put_guess(map, line, column, minified, view, text),
            None => WRONG_KIND,
        },
    }
}

fn put_guess<'a>(
    map: &'a DecodedMap,
    line: u32,
    column: u32,
    minified: &[u8],
    view: &SourceView,
    text: &mut &'a [u8],
) -> u32
    ensures { Guesses (map_tree map.now) view.now minified.now (line, column) result text.old.now text.new.now }
{
    match text_in(minified) {
        Ok(minified) => put_text(
            map.get_original_function_name(line, column, Some(minified), Some(view)),
            text,
        ),
        Err(_) => Code::Utf8.number(),
    }
}

/// Borrows the name of the function at a bytecode offset of a Hermes map.
#[unsafe(no_mangle)]
pub extern "C" fn sm_hermes_function_name<'a>(
    map: &'a mut Handle,
    offset: u32,
    text: &mut &'a [u8],
) -> u32
    ensures* after { sem 𝓛 (EndsAsBefore map.entry) }
    ensures value { NamesAt (tree_in (held_in map.old)) offset result text.old.now text.new.now }
{
    put_name_at(map_in(map), offset, text)
}

fn put_name_at<'a>(map: Option<&'a DecodedMap>, offset: u32, text: &mut &'a [u8]) -> u32
    ensures { NamesAt (tree_of map.entry) offset result text.old.now text.new.now }
{
    match map {
        Some(DecodedMap::Hermes(map)) => put_text(map.get_original_function_name(offset), text),
        _ => WRONG_KIND,
    }
}
