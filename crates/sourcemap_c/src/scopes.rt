//! The names that a Hermes map has for original positions.
ghost use Rattle.std.specs.Prelude.{◌≡◌};
ghost use Rattle.std.specs.Borrow.{sem};
ghost use Rattle.sourcemap_c_handles.specs.Handles.{EndsAsBefore, held_in};
ghost use Rattle.sourcemap_c.specs.Kinds.{tree_in, tree_of};
ghost use Rattle.sourcemap_c.specs.Scopes.{NamesFor};

use crate::codes::{WRONG_KIND, put_text};
use crate::kinds::map_in;
use sourcemap::DecodedMap;
use sourcemap_c_handles::Handle;

/// Borrows the name of the function that contains an original position.
#[unsafe(no_mangle)]
pub extern "C" fn sm_scope_for<'a>(
    map: &'a mut Handle,
    source: u32,
    line: u32,
    column: u32,
    text: &mut &'a [u8],
) -> u32
    ensures* after { sem 𝓛 (EndsAsBefore map.entry) }
    ensures value { NamesFor (tree_in (held_in map.old)) source (line, column) result text.old.now text.new.now }
{
    put_scope(map_in(map), source, line, column, text)
}

fn put_scope<'a>(
    map: Option<&'a DecodedMap>,
    source: u32,
    line: u32,
    column: u32,
    text: &mut &'a [u8],
) -> u32
    ensures { NamesFor (tree_of map.entry) source (line, column) result text.old.now text.new.now }
{
    match map {
        Some(DecodedMap::Hermes(map)) => put_text(map.get_scope(source, line, column), text),
        _ => WRONG_KIND,
    }
}
