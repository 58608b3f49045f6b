//! Calls that write a token as text, for example as `a.js:3:5 name=total`.
ghost use Rattle.std.specs.Prelude.{◌≡◌, None, Some, option_and_then, option_map};
ghost use Rattle.sourcemap_c_handles.specs.Handles.{held_in};
ghost use Rattle.sourcemap_index.specs.Family.{map_tree};
ghost use Rattle.sourcemap_map_regular.specs.Token.{meaning_of_token, token_text};
ghost use Rattle.sourcemap_c.specs.Codes.{Answers, Does, NoError, OfLibrary};
ghost use Rattle.sourcemap_c.specs.Getters.{leaf_in};
ghost use Rattle.sourcemap_c.specs.Kinds.{bytes_in, tree_in};
ghost use Rattle.sourcemap_c.specs.TokenTexts.{HoldsTextAt, HoldsTextOf, LacksTextAt, LacksTextOf};

use crate::getters::leaf_in;
use crate::kinds::{map_in, put_bytes};
use sourcemap::{DecodedMap, Error, SourceMap, Token};
use sourcemap_c_handles::Handle;
use sourcemap_c_handles::errors::{ErrorReport, Failure, Outcome, finish};
use std::alloc::Global;

/// Fills `text` with the token with this index, for example `a.js:3:5 name=total`.
#[unsafe(no_mangle)]
pub extern "C" fn sm_token_text(
    alloc: Global,
    map: &mut Handle,
    index: u32,
    text: &mut Handle,
    error: &mut ErrorReport,
) -> u32
    ensures text { Answers result error.old error.new
        (HoldsTextOf index (option_and_then leaf_in (tree_in (held_in map.old))) (bytes_in (held_in text.new)))
        (LacksTextOf index (option_and_then leaf_in (tree_in (held_in map.old))))
        (held_in text.new ≡ held_in text.old) }
    ensures kept { held_in map.new ≡ held_in map.old }
{
    finish(alloc, put_text_of(alloc, map, index, text), error)
}

fn put_text_of(alloc: Global, map: &mut Handle, index: u32, text: &mut Handle) -> Outcome<()>
    ensures text { Does result (HoldsTextOf index (option_and_then leaf_in (tree_in (held_in map.old)))
        (bytes_in (held_in text.new))) (LacksTextOf index (option_and_then leaf_in (tree_in (held_in map.old))))
        (held_in text.new ≡ held_in text.old) }
    ensures kept { held_in map.new ≡ held_in map.old }
{
    match map_in(map) {
        Some(map) => put_listed(alloc, map, index, text),
        None => Err(Failure::WrongKind),
    }
}

fn put_listed(alloc: Global, map: &DecodedMap, index: u32, text: &mut Handle) -> Outcome<()>
    ensures { Does result (HoldsTextOf index (leaf_in (map_tree map.now)) (bytes_in (held_in text.new)))
        (LacksTextOf index (leaf_in (map_tree map.now))) (held_in text.new ≡ held_in text.old) }
{
    let Some(map) = leaf_in(map) else {
        return Err(Failure::WrongKind);
    };
    match map.get_token(index as usize) {
        Some(token) => put_token(alloc, token, text),
        None => Err(Failure::Absent),
    }
}

fn put_token(alloc: Global, token: Token<'_>, text: &mut Handle) -> Outcome<()>
    ensures { Does result (bytes_in (held_in text.new) ≡ Some (token_text (meaning_of_token token.entry)))
        (OfLibrary NoError) (held_in text.new ≡ held_in text.old) }
{
    match token.to_string(alloc) {
        Ok(printed) => put_bytes(alloc, text, printed.into_bytes()),
        Err(_) => Err(Failure::Library(Error::OutOfMemory)),
    }
}

/// Looks up a generated position, and fills `text` with the closest token, in the form of
/// `sm_token_text`.
#[unsafe(no_mangle)]
pub extern "C" fn sm_lookup_text(
    alloc: Global,
    map: &mut Handle,
    line: u32,
    column: u32,
    text: &mut Handle,
    error: &mut ErrorReport,
) -> u32
    ensures text { Answers result error.old error.new
        (HoldsTextAt (line, column) (tree_in (held_in map.old)) (bytes_in (held_in text.new)))
        (LacksTextAt (line, column) (tree_in (held_in map.old))) (held_in text.new ≡ held_in text.old) }
    ensures kept { held_in map.new ≡ held_in map.old }
{
    finish(alloc, put_text_at(alloc, map, line, column, text), error)
}

fn put_text_at(
    alloc: Global,
    map: &mut Handle,
    line: u32,
    column: u32,
    text: &mut Handle,
) -> Outcome<()>
    ensures text { Does result
        (HoldsTextAt (line, column) (tree_in (held_in map.old)) (bytes_in (held_in text.new)))
        (LacksTextAt (line, column) (tree_in (held_in map.old))) (held_in text.new ≡ held_in text.old) }
    ensures kept { held_in map.new ≡ held_in map.old }
{
    let Some(map) = map_in(map) else {
        return Err(Failure::WrongKind);
    };
    match map.lookup_token(line, column) {
        Some(token) => put_token(alloc, token, text),
        None => Err(Failure::Absent),
    }
}
