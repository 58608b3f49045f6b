//! Lookups of generated positions. If an index map has unsorted sections at any level, the answer
//! to a lookup may be wrong.
ghost use Rattle.std.specs.Prelude.{◌≡◌, ◌+◌, ◌<◌, ◌≤◌, ◌^◌, ℕ, IfSome, None, Some, length, min, option_and_then, option_map, slice_get, unwrap_or};
ghost use Rattle.std.specs.Borrow.{sem};
ghost use Rattle.std.specs.Option.{option_copied};
ghost use Rattle.sourcemap_c_handles.specs.Handles.{EndsAsBefore, held_in};
ghost use Rattle.sourcemap_c_handles.specs.Layout.{found_in};
ghost use Rattle.sourcemap_index.specs.Family.{map_tree};
ghost use Rattle.sourcemap_map_regular.specs.Token.{token_value};
ghost use Rattle.sourcemap_index_model.specs.Meaning.{meaning};
ghost use Rattle.sourcemap_index_model.specs.WellFormed.{IsInOrder};
ghost use Rattle.sourcemap_c.specs.Codes.{IsAbsentUnlessOk, ReturnsValue};
ghost use Rattle.sourcemap_c.specs.Getters.{leaf_in};
ghost use Rattle.sourcemap_c.specs.Kinds.{tree_in, tree_of};
ghost use Rattle.sourcemap_c.specs.Lookup.{AreAnswered, ReturnsLookup, StaysClosest, answer_at, found_at, index_at, name_at, source_at, span_at, start_after};

use crate::codes::{ABSENT, OK, WRONG_KIND, put_text};
use crate::getters::leaf_in;
use crate::kinds::map_in;
use sourcemap::{DecodedMap, RawToken, SourceMap, Token};
use sourcemap_c_handles::Handle;
use sourcemap_c_handles::layout::{Found, Position};

/// Looks up a generated position, and writes its closest token to `found`.
#[unsafe(no_mangle)]
pub extern "C" fn sm_lookup(map: &mut Handle, line: u32, column: u32, found: &mut Found) -> u32
    ensures answer { ReturnsLookup (λ t. found_at t (line, column)) (tree_in (held_in map.old))
        result found.old found.new }
    ensures kept { held_in map.new ≡ held_in map.old }
{
    match map_in(map) {
        Some(map) => look_up(map, line, column, found),
        None => WRONG_KIND,
    }
}

fn look_up(map: &DecodedMap, line: u32, column: u32, found: &mut Found) -> u32
    ensures answer { IsInOrder (map_tree map.now)
        → ReturnsValue (Some (found_at (map_tree map.now) (line, column))) result found.old found.new }
    ensures unwritten { IsAbsentUnlessOk result found.old found.new }
{
    // Each branch calls `put_found`. If the branches returned the token, it would be copied once
    // more.
    match map {
        DecodedMap::Regular(map) => put_found(map.lookup_token(line, column), found),
        DecodedMap::Hermes(map) => put_found(map.lookup_token(line, column), found),
        DecodedMap::Index(index) => put_found(index.lookup_token(line, column), found),
    }
}

/// Writes the token and returns `SM_OK`. Without a token, writes nothing and returns `SM_ABSENT`.
fn put_found(token: Option<Token<'_>>, found: &mut Found) -> u32
    ensures answer { ReturnsValue (Some (option_map (λ t. found_in (Some t))
        (option_map token_value token.entry))) result found.old found.new }
    ensures unwritten { IsAbsentUnlessOk result found.old found.new }
{
    match token {
        Some(token) => {
            *found = Found::of(Some(&token));
            OK
        }
        None => ABSENT,
    }
}

/// Looks up each generated position `positions[i]`, and writes its closest token to `found[i]`.
#[unsafe(no_mangle)]
pub extern "C" fn sm_lookup_many(
    map: &mut Handle,
    positions: &[Position],
    found: &mut [Found],
) -> usize
    ensures count { result ≡ unwrap_or
        (option_map (λ _. min (length positions.now) (length found.old)) (tree_in (held_in map.old))) 0 }
    ensures each { IfSome (tree_in (held_in map.old)) (λ t. IsInOrder t
        → AreAnswered t positions.now found.new result) }
    ensures rest { (i : ℕ) → result ≤ i → slice_get found.new i ≡ slice_get found.old i }
    ensures kept { held_in map.new ≡ held_in map.old }
{
    match map_in(map) {
        Some(map) => look_up_each(map, positions, found),
        None => 0,
    }
}

fn look_up_each(map: &DecodedMap, positions: &[Position], found: &mut [Found]) -> usize
    ensures count { result ≡ min (length positions.now) (length found.old) }
    ensures each { IsInOrder (map_tree map.now)
        → AreAnswered (map_tree map.now) positions.now found.new result }
    ensures rest { (i : ℕ) → result ≤ i → slice_get found.new i ≡ slice_get found.old i }
{
    let count = positions.len().min(found.len());
    for i in 0..count {
        found[i] = answer(map, positions[i]);
    }
    count
}

fn answer(map: &DecodedMap, position: Position) -> Found
    ensures { IsInOrder (map_tree map.now) → result ≡ answer_at (map_tree map.now) position }
{
    match map.lookup_token(position.line, position.column) {
        Some(token) => Found::of(Some(&token)),
        None => Found::none(),
    }
}

/// Writes the index of the closest token in a regular or Hermes map. An index above 4294967295 is
/// written as 4294967295.
#[unsafe(no_mangle)]
pub extern "C" fn sm_lookup_index(map: &mut Handle, line: u32, column: u32, index: &mut u32) -> u32
    ensures answer { ReturnsValue (option_map (λ m. index_at m (line, column))
        (option_and_then leaf_in (tree_in (held_in map.old)))) result index.old index.new }
    ensures kept { held_in map.new ≡ held_in map.old }
{
    match map_in(map) {
        Some(map) => put_index(map, line, column, index),
        None => WRONG_KIND,
    }
}

fn put_index(map: &DecodedMap, line: u32, column: u32, index: &mut u32) -> u32
    ensures { ReturnsValue (option_map (λ m. index_at m (line, column)) (leaf_in (map_tree map.now)))
        result index.old index.new }
{
    let Some(map) = leaf_in(map) else {
        return WRONG_KIND;
    };
    match map.lookup_token(line, column) {
        Some(token) => {
            *index = u32::try_from(token.get_index()).unwrap_or(u32::MAX);
            OK
        }
        None => ABSENT,
    }
}

/// Writes to `found` the closest token, and to `until` the generated position of the next token.
#[unsafe(no_mangle)]
pub extern "C" fn sm_lookup_span(
    map: &mut Handle,
    line: u32,
    column: u32,
    found: &mut Found,
    until: &mut Position,
) -> u32
    ensures answer { ReturnsValue (option_map (λ m. span_at m (line, column))
        (option_and_then leaf_in (tree_in (held_in map.old))))
        result (found.old, until.old) (found.new, until.new) }
    ensures stays { result ≡ 0 → IfSome (option_and_then leaf_in (tree_in (held_in map.old)))
        (λ m. StaysClosest m.tokens (line, column) until.new) }
    ensures kept { held_in map.new ≡ held_in map.old }
{
    match map_in(map) {
        Some(map) => put_span_in(map, line, column, found, until),
        None => WRONG_KIND,
    }
}

fn put_span_in(
    map: &DecodedMap,
    line: u32,
    column: u32,
    found: &mut Found,
    until: &mut Position,
) -> u32
    ensures answer { ReturnsValue (option_map (λ m. span_at m (line, column))
        (leaf_in (map_tree map.now))) result (found.old, until.old) (found.new, until.new) }
    ensures stays { result ≡ 0 → IfSome (leaf_in (map_tree map.now))
        (λ m. StaysClosest m.tokens (line, column) until.new) }
{
    match leaf_in(map) {
        Some(map) => put_span(map, line, column, found, until),
        None => WRONG_KIND,
    }
}

fn put_span(map: &SourceMap, line: u32, column: u32, found: &mut Found, until: &mut Position) -> u32
    ensures answer { ReturnsValue (Some (span_at map.now (line, column)))
        result (found.old, until.old) (found.new, until.new) }
    ensures stays { result ≡ 0 → StaysClosest map.now.tokens (line, column) until.new }
{
    let tokens = map.lists().tokens;
    match map.lookup_token(line, column) {
        Some(token) => {
            *found = Found::of(Some(&token));
            *until = start_after(tokens, token.get_index());
            OK
        }
        None => ABSENT,
    }
}

fn start_after(tokens: &[RawToken], index: usize) -> Position
    requires { index + 1 < 2 ^ 64 }
    ensures { result ≡ start_after tokens.now index }
{
    match tokens.get(index + 1) {
        Some(token) => Position {
            line: token.dst_line,
            column: token.dst_col,
        },
        None => Position {
            line: u32::MAX,
            column: u32::MAX,
        },
    }
}

/// Borrows the source of the closest token.
#[unsafe(no_mangle)]
pub extern "C" fn sm_lookup_source<'a>(
    map: &'a mut Handle,
    line: u32,
    column: u32,
    text: &mut &'a [u8],
) -> u32
    ensures* after { sem 𝓛 (EndsAsBefore map.entry) }
    ensures value { ReturnsLookup (λ t. source_at t (line, column)) (tree_in (held_in map.old))
        result text.old.now text.new.now }
{
    put_source_at(map_in(map), line, column, text)
}

fn put_source_at<'a>(
    map: Option<&'a DecodedMap>,
    line: u32,
    column: u32,
    text: &mut &'a [u8],
) -> u32
    ensures { ReturnsLookup (λ t. source_at t (line, column)) (tree_of map.entry)
        result text.old.now text.new.now }
{
    match map {
        Some(map) => put_text(source_at(map, line, column), text),
        None => WRONG_KIND,
    }
}

fn source_at(map: &DecodedMap, line: u32, column: u32) -> Option<&str>
    ensures { IsInOrder (map_tree map.now)
        → option_copied result ≡ source_at (map_tree map.now) (line, column) }
{
    map.lookup_token(line, column)?.get_source()
}

/// Borrows the name of the closest token.
#[unsafe(no_mangle)]
pub extern "C" fn sm_lookup_name<'a>(
    map: &'a mut Handle,
    line: u32,
    column: u32,
    text: &mut &'a [u8],
) -> u32
    ensures* after { sem 𝓛 (EndsAsBefore map.entry) }
    ensures value { ReturnsLookup (λ t. name_at t (line, column)) (tree_in (held_in map.old))
        result text.old.now text.new.now }
{
    put_name_at(map_in(map), line, column, text)
}

fn put_name_at<'a>(map: Option<&'a DecodedMap>, line: u32, column: u32, text: &mut &'a [u8]) -> u32
    ensures { ReturnsLookup (λ t. name_at t (line, column)) (tree_of map.entry)
        result text.old.now text.new.now }
{
    match map {
        Some(map) => put_text(name_at(map, line, column), text),
        None => WRONG_KIND,
    }
}

fn name_at(map: &DecodedMap, line: u32, column: u32) -> Option<&str>
    ensures { IsInOrder (map_tree map.now) → option_copied result ≡ name_at (map_tree map.now) (line, column) }
{
    map.lookup_token(line, column)?.get_name()
}
