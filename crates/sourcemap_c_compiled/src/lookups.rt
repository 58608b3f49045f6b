//! Lookups in compiled maps.
ghost use Rattle.std.specs.Prelude.{◌≡◌, ◌≤◌, ℕ, Some, cond, is_some, length, min, option_map, slice_get};
ghost use Rattle.sourcemap_compiled.specs.Layout.{refusal};
ghost use Rattle.sourcemap_compiled.specs.Lookup.{token_at};
ghost use Rattle.sourcemap_compiled.specs.Stored.{bytes_of, token_value};
ghost use Rattle.sourcemap_c_compiled.specs.Codes.{OnCompiled};
ghost use Rattle.sourcemap_c_compiled.specs.Lookups.{AreAnswered, IsFound, ReturnsClosest, ReturnsScope};
ghost use Rattle.sourcemap_c_compiled.specs.Lookups.{ReturnsToken, found_of};

use crate::codes::{ABSENT, OK, code_of};
use crate::texts::put_text;
use sourcemap_c_handles::layout::{Found, Position};
use sourcemap_compiled::map::CompiledMap;
use sourcemap_compiled::token::CompiledToken;

/// Looks up a generated position, and writes its closest token to `found`.
pub fn look_up(bytes: &[u8], line: u32, column: u32, found: &mut Found) -> u32
    ensures { OnCompiled bytes.now
        (ReturnsClosest bytes.now (line, column) result found.old found.new)
        result found.old found.new }
{
    match CompiledMap::parse(bytes) {
        Ok(map) => put_closest(&map, line, column, found),
        Err(error) => code_of(error),
    }
}

fn put_closest(map: &CompiledMap<'_>, line: u32, column: u32, found: &mut Found) -> u32
    ensures { ReturnsClosest (bytes_of map.now) (line, column) result found.old found.new }
{
    put_found(closest(map, line, column), found)
}

// One copy of the search for single lookups: with a copy for each, the compiler would make none for
// many positions, and call it.
#[inline(never)]
fn closest<'a>(map: &CompiledMap<'a>, line: u32, column: u32) -> Option<CompiledToken<'a>>
    ensures { IsFound (bytes_of map.now) (line, column) (option_map token_value result) }
{
    map.lookup_token(line, column)
}

/// Writes the token with this index to `found`.
pub fn put_token(bytes: &[u8], index: u32, found: &mut Found) -> u32
    ensures { OnCompiled bytes.now
        (ReturnsToken (token_at bytes.now index) result found.old found.new)
        result found.old found.new }
{
    match CompiledMap::parse(bytes) {
        Ok(map) => put_found(map.get_token(index as usize), found),
        Err(error) => code_of(error),
    }
}

fn put_found(token: Option<CompiledToken<'_>>, found: &mut Found) -> u32
    ensures { ReturnsToken (option_map token_value token.entry) result found.old found.new }
{
    match token {
        Some(token) => {
            write_found(&token, found);
            OK
        }
        None => ABSENT,
    }
}

// Writes each field by itself: to move a whole struct costs more, since its padding is moved too.
#[inline(always)]
fn write_found(token: &CompiledToken<'_>, found: &mut Found)
    ensures { found.new ≡ found_of (Some (token_value token.now)) }
{
    let raw = token.get_raw_token();
    found.token.line = raw.dst_line;
    found.token.column = raw.dst_col;
    found.token.original_line = raw.src_line;
    found.token.original_column = token.get_src_col();
    found.token.source = raw.src_id;
    found.token.name = raw.name_id;
    found.token.is_range = raw.is_range;
    found.found = true;
}

/// Looks up each generated position `positions[i]`, and writes its closest token to `found[i]`.
/// Returns how many it answered: 0 if the bytes are no compiled map.
pub fn look_up_many(bytes: &[u8], positions: &[Position], found: &mut [Found]) -> usize
    ensures count { result ≡ cond (is_some (refusal bytes.now)) 0
        (min (length positions.now) (length found.old)) }
    ensures each { AreAnswered bytes.now positions.now found.new result }
    ensures rest { (i : ℕ) → result ≤ i → slice_get found.new i ≡ slice_get found.old i }
{
    match CompiledMap::parse(bytes) {
        Ok(map) => look_up_each(&map, positions, found),
        Err(_) => 0,
    }
}

fn look_up_each(map: &CompiledMap<'_>, positions: &[Position], found: &mut [Found]) -> usize
    ensures count { result ≡ min (length positions.now) (length found.old) }
    ensures each { AreAnswered (bytes_of map.now) positions.now found.new result }
    ensures rest { (i : ℕ) → result ≤ i → slice_get found.new i ≡ slice_get found.old i }
{
    let count = positions.len().min(found.len());
    for i in 0..count {
        let position = positions[i];
        let token = map.lookup_token_in_loop(position.line, position.column);
        put_answer(token, &mut found[i]);
    }
    count
}

#[inline(always)]
fn put_answer(token: Option<CompiledToken<'_>>, found: &mut Found)
    ensures { found.new ≡ found_of (option_map token_value token.entry) }
{
    match token {
        Some(token) => write_found(&token, found),
        None => *found = Found::none(),
    }
}

/// Borrows the scope of the token closest to a generated position.
pub fn put_scope<'a>(bytes: &'a [u8], line: u32, column: u32, text: &mut &'a [u8]) -> u32
    ensures { OnCompiled bytes.now
        (ReturnsScope bytes.now (line, column) result text.old.now text.new.now)
        result text.old.now text.new.now }
{
    match CompiledMap::parse(bytes) {
        Ok(map) => put_closest_scope(&map, line, column, text),
        Err(error) => code_of(error),
    }
}

fn put_closest_scope<'a>(map: &CompiledMap<'a>, line: u32, column: u32, text: &mut &'a [u8]) -> u32
    ensures { ReturnsScope (bytes_of map.now) (line, column) result text.old.now text.new.now }
{
    match closest(map, line, column) {
        Some(token) => put_text(token.get_scope(), text),
        None => ABSENT,
    }
}
