//! Compiled maps: bytes of the caller, which are looked up where they lie. These calls read nothing
//! but the bytes and write nothing but their result, so any number of threads may make them at once
//! with the same bytes.
ghost use Rattle.std.specs.Prelude.{◌≡◌, ◌≤◌, ℕ, MatchOption, Some, cond, is_some, length, min, slice_get};
ghost use Rattle.sourcemap_compiled.specs.Layout.{compiled_debug_id, refusal};
ghost use Rattle.sourcemap_compiled.specs.Lookup.{token_at};
ghost use Rattle.sourcemap_compiled.specs.Texts.{compiled_contents, compiled_file, compiled_name, compiled_source};
ghost use Rattle.sourcemap_c_compiled.specs.Codes.{OnCompiled, ReturnsOption, ReturnsText, ReturnsVerdict, check_code, compiled_code};
ghost use Rattle.sourcemap_c_compiled.specs.Counts.{counts_of};
ghost use Rattle.sourcemap_c_compiled.specs.Lookups.{AreAnswered, ReturnsClosest, ReturnsScope, ReturnsToken};

use sourcemap_c_compiled::checks::{check, verify};
use sourcemap_c_compiled::counts::{put_counts, put_debug_id};
use sourcemap_c_compiled::lookups::{look_up, look_up_many, put_scope, put_token};
use sourcemap_c_compiled::texts::{put_contents, put_file, put_name, put_source};
use sourcemap_c_handles::layout::{Counts, Found, IdBytes, Position};

/// Checks the header of a compiled map.
#[unsafe(no_mangle)]
pub extern "C" fn sm_compiled_check(bytes: &[u8]) -> u32
    ensures { result ≡ check_code (refusal bytes.now) }
{
    check(bytes)
}

/// Checks all bytes of a compiled map: its header, the order of its tokens, and its texts.
#[unsafe(no_mangle)]
pub extern "C" fn sm_compiled_verify(bytes: &[u8]) -> u32
    ensures { MatchOption (refusal bytes.now) (ReturnsVerdict bytes.now result)
        (λ e. result ≡ compiled_code e) }
{
    verify(bytes)
}

/// Writes how many tokens, sources and names the map has.
#[unsafe(no_mangle)]
pub extern "C" fn sm_compiled_count(bytes: &[u8], counts: &mut Counts) -> u32
    ensures { OnCompiled bytes.now
        (ReturnsOption (Some (counts_of bytes.now)) result counts.old counts.new)
        result counts.old counts.new }
{
    put_counts(bytes, counts)
}

/// Writes the debug id.
#[unsafe(no_mangle)]
pub extern "C" fn sm_compiled_debug_id(bytes: &[u8], id: &mut IdBytes) -> u32
    ensures { OnCompiled bytes.now
        (ReturnsOption (compiled_debug_id bytes.now) result id.old.bytes id.new.bytes)
        result id.old.bytes id.new.bytes }
{
    put_debug_id(bytes, id)
}

/// Looks up a generated position, and writes its closest token to `found`.
#[unsafe(no_mangle)]
pub extern "C" fn sm_compiled_lookup(bytes: &[u8], line: u32, column: u32, found: &mut Found) -> u32
    ensures { OnCompiled bytes.now
        (ReturnsClosest bytes.now (line, column) result found.old found.new)
        result found.old found.new }
{
    look_up(bytes, line, column, found)
}

/// Looks up each generated position `positions[i]`, and writes its closest token to `found[i]`.
/// Returns how many it answered: 0 if the bytes are no compiled map.
#[unsafe(no_mangle)]
pub extern "C" fn sm_compiled_lookup_many(
    bytes: &[u8],
    positions: &[Position],
    found: &mut [Found],
) -> usize
    ensures count { result ≡ cond (is_some (refusal bytes.now)) 0
        (min (length positions.now) (length found.old)) }
    ensures each { AreAnswered bytes.now positions.now found.new result }
    ensures rest { (i : ℕ) → result ≤ i → slice_get found.new i ≡ slice_get found.old i }
{
    look_up_many(bytes, positions, found)
}

/// Writes the token with this index to `found`.
#[unsafe(no_mangle)]
pub extern "C" fn sm_compiled_token(bytes: &[u8], index: u32, found: &mut Found) -> u32
    ensures { OnCompiled bytes.now
        (ReturnsToken (token_at bytes.now index) result found.old found.new)
        result found.old found.new }
{
    put_token(bytes, index, found)
}

/// Borrows the scope of the token closest to a generated position.
#[unsafe(no_mangle)]
pub extern "C" fn sm_compiled_scope<'a>(
    bytes: &'a [u8],
    line: u32,
    column: u32,
    text: &mut &'a [u8],
) -> u32
    ensures { OnCompiled bytes.now
        (ReturnsScope bytes.now (line, column) result text.old.now text.new.now)
        result text.old.now text.new.now }
{
    put_scope(bytes, line, column, text)
}

/// Borrows the source with this id.
#[unsafe(no_mangle)]
pub extern "C" fn sm_compiled_source<'a>(bytes: &'a [u8], id: u32, text: &mut &'a [u8]) -> u32
    ensures { OnCompiled bytes.now
        (ReturnsText (compiled_source bytes.now id) result text.old.now text.new.now)
        result text.old.now text.new.now }
{
    put_source(bytes, id, text)
}

/// Borrows the name with this id.
#[unsafe(no_mangle)]
pub extern "C" fn sm_compiled_name<'a>(bytes: &'a [u8], id: u32, text: &mut &'a [u8]) -> u32
    ensures { OnCompiled bytes.now
        (ReturnsText (compiled_name bytes.now id) result text.old.now text.new.now)
        result text.old.now text.new.now }
{
    put_name(bytes, id, text)
}

/// Borrows the contents for this source id.
#[unsafe(no_mangle)]
pub extern "C" fn sm_compiled_contents<'a>(bytes: &'a [u8], id: u32, text: &mut &'a [u8]) -> u32
    ensures { OnCompiled bytes.now
        (ReturnsText (compiled_contents bytes.now id) result text.old.now text.new.now)
        result text.old.now text.new.now }
{
    put_contents(bytes, id, text)
}

/// Borrows the name of the generated file.
#[unsafe(no_mangle)]
pub extern "C" fn sm_compiled_file<'a>(bytes: &'a [u8], text: &mut &'a [u8]) -> u32
    ensures { OnCompiled bytes.now
        (ReturnsText (compiled_file bytes.now) result text.old.now text.new.now)
        result text.old.now text.new.now }
{
    put_file(bytes, text)
}
