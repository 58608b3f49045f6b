//! JSON strings in quotes: runs of plain bytes, and an escape for each byte that ends a run.
ghost use Rattle.std.specs.Prelude.{◌≡◌, ◌+◌, ◌<◌, ◌≤◌, [], ◌∷◌, ◌++◌, true, length, take, IfOk, OnOk};
ghost use Rattle.json.specs.Ascii.{backslash, quote};
ghost use Rattle.json.specs.Filled.{Placed};
ghost use Rattle.json.specs.Print.{escape, escape_byte, escape_letter, quoted};
ghost use Rattle.std.specs.Char.{digit_char};
ghost use Rattle.sourcemap_json_write.specs.Quoting.{IsPutUpTo};
ghost use Rattle.sourcemap_json_read.specs.Runs.{is_stop};

use crate::short::{LONG, is_plain, is_short_and_plain, put_between_quotes, put_bytes};
use sourcemap_json_read::blocks::{ZEROS, store_block, store_byte};
use sourcemap_json_read::runs::{copy_run, stops};
use std::alloc::AllocError;
use std::simd::prelude::*;

// For each control byte, the letter of its short escape, or 0 if it has none.
const LETTERS: [u8; 32] = [
    0, 0, 0, 0, 0, 0, 0, 0, b'b', b't', b'n', 0, b'f', b'r', 0, 0, 0, 0, 0, 0, 0, 0, 0, 0, 0, 0, 0,
    0, 0, 0, 0, 0,
];

/// Appends a string to `out`, in quotes and escaped.
#[inline(never)]
pub(crate) fn put_quoted(out: &mut Vec<u8>, text: &[u8]) -> Result<(), AllocError>
    ensures { OnOk result (out.new.items ≡ out.old.items ++ quoted text.now) }
{
    if is_short_and_plain(text) {
        return put_between_quotes(out, text);
    }
    put_byte(out, b'"')?;
    put_escaped(out, text)
}

#[inline(always)]
pub(crate) fn put_byte(out: &mut Vec<u8>, byte: u8) -> Result<(), AllocError>
    ensures { OnOk result (out.new.items ≡ out.old.items ++ byte ∷ []) }
{
    out.push(byte)?;
    Ok(())
}

// Escapes a string, and appends it and the closing quote.
#[inline(never)]
fn put_escaped(out: &mut Vec<u8>, text: &[u8]) -> Result<(), AllocError>
    ensures { OnOk result (out.new.items ≡ out.old.items ++ (escape text.now ++ quote ∷ [])) }
{
    let mut at = 0;
    let mut try_blocks = true;
    loop {
        let from = put_blocks(out, text, at, try_blocks)?;
        // `put_blocks` stops at each byte that needs a `\u` escape. If `put_blocks` advanced by at
        // most `LONG` bytes, `\u` escapes are probably frequent, so no later call tries blocks.
        try_blocks = from - at > LONG;
        let rest = &text[from..];
        if is_plain(rest) {
            put_bytes(out, rest)?;
            return put_byte(out, b'"');
        }
        let end = copy_run(out, text, from)?;
        if end == text.len() {
            return put_byte(out, b'"');
        }
        put_escape(out, text[end])?;
        at = end + 1;
    }
}

// Escapes the string, beginning at index `from`, and appends the escaped bytes to `out`, until
// `fill` stops. Returns the index reached in the string. Appends nothing and returns `from` if
// `try_blocks` is false, if at most `LONG` bytes of the string are left, or if the byte at `from`
// needs a `\u` escape. Before `fill`, `out` is extended by `ZEROS`. After `fill`, `out` is
// truncated to the escaped bytes.
#[inline(always)]
fn put_blocks(
    out: &mut Vec<u8>,
    text: &[u8],
    from: usize,
    try_blocks: bool,
) -> Result<usize, AllocError>
    requires { from ≤ length text.now }
    ensures within { IfOk result (λ at. at ≤ length text.now) }
    ensures forward { IfOk result (λ at. from ≤ at) }
    ensures put { IfOk result (λ at. IsPutUpTo out.old.items text.now from out.new.items at) }
{
    if !try_blocks | (text.len() - from <= LONG) {
        return Ok(from);
    }
    let start = out.len();
    out.extend_from_slice(&ZEROS)?;
    let (to, at) = fill(out.as_mut_slice(), start, text, from);
    out.truncate(to);
    Ok(at)
}

// Writes the string from `from` on, escaped, into the buffer from `start` on. Stops if the next
// byte needs a `\u` escape, if at most 32 bytes of the string are left, or if fewer than 34 bytes
// of the buffer are left. Returns the indices reached in the buffer and in the string.
fn fill(buffer: &mut [u8], start: usize, text: &[u8], from: usize) -> (usize, usize)
    requires { (start ≤ length buffer.old) × (from ≤ length text.now) }
    ensures to_within { result.0 ≤ length buffer.new }
    ensures within { result.1 ≤ length text.now }
    ensures forward { from ≤ result.1 }
    ensures put { IsPutUpTo (take start buffer.old) text.now from (take result.0 buffer.new) result.1 }
{
    let mut to = start;
    let mut at = from;
    while text.len() - at > 32 {
        if buffer.len() - to < 34 {
            return (to, at);
        }
        let stops = stops(u8x32::from_slice(&text[at..]));
        store_block::<32>(buffer, to, &text[at..]);
        if stops == 0 {
            to += 32;
            at += 32;
            continue;
        }
        let plain = stops.trailing_zeros() as usize;
        to += plain;
        at += plain;
        let letter = letter(text[at]);
        if letter == 0 {
            return (to, at);
        }
        store_pair(buffer, to, letter);
        to += 2;
        at += 1;
    }
    (to, at)
}

// Stores a backslash and a letter.
#[inline(always)]
fn store_pair(buffer: &mut [u8], to: usize, letter: u8)
    requires { to + 2 ≤ length buffer.old }
    ensures { Placed buffer.old buffer.new to (backslash ∷ letter ∷ []) (to + 2) }
{
    store_byte(buffer, to, b'\\');
    store_byte(buffer, to + 1, letter);
}

#[inline(always)]
fn put_escape(out: &mut Vec<u8>, byte: u8) -> Result<(), AllocError>
    requires { is_stop byte ≡ true }
    ensures { OnOk result (out.new.items ≡ out.old.items ++ escape_byte byte) }
{
    let letter = letter(byte);
    if letter == 0 {
        return put_code(out, byte);
    }
    out.push(b'\\')?;
    out.push(letter)?;
    Ok(())
}

// The letter of a byte's short escape, or 0 if it has none.
#[inline(always)]
fn letter(byte: u8) -> u8
    requires { is_stop byte ≡ true }
    ensures { result ≡ escape_letter byte }
{
    // The table is read also for a quote and a backslash, so that the `if` only selects one of two
    // values. A branch would be mispredicted.
    let of_control = LETTERS[usize::from(byte % 32)];
    if byte < b' ' { of_control } else { byte }
}

// Appends the `\u` escape of a control byte.
#[cold]
#[inline(never)]
fn put_code(out: &mut Vec<u8>, byte: u8) -> Result<(), AllocError>
    requires control { byte < 32 }
    requires nameless { escape_letter byte ≡ 0 }
    ensures { OnOk result (out.new.items ≡ out.old.items ++ escape_byte byte) }
{
    out.extend_from_slice(b"\\u00")?;
    out.push(b'0' + byte / 16)?;
    out.push(hexadecimal(byte % 16))?;
    Ok(())
}

fn hexadecimal(number: u8) -> u8
    requires { number < 16 }
    ensures { result ≡ digit_char number }
{
    if number < 10 {
        b'0' + number
    } else {
        b'a' - 10 + number
    }
}
