//! Escapes in JSON strings.
ghost use Rattle.std.specs.Prelude.{◌≡◌, ◌+◌, ◌*◌, ◌<◌, ◌≤◌, true, length, take, drop, get_or, Some, IfSome};
ghost use Rattle.std.specs.Char.{digit_value, encode_utf8};
ghost use Rattle.json.specs.Ascii.{backslash};
ghost use Rattle.json.specs.Text.{is_high_surrogate, is_low_surrogate, short_escape, surrogate_pair};
ghost use Rattle.json.specs.Filled.{Placed};
ghost use Rattle.sourcemap_json_read.specs.Strings.{IsReadUpTo, IsUtf8UpTo, IsDecodedBetween, SpellsByte, SpellsUnit};

use crate::blocks::store_byte;
use crate::bytes::byte_at;

/// Decodes the escape at `at` into the buffer from `to` on. Returns the index after the stored
/// bytes in the buffer, and the index after the escape in the text. `None` if the escape is
/// invalid.
#[inline(always)]
pub(crate) fn store_escape(
    buffer: &mut [u8],
    to: usize,
    text: &[u8],
    at: usize,
) -> Option<(usize, usize)>
    requires space { (to + 4 ≤ length buffer.old) × (at + 2 ≤ length text.now) }
    requires backslash { get_or text.now at 32 ≡ backslash }
    ensures len { length buffer.new ≡ length buffer.old }
    ensures to_within { IfSome result (λ found. found.0 ≤ length buffer.new) }
    ensures within { IfSome result (λ found. (at < found.1) × (found.1 ≤ length text.now)) }
    ensures read { IfSome result (λ found. IsReadUpTo (take to buffer.old) text.now at
        (take found.0 buffer.new) found.1) }
{
    let byte = short_escape_at(text, at);
    if byte == 0 {
        return store_unicode(buffer, to, text, at);
    }
    store_byte(buffer, to, byte);
    Some((to + 1, at + 2))
}

/// The byte that the two-byte escape at `at` decodes to, or 0 if no such escape is there.
#[inline(always)]
pub(crate) fn short_escape_at(text: &[u8], at: usize) -> u8
    requires { at + 2 ≤ length text.now }
    ensures { 0 < result → SpellsByte text.now at result }
{
    if text[at] != b'\\' {
        return 0;
    }
    short_escape(text[at + 1])
}

// For each byte, what a backslash and this byte decode to, or 0 if they are not a two-byte escape.
// A table takes the same time for each byte, while branches are often mispredicted.
#[rattlefmt::skip]
static SHORT: [u8; 256] = [
    0, 0, 0, 0, 0, 0, 0, 0, 0, 0, 0, 0, 0, 0, 0, 0,
    0, 0, 0, 0, 0, 0, 0, 0, 0, 0, 0, 0, 0, 0, 0, 0,
    0, 0, 34, 0, 0, 0, 0, 0, 0, 0, 0, 0, 0, 0, 0, 47,
    0, 0, 0, 0, 0, 0, 0, 0, 0, 0, 0, 0, 0, 0, 0, 0,
    0, 0, 0, 0, 0, 0, 0, 0, 0, 0, 0, 0, 0, 0, 0, 0,
    0, 0, 0, 0, 0, 0, 0, 0, 0, 0, 0, 0, 92, 0, 0, 0,
    0, 0, 8, 0, 0, 0, 12, 0, 0, 0, 0, 0, 0, 0, 10, 0,
    0, 0, 13, 0, 9, 0, 0, 0, 0, 0, 0, 0, 0, 0, 0, 0,
    0, 0, 0, 0, 0, 0, 0, 0, 0, 0, 0, 0, 0, 0, 0, 0,
    0, 0, 0, 0, 0, 0, 0, 0, 0, 0, 0, 0, 0, 0, 0, 0,
    0, 0, 0, 0, 0, 0, 0, 0, 0, 0, 0, 0, 0, 0, 0, 0,
    0, 0, 0, 0, 0, 0, 0, 0, 0, 0, 0, 0, 0, 0, 0, 0,
    0, 0, 0, 0, 0, 0, 0, 0, 0, 0, 0, 0, 0, 0, 0, 0,
    0, 0, 0, 0, 0, 0, 0, 0, 0, 0, 0, 0, 0, 0, 0, 0,
    0, 0, 0, 0, 0, 0, 0, 0, 0, 0, 0, 0, 0, 0, 0, 0,
    0, 0, 0, 0, 0, 0, 0, 0, 0, 0, 0, 0, 0, 0, 0, 0,
];

/// The byte that a backslash and this byte decode to, or 0 if they are not a two-byte escape.
#[inline(always)]
fn short_escape(byte: u8) -> u8
    ensures value { 0 < result → short_escape byte ≡ Some result }
    ensures ascii { 0 < result → (result < 128) × (byte < 128) }
{
    SHORT[usize::from(byte)]
}

/// Decodes a `\u` escape, which is rare.
#[inline(never)]
fn store_unicode(buffer: &mut [u8], to: usize, text: &[u8], at: usize) -> Option<(usize, usize)>
    requires space { (to + 4 ≤ length buffer.old) × (at + 2 ≤ length text.now) }
    requires backslash { get_or text.now at 32 ≡ backslash }
    ensures len { length buffer.new ≡ length buffer.old }
    ensures to_within { IfSome result (λ found. found.0 ≤ length buffer.new) }
    ensures within { IfSome result (λ found. (at < found.1) × (found.1 ≤ length text.now)) }
    ensures read { IfSome result (λ found. IsReadUpTo (take to buffer.old) text.now at
        (take found.0 buffer.new) found.1) }
{
    let (character, next) = unicode_escape(text, at)?;
    let mut four = [0; 4];
    let encoded = character.encode_utf8(&mut four);
    store_bytes(buffer, to, encoded.as_bytes());
    Some((to + encoded.len(), next))
}

#[inline(always)]
fn store_bytes(buffer: &mut [u8], to: usize, bytes: &[u8])
    requires { to + length bytes.now ≤ length buffer.old }
    ensures { Placed buffer.old buffer.new to bytes.now (to + length bytes.now) }
{
    buffer[to..to + bytes.len()].copy_from_slice(bytes);
}

/// Returns the character of the `\u` escape at `at`, and the index after the escape. If this escape
/// and a `\u` escape directly after it are a surrogate pair, returns the character of the pair, and
/// the index after both escapes. Returns `None` if no `\u` escape is at `at`, or if the escape is a
/// lone surrogate.
fn unicode_escape(text: &[u8], at: usize) -> Option<(char, usize)>
    requires { at ≤ length text.now }
    ensures decodes { IfSome result
        (λ found. IsDecodedBetween (drop at text.now) (encode_utf8 found.0) (drop found.1 text.now)) }
    ensures utf8 { IfSome result (λ found. IsUtf8UpTo text.now at found.1) }
    ensures within { IfSome result (λ found. (at < found.1) × (found.1 ≤ length text.now)) }
{
    let unit = code_unit(text, at)?;
    if let Some(character) = char::from_u32(unit) {
        return Some((character, at + 6));
    }
    let low = code_unit(text, at + 6)?;
    let character = surrogate_pair(unit, low)?;
    Some((character, at + 12))
}

fn surrogate_pair(high: u32, low: u32) -> Option<char>
    ensures high { IfSome result (λ _. is_high_surrogate high ≡ true) }
    ensures low { IfSome result (λ _. is_low_surrogate low ≡ true) }
    ensures value { IfSome result (λ character. character ≡ surrogate_pair high low) }
{
    if high < 0xd800 || high >= 0xdc00 || low < 0xdc00 || low >= 0xe000 {
        return None;
    }
    char::from_u32(0x10000 + (high - 0xd800) * 1024 + (low - 0xdc00))
}

/// The UTF-16 code unit of the `\u` escape at `at`, or `None` if no such escape is there.
fn code_unit(text: &[u8], at: usize) -> Option<u32>
    requires { at ≤ length text.now + 6 }
    ensures { IfSome result (λ unit. SpellsUnit text.now at unit) }
{
    if byte_at(text, at) != b'\\' || byte_at(text, at + 1) != b'u' {
        return None;
    }
    let first = digit(text, at + 2)?;
    let second = digit(text, at + 3)?;
    let third = digit(text, at + 4)?;
    let fourth = digit(text, at + 5)?;
    Some(first * 4096 + second * 256 + third * 16 + fourth)
}

/// The value of the hexadecimal digit at `at`, or `None` if no such digit is there.
fn digit(text: &[u8], at: usize) -> Option<u32>
    ensures value { IfSome result (λ value. value ≡ digit_value (get_or text.now at 32)) }
    ensures small { IfSome result (λ value. value < 16) }
{
    (byte_at(text, at) as char).to_digit(16)
}
