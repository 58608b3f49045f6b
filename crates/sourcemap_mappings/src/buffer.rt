//! Writes the digits of numbers into a buffer, and flushes the buffer into the encoded text. Most
//! numbers cost one to three stores into the buffer.
ghost use Rattle.std.specs.Prelude.{◌≡◌, ℕ, ◌+◌, ◌<◌, ◌≤◌, ◌^◌, [], ◌∷◌, ◌++◌, take, OnOk, string_bytes};
ghost use Rattle.std.specs.Str.{IsAscii};
ghost use Rattle.sourcemap_mappings.specs.Write.{difference};
ghost use Rattle.sourcemap_mappings.specs.Buffer.{Adds, raw_difference};

use sourcemap_vlq::vlq::glyph_of;
use std::alloc::AllocError;

/// The size of the buffer in bytes.
pub const BUFFER_SIZE: usize = 1024;

// The digit of each difference from -15 to 15.
static ONE_DIGIT: [u8; 31] = [
    b'f', b'd', b'b', b'Z', b'X', b'V', b'T', b'R', b'P', b'N', b'L', b'J', b'H', b'F', b'D', b'A',
    b'C', b'E', b'G', b'I', b'K', b'M', b'O', b'Q', b'S', b'U', b'W', b'Y', b'a', b'c', b'e',
];

// Writes the digits of `number - against` into the buffer from index `at` on, and returns the index
// after the last of them. Fast for one digit.
#[inline(always)]
pub(crate) fn put_one(buffer: &mut [u8; BUFFER_SIZE], at: usize, number: u32, against: u32) -> usize
    requires { at + 7 ≤ 1024 }
    ensures text { Adds (difference number against ∷ []) (take at buffer.old)
        (take result buffer.new) }
    ensures start { at ≤ result }
    ensures end { result ≤ at + 7 }
    ensures small { number < 2 ^ 32 }
{
    let near = (u64::from(number) + 15).wrapping_sub(u64::from(against));
    if near < 31 {
        buffer[at] = ONE_DIGIT[near as usize];
        return at + 1;
    }
    put_any(buffer, at, number, against)
}

// As `put_one`, but fast for one or two digits. It stores two bytes in both cases, since a branch
// between the cases could be mispredicted. If there is only one digit, the result is the index of
// the second byte. So the second byte does not become part of the text.
#[inline(always)]
pub(crate) fn put_two(buffer: &mut [u8; BUFFER_SIZE], at: usize, number: u32, against: u32) -> usize
    requires { at + 7 ≤ 1024 }
    ensures text { Adds (difference number against ∷ []) (take at buffer.old)
        (take result buffer.new) }
    ensures start { at ≤ result }
    ensures end { result ≤ at + 7 }
    ensures small { number < 2 ^ 32 }
{
    let raw = raw_difference(number, against);
    if raw >= 1024 {
        return put_any(buffer, at, number, against);
    }
    let second = continues(raw, 32);
    buffer[at] = glyph_of((raw % 32 + 32 * second) as u8);
    buffer[at + 1] = glyph_of((raw / 32) as u8);
    at + 1 + second as usize
}

// As `put_two`, but fast for one to three digits: it stores three bytes in each of these cases.
#[inline(always)]
pub(crate) fn put_three(
    buffer: &mut [u8; BUFFER_SIZE],
    at: usize,
    number: u32,
    against: u32,
) -> usize
    requires { at + 7 ≤ 1024 }
    ensures text { Adds (difference number against ∷ []) (take at buffer.old)
        (take result buffer.new) }
    ensures start { at ≤ result }
    ensures end { result ≤ at + 7 }
    ensures small { number < 2 ^ 32 }
{
    let raw = raw_difference(number, against);
    if raw >= 32768 {
        return put_any(buffer, at, number, against);
    }
    let second = continues(raw, 32);
    let third = continues(raw, 1024);
    buffer[at] = glyph_of((raw % 32 + 32 * second) as u8);
    buffer[at + 1] = glyph_of((raw / 32 % 32 + 32 * third) as u8);
    buffer[at + 2] = glyph_of((raw / 32 / 32) as u8);
    at + 1 + second as usize + third as usize
}

// 1 if `raw` is at least `worth`, otherwise 0. A raw value has a second digit if the value is at
// least 32, and a third digit if the value is at least 1024.
#[inline(always)]
fn continues(raw: u64, worth: u64) -> u64
    ensures yes { worth ≤ raw → result ≡ 1 }
    ensures no { raw < worth → result ≡ 0 }
    ensures small { result ≤ 1 }
{
    u64::from(raw >= worth)
}

// The raw value of `number - against`: twice the absolute difference, plus 1 if `number < against`.
#[inline(always)]
fn raw_difference(number: u32, against: u32) -> u64
    ensures value { result ≡ raw_difference number against }
    ensures small { result < 2 ^ 34 }
{
    2 * u64::from(number.abs_diff(against)) + u64::from(number < against)
}

// As `put_one`, but without a fast path.
fn put_any(buffer: &mut [u8; BUFFER_SIZE], at: usize, number: u32, against: u32) -> usize
    requires { at + 7 ≤ 1024 }
    ensures text { Adds (difference number against ∷ []) (take at buffer.old)
        (take result buffer.new) }
    ensures start { at ≤ result }
    ensures end { result ≤ at + 7 }
    ensures small { number < 2 ^ 32 }
{
    let mut left = raw_difference(number, against);
    let mut end = at;
    while left >= 32 {
        buffer[end] = glyph_of((left % 32) as u8 + 32);
        end += 1;
        left /= 32;
    }
    buffer[end] = glyph_of(left as u8);
    end + 1
}

/// Appends the first `at` bytes of the buffer to the text. The only error is that memory runs out.
pub fn flush(text: &mut String, buffer: &[u8; BUFFER_SIZE], at: usize) -> Result<(), AllocError>
    requires within { at ≤ 1024 }
    requires ascii { IsAscii (take at buffer.now) }
    ensures text { OnOk result (string_bytes text.new
        ≡ string_bytes text.old ++ take at buffer.now) }
{
    match str::from_utf8(&buffer[..at]) {
        Ok(gathered) => text.push_str(gathered),
        Err(_) => unreachable!(),
    }
}
