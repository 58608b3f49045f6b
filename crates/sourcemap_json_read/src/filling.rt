//! Decodes a JSON string into a buffer, whole blocks of bytes at a time.
ghost use Rattle.std.specs.Prelude.{◌≡◌, ◌+◌, ◌-◌, ◌*◌, ◌<◌, ◌≤◌, [], ◌∷◌, true, length, map, take, drop};
ghost use Rattle.std.specs.Simd.Lanes.{chunk, mask_l};
ghost use Rattle.json.specs.Filled.{Placed};
ghost use Rattle.sourcemap_json_read.specs.Runs.{is_stop};
ghost use Rattle.sourcemap_json_read.specs.Strings.{IsReadUpTo};

use crate::blocks::{store_block, store_byte};
use crate::escapes::short_escape_at;
use crate::runs::{block_stops, is_plain, stops};
use std::simd::prelude::*;

/// The number of free bytes that the buffer must have for `fill` to decode another block.
pub(crate) const SLACK: usize = 160;

/// Decodes the string from `from` on into the buffer from `start` on. Stops before a byte that is
/// neither plain nor the start of a two-byte escape, such as the closing quote or a `\u` escape.
/// Also stops near the end of the text, and when the buffer is nearly full. Returns the indices
/// reached in the buffer and in the text.
pub(crate) fn fill(buffer: &mut [u8], start: usize, text: &[u8], from: usize) -> (usize, usize)
    requires { (start + 4 ≤ length buffer.old) × (from ≤ length text.now) }
    ensures len { length buffer.new ≡ length buffer.old }
    ensures to_within { result.0 + 4 ≤ length buffer.new }
    ensures within { (from ≤ result.1) × (result.1 ≤ length text.now) }
    ensures read { IsReadUpTo (take start buffer.old) text.now from
        (take result.0 buffer.new) result.1 }
{
    let mut to = start;
    let mut at = from;
    // block boundaries do not depend on where escapes end, so the stops of the next block are found
    // before this block is decoded
    let mut begin = from;
    if text.len() - begin < 64 {
        return (to, at);
    }
    let mut stops = block_stops(u8x64::from_slice(&text[begin..]));
    while text.len() - begin > 128 {
        if buffer.len() - to < SLACK {
            return (to, at);
        }
        let end = begin + 64;
        let ahead = block_stops(u8x64::from_slice(&text[end..]));
        let (next_to, next_at, is_whole) = fill_block(buffer, to, text, at, end, stops);
        to = next_to;
        at = next_at;
        if !is_whole {
            return (to, at);
        }
        // an escape may have ended within the next block
        stops = ahead >> (at - end);
        begin = end;
    }
    (to, at)
}

// Decodes the bytes of a block from `from` to `end`. Stops before a byte that is neither plain nor
// the start of a two-byte escape. In the mask `stops`, a bit is 1 if its byte is before `end` and
// not plain. The lowest bit is for the byte at `from`. Returns the indices reached in the buffer
// and in the text, and whether all bytes before `end` were decoded. A two-byte escape that begins
// at `end - 1` is decoded whole: the index reached in the text is then `end + 1`.
#[inline(always)]
fn fill_block(
    buffer: &mut [u8],
    start: usize,
    text: &[u8],
    from: usize,
    end: usize,
    stops: u64,
) -> (usize, usize, bool)
    requires space { (start + 129 ≤ length buffer.old) × (end + 65 ≤ length text.now) }
    requires block { (from ≤ end) × (end ≤ from + 64) }
    requires stops { stops ≡ mask_l (map is_stop (chunk from (end - from) text.now)) }
    ensures len { length buffer.new ≡ length buffer.old }
    ensures to_within { result.0 ≤ start + 65 }
    ensures within { (from ≤ result.1) × (result.1 ≤ end + 1) }
    ensures whole { result.2 ≡ true → end ≤ result.1 }
    ensures read { IsReadUpTo (take start buffer.old) text.now from
        (take result.0 buffer.new) result.1 }
{
    let mut to = start;
    let mut at = from;
    let mut left = stops;
    loop {
        store_block::<64>(buffer, to, &text[at..]);
        if left == 0 {
            let rest = end.saturating_sub(at);
            return (to + rest, at + rest, true);
        }
        let plain = left.trailing_zeros() as usize;
        to += plain;
        at += plain;
        let byte = short_escape_at(text, at);
        if byte == 0 {
            return (to, at, false);
        }
        store_byte(buffer, to, byte);
        to += 1;
        at += 2;
        left = left >> plain >> 2;
    }
}

/// Copies the plain bytes at `from` into the buffer from `start` on. Used where the text or the
/// buffer is too short for `fill`. Stops before a byte that is not plain, and at the end of the
/// text or the buffer. Returns the indices reached in the buffer and in the text.
pub(crate) fn fill_run(buffer: &mut [u8], start: usize, text: &[u8], from: usize) -> (usize, usize)
    requires { (start ≤ length buffer.old) × (from ≤ length text.now) }
    ensures len { length buffer.new ≡ length buffer.old }
    ensures to_within { result.0 ≤ length buffer.new }
    ensures within { (from ≤ result.1) × (result.1 ≤ length text.now) }
    ensures read { IsReadUpTo (take start buffer.old) text.now from
        (take result.0 buffer.new) result.1 }
{
    let mut to = start;
    let mut at = from;
    while text.len() - at >= 32 && buffer.len() - to >= 32 {
        let stops = stops(u8x32::from_slice(&text[at..]));
        store_block::<32>(buffer, to, &text[at..]);
        if stops != 0 {
            let plain = stops.trailing_zeros() as usize;
            return (to + plain, at + plain);
        }
        to += 32;
        at += 32;
    }
    fill_by_bytes(buffer, to, text, at)
}

#[inline(never)]
fn fill_by_bytes(buffer: &mut [u8], start: usize, text: &[u8], from: usize) -> (usize, usize)
    requires { (start ≤ length buffer.old) × (from ≤ length text.now) }
    ensures len { length buffer.new ≡ length buffer.old }
    ensures to_within { result.0 ≤ length buffer.new }
    ensures within { (from ≤ result.1) × (result.1 ≤ length text.now) }
    ensures read { IsReadUpTo (take start buffer.old) text.now from
        (take result.0 buffer.new) result.1 }
{
    let mut to = start;
    let mut at = from;
    while at < text.len() && to < buffer.len() && is_plain(text[at]) {
        store_byte(buffer, to, text[at]);
        to += 1;
        at += 1;
    }
    (to, at)
}
