//! Strings that need no escape, tested and copied by blocks. Three blocks of equal size cover a
//! short string that is not empty. They may overlap. So neither the test nor the copy loops over
//! single bytes.
ghost use Rattle.std.specs.Prelude.{◌≡◌, ◌+◌, ◌≤◌, [], ◌∷◌, ◌++◌, length, OnOk};
ghost use Rattle.std.specs.Bool.{OnTrue};
ghost use Rattle.json.specs.Ascii.{quote};
ghost use Rattle.json.specs.Filled.{Placed};
ghost use Rattle.json.specs.Print.{escape};
ghost use Rattle.json.specs.Written.{PlainBetween};

use sourcemap_json_read::blocks::{store_block, store_byte};
use std::alloc::AllocError;
use std::simd::Simd;

// The length of the longest short string, in bytes.
const SHORT: usize = 48;

/// If at most `LONG` bytes of a string are left, the writer tests whether any of these bytes needs
/// an escape (`is_plain`). If none needs an escape, the writer copies the bytes unchanged. If more
/// than `LONG` bytes are left, the writer calls `put_blocks` or `copy_run`, which find the bytes
/// that need an escape. Such a call may also write some or all of the last `LONG` bytes. So
/// `is_plain` may test only some of the last `LONG` bytes, or none.
pub(crate) const LONG: usize = 1024;

// To append a short string, `out` is first extended by these zeros, with one test of the capacity
// and a few stores. Then the string overwrites the first zeros, and `out` is truncated after the
// string. 64 zeros are enough, because a short string in quotes has at most 50 bytes.
static ZEROS: [u8; 64] = [0; 64];

/// Whether a string is short and needs no escape.
#[inline(always)]
pub(crate) fn is_short_and_plain(text: &[u8]) -> bool
    ensures short { OnTrue result (length text.now ≤ 48) }
    ensures plain { OnTrue result (escape text.now ≡ text.now) }
{
    let len = text.len();
    if len > SHORT {
        false
    } else if len > 24 {
        are_thirds_plain::<16>(text)
    } else if len >= 8 {
        are_thirds_plain::<8>(text)
    } else if len >= 4 {
        are_thirds_plain::<4>(text)
    } else if len >= 1 {
        are_thirds_plain::<1>(text)
    } else {
        true
    }
}

/// Whether a string is at most `LONG` bytes long and needs no escape.
#[inline(always)]
pub(crate) fn is_plain(text: &[u8]) -> bool
    ensures { OnTrue result (escape text.now ≡ text.now) }
{
    if text.len() <= SHORT {
        is_short_and_plain(text)
    } else if text.len() <= LONG {
        are_blocks_plain(text)
    } else {
        false
    }
}

/// Appends a short string to `out`, in quotes.
#[inline(always)]
pub(crate) fn put_between_quotes(out: &mut Vec<u8>, text: &[u8]) -> Result<(), AllocError>
    requires { length text.now ≤ 48 }
    ensures { OnOk result (out.new.items ≡ out.old.items ++ quote ∷ (text.now ++ quote ∷ [])) }
{
    let start = out.len();
    out.extend_from_slice(&ZEROS)?;
    let end = store_between_quotes(out.as_mut_slice(), start, text);
    out.truncate(end);
    Ok(())
}

/// Appends bytes to `out`. If there are at most `SHORT` bytes, they are copied without a call.
#[inline(always)]
pub(crate) fn put_bytes(out: &mut Vec<u8>, text: &[u8]) -> Result<(), AllocError>
    ensures { OnOk result (out.new.items ≡ out.old.items ++ text.now) }
{
    if text.len() > SHORT {
        return out.extend_from_slice(text);
    }
    let start = out.len();
    out.extend_from_slice(&ZEROS)?;
    store_short(out.as_mut_slice(), start, text);
    out.truncate(start + text.len());
    Ok(())
}

// Whether a string needs no escape, tested by blocks of 32 bytes. The last block may overlap the
// block before it.
fn are_blocks_plain(text: &[u8]) -> bool
    requires { 32 ≤ length text.now }
    ensures { OnTrue result (escape text.now ≡ text.now) }
{
    let mut at = 0;
    while text.len() - at > 32 {
        if !is_block_plain::<32>(text, at) {
            return false;
        }
        at += 32;
    }
    is_block_plain::<32>(text, text.len() - 32)
}

#[inline(always)]
fn are_thirds_plain<const N: usize>(text: &[u8]) -> bool
    requires few { N ≤ 32 }
    requires covers { (N ≤ length text.now) × (length text.now ≤ N + N + N) }
    ensures { OnTrue result (escape text.now ≡ text.now) }
{
    let last = text.len() - N;
    is_block_plain::<N>(text, 0)
        & is_block_plain::<N>(text, last.min(N))
        & is_block_plain::<N>(text, last)
}

#[inline(always)]
fn is_block_plain<const N: usize>(text: &[u8], at: usize) -> bool
    requires few { N ≤ 32 }
    requires within { at + N ≤ length text.now }
    ensures { OnTrue result (PlainBetween text.now at (at + N)) }
{
    let bytes = Simd::<u8, N>::from_slice(&text[at..]);
    let quotes = bytes.simd_eq(Simd::<u8, N>::splat(b'"'));
    let backslashes = bytes.simd_eq(Simd::<u8, N>::splat(b'\\'));
    let controls = bytes.simd_lt(Simd::<u8, N>::splat(b' '));
    (quotes | backslashes | controls).to_bitmask() == 0
}

#[inline(always)]
fn store_between_quotes(buffer: &mut [u8], to: usize, text: &[u8]) -> usize
    requires short { length text.now ≤ 48 }
    requires fits { to + length text.now + 2 ≤ length buffer.old }
    ensures { Placed buffer.old buffer.new to (quote ∷ (text.now ++ quote ∷ [])) result }
{
    let end = to + 1 + text.len();
    store_byte(buffer, to, b'"');
    store_short(buffer, to + 1, text);
    store_byte(buffer, end, b'"');
    end + 1
}

#[inline(always)]
fn store_short(buffer: &mut [u8], to: usize, text: &[u8])
    requires short { length text.now ≤ 48 }
    requires fits { to + length text.now ≤ length buffer.old }
    ensures { Placed buffer.old buffer.new to text.now (to + length text.now) }
{
    let len = text.len();
    if len > 24 {
        store_thirds::<16>(buffer, to, text);
    } else if len >= 8 {
        store_thirds::<8>(buffer, to, text);
    } else if len >= 4 {
        store_thirds::<4>(buffer, to, text);
    } else if len >= 1 {
        store_thirds::<1>(buffer, to, text);
    }
}

#[inline(always)]
fn store_thirds<const N: usize>(buffer: &mut [u8], to: usize, text: &[u8])
    requires covers { (N ≤ length text.now) × (length text.now ≤ N + N + N) }
    requires fits { to + length text.now ≤ length buffer.old }
    ensures { Placed buffer.old buffer.new to text.now (to + length text.now) }
{
    let last = text.len() - N;
    let middle = last.min(N);
    store_block::<N>(buffer, to, text);
    store_block::<N>(buffer, to + middle, &text[middle..]);
    store_block::<N>(buffer, to + last, &text[last..]);
}
