//! Runs of plain bytes: bytes that a JSON string may contain without an escape.
ghost use Rattle.std.specs.Prelude.{◌≡◌, ◌+◌, ◌-◌, ◌≤◌, ◌++◌, IfOk, length, take, drop, map};
ghost use Rattle.std.specs.List.{prefix_len};
ghost use Rattle.std.specs.Simd.Lanes.{mask_l};
ghost use Rattle.sourcemap_json_read.specs.Runs.{is_bare, is_bare_stop, is_plain, is_stop};

use std::alloc::AllocError;
use std::simd::prelude::*;

/// Returns the index after the run of plain ASCII bytes that starts at `from`.
#[inline(always)]
pub(crate) fn bare_end(text: &[u8], from: usize) -> usize
    requires { from ≤ length text.now }
    ensures value { result ≡ from + prefix_len is_bare (drop from text.now) }
    ensures within { result ≤ length text.now }
{
    let mut at = from;
    while text.len() - at >= 32 {
        let stops = bare_stops(u8x32::from_slice(&text[at..]));
        if stops != 0 {
            return at + stops.trailing_zeros() as usize;
        }
        at += 32;
    }
    bare_end_by_bytes(text, at)
}

// `bare_end`, byte by byte. Used only near the end of a text, where fewer than 32 bytes are left.
#[inline(never)]
fn bare_end_by_bytes(text: &[u8], from: usize) -> usize
    requires { from ≤ length text.now }
    ensures value { result ≡ from + prefix_len is_bare (drop from text.now) }
    ensures within { result ≤ length text.now }
{
    let mut at = from;
    while at < text.len() && is_bare(text[at]) {
        at += 1;
    }
    at
}

/// Appends to `out` the run of plain bytes that starts at index `from` of `text`. Returns the index
/// after the run.
#[inline(always)]
pub fn copy_run(out: &mut Vec<u8>, text: &[u8], from: usize) -> Result<usize, AllocError>
    requires { from ≤ length text.now }
    ensures value { IfOk result (λ end. end ≡ from + prefix_len is_plain (drop from text.now)) }
    ensures within { IfOk result (λ end. end ≤ length text.now) }
    ensures copied { IfOk result
        (λ end. out.new.items ≡ out.old.items ++ take (end - from) (drop from text.now)) }
{
    let mut at = from;
    while text.len() - at >= 32 {
        let before = out.len();
        let stops = stops(u8x32::from_slice(&text[at..]));
        out.extend_from_slice(&text[at..at + 32])?;
        if stops != 0 {
            let plain = stops.trailing_zeros() as usize;
            out.truncate(before + plain);
            return Ok(at + plain);
        }
        at += 32;
    }
    let end = run_end_by_bytes(text, at);
    out.extend_from_slice(&text[at..end])?;
    Ok(end)
}

/// Returns a mask of the bytes that end a run of plain bytes. The lowest bit is for the first byte.
#[inline(always)]
pub fn stops(bytes: u8x32) -> u64
    ensures { result ≡ mask_l (map is_stop bytes) }
{
    let quotes = bytes.simd_eq(u8x32::splat(b'"'));
    let backslashes = bytes.simd_eq(u8x32::splat(b'\\'));
    let controls = bytes.simd_lt(u8x32::splat(b' '));
    (quotes | backslashes | controls).to_bitmask()
}

/// Returns the same mask as `stops`, but for 64 bytes.
#[inline(always)]
pub(crate) fn block_stops(bytes: u8x64) -> u64
    ensures { result ≡ mask_l (map is_stop bytes) }
{
    let quotes = bytes.simd_eq(u8x64::splat(b'"'));
    let backslashes = bytes.simd_eq(u8x64::splat(b'\\'));
    let controls = bytes.simd_lt(u8x64::splat(b' '));
    (quotes | backslashes | controls).to_bitmask()
}

/// A mask of the bytes that end a run of plain ASCII bytes.
#[inline(always)]
fn bare_stops(bytes: u8x32) -> u64
    ensures { result ≡ mask_l (map is_bare_stop bytes) }
{
    let quotes = bytes.simd_eq(u8x32::splat(b'"'));
    let backslashes = bytes.simd_eq(u8x32::splat(b'\\'));
    let low = bytes.simd_lt(u8x32::splat(b' '));
    let wide = bytes.simd_gt(u8x32::splat(127));
    (quotes | backslashes | low | wide).to_bitmask()
}

/// The index after the run of plain bytes that starts at `from`. Tests byte by byte. Used only near
/// the end of a text, where fewer than 32 bytes are left.
#[inline(never)]
fn run_end_by_bytes(text: &[u8], from: usize) -> usize
    requires { from ≤ length text.now }
    ensures value { result ≡ from + prefix_len is_plain (drop from text.now) }
    ensures within { result ≤ length text.now }
{
    let mut at = from;
    while at < text.len() && is_plain(text[at]) {
        at += 1;
    }
    at
}

/// Whether a JSON string may contain this byte without an escape.
#[inline(always)]
pub(crate) fn is_plain(byte: u8) -> bool
    ensures { result ≡ is_plain byte }
{
    byte != b'"' && byte != b'\\' && byte >= b' '
}

/// Whether a byte is plain and ASCII.
#[inline(always)]
fn is_bare(byte: u8) -> bool
    ensures { result ≡ is_bare byte }
{
    is_plain(byte) && byte < 128
}
