//! Numbers in bytes, lowest byte first. A byte past the end counts as 0.
ghost use Rattle.std.specs.Prelude.{◌≡◌, ℕ, ◌≤◌, ◌<◌, ◌+◌, ◌/◌, ◌^◌, IsTrue, length, slice_index};
ghost use Rattle.sourcemap_compiled.specs.Numbers.{bits_at, u32_at, u64_at};

use byteorder::{ByteOrder, LittleEndian};

/// Returns the number in the four bytes from `offset` on.
#[inline(always)]
#[tactic(auto, unfolding(crate::specs::Numbers::u32_at))]
pub(crate) fn u32_at(bytes: &[u8], offset: usize) -> u32
    requires { offset + 4 ≤ length bytes.now }
    ensures { result ≡ u32_at bytes.now offset }
{
    LittleEndian::read_u32(&bytes[offset..])
}

/// Returns the number in the eight bytes from `offset` on.
#[inline(always)]
#[tactic(auto, unfolding(crate::specs::Numbers::u64_at))]
pub(crate) fn u64_at(bytes: &[u8], offset: usize) -> u64
    requires { offset + 8 ≤ length bytes.now }
    ensures { result ≡ u64_at bytes.now offset }
{
    LittleEndian::read_u64(&bytes[offset..])
}

/// Returns the number in the eight bytes from `offset` on. They may pass the end, if they are not
/// known to be inside.
#[inline(always)]
fn u64_anywhere(bytes: &[u8], offset: usize, inside: bool) -> u64
    requires long { 8 ≤ length bytes.now }
    requires inside { IsTrue inside → offset + 8 ≤ length bytes.now }
    ensures { result ≡ u64_at bytes.now offset }
{
    if inside {
        u64_at(bytes, offset)
    } else if offset <= bytes.len() - 8 {
        u64_at(bytes, offset)
    } else {
        u64_at_end(bytes, offset)
    }
}

#[cold]
#[inline(never)]
#[tactic(auto, unfolding(crate::specs::Numbers::u64_at))]
fn u64_at_end(bytes: &[u8], offset: usize) -> u64
    requires { length bytes.now < offset + 8 }
    ensures { result ≡ u64_at bytes.now offset }
{
    match bytes.get(offset..) {
        Some(rest) => u64_of_few(rest),
        None => 0,
    }
}

fn u64_of_few(bytes: &[u8]) -> u64
    requires { length bytes.now < 8 }
    ensures { result ≡ u64_at bytes.now 0 }
{
    LittleEndian::read_u64(&padded(bytes))
}

/// Returns these bytes, followed by zeros.
fn padded(bytes: &[u8]) -> [u8; 8]
    requires { length bytes.now < 8 }
    ensures same { (k : ℕ) → slice_index result k ≡ slice_index bytes.now k }
    ensures whole { length result ≡ 8 }
{
    let mut whole = [0; 8];
    whole[..bytes.len()].copy_from_slice(bytes);
    whole
}

/// Returns the number in `width` bits, from the bit `bit` of the bytes from `start` on.
#[inline(always)]
pub(crate) fn bits_at(bytes: &[u8], start: usize, bit: usize, width: usize, inside: bool) -> u64
    requires long { 8 ≤ length bytes.now }
    requires start { start < 2 ^ 40 }
    requires bit { bit < 2 ^ 40 }
    requires width { width < 64 }
    requires inside { IsTrue inside → start + bit / 8 + 8 ≤ length bytes.now }
    ensures number { result ≡ bits_at bytes.now start bit width }
    ensures small { result < 2 ^ width }
{
    let word = u64_anywhere(bytes, start + bit / 8, inside);
    word >> (bit % 8) & ((1 << width) - 1)
}
