//! Blocks of bytes stored into a buffer that has space for them.
ghost use Rattle.std.specs.Prelude.{◌≡◌, ◌+◌, ◌<◌, ◌≤◌, [], ◌∷◌, length, take};
ghost use Rattle.json.specs.Filled.{Placed};

use std::simd::Simd;

/// Zeros to extend a buffer by, at most 4096 bytes at a time.
pub static ZEROS: [u8; 4096] = [0; 4096];

/// Stores the first `N` bytes of `text` at index `to` of `buffer`, as one SIMD vector. Always
/// overwrites `N` bytes of `buffer`, even if the caller needs only the first few.
#[inline(always)]
pub fn store_block<const N: usize>(buffer: &mut [u8], to: usize, text: &[u8])
    requires { (N ≤ length text.now) × (to + N ≤ length buffer.old) }
    ensures { Placed buffer.old buffer.new to (take N text.now) (to + N) }
{
    Simd::<u8, N>::from_slice(text).copy_to_slice(&mut buffer[to..]);
}

/// Stores one byte.
#[inline(always)]
pub fn store_byte(buffer: &mut [u8], to: usize, byte: u8)
    requires { to < length buffer.old }
    ensures { Placed buffer.old buffer.new to (byte ∷ []) (to + 1) }
{
    buffer[to] = byte;
}
