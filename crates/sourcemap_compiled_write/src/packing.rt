//! The numbers that stand for the fields of a block of tokens, packed in so many bits each.
ghost use Rattle.std.specs.Prelude.{◌≡◌, ℕ, ◌+◌, ◌*◌, ◌≤◌, ◌<◌, ◌^◌, ◌++◌, OnOk, length, map, slice_index, take};
ghost use Rattle.byteorder.specs.Endian.{little_bytes};
ghost use Rattle.sourcemap_compiled_write.specs.Packing.{base_of, field_bytes, fields_of, number_of, padded};
ghost use Rattle.sourcemap_compiled_write.specs.Packing.{token_values, width_of};

use sourcemap_tokens::tokens::RawToken;
use std::alloc::AllocError;

/// Appends 64 numbers of `width` bits each.
pub(crate) fn push_field(out: &mut Vec<u8>, numbers: &[u32], width: usize) -> Result<(), AllocError>
    requires whole { length numbers.now ≡ 64 }
    requires narrow { width ≤ 32 }
    requires fit { (k : ℕ) → slice_index numbers.now k < 2 ^ width }
    ensures { OnOk result (out.new.items ≡ out.old.items ++ field_bytes width numbers.now) }
{
    if width == 0 {
        return Ok(());
    }
    let bytes = pack(numbers, width);
    out.extend_from_slice(&bytes[..8 * width])?;
    Ok(())
}

/// Returns 64 numbers of `width` bits each, in the first bytes.
#[inline(always)]
fn pack(numbers: &[u32], width: usize) -> [u8; 256]
    requires whole { length numbers.now ≡ 64 }
    requires narrow { width ≤ 32 }
    requires fit { (k : ℕ) → slice_index numbers.now k < 2 ^ width }
    ensures { take (8 * width) result ≡ field_bytes width numbers.now }
{
    let mut bytes = [0; 256];
    let mut at = 0;
    let mut word = 0u64;
    let mut filled = 0;
    for number in numbers {
        word += u64::from(*number) << filled;
        filled += width;
        if filled >= 32 {
            put_word(&mut bytes, at, (word % (1 << 32)) as u32);
            at += 4;
            word >>= 32;
            filled -= 32;
        }
    }
    bytes
}

#[inline(always)]
fn put_word(bytes: &mut [u8], at: usize, word: u32)
    requires { at + 4 ≤ length bytes.old }
    ensures { take (at + 4) bytes.new ≡ take at bytes.old ++ little_bytes 4 word }
{
    bytes[at..at + 4].copy_from_slice(&word.to_le_bytes());
}

/// Returns a field of a token, by its number.
#[inline(always)]
fn field_value(token: &RawToken, field: usize) -> u32
    requires { field < 7 }
    ensures { result ≡ slice_index (fields_of token.now) field }
{
    match field {
        0 => token.dst_line,
        1 => token.dst_col,
        2 => token.src_id,
        3 => token.src_line,
        4 => token.src_col,
        5 => token.name_id,
        _ => u32::from(token.is_range),
    }
}

/// Returns the base of the values of a field.
#[inline(always)]
pub(crate) fn base_of(tokens: &[RawToken], field: usize) -> u32
    requires { field < 7 }
    ensures { result ≡ base_of (token_values tokens.now field) }
{
    let mut least = 4294967295u32;
    for token in tokens {
        least = least.min(field_value(token, field).wrapping_add(1));
    }
    least.wrapping_sub(1)
}

/// Returns the numbers of a field of a block.
#[inline(always)]
pub(crate) fn numbers_of(tokens: &[RawToken], field: usize, base: u32) -> [u32; 64]
    requires few { length tokens.now ≤ 64 }
    requires field { field < 7 }
    ensures numbers { result ≡ padded (map (number_of base) (token_values tokens.now field)) }
    ensures small { (k : ℕ) → slice_index (token_values tokens.now field) k < 2 ^ 32 }
{
    let mut numbers = [0; 64];
    for place in 0..tokens.len() {
        numbers[place] = field_value(&tokens[place], field).wrapping_sub(base);
    }
    numbers
}

/// Returns the least width that all these numbers fit in.
pub(crate) fn width_of(numbers: &[u32]) -> u32
    ensures value { result ≡ width_of numbers.now }
    ensures narrow { result ≤ 32 }
    ensures fit { (k : ℕ) → slice_index numbers.now k < 2 ^ result }
{
    let mut greatest = 0;
    for number in numbers {
        greatest = greatest.max(*number);
    }
    32 - greatest.leading_zeros()
}
