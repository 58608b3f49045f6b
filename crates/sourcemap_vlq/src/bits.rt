//! Bits as base64 digits: six bits per digit, lowest first.
ghost use Rattle.std.specs.Prelude.{◌≡◌, ℕ, ◌+◌, ◌*◌, ◌/◌, ◌<◌, ◌≤◌, ◌==◌, false, true, Bool, List, ◌++◌, MatchResult};
ghost use Rattle.std.specs.Prelude.{IfErr, IfOk, OnErr, OnOk, Result, None, length, string_bytes};
ghost use Rattle.std.specs.List.{slice_index_or};
ghost use Rattle.std.specs.Int.{bit_at};
ghost use Rattle.sourcemap_errors.specs.declared.errors.Error.{Error};
ghost use Rattle.sourcemap_errors.specs.declared.errors.Error.TheVariants.{OutOfMemory};
ghost use Rattle.sourcemap_errors.specs.Answer.{IsAnswer, Gives};
ghost use Rattle.sourcemap_vlq.specs.Bits.{bit_of, six_of, first_non_digit, IsNonDigitError, BitAnswers, IsBitText};

use crate::vlq::{glyph_char, value_of_digit};
use sourcemap_errors::errors::{Error, Result};
use std::alloc::Global;

/// Decodes the bits of `text`, six per digit. Returns `InvalidBase64` for the first byte that is
/// not a digit. The only other error is `OutOfMemory`.
pub fn decode_rmi(alloc: Global, text: &str) -> Result<Vec<bool>>
    ensures answers { IsAnswer (λ bits. bits.items) (BitAnswers text.now) result }
    ensures only { (answer : Result (List Bool) Error) → BitAnswers text.now answer
        → Gives (λ bits. bits.items) result answer }
{
    let mut bits = Vec::new(alloc);
    for byte in text.as_bytes() {
        let Some(value) = value_of_digit(*byte) else {
            return Err(Error::InvalidBase64(char::from(*byte)));
        };
        bits.extend_from_slice(&bits_of_value(value))?;
    }
    Ok(bits)
}

/// Encodes bits as the shortest text. The text ends with the digit of the last true bit. If no bit
/// is true, the text is empty. The only error is `OutOfMemory`.
pub fn encode_rmi(alloc: Global, bits: &[bool]) -> Result<String>
    ensures written { IfOk result (λ text. IsBitText bits.now (string_bytes text)) }
    ensures memory { IfErr result (λ e. e ≡ OutOfMemory) }
{
    let mut text = String::new(alloc);
    push_bits(&mut text, bits)?;
    Ok(text)
}

/// Checks that all bytes are digits. Returns `InvalidBase64` for the first that is not.
pub fn test_digits(text: &[u8]) -> Result<()>
    ensures { MatchResult result (λ _. first_non_digit text.now ≡ None)
        (λ e. IsNonDigitError text.now e) }
{
    for byte in text {
        let Some(_value) = value_of_digit(*byte) else {
            return Err(Error::InvalidBase64(char::from(*byte)));
        };
    }
    Ok(())
}

/// Returns the bit with this index, counted from 0. Each digit has six bits, the lowest first.
/// Returns false if the index is past the end of the text, or if the byte with this bit is not a
/// digit.
pub fn has_bit(text: &[u8], index: usize) -> bool
    ensures { result ≡ bit_of text.now index }
{
    // Most maps have no range mappings, so the text is usually empty. The check avoids a division.
    if text.is_empty() {
        return false;
    }
    let Some(byte) = text.get(index / 6) else {
        return false;
    };
    let value = value_of_digit(*byte).unwrap_or(0);
    (value >> (index % 6)) % 2 == 1
}

/// Appends the shortest text of `bits`. The only error is `OutOfMemory`, and then `text` is
/// unchanged.
pub fn push_bits(text: &mut String, bits: &[bool]) -> Result<()>
    ensures written { OnOk result ((part : List ℕ) × IsBitText bits.now part
        × (string_bytes text.new ≡ string_bytes text.old ++ part)) }
    ensures memory { IfErr result (λ e. e ≡ OutOfMemory) }
    ensures unchanged { OnErr result (string_bytes text.new ≡ string_bytes text.old) }
{
    let digits = digit_count(bits);
    text.reserve(digits)?;
    for digit in 0..digits {
        text.push(glyph_char(value_from(bits, 6 * digit)))?;
    }
    Ok(())
}

// The six bits of a digit's value, lowest first. Higher bits are ignored.
fn bits_of_value(value: u8) -> [bool; 6]
    ensures { result ≡ six_of value }
{
    [
        value % 2 == 1,
        value / 2 % 2 == 1,
        value / 4 % 2 == 1,
        value / 8 % 2 == 1,
        value / 16 % 2 == 1,
        value / 32 % 2 == 1,
    ]
}

// The number of digits up to and including the digit of the last true bit, or 0 if no bit is true.
fn digit_count(bits: &[bool]) -> usize
    ensures rest { (j : ℕ) → 6 * result ≤ j → slice_index_or bits.now j false ≡ false }
    ensures last { 0 < result → (j : ℕ) × (j / 6 + 1 ≡ result)
        × (slice_index_or bits.now j false ≡ true) }
    ensures small { 6 * result ≤ length bits.now + 5 }
{
    match bits.iter().rposition(|bit| *bit) {
        Some(last) => last / 6 + 1,
        None => 0,
    }
}

// The value of a digit: six bits from `index` on, lowest first. A missing bit counts as false.
fn value_from(bits: &[bool], index: usize) -> u8
    requires { index < length bits.now }
    ensures small { result < 64 }
    ensures each { (k : ℕ) → k < 6
        → (bit_at result k == 1) ≡ slice_index_or bits.now (index + k) false }
{
    bit_from(bits, index)
        + 2 * bit_from(bits, index + 1)
        + 4 * bit_from(bits, index + 2)
        + 8 * bit_from(bits, index + 3)
        + 16 * bit_from(bits, index + 4)
        + 32 * bit_from(bits, index + 5)
}

// 1 if the bit is true, 0 if it is false or missing.
fn bit_from(bits: &[bool], index: usize) -> u8
    ensures small { result ≤ 1 }
    ensures is { (result == 1) ≡ slice_index_or bits.now index false }
{
    u8::from(bits.get(index).copied().unwrap_or(false))
}

/// A law: a text decodes to at most one list of bits or one error. A list of bits has at most one
/// shortest text.
pub fn bits_are_determined()
    ensures one_answer { (text : List ℕ) (a b : Result (List Bool) Error) → BitAnswers text a
        → BitAnswers text b → a ≡ b }
    ensures one_text { (bits : List Bool) (a b : List ℕ) → IsBitText bits a → IsBitText bits b
        → a ≡ b }
{}
