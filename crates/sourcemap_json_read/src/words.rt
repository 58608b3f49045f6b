//! Literals, and whole numbers that have at most 16 digits and no sign.
ghost use Rattle.std.specs.Prelude.{◌≡◌, ◌+◌, ◌<◌, ◌≤◌, IfOk, IfSome, decimal, drop, length};
ghost use Rattle.std.specs.Bool.{OnTrue};
ghost use Rattle.json.specs.Word.{head};
ghost use Rattle.sourcemap_json_read.specs.Words.{AreDigits, IsWordAt};

use crate::bytes::{byte_at, is_word_end};
use crate::stop::Stop;

// The smallest number with 16 digits. If the value is at least this number and another digit
// follows, `digits` returns the error `Unsupported`.
const MAX_BEFORE_DIGIT: u64 = 1_000_000_000_000_000;

/// Returns the index after `word`. The error is `Unsupported` if `word` is not at `from`, or if the
/// text has a longer word there.
#[inline(always)]
pub(crate) fn word_end(text: &[u8], from: usize, word: &[u8]) -> Result<usize, Stop>
    requires { from ≤ length text.now }
    ensures { IfOk result (λ end. IsWordAt text.now from word.now end) }
{
    if !text[from..].starts_with(word) {
        return Err(Stop::Unsupported);
    }
    let end = from + word.len();
    if is_word_end(text, end) {
        Ok(end)
    } else {
        Err(Stop::Unsupported)
    }
}

/// Returns the whole number at `from`, and the index after its digits. The error is `Unsupported`
/// if anything else is there, such as a sign, a fraction, a leading zero or more than 16 digits.
#[inline(always)]
pub(crate) fn whole_number(text: &[u8], from: usize) -> Result<(u64, usize), Stop>
    ensures { IfOk result (λ read. IsWordAt text.now from (decimal read.0) read.1) }
{
    let (value, end) = digits(text, from)?;
    if end == from || !is_shortest(text, from, end) {
        return Err(Stop::Unsupported);
    }
    if is_word_end(text, end) {
        Ok((value, end))
    } else {
        Err(Stop::Unsupported)
    }
}

// Whether the digits from `from` to `end` have no leading zero: true for `0` and `70`, false for
// `00` and `07`.
#[inline(always)]
fn is_shortest(text: &[u8], from: usize, end: usize) -> bool
    requires { from < end }
    ensures { OnTrue result (head (drop from text.now) ≡ 48 → end ≡ from + 1) }
{
    end - from == 1 || byte_at(text, from) != b'0'
}

// The value of the digits at `from`, and the index after them. If no digit is there, these are 0
// and `from`. The error is `Unsupported` if the value has more than 16 digits.
#[inline(always)]
fn digits(text: &[u8], from: usize) -> Result<(u64, usize), Stop>
    ensures { IfOk result (λ read. AreDigits text.now from read.0 read.1) }
{
    let mut value = 0;
    let mut at = from;
    while let Some(digit) = digit_at(text, at) {
        if value >= MAX_BEFORE_DIGIT {
            return Err(Stop::Unsupported);
        }
        value = 10 * value + digit;
        at += 1;
    }
    Ok((value, at))
}

#[inline(always)]
fn digit_at(text: &[u8], at: usize) -> Option<u64>
    ensures byte { IfSome result (λ digit. head (drop at text.now) ≡ 48 + digit) }
    ensures small { IfSome result (λ digit. digit < 10) }
    ensures inside { IfSome result (λ _. at < length text.now) }
{
    let byte = byte_at(text, at);
    if b'0' <= byte && byte <= b'9' {
        Some(u64::from(byte - b'0'))
    } else {
        None
    }
}
