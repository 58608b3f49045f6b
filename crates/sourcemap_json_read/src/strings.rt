//! One JSON string, decoded to a `String`.
ghost use Rattle.std.specs.Prelude.{◌≡◌, ◌+◌, ◌^◌, ◌<◌, ◌≤◌, length, take, drop, Some, IsTrue, IfOk, IfSome, string_bytes};
ghost use Rattle.std.specs.Str.{IsUtf8};
ghost use Rattle.json.specs.Text.{content, plain};
ghost use Rattle.json.specs.Lex.{lex, in_string, between};
ghost use Rattle.sourcemap_json_read.specs.Strings.{DecodesTo, IsReadUpTo, IsUtf8UpTo, IsDecodedBetween};

use crate::blocks::ZEROS;
use crate::bytes::byte_at;
use crate::escapes::store_escape;
use crate::filling::{SLACK, fill, fill_run};
use crate::runs::bare_end;
use crate::stop::Stop;
use simdutf8::compat::from_utf8;
use std::alloc::{AllocError, Global};
use std::str::from_utf8_unchecked;

/// Decodes the string whose first byte after the opening quote is at `start`. Also returns the
/// index after the closing quote. If `keeps` is false, the string is only checked, and what is
/// returned of it is empty. A string with escapes or characters past ASCII is first decoded into
/// `scratch`, over the old bytes of `scratch`. The error is `Unsupported` if the string is invalid,
/// or if the decoded bytes are not UTF-8. Any other error is out of memory.
pub(crate) fn read_string(
    alloc: Global,
    text: &[u8],
    start: usize,
    scratch: &mut Vec<u8>,
    keeps: bool,
) -> Result<(String, usize), Stop>
    requires { start ≤ length text.now }
    ensures content { IfOk result
        (λ found. DecodesTo keeps (drop start text.now) (string_bytes found.0)) }
    ensures after { IfOk result
        (λ found. lex in_string (drop start text.now) ≡ lex between (drop found.1 text.now)) }
    ensures utf8 { IfOk result (λ found. IsUtf8UpTo text.now start found.1) }
{
    let run = bare_run(text, start);
    let stop = start + run.len();
    if byte_at(text, stop) == b'"' {
        return Ok((kept_string(alloc, run, keeps)?, stop + 1));
    }
    read_escaped(alloc, text, start, scratch, keeps)
}

/// A copy of `text`, or an empty string if `keeps` is false.
#[inline(always)]
pub(crate) fn kept_string(alloc: Global, text: &str, keeps: bool) -> Result<String, AllocError>
    ensures { IfOk result (λ found. IsTrue keeps → text.now ≡ string_bytes found) }
{
    if keeps {
        String::from_str(alloc, text)
    } else {
        Ok(String::new(alloc))
    }
}

/// Decodes a string with escapes or characters past ASCII. The error is `Unsupported` if the string
/// is invalid, or if the decoded bytes are not UTF-8.
#[inline(never)]
fn read_escaped(
    alloc: Global,
    text: &[u8],
    start: usize,
    scratch: &mut Vec<u8>,
    keeps: bool,
) -> Result<(String, usize), Stop>
    requires { start ≤ length text.now }
    ensures content { IfOk result
        (λ found. DecodesTo keeps (drop start text.now) (string_bytes found.0)) }
    ensures after { IfOk result
        (λ found. lex in_string (drop start text.now) ≡ lex between (drop found.1 text.now)) }
    ensures utf8 { IfOk result (λ found. IsUtf8UpTo text.now start found.1) }
{
    let (len, end) = unescape(scratch, text, start)?;
    let Ok(decoded) = from_utf8(&scratch[..len]) else {
        return Err(Stop::Unsupported);
    };
    Ok((kept_string(alloc, decoded, keeps)?, end))
}

/// Decodes the string whose first byte after the opening quote is at `start`. Stores the decoded
/// bytes at the front of `buffer`, over the old bytes. Appends zeros to `buffer` if it is too
/// short. The scratch buffer of a cursor has enough capacity for these zeros. Returns the number of
/// decoded bytes and the index after the closing quote. The decoded bytes may be invalid UTF-8. The
/// error is `Unsupported` if the string is invalid. Any other error is out of memory.
#[inline(always)]
fn unescape(buffer: &mut Vec<u8>, text: &[u8], start: usize) -> Result<(usize, usize), Stop>
    requires { start ≤ length text.now }
    ensures within { IfOk result (λ found. found.0 ≤ length buffer.new.items) }
    ensures content { IfOk result
        (λ found. content plain (drop start text.now) ≡ Some (take found.0 buffer.new.items)) }
    ensures utf8 { IfOk result
        (λ found. IsUtf8 (take found.0 buffer.new.items) → IsUtf8UpTo text.now start found.1) }
    ensures after { IfOk result
        (λ found. lex in_string (drop start text.now) ≡ lex between (drop found.1 text.now)) }
{
    let mut to = 0;
    let mut at = start;
    loop {
        extend_with_zeros(buffer, to, text.len() - at)?;
        let (so_far, stop) = fill(buffer.as_mut_slice(), to, text, at);
        if byte_at(text, stop) == b'"' {
            return Ok((so_far, stop + 1));
        }
        let more = fill_rare(buffer.as_mut_slice(), so_far, text, stop);
        let (next_to, next_at) = more.ok_or(Stop::Unsupported)?;
        to = next_to;
        at = next_at;
    }
}

/// Extends the buffer by zeros if it has fewer than `SLACK` bytes from `to` on. The number of zeros
/// is `left + 2 * SLACK`, but at most `ZEROS.len()`. `left` is the number of bytes of the text that
/// are not decoded yet. Decoded, they take at most `left` bytes. The error is out of memory.
#[inline(always)]
fn extend_with_zeros(buffer: &mut Vec<u8>, to: usize, left: usize) -> Result<(), AllocError>
    requires { (to ≤ length buffer.old.items) × (left < 2 ^ 63) }
    ensures space { IfOk result (λ _. to + 4 ≤ length buffer.new.items) }
    ensures kept { IfOk result (λ _. take to buffer.new.items ≡ take to buffer.old.items) }
{
    if buffer.len() - to < SLACK {
        let more = (left + 2 * SLACK).min(ZEROS.len());
        buffer.extend_from_slice(&ZEROS[..more])?;
    }
    Ok(())
}

/// Decodes what `fill` stopped at: an escape, or plain bytes near the end of the text or the
/// buffer. Returns the indices reached in the buffer and in the text, or `None` if nothing at `at`
/// can be decoded.
#[inline(always)]
fn fill_rare(buffer: &mut [u8], to: usize, text: &[u8], at: usize) -> Option<(usize, usize)>
    requires { (to + 4 ≤ length buffer.old) × (at ≤ length text.now) }
    ensures len { length buffer.new ≡ length buffer.old }
    ensures to_within { IfSome result (λ found. found.0 ≤ length buffer.new) }
    ensures within { IfSome result (λ found. (at < found.1) × (found.1 ≤ length text.now)) }
    ensures read { IfSome result (λ found. IsReadUpTo (take to buffer.old) text.now at
        (take found.0 buffer.new) found.1) }
{
    if text.len() - at >= 2 && byte_at(text, at) == b'\\' {
        return store_escape(buffer, to, text, at);
    }
    let (next_to, next_at) = fill_run(buffer, to, text, at);
    if next_at == at {
        return None;
    }
    Some((next_to, next_at))
}

/// The longest run of unescaped ASCII that starts at `from`.
#[inline(always)]
fn bare_run(text: &[u8], from: usize) -> &str
    requires { from ≤ length text.now }
    ensures decodes { IsDecodedBetween (drop from text.now) result.now
        (drop (from + length result.now) text.now) }
    ensures utf8 { IsUtf8UpTo text.now from (from + length result.now) }
{
    let end = bare_end(text, from);
    unsafe { from_utf8_unchecked(&text[from..end]) }
}
