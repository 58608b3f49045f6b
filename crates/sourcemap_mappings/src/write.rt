//! Encodes tokens as `mappings` and `rangeMappings`.
ghost use Rattle.std.specs.Prelude.{◌≡◌, ℕ, ◌+◌, ◌-◌, ◌<◌, ◌≤◌, ◌^◌, take, List, [], ◌∷◌, ◌++◌, replicate, OnOk, IfOk};
ghost use Rattle.std.specs.Prelude.{IfErr, string_bytes, option_map, option_copied, Option, false};
ghost use Rattle.std.specs.List.{list_any};
ghost use Rattle.std.specs.Option.{option_map_or};
ghost use Rattle.std.specs.Str.{IsAscii};
ghost use Rattle.sourcemap_tokens.specs.Tokens.{AreInOrder, AllWithin, without_repeats, reduced};
ghost use Rattle.sourcemap_mappings.specs.Read.{MappingsAnswer};
ghost use Rattle.sourcemap_mappings.specs.Write.{has_source, has_name, numbers, LineByLine, IsRangeLine, IsWritten};
ghost use Rattle.sourcemap_mappings.specs.Write.{IsRangeText};
ghost use Rattle.sourcemap_mappings.specs.Buffer.{Adds};
ghost use Rattle.sourcemap_mappings.specs.WriteSteps.{HasSmallPositions, repeats, follows, gap, at_line, next_base};
ghost use Rattle.sourcemap_mappings.specs.Segment.{semicolon};
ghost use Rattle.sourcemap_tokens.specs.declared.tokens.RawToken.{RawToken};
ghost use Rattle.sourcemap_errors.specs.declared.errors.Error.TheVariants.{OutOfMemory};

use crate::buffer::{BUFFER_SIZE, flush, put_one, put_three, put_two};
use sourcemap_errors::errors::Result;
use sourcemap_tokens::tokens::{NO_ID, RawToken};
use sourcemap_vlq::bits::push_bits;
use std::alloc::{AllocError, Global};

/// The token that the first segment is relative to. Its numbers are 0, and it is no range mapping.
pub const START: RawToken = RawToken {
    dst_line: 0,
    dst_col: 0,
    src_line: 0,
    src_col: 0,
    src_id: 0,
    name_id: 0,
    is_range: false,
};

// The initial capacity of the text is six bytes for each of the first `FIRST_TOKENS` tokens.
const FIRST_TOKENS: usize = 1 << 28;

// The maximum size of a token in bytes: a comma and five numbers of seven digits.
const TOKEN_SIZE: usize = 36;

/// Whether the token has a source.
#[inline]
pub fn has_source(token: RawToken) -> bool
    ensures { result ≡ has_source token }
{
    token.src_id != NO_ID
}

/// Whether the token has a source, and its name id is below `names`.
#[inline]
pub fn has_name(token: RawToken, names: u32) -> bool
    ensures { result ≡ has_name names token }
{
    token.src_id != NO_ID && token.name_id < names
}

/// Whether the token equals the previous token. `false` if there is no previous token.
// The column is compared first: most tokens differ in it.
#[inline]
pub fn is_repeat(previous: Option<&RawToken>, token: &RawToken) -> bool
    ensures { result ≡ repeats (option_copied previous.entry) token.now }
{
    match previous {
        Some(before) => token.dst_col == before.dst_col && *token == *before,
        None => false,
    }
}

/// Whether the token is on the line of the previous token. `false` if there is no previous token.
#[inline]
pub fn follows_on(previous: Option<&RawToken>, token: &RawToken) -> bool
    ensures { result ≡ follows (option_copied previous.entry) token.now }
{
    match previous {
        Some(before) => before.dst_line == token.dst_line,
        None => false,
    }
}

fn push_line_ends(text: &mut String, from: u32, to: u32) -> std::result::Result<(), AllocError>
    ensures text { OnOk result (string_bytes text.new
        ≡ string_bytes text.old ++ replicate (to - from) semicolon) }
{
    for _line in from..to {
        text.push(';')?;
    }
    Ok(())
}

// Writes the comma or the semicolons before the segment of a token. Before the first segment of
// line 0, writes no separator. Before the call, the output is the text, followed by the first `at`
// bytes of the buffer, and ends on line `line`. A comma or a single semicolon goes into the buffer.
// Two or more semicolons go into the text, after a flush. Returns the new end of the buffered
// bytes.
#[inline(always)]
fn put_gap(
    text: &mut String,
    buffer: &mut [u8; BUFFER_SIZE],
    at: usize,
    previous: Option<&RawToken>,
    line: u32,
    token: &RawToken,
) -> std::result::Result<usize, AllocError>
    requires within { at < 1024 }
    requires ascii { IsAscii (take at buffer.now) }
    ensures text { IfOk result (λ end. string_bytes text.new ++ take end buffer.new
        ≡ (string_bytes text.old ++ take at buffer.old) ++ gap
        (option_copied previous.entry) line token.now) }
    ensures end { IfOk result (λ end. end ≤ at + 1) }
    ensures ascii { IfOk result (λ end. IsAscii (take end buffer.new)) }
{
    if follows_on(previous, token) {
        buffer[at] = b',';
        return Ok(at + 1);
    }
    if u64::from(token.dst_line) == u64::from(line) + 1 {
        buffer[at] = b';';
        return Ok(at + 1);
    }
    flush(text, buffer, at)?;
    push_line_ends(text, line, token.dst_line)?;
    Ok(0)
}

// Writes the segment of a token into the buffer from index `start` on, relative to `against`.
// Returns the index after the segment. The next segment on the line is relative to the new value of
// `against`.
#[inline(always)]
fn put_segment(
    buffer: &mut [u8; BUFFER_SIZE],
    start: usize,
    against: &mut RawToken,
    token: &RawToken,
    names: u32,
) -> usize
    requires { start + 35 ≤ 1024 }
    ensures text { Adds (numbers names against.old token.now) (take start buffer.old)
        (take result buffer.new) }
    ensures end { result ≤ start + 35 }
    ensures small { HasSmallPositions token.now }
    ensures next { against.new ≡ next_base names against.old token.now }
{
    let mut at = put_two(buffer, start, token.dst_col, against.dst_col);
    against.dst_line = token.dst_line;
    against.dst_col = token.dst_col;
    if !has_source(*token) {
        return at;
    }
    at = put_one(buffer, at, token.src_id, against.src_id);
    against.src_id = token.src_id;
    at = put_one(buffer, at, token.src_line, against.src_line);
    against.src_line = token.src_line;
    at = put_two(buffer, at, token.src_col, against.src_col);
    against.src_col = token.src_col;
    if has_name(*token, names) {
        at = put_three(buffer, at, token.name_id, against.name_id);
        against.name_id = token.name_id;
    }
    at
}

/// Moves `against` to `line`. If `against` is on another line, its generated column becomes 0, since
/// generated columns start anew on each line. Its other fields are unchanged.
#[inline(always)]
pub fn move_to_line(against: &mut RawToken, line: u32)
    ensures value { against.new ≡ at_line against.old line }
    ensures small { line < 2 ^ 32 }
{
    if against.dst_line != line {
        against.dst_line = line;
        against.dst_col = 0;
    }
}

// Flushes the buffer if fewer than `TOKEN_SIZE` bytes are free in it. Returns the new end of the
// buffered bytes.
#[inline(always)]
fn make_space(
    text: &mut String,
    buffer: &[u8; BUFFER_SIZE],
    at: usize,
) -> std::result::Result<usize, AllocError>
    requires within { at ≤ 1024 }
    requires ascii { IsAscii (take at buffer.now) }
    ensures text { IfOk result (λ end. string_bytes text.new ++ take end buffer.now
        ≡ string_bytes text.old ++ take at buffer.now) }
    ensures end { IfOk result (λ end. end + 36 ≤ 1024) }
    ensures ascii { IfOk result (λ end. IsAscii (take end buffer.now)) }
{
    if at <= BUFFER_SIZE - TOKEN_SIZE {
        return Ok(at);
    }
    flush(text, buffer, at)?;
    Ok(0)
}

/// Writes the comma or the semicolons before the segment of a token, and then the segment. Before
/// the call, the output is the text, followed by the first `at` bytes of the buffer, and ends on the
/// line of `against`. Updates `against`, and returns the new end of the buffered bytes. The only
/// error is that memory runs out.
#[inline(always)]
pub fn put_token(
    text: &mut String,
    buffer: &mut [u8; BUFFER_SIZE],
    at: usize,
    against: &mut RawToken,
    previous: Option<&RawToken>,
    token: &RawToken,
    names: u32,
) -> std::result::Result<usize, AllocError>
    requires within { at ≤ 1024 }
    requires ascii { IsAscii (take at buffer.now) }
    ensures text { IfOk result
        (λ end. Adds (numbers names (at_line against.old token.now.dst_line) token.now)
        ((string_bytes text.old ++ take at buffer.old) ++ gap
        (option_copied previous.entry) against.old.dst_line token.now)
        (string_bytes text.new ++ take end buffer.new)) }
    ensures end { IfOk result (λ end. end ≤ 1024) }
    ensures ascii { IfOk result (λ end. IsAscii (take end buffer.new)) }
    ensures small { OnOk result ((token.now.dst_line < 2 ^ 32) × HasSmallPositions token.now) }
    ensures next { OnOk result (against.new
        ≡ next_base names (at_line against.old token.now.dst_line) token.now) }
{
    let free = make_space(text, buffer, at)?;
    let start = put_gap(text, buffer, free, previous, against.dst_line, token)?;
    move_to_line(against, token.dst_line);
    Ok(put_segment(buffer, start, against, token, names))
}

/// Encodes sorted tokens as `mappings`, for a map with `names` names. The only error is
/// `OutOfMemory`.
///
/// The text has all lines from line 0 to the line of the last token. `;` separates lines, `,`
/// separates the segments of a line. A token without a source has one number, its generated column.
/// A token with a source has four numbers: generated column, source id, original line and original
/// column. It has the name id as a fifth number if that id is below `names`. Each number is written
/// as its difference to the last written number of its kind, in the shortest digits. The first
/// number of each kind, and the first generated column of each line, is written as its difference
/// to 0. A token equal to the token before it is not written. An empty list gives the empty text.
///
/// `write_range_mappings` returns the range flags as a second text. `None` counts as an empty text.
/// `parse_mappings`, with the same `names` and a count `sources`, decodes both texts under two
/// conditions. Each source id is below `sources` or is [`NO_ID`]. Each token with source id
/// [`NO_ID`] also has [`NO_ID`] as original line and original column, and a name id that is not
/// below `names`. Then `parse_mappings` returns `tokens` without repeats, or `OutOfMemory`. In the
/// returned tokens, [`NO_ID`] replaces each name id that is not below `names`.
pub fn write_mappings(alloc: Global, tokens: &[RawToken], names: u32) -> Result<String>
    requires { AreInOrder tokens.now }
    ensures text { IfOk result (λ s. IsWritten names tokens.now (string_bytes s)) }
    ensures memory { IfErr result (λ e. e ≡ OutOfMemory) }
    ensures reads_back { IfOk result (λ s. (sources : ℕ) → sources < 2 ^ 32
        → AllWithin sources names tokens.now
        → (ranges : Option (List ℕ)) → IsRangeText tokens.now ranges
        → MappingsAnswer (string_bytes s) (option_map_or (λ bits. bits) ranges [])
        (record { sources = sources; names = names })
        (Ok (reduced names tokens.now))) }
{
    let mut text = String::with_capacity(alloc, tokens.len().min(FIRST_TOKENS) * 6)?;
    let mut buffer = [0; BUFFER_SIZE];
    let mut at = 0;
    let mut against = START;
    let mut previous = None;
    for token in tokens {
        if !is_repeat(previous, token) {
            at = put_token(
                &mut text,
                &mut buffer,
                at,
                &mut against,
                previous,
                token,
                names,
            )?;
        }
        previous = Some(token);
    }
    flush(&mut text, &buffer, at)?;
    Ok(text)
}

/// Encodes the range flags of sorted tokens as `rangeMappings`: for each line, the flags of the
/// segments that `write_mappings` writes. Returns `None` if no token is a range mapping. The only
/// error is `OutOfMemory`.
pub fn write_range_mappings(alloc: Global, tokens: &[RawToken]) -> Result<Option<String>>
    requires { AreInOrder tokens.now }
    ensures text { IfOk result (λ o. IsRangeText tokens.now (option_map string_bytes o)) }
    ensures memory { IfErr result (λ e. e ≡ OutOfMemory) }
{
    if !has_range(tokens) {
        return Ok(None);
    }
    Ok(Some(range_text(alloc, tokens)?))
}

/// Whether one of the tokens is a range mapping.
pub fn has_range(tokens: &[RawToken]) -> bool
    ensures { result ≡ list_any (λ t. t.is_range) tokens.now }
{
    tokens.iter().any(|token| token.is_range)
}

fn range_text(alloc: Global, tokens: &[RawToken]) -> Result<String>
    requires { AreInOrder tokens.now }
    ensures text { IfOk result
        (λ s. LineByLine (IsRangeLine (without_repeats tokens.now)) tokens.now (string_bytes s)) }
    ensures memory { IfErr result (λ e. e ≡ OutOfMemory) }
{
    let mut text = String::new(alloc);
    let mut flags = Vec::new(alloc);
    let mut line = 0;
    let mut before = None;
    for token in tokens {
        if line != token.dst_line {
            push_bits(&mut text, flags.as_slice())?;
            push_line_ends(&mut text, line, token.dst_line)?;
            flags.clear();
            line = token.dst_line;
        }
        if !is_repeat(before, token) {
            flags.push(token.is_range)?;
        }
        before = Some(token);
    }
    push_bits(&mut text, flags.as_slice())?;
    Ok(text)
}

/// A law: a list of tokens and a count of names determine the `mappings` text. The tokens alone
/// determine the `rangeMappings` text, or that there is no such text.
pub fn written_texts_are_determined()
    ensures one_text { (names : ℕ) (tokens : List RawToken) (a b : List ℕ)
        → IsWritten names tokens a → IsWritten names tokens b → a ≡ b }
    ensures one_range_text { (tokens : List RawToken) (a b : Option (List ℕ)) → IsRangeText tokens a
        → IsRangeText tokens b → a ≡ b }
{}
