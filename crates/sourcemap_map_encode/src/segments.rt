//! Writes `mappings` in pieces.
ghost use Rattle.std.specs.Prelude.{◌≡◌, ◌++◌, ◌-◌, ◌≤◌, replicate, take, OnOk, IfOk, IfErr, string_bytes};
ghost use Rattle.std.specs.Str.{IsAscii};
ghost use Rattle.sourcemap_errors.specs.Answer.{UnlessMemory};
ghost use Rattle.sourcemap_tokens.specs.Tokens.{AreInOrder};
ghost use Rattle.sourcemap_mappings.specs.Segment.{semicolon};
ghost use Rattle.sourcemap_map_encode.specs.Buffered.{Grows, GrowsBy};
ghost use Rattle.sourcemap_map_encode.specs.Encoded.{IsIo};
ghost use Rattle.sourcemap_map_encode.specs.Segments.{IsMappingsText, before_line};

use crate::buffered::{flush_piece, put, put_line_ends};
use sourcemap_errors::errors::Result;
use sourcemap_mappings::buffer::{BUFFER_SIZE, flush};
use sourcemap_mappings::write::{START, is_repeat, move_to_line, put_token, write_mappings};
use sourcemap_tokens::tokens::RawToken;
use std::alloc::Global;
use std::io::Write;

/// How `mappings` is written.
#[derive(Clone, Copy, Debug, PartialEq, Eq)]
pub enum Mappings {
    /// In pieces, so that it is never in memory as a whole.
    InPieces,
    /// As a whole, in fewer instructions.
    AtOnce,
}

// Ends the empty lines before `line`: the output then ends on the line before it, so at most one
// semicolon is left to be written before the segment of a token on `line`. Before the call, the
// output is the writer's, the text, and the first `at` bytes of `digits`, and ends on the line of
// `against`. Returns the new end of these bytes.
#[inline(always)]
fn put_empty_lines<W: Write>(
    writer: &mut W,
    text: &mut String,
    digits: &[u8; BUFFER_SIZE],
    at: usize,
    against: &mut RawToken,
    line: u32,
) -> Result<usize>
    requires within { at ≤ 1024 }
    requires ascii { IsAscii (take at digits.now) }
    ensures text { IfOk result (λ end. Grows (W.contents writer.old)
        (string_bytes text.old ++ take at digits.now)
        (W.contents writer.new) (string_bytes text.new ++ take end digits.now)
        (replicate (line - 1 - against.old.dst_line) semicolon)) }
    ensures end { IfOk result (λ end. end ≤ at) }
    ensures ascii { IfOk result (λ end. IsAscii (take end digits.now)) }
    ensures next { OnOk result (against.new ≡ before_line against.old line) }
    ensures error { IfErr result (λ e. UnlessMemory e (IsIo e)) }
{
    let before = line.saturating_sub(1);
    if before <= against.dst_line {
        return Ok(at);
    }
    flush(text, digits, at)?;
    put_line_ends(writer, text, before.saturating_sub(against.dst_line))?;
    move_to_line(against, before);
    Ok(0)
}

/// Writes the mappings of sorted tokens. `names` is the number of names of the map.
pub(crate) fn put_mappings<W: Write>(
    alloc: Global,
    writer: &mut W,
    buffer: &mut String,
    tokens: &[RawToken],
    names: u32,
    how: Mappings,
) -> Result<()>
    requires { AreInOrder tokens.now }
    ensures text { OnOk result (GrowsBy (IsMappingsText names tokens.now)
        (W.contents writer.old) (string_bytes buffer.old)
        (W.contents writer.new) (string_bytes buffer.new)) }
    ensures error { IfErr result (λ e. UnlessMemory e (IsIo e)) }
{
    match how {
        Mappings::InPieces => put_segments(writer, buffer, tokens, names),
        Mappings::AtOnce => put_whole_mappings(alloc, writer, buffer, tokens, names),
    }
}

fn put_whole_mappings<W: Write>(
    alloc: Global,
    writer: &mut W,
    buffer: &mut String,
    tokens: &[RawToken],
    names: u32,
) -> Result<()>
    requires { AreInOrder tokens.now }
    ensures text { OnOk result (GrowsBy (IsMappingsText names tokens.now)
        (W.contents writer.old) (string_bytes buffer.old)
        (W.contents writer.new) (string_bytes buffer.new)) }
    ensures error { IfErr result (λ e. UnlessMemory e (IsIo e)) }
{
    let text = write_mappings(alloc, tokens, names)?;
    put(writer, buffer, text.as_str())
}

fn put_segments<W: Write>(
    writer: &mut W,
    buffer: &mut String,
    tokens: &[RawToken],
    names: u32,
) -> Result<()>
    requires { AreInOrder tokens.now }
    ensures text { OnOk result (GrowsBy (IsMappingsText names tokens.now)
        (W.contents writer.old) (string_bytes buffer.old)
        (W.contents writer.new) (string_bytes buffer.new)) }
    ensures error { IfErr result (λ e. UnlessMemory e (IsIo e)) }
{
    let mut digits = [0; BUFFER_SIZE];
    let mut at = 0;
    let mut against = START;
    let mut previous = None;
    for token in tokens {
        if !is_repeat(previous, token) {
            let line = token.dst_line;
            let free = put_empty_lines(writer, buffer, &digits, at, &mut against, line)?;
            at = put_token(
                buffer,
                &mut digits,
                free,
                &mut against,
                previous,
                token,
                names,
            )?;
            flush_piece(writer, buffer)?;
        }
        previous = Some(token);
    }
    flush(buffer, &digits, at)?;
    flush_piece(writer, buffer)
}
