//! Writes `rangeMappings`, line by line.
ghost use Rattle.std.specs.Prelude.{OnOk, IfErr, string_bytes};
ghost use Rattle.sourcemap_errors.specs.Answer.{UnlessMemory};
ghost use Rattle.sourcemap_tokens.specs.Tokens.{AreInOrder};
ghost use Rattle.sourcemap_map_encode.specs.Buffered.{GrowsBy};
ghost use Rattle.sourcemap_map_encode.specs.Encoded.{IsIo};
ghost use Rattle.sourcemap_map_encode.specs.Segments.{IsBitsText, IsLineOfBits};

use crate::buffered::put_line_ends;
use sourcemap_errors::errors::Result;
use sourcemap_mappings::write::is_repeat;
use sourcemap_tokens::tokens::RawToken;
use sourcemap_vlq::bits::push_bits;
use std::alloc::Global;
use std::io::Write;

// Writes the range bits of a line, followed by `line_ends` semicolons.
fn put_line<W: Write>(
    writer: &mut W,
    buffer: &mut String,
    flags: &[bool],
    line_ends: u32,
) -> Result<()>
    ensures text { OnOk result (GrowsBy (IsLineOfBits flags.now line_ends)
        (W.contents writer.old) (string_bytes buffer.old)
        (W.contents writer.new) (string_bytes buffer.new)) }
    ensures error { IfErr result (λ e. UnlessMemory e (IsIo e)) }
{
    push_bits(buffer, flags)?;
    put_line_ends(writer, buffer, line_ends)
}

/// Writes the range bits of `tokens` line by line. The tokens must be sorted by generated position.
/// A token that equals the previous token gets no bit. Only the flags of one line are collected at
/// a time. The errors are `OutOfMemory`, and `Io` if a write fails for another reason.
pub(crate) fn put_ranges<W: Write>(
    alloc: Global,
    writer: &mut W,
    buffer: &mut String,
    tokens: &[RawToken],
) -> Result<()>
    requires { AreInOrder tokens.now }
    ensures text { OnOk result (GrowsBy (IsBitsText tokens.now)
        (W.contents writer.old) (string_bytes buffer.old)
        (W.contents writer.new) (string_bytes buffer.new)) }
    ensures error { IfErr result (λ e. UnlessMemory e (IsIo e)) }
{
    let mut flags = Vec::new(alloc);
    let mut line = 0;
    let mut before = None;
    for token in tokens {
        if line != token.dst_line {
            let line_ends = token.dst_line.saturating_sub(line);
            put_line(writer, buffer, flags.as_slice(), line_ends)?;
            flags.clear();
            line = token.dst_line;
        }
        if !is_repeat(before, token) {
            flags.push(token.is_range)?;
        }
        before = Some(token);
    }
    put_line(writer, buffer, flags.as_slice(), 0)
}
