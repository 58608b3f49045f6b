//! Buffered writing of text, in pieces.
ghost use Rattle.std.specs.Prelude.{◌≡◌, [], OnOk, IfErr, replicate, string_bytes};
ghost use Rattle.sourcemap_errors.specs.Answer.{UnlessMemory};
ghost use Rattle.sourcemap_mappings.specs.Segment.{semicolon};
ghost use Rattle.sourcemap_map_encode.specs.Buffered.{Grows};
ghost use Rattle.sourcemap_map_encode.specs.Encoded.{IsIo};

use sourcemap_errors::errors::Result;
use std::io::Write;

/// A buffer of at least this many bytes is written out.
pub(crate) const PIECE: usize = 1 << 14;

// A group of `PIECE` semicolons for one `write_all`. In `mappings` and `rangeMappings`, a semicolon
// ends a line.
static LINE_ENDS: [u8; PIECE] = [b';'; PIECE];

/// Writes the buffer's content and clears the buffer.
pub(crate) fn flush<W: Write>(writer: &mut W, buffer: &mut String) -> Result<()>
    ensures text { OnOk result (Grows (W.contents writer.old) (string_bytes buffer.old)
        (W.contents writer.new) (string_bytes buffer.new) []) }
    ensures empty { OnOk result (string_bytes buffer.new ≡ []) }
    ensures error { IfErr result (λ e. UnlessMemory e (IsIo e)) }
{
    writer.write_all(buffer.as_str().as_bytes())?;
    buffer.clear();
    Ok(())
}

/// Flushes the buffer if it has at least `PIECE` bytes.
pub(crate) fn flush_piece<W: Write>(writer: &mut W, buffer: &mut String) -> Result<()>
    ensures text { OnOk result (Grows (W.contents writer.old) (string_bytes buffer.old)
        (W.contents writer.new) (string_bytes buffer.new) []) }
    ensures error { IfErr result (λ e. UnlessMemory e (IsIo e)) }
{
    if buffer.len() < PIECE {
        return Ok(());
    }
    flush(writer, buffer)
}

/// Writes a text through the buffer. A text of at least `PIECE` bytes is written directly, without
/// a copy in the buffer.
pub(crate) fn put<W: Write>(writer: &mut W, buffer: &mut String, text: &str) -> Result<()>
    ensures text { OnOk result (Grows (W.contents writer.old) (string_bytes buffer.old)
        (W.contents writer.new) (string_bytes buffer.new) text.now) }
    ensures error { IfErr result (λ e. UnlessMemory e (IsIo e)) }
{
    if text.len() < PIECE {
        buffer.push_str(text)?;
        return flush_piece(writer, buffer);
    }
    flush(writer, buffer)?;
    writer.write_all(text.as_bytes())?;
    Ok(())
}

/// Writes `count` semicolons. Each group of `PIECE` semicolons is one write, without a copy in the
/// buffer. The remaining ones are appended to the buffer.
pub(crate) fn put_line_ends<W: Write>(writer: &mut W, buffer: &mut String, count: u32) -> Result<()>
    ensures text { OnOk result (Grows (W.contents writer.old) (string_bytes buffer.old)
        (W.contents writer.new) (string_bytes buffer.new) (replicate count semicolon)) }
    ensures error { IfErr result (λ e. UnlessMemory e (IsIo e)) }
{
    let mut left = count as usize;
    if left >= PIECE {
        flush(writer, buffer)?;
    }
    while left >= PIECE {
        writer.write_all(&LINE_ENDS)?;
        left -= PIECE;
    }
    for _line in 0..left {
        buffer.push(';')?;
    }
    flush_piece(writer, buffer)
}
