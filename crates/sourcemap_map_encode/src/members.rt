//! Writes keys and text members of a JSON object.
ghost use Rattle.std.specs.Prelude.{◌≡◌, ◌||◌, is_some, option_copied, option_map, true, IfErr, IfOk, OnOk};
ghost use Rattle.std.specs.Prelude.{string_bytes};
ghost use Rattle.serde_json.specs.Data.{string};
ghost use Rattle.sourcemap_errors.specs.Answer.{UnlessMemory};
ghost use Rattle.sourcemap_map_encode.specs.Buffered.{Grows};
ghost use Rattle.sourcemap_map_encode.specs.Encoded.{IsIo};
ghost use Rattle.sourcemap_map_encode.specs.Members.{key_text, part, IsPlainEntry};

use crate::buffered::put;
use crate::texts::{put_comma, put_text};
use sourcemap_errors::errors::Result;
use std::alloc::Global;
use std::io::Write;

/// Writes the start of a member: a comma if `later` is true, then `key` as a JSON string, then a
/// colon. `later` says whether another member precedes this one. The errors are `OutOfMemory`, and
/// `Io` if a write fails for another reason.
pub(crate) fn put_key<W: Write>(
    alloc: Global,
    writer: &mut W,
    buffer: &mut String,
    later: bool,
    key: &str,
) -> Result<()>
    ensures text { OnOk result (Grows (W.contents writer.old) (string_bytes buffer.old)
        (W.contents writer.new) (string_bytes buffer.new) (key_text later key.now)) }
    ensures error { IfErr result (λ e. UnlessMemory e (IsIo e)) }
{
    put_comma(buffer, later)?;
    put_text(alloc, writer, buffer, key)?;
    put(writer, buffer, ":")
}

/// Writes a member whose value is the string `text`. Writes nothing if `text` is `None`. `later`
/// says whether a member precedes this one. Returns whether a member precedes the next one.
pub(crate) fn put_text_if<W: Write>(
    alloc: Global,
    writer: &mut W,
    buffer: &mut String,
    later: bool,
    key: &str,
    text: Option<&str>,
) -> Result<bool>
    ensures text { OnOk result (Grows (W.contents writer.old) (string_bytes buffer.old)
        (W.contents writer.new) (string_bytes buffer.new)
        (part later (key.now, option_map string (option_copied text.entry)))) }
    ensures later { IfOk result (λ next. next ≡ (later || is_some text.entry)) }
    ensures is_plain { OnOk result
        (IsPlainEntry (key.now, option_map string (option_copied text.entry))) }
    ensures error { IfErr result (λ e. UnlessMemory e (IsIo e)) }
{
    let Some(text) = text else {
        return Ok(later);
    };
    put_key(alloc, writer, buffer, later, key)?;
    put_text(alloc, writer, buffer, text)?;
    Ok(true)
}
