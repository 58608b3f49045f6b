//! Writes strings, numbers and lists as JSON. A list is written item by item.
ghost use Rattle.std.specs.Prelude.{◌≡◌, ◌++◌, map, false, OnOk, IfErr, string_bytes, IsUtf8};
ghost use Rattle.std.specs.List.{AllByRecursion};
ghost use Rattle.json.specs.Print.{quoted};
ghost use Rattle.serde_json.specs.Data.{string};
ghost use Rattle.serde_json.specs.View.{view};
ghost use Rattle.serde_json.specs.Written.{comma_if, compact_text, has_float};
ghost use Rattle.sourcemap_errors.specs.Answer.{UnlessMemory};
ghost use Rattle.sourcemap_records.specs.Field.{written_list, written_number};
ghost use Rattle.sourcemap_records.specs.Jsontypes.{FitsU32};
ghost use Rattle.sourcemap_map_encode.specs.Buffered.{Grows};
ghost use Rattle.sourcemap_map_encode.specs.Encoded.{IsIo};

use crate::buffered::{flush_piece, put};
use serde_json::Value;
use sourcemap_errors::errors::Result;
use sourcemap_json_write::writing::{push_quoted, text_to_string, value_to_string};
use std::alloc::{AllocError, Global};
use std::io::Write;
use std::result;

// A text of fewer bytes is quoted in the buffer, without a copy of its own. It then has less than
// `PIECE` bytes, since an escape has at most six.
const SHORT: usize = 1 << 11;

/// Writes a value as compact JSON. The value must not contain a float, not even 1.0. The errors
/// are `Io` and `OutOfMemory`.
pub(crate) fn put_value<W: Write>(
    alloc: Global,
    writer: &mut W,
    buffer: &mut String,
    value: &Value,
) -> Result<()>
    requires { has_float (view value.now) ≡ false }
    ensures text { OnOk result (Grows (W.contents writer.old) (string_bytes buffer.old)
        (W.contents writer.new) (string_bytes buffer.new) (compact_text (view value.now))) }
    ensures error { IfErr result (λ e. UnlessMemory e (IsIo e)) }
{
    let text = value_to_string(alloc, value)?;
    put(writer, buffer, text.as_str())
}

/// Writes a JSON string: quoted and escaped.
pub(crate) fn put_text<W: Write>(
    alloc: Global,
    writer: &mut W,
    buffer: &mut String,
    text: &str,
) -> Result<()>
    ensures text { OnOk result (Grows (W.contents writer.old) (string_bytes buffer.old)
        (W.contents writer.new) (string_bytes buffer.new) (quoted text.now)) }
    ensures utf8 { OnOk result (IsUtf8 text.now) }
    ensures error { IfErr result (λ e. UnlessMemory e (IsIo e)) }
{
    if text.len() < SHORT {
        push_quoted(buffer, text)?;
        return flush_piece(writer, buffer);
    }
    let quoted = text_to_string(alloc, text)?;
    put(writer, buffer, quoted.as_str())
}

/// Appends a comma if an item or a member precedes (`later`). The error is out of memory.
pub(crate) fn put_comma(buffer: &mut String, later: bool) -> result::Result<(), AllocError>
    ensures { OnOk result (string_bytes buffer.new ≡ string_bytes buffer.old ++ comma_if later) }
{
    buffer.push_str(if later { "," } else { "" })
}

/// Writes a list of strings.
pub(crate) fn put_texts<W: Write>(
    alloc: Global,
    writer: &mut W,
    buffer: &mut String,
    texts: &[String],
) -> Result<()>
    ensures text { OnOk result (Grows (W.contents writer.old) (string_bytes buffer.old)
        (W.contents writer.new) (string_bytes buffer.new)
        (compact_text (written_list string (map string_bytes texts.now)))) }
    ensures utf8 { OnOk result (AllByRecursion IsUtf8 (map string_bytes texts.now)) }
    ensures error { IfErr result (λ e. UnlessMemory e (IsIo e)) }
{
    put(writer, buffer, "[")?;
    let mut later = false;
    for text in texts {
        put_comma(buffer, later)?;
        put_text(alloc, writer, buffer, text.as_str())?;
        later = true;
    }
    put(writer, buffer, "]")
}

/// Writes a number. The errors are `Io` and `OutOfMemory`. The clause `small` holds even after an
/// error, because every `u32` is below 2^32.
pub(crate) fn put_number<W: Write>(
    alloc: Global,
    writer: &mut W,
    buffer: &mut String,
    number: u32,
) -> Result<()>
    ensures text { OnOk result (Grows (W.contents writer.old) (string_bytes buffer.old)
        (W.contents writer.new) (string_bytes buffer.new)
        (compact_text (written_number number))) }
    ensures small { FitsU32 number }
    ensures error { IfErr result (λ e. UnlessMemory e (IsIo e)) }
{
    put_value(alloc, writer, buffer, &Value::from(number))
}

/// Writes a list of numbers.
pub(crate) fn put_numbers<W: Write>(
    alloc: Global,
    writer: &mut W,
    buffer: &mut String,
    numbers: &[u32],
) -> Result<()>
    ensures text { OnOk result (Grows (W.contents writer.old) (string_bytes buffer.old)
        (W.contents writer.new) (string_bytes buffer.new)
        (compact_text (written_list written_number numbers.now))) }
    ensures small { OnOk result (AllByRecursion FitsU32 numbers.now) }
    ensures error { IfErr result (λ e. UnlessMemory e (IsIo e)) }
{
    put(writer, buffer, "[")?;
    let mut later = false;
    for number in numbers {
        put_comma(buffer, later)?;
        put_number(alloc, writer, buffer, *number)?;
        later = true;
    }
    put(writer, buffer, "]")
}
