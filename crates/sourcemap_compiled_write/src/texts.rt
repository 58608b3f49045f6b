//! The text table, and the texts.
ghost use Rattle.std.specs.Prelude.{◌≡◌, ◌+◌, ◌<◌, ◌^◌, ◌++◌, IfOk, OnOk, length, map, min};
ghost use Rattle.std.specs.List.{flat_map};
ghost use Rattle.byteorder.specs.Endian.{little_bytes};
ghost use Rattle.sourcemap_compiled_write.specs.TextValues.{text_value};
ghost use Rattle.sourcemap_compiled_write.specs.Texts.{text_bytes, text_offsets, texts_bytes};

use std::alloc::AllocError;

/// Returns how many bytes a text takes.
fn size_of(text: Option<&str>) -> u64
    ensures { result ≡ length (text_bytes (text_value text.entry)) }
{
    match text {
        Some(text) => text.len() as u64 + 1,
        None => 0,
    }
}

/// Returns `start` plus the bytes that texts take, but at most 18446744073709551615.
pub(crate) fn add_sizes(start: u64, texts: &[Option<&str>]) -> u64
    ensures { result ≡ min (start + length (texts_bytes (map text_value texts.now))) 18446744073709551615 }
{
    let mut size = start;
    for text in texts {
        size = size.saturating_add(size_of(*text));
    }
    size
}

/// Appends where each text starts, if the first one starts at `offset`. Returns where the last one
/// ends.
pub(crate) fn push_offsets(
    out: &mut Vec<u8>,
    offset: u32,
    texts: &[Option<&str>],
) -> Result<u32, AllocError>
    requires { offset + length (texts_bytes (map text_value texts.now)) < 2 ^ 32 }
    ensures end { IfOk result (λ end. end ≡ offset + length (texts_bytes (map text_value texts.now))) }
    ensures table { OnOk result (out.new.items
        ≡ out.old.items ++ flat_map (little_bytes 4) (text_offsets offset (map text_value texts.now))) }
{
    let mut at = offset;
    for text in texts {
        out.extend_from_slice(&at.to_le_bytes())?;
        at += size_of(*text) as u32;
    }
    Ok(at)
}

fn push_text(out: &mut Vec<u8>, text: Option<&str>) -> Result<(), AllocError>
    ensures { OnOk result (out.new.items ≡ out.old.items ++ text_bytes (text_value text.entry)) }
{
    if let Some(text) = text {
        out.extend_from_slice(text.as_bytes())?;
        out.extend_from_slice(&[0])?;
    }
    Ok(())
}

/// Appends texts, each with its zero byte.
pub(crate) fn push_texts(out: &mut Vec<u8>, texts: &[Option<&str>]) -> Result<(), AllocError>
    ensures { OnOk result (out.new.items ≡ out.old.items ++ texts_bytes (map text_value texts.now)) }
{
    for text in texts {
        push_text(out, *text)?;
    }
    Ok(())
}
