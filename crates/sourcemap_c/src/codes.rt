//! Codes for calls that write no error report. Functions that convert arguments of C callers to
//! texts and debug ids, and a function that writes a borrowed text.
ghost use Rattle.std.specs.Prelude.{◌≡◌, MatchResult, Some, true};
ghost use Rattle.std.specs.Option.{option_copied};
ghost use Rattle.std.specs.Str.{IsUtf8};
ghost use Rattle.sourcemap_c.specs.Codes.{IsNoText, IsAbsentUnlessOk, ReturnsValue, text_if};

use sourcemap::Result;
use sourcemap::jsontypes::DebugId;
use sourcemap_c_handles::layout::IdBytes;
use std::str;

pub(crate) const OK: u32 = 0;

pub(crate) const ABSENT: u32 = 32;

pub(crate) const WRONG_KIND: u32 = 33;

/// Returns the bytes as text. The error is `Utf8` if they are not UTF-8.
pub(crate) fn text_in(bytes: &[u8]) -> Result<&str>
    ensures { MatchResult result (λ text. (text.now ≡ bytes.now) × IsUtf8 bytes.now) (IsNoText bytes.now) }
{
    Ok(str::from_utf8(bytes)?)
}

/// If `present` is true, returns the bytes as text; the error is `Utf8` if they are not UTF-8. If
/// `present` is false, returns `None` and does not read the bytes.
pub(crate) fn text_if(present: bool, bytes: &[u8]) -> Result<Option<&str>>
    ensures { MatchResult result (λ text. option_copied text ≡ text_if present bytes.now)
        (λ e. (present ≡ true) × IsNoText bytes.now e) }
{
    if present {
        Ok(Some(text_in(bytes)?))
    } else {
        Ok(None)
    }
}

/// Writes the text and returns `SM_OK`. Without a text, writes nothing and returns `SM_ABSENT`.
pub(crate) fn put_text<'a>(found: Option<&'a str>, text: &mut &'a [u8]) -> u32
    ensures answer { ReturnsValue (Some (option_copied found.entry)) result text.old.now text.new.now }
    ensures unwritten { IsAbsentUnlessOk result text.old.now text.new.now }
{
    match found {
        Some(found) => {
            *text = found.as_bytes();
            OK
        }
        None => ABSENT,
    }
}

/// The debug id if `present` is true, otherwise `None`.
pub(crate) fn id_if(present: bool, id: &IdBytes) -> Option<DebugId>
    ensures { result ≡ text_if present id.now.bytes }
{
    if present { Some(id.to_id()) } else { None }
}
