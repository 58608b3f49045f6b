//! Texts of debug ids.
ghost use Rattle.std.specs.Prelude.{◌≡◌, None, Some};
ghost use Rattle.std.specs.Str.{IsUtf8};
ghost use Rattle.sourcemap_headers.specs.DebugId.{debug_id_of, debug_id_text};
ghost use Rattle.sourcemap_c_handles.specs.Handles.{held_in};
ghost use Rattle.sourcemap_c.specs.Codes.{Answers, Does, NoError, OfLibrary, ReturnsValue};
ghost use Rattle.sourcemap_c.specs.Kinds.{bytes_in};

use crate::codes::{ABSENT, OK, text_in};
use crate::kinds::put_bytes;
use sourcemap::Error;
use sourcemap::jsontypes::DebugId;
use sourcemap_c_handles::Handle;
use sourcemap_c_handles::errors::{ErrorReport, Failure, Outcome, finish};
use sourcemap_c_handles::layout::IdBytes;
use std::alloc::Global;

/// Fills `text` with the text of a debug id.
#[unsafe(no_mangle)]
pub extern "C" fn sm_debug_id_text(
    alloc: Global,
    id: &IdBytes,
    text: &mut Handle,
    error: &mut ErrorReport,
) -> u32
    ensures { Answers result error.old error.new
        (bytes_in (held_in text.new) ≡ Some (debug_id_text id.now.bytes)) (OfLibrary NoError)
        (held_in text.new ≡ held_in text.old) }
{
    finish(alloc, put_id_text(alloc, id.to_id(), text), error)
}

fn put_id_text(alloc: Global, id: DebugId, text: &mut Handle) -> Outcome<()>
    ensures { Does result (bytes_in (held_in text.new) ≡ Some (debug_id_text id)) (OfLibrary NoError)
        (held_in text.new ≡ held_in text.old) }
{
    match id.to_string(alloc) {
        Ok(printed) => put_bytes(alloc, text, printed.into_bytes()),
        Err(_) => Err(Failure::Library(Error::OutOfMemory)),
    }
}

/// Parses the text of a debug id, with or without hyphens, and writes the id. Returns `SM_ABSENT`
/// for any other text.
#[unsafe(no_mangle)]
pub extern "C" fn sm_parse_debug_id(text: &[u8], id: &mut IdBytes) -> u32
    ensures id { IsUtf8 text.now → ReturnsValue (Some (debug_id_of text.now)) result id.old.bytes id.new.bytes }
    ensures no_text { ¬ IsUtf8 text.now → ReturnsValue (Some None) result id.old.bytes id.new.bytes }
{
    match id_in(text) {
        Some(found) => {
            *id = IdBytes::of_id(found);
            OK
        }
        None => ABSENT,
    }
}

fn id_in(text: &[u8]) -> Option<DebugId>
    ensures id { IsUtf8 text.now → result ≡ debug_id_of text.now }
    ensures no_text { ¬ IsUtf8 text.now → result ≡ None }
{
    match text_in(text) {
        Ok(text) => DebugId::parse(text),
        Err(_) => None,
    }
}
