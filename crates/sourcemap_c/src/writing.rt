//! Encoding of maps.
ghost use Rattle.std.specs.Prelude.{◌≡◌, Some, option_map};
ghost use Rattle.std.specs.Borrow.{sem};
ghost use Rattle.std.specs.Option.{option_copied};
ghost use Rattle.sourcemap_c_handles.specs.Handles.{EndsAsBefore, held_in};
ghost use Rattle.sourcemap_c.specs.Codes.{Answers, Does, ReturnsValue};
ghost use Rattle.sourcemap_c.specs.Kinds.{bytes_in, tree_in};
ghost use Rattle.sourcemap_c.specs.Writing.{FillsFrom, HoldsText, HoldsUrl};

use crate::codes::{OK, WRONG_KIND};
use crate::kinds::{map_in, put_bytes};
use sourcemap::decoder::data_url;
use sourcemap::encoder::encode_to_vec;
use sourcemap_c_handles::errors::{ErrorReport, Failure, Outcome, finish};
use sourcemap_c_handles::{Handle, Held};
use std::alloc::Global;

/// Fills `text` with the JSON text of the map.
#[unsafe(no_mangle)]
pub extern "C" fn sm_write(
    alloc: Global,
    map: &mut Handle,
    text: &mut Handle,
    error: &mut ErrorReport,
) -> u32
    ensures written { FillsFrom (Answers result error.old error.new) HoldsText (tree_in (held_in map.old)) (held_in text.old) (held_in text.new) }
    ensures kept { held_in map.new ≡ held_in map.old }
{
    finish(alloc, write(alloc, map, text), error)
}

fn write(alloc: Global, map: &mut Handle, text: &mut Handle) -> Outcome<()>
    ensures written { FillsFrom (Does result) HoldsText (tree_in (held_in map.old)) (held_in text.old) (held_in text.new) }
    ensures kept { held_in map.new ≡ held_in map.old }
{
    match map_in(map) {
        Some(map) => put_bytes(alloc, text, encode_to_vec(alloc, map)?),
        None => Err(Failure::WrongKind),
    }
}

/// Fills `text` with the data URL of the map.
#[unsafe(no_mangle)]
pub extern "C" fn sm_write_url(
    alloc: Global,
    map: &mut Handle,
    text: &mut Handle,
    error: &mut ErrorReport,
) -> u32
    ensures written { FillsFrom (Answers result error.old error.new) HoldsUrl (tree_in (held_in map.old)) (held_in text.old) (held_in text.new) }
    ensures kept { held_in map.new ≡ held_in map.old }
{
    finish(alloc, write_url(alloc, map, text), error)
}

fn write_url(alloc: Global, map: &mut Handle, text: &mut Handle) -> Outcome<()>
    ensures written { FillsFrom (Does result) HoldsUrl (tree_in (held_in map.old)) (held_in text.old) (held_in text.new) }
    ensures kept { held_in map.new ≡ held_in map.old }
{
    match map_in(map) {
        Some(map) => {
            let encoded = encode_to_vec(alloc, map)?;
            let url = data_url(alloc, encoded.as_slice())?;
            put_bytes(alloc, text, url.into_bytes())
        }
        None => Err(Failure::WrongKind),
    }
}

/// Borrows the text that an earlier call, for example `sm_write`, put into the handle `bytes`.
/// Returns `SM_WRONG_KIND` if the handle holds no such text.
#[unsafe(no_mangle)]
pub extern "C" fn sm_bytes_text<'a>(bytes: &'a mut Handle, text: &mut &'a [u8]) -> u32
    ensures* after { sem 𝓛 (EndsAsBefore bytes.entry) }
    ensures value { ReturnsValue (option_map (λ held. Some held) (bytes_in (held_in bytes.old)))
        result text.old.now text.new.now }
{
    put_held(bytes.get(), text)
}

fn put_held<'a>(held: Option<&'a Held>, text: &mut &'a [u8]) -> u32
    ensures { ReturnsValue (option_map (λ held. Some held) (bytes_in (option_copied held.entry)))
        result text.old.now text.new.now }
{
    match held {
        Some(Held::Bytes(bytes)) => {
            *text = bytes.as_slice();
            OK
        }
        _ => WRONG_KIND,
    }
}
