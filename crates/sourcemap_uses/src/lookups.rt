//! Original positions of generated positions and stack frames.
ghost use Rattle.std.specs.Prelude.{◌≡◌, ◌<◌, ◌-◌, Err, IfOk, IfErr, IsOkUnless, option_map, string_bytes};
ghost use Rattle.sourcemap.specs.Answer.{UnlessMemory};
ghost use Rattle.sourcemap.specs.AnyMap.{map_tree};
ghost use Rattle.sourcemap.specs.Decoder.{BytesDecode};
ghost use Rattle.sourcemap.specs.Token.{token_text};
ghost use Rattle.sourcemap.specs.Trees.{IsInOrder, meaning};
ghost use Rattle.sourcemap.specs.declared.errors.Error.TheVariants.{OutOfMemory};
ghost use Rattle.sourcemap_uses.specs.Lookups.{IsLookupText};

use sourcemap::laws::well_formed_maps_are_in_order;
use sourcemap::{DecodedMap, Result, decode_slice};
use std::alloc::Global;

/// Returns the original position of a generated position, by the map in `bytes`, as text:
/// `source:line:column`, and ` name=NAME` if there is a name. A missing source is printed as
/// `<unknown>`. Returns `None` if the map has no token for the position. Lines and columns count
/// from 0, columns in UTF-16 units. Returns the errors of `decode_slice`.
pub fn lookup_text(alloc: Global, bytes: &[u8], line: u32, col: u32) -> Result<Option<String>>
    ensures position { IfOk result
        (λ text. IsLookupText bytes.now (line, col) (option_map string_bytes text)) }
    ensures error { IfErr result (λ e. UnlessMemory e (BytesDecode bytes.now (Err e))) }
{
    well_formed_maps_are_in_order();
    // prover: error passed on by `match`
    match decode_slice(alloc, bytes) {
        Ok(map) => text_at(alloc, &map, line, col),
        Err(error) => Err(error),
    }
}

fn text_at(alloc: Global, map: &DecodedMap, line: u32, col: u32) -> Result<Option<String>>
    ensures text { IfOk result (λ text. IsInOrder (map_tree map.now)
        → option_map string_bytes text
        ≡ option_map token_text (meaning (map_tree map.now) (line, col))) }
    ensures memory { IsOkUnless result OutOfMemory }
{
    match map.lookup_token(line, col) {
        None => Ok(None),
        Some(token) => Ok(Some(token.to_string(alloc)?)),
    }
}

/// Returns the result of `lookup_text` for the position of a stack frame. The line and the column
/// of the frame count from 1. Those in the result count from 0.
pub fn frame_text(alloc: Global, bytes: &[u8], line: u32, col: u32) -> Result<Option<String>>
    requires line { 0 < line }
    requires column { 0 < col }
    ensures position { IfOk result
        (λ text. IsLookupText bytes.now (line - 1, col - 1) (option_map string_bytes text)) }
    ensures error { IfErr result (λ e. UnlessMemory e (BytesDecode bytes.now (Err e))) }
{
    lookup_text(alloc, bytes, line - 1, col - 1)
}
