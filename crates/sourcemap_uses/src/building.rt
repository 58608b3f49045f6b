//! Builds a map from tokens, writes it, reads it back and looks up a position.
ghost use Rattle.std.specs.Prelude.{◌≡◌, ◌∷◌, [], None, IfOk, IsOkUnless, option_map};
ghost use Rattle.sourcemap.specs.AnyMap.{map_tree};
ghost use Rattle.sourcemap.specs.Decoder.{BytesDecode};
ghost use Rattle.sourcemap.specs.Encoder.{ReadsBack};
ghost use Rattle.sourcemap.specs.Tokens.{AllWithin};
ghost use Rattle.sourcemap.specs.TreeEncoder.{Restores};
ghost use Rattle.sourcemap.specs.Trees.{IsInOrder, leaf, meaning as meaning_of, regular};
ghost use Rattle.sourcemap.specs.Types.{made_of, meaning};
ghost use Rattle.sourcemap.specs.declared.errors.Error.TheVariants.{OutOfMemory};
ghost use Rattle.sourcemap_uses.specs.Building.{source_position};

use sourcemap::encoder::encode_to_vec;
use sourcemap::laws::{
    regular_maps_are_of_a_kind, well_formed_maps_are_in_order, written_maps_read_back,
};
use sourcemap::types::RawToken;
use sourcemap::{DecodedMap, Result, SourceMap, decode_slice};
use std::alloc::Global;

/// Builds a map from tokens, writes it, reads it back, and returns the original line and column of
/// a generated position. Both are 4294967295 if the lookup finds a token without a source. Returns
/// `None` if no token is at or before the position. Each token must refer to `source`, which has id
/// 0, or to no source. A token without a source must have 4294967295 as source id, original line
/// and original column. The only error is `OutOfMemory`.
pub fn lookup_once_written(
    alloc: Global,
    source: &str,
    tokens: Vec<RawToken>,
    line: u32,
    col: u32,
) -> Result<Option<(u32, u32)>>
    requires { AllWithin 1 0 tokens.items }
    ensures position { IfOk result (λ found. found ≡ option_map source_position
        (meaning (made_of None tokens.items [] (source.now ∷ []) []) (line, col))) }
    ensures memory { IsOkUnless result OutOfMemory }
{
    well_formed_maps_are_in_order();
    let text = write_tokens(alloc, source, tokens)?;
    let map = decode_slice(alloc, text.as_slice())?;
    Ok(lookup_source_position(&map, line, col))
}

fn lookup_source_position(map: &DecodedMap, line: u32, col: u32) -> Option<(u32, u32)>
    ensures { IsInOrder (map_tree map.now)
        → result ≡ option_map source_position (meaning_of (map_tree map.now) (line, col)) }
{
    match map.lookup_token(line, col) {
        None => None,
        Some(token) => Some(token.get_src()),
    }
}

/// Returns the encoded map of these tokens. Each token must refer to `source`, which has id 0, or
/// to no source. A token without a source must have 4294967295 as source id, original line and
/// original column. The bytes decode to the map, but without name ids, and without each token that
/// equals the token before it in all fields. The only error is `OutOfMemory`.
pub fn write_tokens(alloc: Global, source: &str, tokens: Vec<RawToken>) -> Result<Vec<u8>>
    requires { AllWithin 1 0 tokens.items }
    ensures reads_back { IfOk result (λ text. ReadsBack (BytesDecode text.items)
        (Restores (leaf (regular (made_of None tokens.items [] (source.now ∷ []) []))))) }
    ensures memory { IsOkUnless result OutOfMemory }
{
    written_maps_read_back();
    regular_maps_are_of_a_kind();
    let sources = vec![in alloc; String::from_str(alloc, source)?]?;
    let map = SourceMap::new(alloc, None, tokens, Vec::new(alloc), sources, None)?;
    // prover: clauses of a call after `?`
    let text = encode_to_vec(alloc, &map)?;
    Ok(text)
}
