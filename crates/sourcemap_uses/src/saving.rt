//! Encodes a map of any kind, so that it can be read again.
ghost use Rattle.std.specs.Prelude.{◌≤◌, IfOk, IsOkUnless};
ghost use Rattle.sourcemap.specs.AnyMap.{levels, map_tree};
ghost use Rattle.sourcemap.specs.Decoder.{BytesDecode};
ghost use Rattle.sourcemap.specs.Encoder.{ReadsBack};
ghost use Rattle.sourcemap.specs.TreeEncoder.{Restores};
ghost use Rattle.sourcemap.specs.Trees.{IsWellFormed};
ghost use Rattle.sourcemap.specs.declared.errors.Error.TheVariants.{OutOfMemory};

use sourcemap::encoder::encode_to_vec;
use sourcemap::laws::{encoded_texts_read_back, maps_of_forty_levels_are_shallow};
use sourcemap::{DecodedMap, Result};
use std::alloc::Global;

/// Encodes a map. If the map is well-formed, and index maps are nested at most 40 levels deep (the
/// outermost index map is level 1), the bytes decode to a map with the same meaning at every
/// position. The decoded map is of the same kind and has the same fields and sections. Only three
/// things may be missing: tokens equal to the token before them, name ids that name nothing, and
/// contents that belong to no source. The only error is `OutOfMemory`.
pub fn save(alloc: Global, map: &DecodedMap) -> Result<Vec<u8>>
    ensures reads_back { IfOk result (λ text. IsWellFormed (map_tree map.now)
        → levels (map_tree map.now) ≤ 40
        → ReadsBack (BytesDecode text.items) (Restores (map_tree map.now))) }
    ensures memory { IsOkUnless result OutOfMemory }
{
    encoded_texts_read_back();
    maps_of_forty_levels_are_shallow();
    // prover: clauses of a call after `?`
    let text = encode_to_vec(alloc, map)?;
    Ok(text)
}
