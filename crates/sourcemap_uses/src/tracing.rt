//! Traces by maps that were stored as JSON values or as bytes, and by flattened maps.
ghost use Rattle.std.specs.Prelude.{Err, IfErr, IfOk, Ok, string_bytes};
ghost use Rattle.serde_json.specs.View.{view};
ghost use Rattle.sourcemap.specs.Answer.{Gives, UnlessMemory};
ghost use Rattle.sourcemap.specs.AnyMap.{index_value, map_tree};
ghost use Rattle.sourcemap.specs.Decoder.{BytesDecode, ValueDecodes};
ghost use Rattle.sourcemap.specs.Encoder.{ReadsBack};
ghost use Rattle.sourcemap.specs.Flat.{FlatAnswer};
ghost use Rattle.sourcemap.specs.TreeEncoder.{Restores};
ghost use Rattle.sourcemap.specs.Trees.{IsWellFormed, MapTree, index_tree, meaning};
ghost use Rattle.sourcemap_trace.specs.Trace.{trace_of};
ghost use Rattle.sourcemap_uses.specs.Tracing.{IsFlatTrace};

use serde_json::Value;
use sourcemap::encoder::encode_to_vec;
use sourcemap::laws::{
    regular_maps_are_of_a_kind, well_formed_maps_are_in_order, written_maps_read_back,
};
use sourcemap::{DecodedMap, Result, SourceMapIndex, decode_slice};
use sourcemap_trace::trace::{flat_maps_answer_alike, maps_read_back_answer_alike};
use sourcemap_trace::trace_text;
use std::alloc::Global;

/// Returns the answers to a list of positions, as `trace_text` does, by the map in a JSON value. If
/// `DecodedMap::to_value` wrote the value for a well-formed map, the answers are those of that map,
/// and the only error is `OutOfMemory`.
pub fn trace_value(alloc: Global, value: &Value, positions: &[u8]) -> Result<String>
    ensures { (t : MapTree) → ReadsBack (ValueDecodes (view value.now)) (Restores t)
        → Gives string_bytes result (Ok (trace_of (meaning t) positions.now)) }
{
    well_formed_maps_are_in_order();
    maps_read_back_answer_alike();
    match DecodedMap::from_value(alloc, value) {
        Ok(map) => trace_text(alloc, &map, positions),
        Err(error) => Err(error),
    }
}

/// Stores a map as a JSON value, and returns the answers of the stored map to a list of positions.
/// If the map is well-formed, as every decoded map is, the answers are those of the map itself, and
/// the only error is `OutOfMemory`.
pub fn trace_stored(alloc: Global, map: &DecodedMap, positions: &[u8]) -> Result<String>
    ensures { IsWellFormed (map_tree map.now) → Gives string_bytes result
        (Ok (trace_of (meaning (map_tree map.now)) positions.now)) }
{
    let value = map.to_value()?;
    trace_value(alloc, &value, positions)
}

/// Returns the answers to a list of positions, as `trace_text` does, by the map that bytes decode to.
/// If the bytes are the text of a map and read back as it, the answers are those of that map, and
/// the only error is `OutOfMemory`.
pub fn trace_bytes(alloc: Global, bytes: &[u8], positions: &[u8]) -> Result<String>
    ensures { (t : MapTree) → ReadsBack (BytesDecode bytes.now) (Restores t)
        → Gives string_bytes result (Ok (trace_of (meaning t) positions.now)) }
{
    well_formed_maps_are_in_order();
    maps_read_back_answer_alike();
    match decode_slice(alloc, bytes) {
        Ok(map) => trace_text(alloc, &map, positions),
        Err(error) => Err(error),
    }
}

/// Flattens an index map, writes the flat map, reads it back, and returns its answers to a list of
/// positions. Suppose that the index map is well-formed, as every decoded map is, and that no
/// section reaches into the next one at any level. Then each answer is that of the index map, unless
/// the answer of the index map is `none`. For a well-formed index map the errors are those of
/// `SourceMapIndex::flatten`.
pub fn trace_flat(alloc: Global, index: &SourceMapIndex, positions: &[u8]) -> Result<String>
    ensures text { IsWellFormed (index_tree (index_value index.now)) → IfOk result (λ text.
        IsFlatTrace (index_tree (index_value index.now)) positions.now (string_bytes text)) }
    ensures error { IsWellFormed (index_tree (index_value index.now)) → IfErr result
        (λ e. UnlessMemory e (FlatAnswer (index_tree (index_value index.now)) (Err e))) }
{
    flat_maps_answer_alike();
    written_maps_read_back();
    regular_maps_are_of_a_kind();
    let flat = index.flatten()?;
    let text = encode_to_vec(alloc, &flat)?;
    trace_bytes(alloc, text.as_slice(), positions)
}
