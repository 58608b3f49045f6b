//! The timed operations.
ghost use Rattle.std.specs.Prelude.{◌≡◌, ℕ, ◌<◌, IfOk, length, min};
ghost use Rattle.sourcemap.specs.AnyMap.{index_value, map_tree};
ghost use Rattle.sourcemap.specs.Trees.{index_tree};
ghost use Rattle.sourcemap_bench.specs.Work.{LengthOfText, RoundGives, RoundsGive, SizeOfAdjusted, SizeOfDecoded, SizeOfFlat, size};

use crate::command::Operation;
use crate::draws::drawn_positions;
use crate::sums::{add_count, add_to_sum, lookup_sum, token_sum};
use sourcemap::encoder::encode_to_vec;
use sourcemap::{
    DecodedMap, Error, Result, RewriteOptions, SourceMap, SourceMapIndex, decode, decode_slice,
};
use sourcemap_cli::maps::into_regular;
use std::alloc::Global;
use std::rt::Files;

/// The input of an operation.
// prover: one drop
#[derive(Drop)]
pub enum Work {
    /// The bytes to decode from a slice.
    Decode(Vec<u8>),
    /// The bytes to decode from a reader.
    DecodeReader(Vec<u8>),
    /// The map and the generated positions to look up.
    Lookup(Box<DecodedMap>, Vec<(u32, u32)>),
    /// The map whose tokens are iterated.
    Tokens(Box<SourceMap>),
    /// The map to encode.
    Encode(Box<DecodedMap>),
    /// The map to copy and rewrite.
    Rewrite(Box<SourceMap>),
    /// The index map to flatten.
    Flatten(Box<SourceMapIndex>),
    /// The map to copy and adjust, and the map that `adjust_mappings` takes as `adjustment`.
    Compose(Box<SourceMap>, Box<SourceMap>),
}

fn map_of(alloc: Global, bytes: &[u8]) -> Result<Box<DecodedMap>> {
    Ok(Box::new(alloc, decode_slice(alloc, bytes)?)?)
}

fn regular_map(alloc: Global, bytes: &[u8]) -> Result<Box<SourceMap>> {
    Ok(Box::new(alloc, into_regular(decode_slice(alloc, bytes)?)?)?)
}

// The regular maps on the first two lines of `bytes`, one on each line. A missing line counts as
// empty.
fn regular_maps(alloc: Global, bytes: &[u8]) -> Result<(Box<SourceMap>, Box<SourceMap>)> {
    let mut lines = bytes.split(|byte| *byte == b'\n');
    let first = regular_map(alloc, lines.next().unwrap_or_default())?;
    let second = regular_map(alloc, lines.next().unwrap_or_default())?;
    Ok((first, second))
}

fn index_of(alloc: Global, bytes: Vec<u8>) -> Result<Box<SourceMapIndex>> {
    match decode_slice(alloc, bytes.as_slice())? {
        DecodedMap::Index(index) => Ok(Box::new(alloc, index)?),
        _ => Err(Error::IncompatibleSourceMap),
    }
}

// The positions that `drawn_positions` draws from the map. If the map is an index map, the
// positions are drawn from the flattened map.
fn positions_in(alloc: Global, map: &DecodedMap) -> Result<Vec<(u32, u32)>> {
    match map {
        DecodedMap::Regular(map) => drawn_positions(alloc, map),
        DecodedMap::Hermes(map) => drawn_positions(alloc, map),
        DecodedMap::Index(index) => {
            let flat = index.flatten()?;
            drawn_positions(alloc, &flat)
        }
    }
}

/// Prepares the input of an operation. For `Compose`, `bytes` has two maps, one on each of the
/// first two lines. For any other operation, `bytes` has one map. For `Decode` and `DecodeReader`,
/// the input is `bytes`, not yet decoded, and there is no error. For all other operations, the maps
/// are decoded. For `Lookup`, `drawn_positions` then draws generated positions. If the map is an
/// index map, the positions are drawn from the flattened map.
///
/// Returns the errors of `decode_slice`. The error is `IncompatibleSourceMap` if a map of `Tokens`,
/// `Rewrite` or `Compose` is not regular, or if the map of `Flatten` is not an index map. `Lookup`
/// of an index map also returns the errors of `SourceMapIndex::flatten`. The only other error is
/// `OutOfMemory`.
pub fn prepare(alloc: Global, operation: Operation, bytes: Vec<u8>) -> Result<Work> {
    match operation {
        Operation::Decode => Ok(Work::Decode(bytes)),
        Operation::DecodeReader => Ok(Work::DecodeReader(bytes)),
        Operation::Lookup => {
            let map = map_of(alloc, bytes.as_slice())?;
            let positions = positions_in(alloc, &*map)?;
            Ok(Work::Lookup(map, positions))
        }
        Operation::Tokens => Ok(Work::Tokens(regular_map(alloc, bytes.as_slice())?)),
        Operation::Encode => Ok(Work::Encode(map_of(alloc, bytes.as_slice())?)),
        Operation::Rewrite => Ok(Work::Rewrite(regular_map(alloc, bytes.as_slice())?)),
        Operation::Flatten => Ok(Work::Flatten(index_of(alloc, bytes)?)),
        Operation::Compose => {
            let (map, adjustment) = regular_maps(alloc, bytes.as_slice())?;
            Ok(Work::Compose(map, adjustment))
        }
    }
}

fn section_count(index: &SourceMapIndex) -> u32
    ensures { result ≡ min (size (index_tree (index_value index.now))) 4294967295 }
{
    index.get_section_count()
}

// The number of top-level sections if the map is an index map, otherwise the number of tokens.
// Returns 4294967295 if there are more.
fn size_of(map: &DecodedMap) -> u32
    ensures { result ≡ min (size (map_tree map.now)) 4294967295 }
{
    match map {
        DecodedMap::Regular(map) => map.get_token_count(),
        DecodedMap::Hermes(map) => map.get_token_count(),
        DecodedMap::Index(index) => section_count(index),
    }
}

fn slice_sum(alloc: Global, bytes: &Vec<u8>, sum: u32) -> Result<u32>
    ensures { IfOk result (SizeOfDecoded bytes.now.items sum) }
{
    let map = decode_slice(alloc, bytes.as_slice())?;
    Ok(add_to_sum(sum, size_of(&map)))
}

fn reader_sum(alloc: Global, bytes: &Vec<u8>, sum: u32) -> Result<u32>
    ensures { IfOk result (SizeOfDecoded bytes.now.items sum) }
{
    let map = decode(alloc, bytes.as_slice())?;
    Ok(add_to_sum(sum, size_of(&map)))
}

fn text_sum(alloc: Global, map: &DecodedMap, sum: u32) -> Result<u32>
    ensures { IfOk result (LengthOfText (map_tree map.now) sum) }
{
    let text = encode_to_vec(alloc, map)?;
    Ok(add_count(sum, text.len()))
}

fn flat_sum(index: &SourceMapIndex, sum: u32) -> Result<u32>
    ensures { IfOk result (SizeOfFlat (index_tree (index_value index.now)) sum) }
{
    let flat = index.flatten()?;
    Ok(add_to_sum(sum, flat.get_token_count()))
}

fn adjusted_sum(map: &SourceMap, adjustment: &SourceMap, sum: u32) -> Result<u32>
    ensures { IfOk result (SizeOfAdjusted map.now adjustment.now sum) }
{
    let mut copy = map.clone()?;
    copy.adjust_mappings(adjustment)?;
    Ok(add_to_sum(sum, copy.get_token_count()))
}

fn round<F: Files>(rt: &F, alloc: Global, work: &Work, sum: u32) -> Result<u32>
    ensures { IfOk result (RoundGives work.now sum) }
{
    match work {
        Work::Decode(bytes) => slice_sum(alloc, bytes, sum),
        Work::DecodeReader(bytes) => reader_sum(alloc, bytes, sum),
        Work::Lookup(map, positions) => Ok(lookup_sum(&**map, positions.as_slice(), sum)),
        Work::Tokens(map) => Ok(token_sum(&**map, sum)),
        Work::Encode(map) => text_sum(alloc, &**map, sum),
        Work::Rewrite(map) => {
            let new = (**map).clone()?.rewrite(rt, &RewriteOptions::default())?;
            Ok(add_to_sum(sum, new.get_source_count()))
        }
        Work::Flatten(index) => flat_sum(&**index, sum),
        Work::Compose(map, adjustment) => adjusted_sum(&**map, &**adjustment, sum),
    }
}

/// Repeats an operation and returns the checksum of all rounds.
pub fn repeat_work<F: Files>(rt: &F, alloc: Global, work: &Work, rounds: u32) -> Result<u32>
    ensures { IfOk result (RoundsGive work.now rounds) }
{
    let mut sum = 0;
    for _ in 0..rounds {
        sum = round(rt, alloc, work, sum)?;
    }
    Ok(sum)
}
