//! Whole maps: copied, compared, printed, converted to a JSON value and back, rewritten.

use crate::call::MapCall;
use crate::encoding::{count_encoded, count_encoded_in_parts, measure_data_url};
use crate::lines::{contents_size, source_size, split_first_line};
use sourcemap::{DecodedMap, Result, RewriteOptions, SourceMap, decode_slice};
use std::alloc::Global;
use std::env;
use std::env::Env;
use std::rt::Files;

/// Makes a call on a whole map, with `bytes` as the input of the call. `Copy` and `Value` compare
/// two maps, and return 1 if the maps are equal, else 0. Each other call returns a byte count: of
/// the written or printed map, of all sources (`RewriteStripping`), or of all contents
/// (`RewriteLoading`).
pub fn size_of<R: Files + Env + AllocGlobal>(
    rt: &R,
    alloc: Global,
    call: MapCall,
    bytes: &[u8],
) -> Result<usize> {
    match call {
        MapCall::Encode => count_encoded(alloc, bytes),
        MapCall::EncodeInParts => count_encoded_in_parts(alloc, bytes),
        MapCall::ToDataUrl => measure_data_url(alloc, bytes),
        MapCall::Copy => copy(alloc, bytes),
        MapCall::Print => print(alloc, bytes),
        MapCall::Value => read_back(alloc, bytes),
        MapCall::RewriteStripping => rewrite_stripping(rt, alloc, bytes),
        MapCall::RewriteLoading => rewrite_loading(rt, alloc, bytes),
    }
}

/// The number of bytes of a map as `Debug` prints it.
pub fn debug_size(alloc: Global, map: &DecodedMap) -> Result<usize> {
    Ok(format!(in alloc; "{map:?}")?.len())
}

pub fn equals_copy(map: &DecodedMap) -> Result<bool> {
    Ok(map.clone()? == *map)
}

/// Converts `map` to a JSON value, and reads a second map from this value. Returns whether the two
/// maps are equal.
pub fn equals_read_back(alloc: Global, map: &DecodedMap) -> Result<bool> {
    let value = map.to_value()?;
    Ok(DecodedMap::from_value(alloc, &value)? == *map)
}

// 1 if a copy of the map in `bytes` equals that map, else 0.
fn copy(alloc: Global, bytes: &[u8]) -> Result<usize> {
    let map = decode_slice(alloc, bytes)?;
    Ok(usize::from(equals_copy(&map)?))
}

// Decodes a map, and returns the number of bytes that `Debug` prints of it.
fn print(alloc: Global, bytes: &[u8]) -> Result<usize> {
    let map = decode_slice(alloc, bytes)?;
    debug_size(alloc, &map)
}

// Converts the map in `bytes` to a JSON value, and reads a second map from this value. Returns 1 if
// the two maps are equal, else 0.
fn read_back(alloc: Global, bytes: &[u8]) -> Result<usize> {
    let map = decode_slice(alloc, bytes)?;
    Ok(usize::from(equals_read_back(alloc, &map)?))
}

// Makes one rewrite of the regular map on the first line. `strip_prefixes` holds all lines after
// the first. Returns the byte count of the sources of the rewritten map.
fn rewrite_stripping<F: Files>(rt: &F, alloc: Global, bytes: &[u8]) -> Result<usize> {
    let (line, text) = split_first_line(bytes)?;
    let map = SourceMap::from_slice(alloc, line.as_bytes())?;
    let prefixes: Vec<&str> = text.lines().collect(alloc)?;
    let options = RewriteOptions {
        strip_prefixes: prefixes.as_slice(),
        ..RewriteOptions::default()
    };
    Ok(source_size(&map.rewrite(rt, &options)?))
}

// Rewrites a regular map, and loads missing contents from files. Sources are resolved against
// `sourceRoot`, then against the current folder. Returns the byte count of all contents.
fn rewrite_loading<R: Files + Env + AllocGlobal>(
    rt: &R,
    alloc: Global,
    bytes: &[u8],
) -> Result<usize> {
    let map = SourceMap::from_slice(alloc, bytes)?;
    let folder = env::current_dir(rt)?.into_string();
    let options = RewriteOptions {
        load_local_source_contents: true,
        current_dir: Some(folder.as_str()),
        ..RewriteOptions::default()
    };
    Ok(contents_size(&map.rewrite(rt, &options)?))
}
