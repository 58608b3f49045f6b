//! Looks up a function name for each token of a Hermes map.

use sourcemap::{Result, SourceMapHermes};
use std::alloc::Global;

/// For each token of a Hermes map, looks up the name of the function at the original position (see
/// `get_scope_for_token`). Returns the byte count of all names found.
pub fn name_size(alloc: Global, bytes: &[u8]) -> Result<usize> {
    let map = SourceMapHermes::from_slice(alloc, bytes)?;
    let mut size = 0usize;
    for token in map.tokens() {
        let name = map.get_scope_for_token(token);
        size = size.wrapping_add(name.map_or(0, |name| name.len()));
    }
    Ok(size)
}

/// Takes the generated column of each token as a bytecode offset. Returns the byte count of the
/// names of the functions at these offsets.
pub fn bytecode_name_size(alloc: Global, bytes: &[u8]) -> Result<usize> {
    let map = SourceMapHermes::from_slice(alloc, bytes)?;
    let mut size = 0usize;
    for token in map.tokens() {
        let name = map.get_original_function_name(token.get_dst_col());
        size = size.wrapping_add(name.map_or(0, |name| name.len()));
    }
    Ok(size)
}
