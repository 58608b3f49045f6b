//! Relative paths and common prefixes.

use sourcemap::Result;
use sourcemap::utils::{find_common_prefix, make_relative_path};
use std::alloc::Global;
use std::str;

/// The byte count of the relative path from a base to a target (see `make_relative_path`). The base
/// is the first line, and the target is the text after that line. Without a `\n`, the base and the
/// target are both the whole text. Returns `Utf8` if `bytes` are not UTF-8. The only other error is
/// `OutOfMemory`.
pub fn relative(alloc: Global, bytes: &[u8]) -> Result<usize> {
    let text = str::from_utf8(bytes)?;
    let (base, target) = text.split_once('\n').unwrap_or((text, text));
    let path = make_relative_path(alloc, base, target)?;
    Ok(path.len())
}

/// Calls `find_common_prefix` with all lines; lines that are not absolute paths are ignored.
/// Returns the byte count of the common prefix, or 0 if `find_common_prefix` returns `None`.
/// Returns `Utf8` if `bytes` are not UTF-8. The only other error is `OutOfMemory`.
pub fn prefix(alloc: Global, bytes: &[u8]) -> Result<usize> {
    let common = find_common_prefix(alloc, str::from_utf8(bytes)?.lines())?;
    Ok(common.map_or(0, |path| path.len()))
}
