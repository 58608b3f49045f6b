//! Splits the input and parses numbers. Counts the bytes of a map's sources and contents.

use sourcemap::{Result, SourceMap};
use std::str;

/// Returns the text before the first `\n` and the text after it, or two empty texts if there is no
/// `\n`. Returns `Utf8` if the bytes are not UTF-8.
pub fn split_first_line(bytes: &[u8]) -> Result<(&str, &str)> {
    Ok(str::from_utf8(bytes)?.split_once('\n').unwrap_or_default())
}

/// The decimal number that a line consists of; 0 if the line is not a number below 2^32.
pub fn number_in(line: &str) -> u32 {
    line.parse().unwrap_or(0)
}

/// The byte count of all sources.
pub fn source_size(map: &SourceMap) -> usize {
    let mut size = 0usize;
    for source in map.sources() {
        size = size.wrapping_add(source.len());
    }
    size
}

/// The byte count of all contents.
pub fn contents_size(map: &SourceMap) -> usize {
    let mut size = 0usize;
    for contents in map.source_contents() {
        size = size.wrapping_add(contents.map_or(0, |text| text.len()));
    }
    size
}
