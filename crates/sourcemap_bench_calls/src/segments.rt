//! Parses and writes a segment. Finds an identifier.

use sourcemap::Result;
use sourcemap::js_identifiers::get_javascript_token;
use sourcemap::vlq::{generate_vlq_segment, parse_vlq_segment};
use std::alloc::Global;
use std::str;

/// Parses a segment, and writes its numbers as a segment again. Returns the byte count of the
/// written segment.
pub fn segment_size(alloc: Global, bytes: &[u8]) -> Result<usize> {
    let numbers = parse_vlq_segment(alloc, str::from_utf8(bytes)?)?;
    let segment = generate_vlq_segment(alloc, numbers.as_slice())?;
    Ok(segment.len())
}

/// The byte count of the longest identifier at the start of a text. Leading white space is skipped
/// and not counted. Returns 0 if the rest of the text does not start with an identifier. The only
/// error is `Utf8`, if `bytes` are not UTF-8.
pub fn identifier_size(bytes: &[u8]) -> Result<usize> {
    let found = get_javascript_token(str::from_utf8(bytes)?);
    Ok(found.map_or(0, |name| name.len()))
}
