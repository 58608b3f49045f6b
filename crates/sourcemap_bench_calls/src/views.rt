//! Measured calls on `SourceView`: a walk over tokens, the lines of a text, and slices of lines.

use sourcemap::{Result, SourceMap, SourceView};
use std::alloc::Global;
use std::str;

/// Walks over all tokens of a map, from the last to the first. `SourceView::rev_token_iter` finds
/// the identifier at the generated position of each token. Returns the byte count of all these
/// identifiers. The map is on the first line of the input, and the generated text is after that
/// line. Input without a `\n` is treated as empty. Returns `Utf8` if the input is not UTF-8. The
/// other errors come from `SourceMap::from_slice` and `SourceView::new`.
pub fn walk_tokens(alloc: Global, bytes: &[u8]) -> Result<usize> {
    let (line, text) = str::from_utf8(bytes)?.split_once('\n').unwrap_or_default();
    let map = SourceMap::from_slice(alloc, line.as_bytes())?;
    let view = SourceView::new(alloc, text)?;
    Ok(walk_size(&map, &view))
}

fn walk_size(map: &SourceMap, view: &SourceView) -> usize {
    let mut size = 0usize;
    if let Some(last) = map.tokens().last() {
        for (_token, identifier) in view.rev_token_iter(last) {
            size = size.wrapping_add(identifier.map_or(0, |name| name.len()));
        }
    }
    size
}

/// The number of lines of a text, plus the byte count of all lines.
pub fn view_lines(alloc: Global, bytes: &[u8]) -> Result<usize> {
    let view = SourceView::new(alloc, str::from_utf8(bytes)?)?;
    let mut size = view.line_count();
    for line in view.lines() {
        size = size.wrapping_add(line.len());
    }
    Ok(size)
}

// The byte count of a slice of a line. The slice starts at column n and spans n columns, where n is
// an eighth of the byte count of the line, rounded down. 0 if the line does not exist or has fewer
// than 2n columns.
fn slice_size(view: &SourceView, line: u32) -> usize {
    let length = view.get_line(line).map_or(0, |text| text.len());
    let eighth = u32::try_from(length / 8).unwrap_or(u32::MAX);
    let slice = view.get_line_slice(line, eighth, eighth);
    slice.map_or(0, |text| text.len())
}

/// The number of lines of a text, plus the byte count of one slice of each line. `slice_size`
/// chooses the slice.
pub fn slice_lines(alloc: Global, bytes: &[u8]) -> Result<usize> {
    let view = SourceView::new(alloc, str::from_utf8(bytes)?)?;
    let mut size = view.line_count();
    for line in 0..u32::try_from(view.line_count()).unwrap_or(u32::MAX) {
        size = size.wrapping_add(slice_size(&view, line));
    }
    Ok(size)
}
