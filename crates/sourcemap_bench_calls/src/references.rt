//! Locates and resolves references to source maps. Decodes data URLs. Detects source maps.

use sourcemap::detector::EmbeddedSourceMap;
use sourcemap::{
    Error, Result, SourceMapRef, SourceView, decode_data_url, is_sourcemap, is_sourcemap_slice,
    locate_sourcemap_reference, locate_sourcemap_reference_slice,
};
use std::alloc::Global;
use std::str;

fn size_of(found: &Option<SourceMapRef>) -> usize {
    match found {
        Some(reference) => reference.get_url().len(),
        None => 0,
    }
}

/// The byte count of the URL of the reference in a slice, 0 if there is no reference.
pub fn locate_in_slice(alloc: Global, bytes: &[u8]) -> Result<usize> {
    let found = locate_sourcemap_reference_slice(alloc, bytes)?;
    Ok(size_of(&found))
}

/// The byte count of the URL of the reference in a reader, 0 if there is no reference.
pub fn locate_by_reader(alloc: Global, bytes: &[u8]) -> Result<usize> {
    let found = locate_sourcemap_reference(alloc, bytes)?;
    Ok(size_of(&found))
}

/// The byte count of the URL of the reference in a view, 0 if there is no reference.
pub fn locate_by_view(alloc: Global, bytes: &[u8]) -> Result<usize> {
    let view = SourceView::new(alloc, str::from_utf8(bytes)?)?;
    let found = view.sourcemap_reference()?;
    Ok(size_of(&found))
}

/// The byte count of the URL that the reference in a text resolves to. 0 if there is no reference,
/// or if the reference resolves to no URL.
pub fn resolve_reference(alloc: Global, bytes: &[u8]) -> Result<usize> {
    match locate_sourcemap_reference_slice(alloc, bytes)? {
        Some(reference) => {
            let url = reference.resolve("https://example.org/a/b/c.js")?;
            Ok(url.map_or(0, |url| url.len()))
        }
        None => Ok(0),
    }
}

/// The byte count of the path that the reference in a text resolves to. 0 if there is no reference,
/// or if the reference resolves to no path.
pub fn resolve_reference_path(alloc: Global, bytes: &[u8]) -> Result<usize> {
    match locate_sourcemap_reference_slice(alloc, bytes)? {
        Some(reference) => {
            let path = reference.resolve_path("/a/b/c.js")?;
            Ok(path.map_or(0, |path| path.len()))
        }
        None => Ok(0),
    }
}

/// 1 if `bytes` are a data URL that holds a map. Returns `Utf8` if `bytes` are not UTF-8. The other
/// errors are those of `decode_data_url`.
pub fn decode_url(alloc: Global, bytes: &[u8]) -> Result<usize> {
    let _map = decode_data_url(alloc, str::from_utf8(bytes)?)?;
    Ok(1)
}

/// 1 if a reference is a data URL that holds a map. Returns `Utf8` if the reference is not UTF-8.
/// Returns `InvalidDataUrl` if a UTF-8 reference does not start with `data:`. The other errors are
/// `OutOfMemory` and the errors of `decode_data_url`.
pub fn decode_embedded(alloc: Global, bytes: &[u8]) -> Result<usize> {
    let url = String::from_str(alloc, str::from_utf8(bytes)?)?;
    match SourceMapRef::Ref(url).get_embedded_sourcemap()? {
        Some(_) => Ok(1),
        None => Err(Error::InvalidDataUrl),
    }
}

/// 1 if the bytes of a slice are a map, else 0.
pub fn detect_in_slice(alloc: Global, bytes: &[u8]) -> Result<usize> {
    let is_map = is_sourcemap_slice(alloc, bytes)?;
    Ok(usize::from(is_map))
}

/// 1 if the bytes of a reader are a map, else 0.
pub fn detect_by_reader(alloc: Global, bytes: &[u8]) -> Result<usize> {
    let is_map = is_sourcemap(alloc, bytes)?;
    Ok(usize::from(is_map))
}
