//! Finds the map of a generated text: embedded in the text, or in a file that the text names.
ghost use Rattle.sourcemap.specs.Answer.{IsAnswer};
ghost use Rattle.sourcemap.specs.Reference.{first_reference};
ghost use Rattle.sourcemap.specs.References.{url_of};
ghost use Rattle.sourcemap_uses.specs.Finding.{FileOfUrl, MapByReference, MapOfUrl, found_value};

use sourcemap::detector::EmbeddedSourceMap;
use sourcemap::{DecodedMap, Result, SourceMapRef, locate_sourcemap_reference_slice};
use std::alloc::Global;

/// Where the map of a generated text is.
#[derive(Debug, Drop)]
pub enum FoundMap {
    /// In the text, as a data URL.
    Embedded(DecodedMap),
    /// In the file with this path.
    File(String),
    /// The text has no reference, or one that `SourceMapRef::resolve_path` resolves to no file.
    Nowhere,
}

/// Returns where the map of a generated text is. Resolves the first reference in `text` against
/// `path`, the path of the text.
///
/// Errors:
///
/// - `Io` of kind `InvalidData` if the line of the reference or a line before it is not UTF-8.
/// - `Io` of kind `InvalidData` if no line has a reference and some line is not UTF-8.
/// - The errors of `decode_data_url` if the reference starts with `data:`.
/// - `OutOfMemory`.
pub fn find_map(alloc: Global, text: &[u8], path: &str) -> Result<FoundMap>
    ensures { IsAnswer found_value (MapByReference (first_reference text.now) path.now) result }
{
    match locate_sourcemap_reference_slice(alloc, text) {
        Ok(Some(reference)) => map_of(&reference, path),
        Ok(None) => Ok(FoundMap::Nowhere),
        Err(error) => Err(error),
    }
}

fn map_of(reference: &SourceMapRef, path: &str) -> Result<FoundMap>
    ensures { IsAnswer found_value (MapOfUrl (url_of reference.now) path.now) result }
{
    match reference.get_embedded_sourcemap() {
        Ok(Some(map)) => Ok(FoundMap::Embedded(map)),
        Ok(None) => file_of(reference, path),
        Err(error) => Err(error),
    }
}

fn file_of(reference: &SourceMapRef, path: &str) -> Result<FoundMap>
    ensures { IsAnswer found_value (FileOfUrl (url_of reference.now) path.now) result }
{
    match reference.resolve_path(path) {
        Ok(Some(path)) => Ok(FoundMap::File(path)),
        Ok(None) => Ok(FoundMap::Nowhere),
        Err(error) => Err(error),
    }
}
