//! The map that is embedded in a reference, as a data URL.
ghost use Rattle.std.specs.Prelude.{ℕ, List, IfOk, IfSome, option_map};
ghost use Rattle.sourcemap_errors.specs.Answer.{IsAnswer};
ghost use Rattle.sourcemap_index.specs.Family.{map_tree};
ghost use Rattle.sourcemap_index_model.specs.WellFormed.{IsWellFormed};
ghost use Rattle.sourcemap_index.specs.Embedded.{EmbeddedAnswer};

use crate::decode::decode_data_url;
use crate::family::DecodedMap;
use sourcemap_errors::errors::Result;
use sourcemap_references::detector::{SourceMapRef, is_data_url};
use std::alloc::Global;

/// A reference that may contain its map, as a data URL.
pub trait EmbeddedSourceMap {
    // The text that may be a data URL.
    ghost url: { Self → List ℕ };

    /// Decodes the map in a reference that starts with `data:`. Returns `None` for any other
    /// reference, such as the path of a file. Returns the errors of `decode_data_url`.
    fn get_embedded_sourcemap(&self) -> Result<Option<DecodedMap>>
        ensures answer { IsAnswer (option_map map_tree) (EmbeddedAnswer (url self.now)) result }
        ensures well_formed { IfOk result (λ found. IfSome found (λ m. IsWellFormed (map_tree m))) };
}

impl EmbeddedSourceMap for SourceMapRef {
    ghost use Rattle.sourcemap_references.specs.References.{url_of};

    ghost url = { url_of };

    fn get_embedded_sourcemap(&self) -> Result<Option<DecodedMap>> {
        match self {
            SourceMapRef::Ref(url) => embedded_map(*url.allocator(), url.as_str()),
            SourceMapRef::LegacyRef(url) => embedded_map(*url.allocator(), url.as_str()),
        }
    }
}

fn embedded_map(alloc: Global, url: &str) -> Result<Option<DecodedMap>>
    ensures answer { IsAnswer (option_map map_tree) (EmbeddedAnswer url.now) result }
    ensures well_formed { IfOk result (λ found. IfSome found (λ m. IsWellFormed (map_tree m))) }
{
    if !is_data_url(url) {
        return Ok(None);
    }
    match decode_data_url(alloc, url) {
        Ok(map) => Ok(Some(map)),
        Err(error) => Err(error),
    }
}
