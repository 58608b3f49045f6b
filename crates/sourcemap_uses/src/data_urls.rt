//! Maps embedded as data URLs.
ghost use Rattle.std.specs.Prelude.{option_map};
ghost use Rattle.sourcemap.specs.Answer.{IsAnswer};
ghost use Rattle.sourcemap.specs.AnyMap.{map_tree};
ghost use Rattle.sourcemap_uses.specs.DataUrls.{InlineAnswer};

use sourcemap::{DecodedMap, Error, Result, decode_data_url};
use std::alloc::Global;

/// Decodes a reference that is a valid data URL (see `data_url_bytes`). Returns `None` for any
/// other text, such as the path of a file. Returns the errors of `decode_slice` for the payload.
/// `OutOfMemory` can come at any time.
pub fn inline_map(alloc: Global, reference: &str) -> Result<Option<DecodedMap>>
    ensures { IsAnswer (option_map map_tree) (InlineAnswer reference.now) result }
{
    match decode_data_url(alloc, reference) {
        Ok(map) => Ok(Some(map)),
        // prover: match on the error alone
        Err(error) => match error {
            Error::InvalidDataUrl => Ok(None),
            error => Err(error),
        },
    }
}
