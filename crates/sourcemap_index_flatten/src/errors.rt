//! Errors of flattening.
ghost use Rattle.std.specs.Prelude.{Ok, codes, string_bytes};
ghost use Rattle.std.specs.Option.{option_copied};
ghost use Rattle.sourcemap_errors.specs.Answer.{Gives};
ghost use Rattle.sourcemap_index_model.specs.Flat.{unresolved};
ghost use Rattle.sourcemap_index_flatten.specs.Errors.{Refuses};

use sourcemap_errors::errors::{Error, Result};
use std::alloc::Global;

fn refusal(alloc: Global, reason: &str) -> Error
    ensures { Refuses reason.now result }
{
    match String::from_str(alloc, reason) {
        Ok(reason) => Error::CannotFlatten(reason),
        Err(_) => Error::OutOfMemory,
    }
}

pub(crate) fn too_many(alloc: Global) -> Error
    ensures { Refuses (codes "too many sources or names") result }
{
    refusal(alloc, "too many sources or names")
}

/// Returns `CannotFlatten` for a generated position whose line or column is above 4294967295. Returns
/// `OutOfMemory` if the error text cannot be allocated.
pub fn past_the_end(alloc: Global) -> Error
    ensures { Refuses (codes "a position passes 4294967295") result }
{
    refusal(alloc, "a position passes 4294967295")
}

fn unresolved_text(alloc: Global, url: Option<&str>) -> Result<String>
    ensures { Gives string_bytes result (Ok (unresolved (option_copied url.entry))) }
{
    let mut text = String::from_str(alloc, "Section has an unresolved sourcemap: ")?;
    text.push_str(url.unwrap_or("<unknown url>"))?;
    Ok(text)
}

/// Returns `CannotFlatten` for a section without a map. `url` is the URL in this section. The error
/// text ends with `url`, or with `<unknown url>` if `url` is `None`. Returns `OutOfMemory` if the
/// error text cannot be allocated.
pub fn unresolved_error(alloc: Global, url: Option<&str>) -> Error
    ensures { Refuses (unresolved (option_copied url.entry)) result }
{
    match unresolved_text(alloc, url) {
        Ok(reason) => Error::CannotFlatten(reason),
        Err(_) => Error::OutOfMemory,
    }
}
