//! Copies of optional strings.
ghost use Rattle.std.specs.Prelude.{◌≡◌, Ok, [], option_map, unwrap_or, string_bytes};
ghost use Rattle.std.specs.Option.{option_copied};
ghost use Rattle.sourcemap_errors.specs.Answer.{Gives};

use sourcemap_errors::errors::Result;
use std::alloc::Global;

/// A copy of the string, `None` if there is no string. The only error is out of memory.
pub fn copy_text(alloc: Global, text: Option<&str>) -> Result<Option<String>>
    ensures { Gives (option_map string_bytes) result (Ok (option_copied text.entry)) }
{
    match text {
        None => Ok(None),
        Some(text) => Ok(Some(String::from_str(alloc, text)?)),
    }
}

/// The string, or the empty string if there is none.
pub fn text_or_empty(text: &Option<String>) -> &str
    ensures { result.now ≡ unwrap_or (option_map string_bytes text.now) [] }
{
    match text {
        None => "",
        Some(text) => text.as_str(),
    }
}
