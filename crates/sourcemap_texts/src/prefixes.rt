//! Prefixes that are stripped from strings.
ghost use Rattle.std.specs.Prelude.{◌≡◌, Some, None, Ok, if◌then◌else◌, length, drop, map, nat_eq, option_map};
ghost use Rattle.std.specs.Prelude.{unwrap_or, string_bytes};
ghost use Rattle.std.specs.List.{starts_with};
ghost use Rattle.std.specs.Option.{option_copied};
ghost use Rattle.sourcemap_errors.specs.Answer.{Gives};
ghost use Rattle.sourcemap_texts.specs.Prefixes.{with_slash, without_prefix};

use crate::copies::copy_text;
use sourcemap_errors::errors::Result;
use std::alloc::Global;
use std::convert::AsStr;

// The rest of the text after a prefix. If the prefix does not end with a slash, a slash must follow
// it and is stripped too. `None` if the text does not start with the prefix, or if this slash is
// missing.
fn after_prefix<'a>(text: &'a str, prefix: &str) -> Option<&'a str>
    ensures { option_copied result ≡ (if starts_with nat_eq text.now (with_slash prefix.now)
        then Some (drop (length (with_slash prefix.now)) text.now) else None) }
{
    let rest = text.strip_prefix(prefix)?;
    if prefix.ends_with("/") {
        return Some(rest);
    }
    rest.strip_prefix("/")
}

// The result of `after_prefix` for the first prefix that matches, `None` if no prefix matches.
fn after_first_prefix<'a, S: AsStr>(text: &'a str, prefixes: &[S]) -> Option<&'a str>
    ensures { unwrap_or (option_copied result) text.now
        ≡ without_prefix (map S.text prefixes.now) text.now }
{
    for prefix in prefixes {
        if let Some(rest) = after_prefix(text, prefix.as_str()) {
            return Some(rest);
        }
    }
    None
}

/// Strips the first matching prefix from `current`, or from `text` if `current` is `None`. A prefix
/// without a slash at its end matches only if a slash follows it. This slash is stripped too.
///
/// Returns the text after the prefix. If no prefix matches, returns a copy of `current`, or `None`
/// if `current` is `None`. The only error is `OutOfMemory`.
pub fn strip_text<S: AsStr>(
    alloc: Global,
    text: &str,
    current: Option<&str>,
    prefixes: &[S],
) -> Result<Option<String>>
    ensures { Gives (λ cut. unwrap_or (option_map string_bytes cut) text.now) result
        (Ok (without_prefix (map S.text prefixes.now) (unwrap_or (option_copied current.entry) text.now))) }
{
    match after_first_prefix(current.unwrap_or(text), prefixes) {
        Some(rest) => copy_text(alloc, Some(rest)),
        None => copy_text(alloc, current),
    }
}
