//! Parsing of URLs. A rejected text gives `None`; out of memory is an error.
ghost use Rattle.std.specs.Prelude.{IsTrue, ◌↔◌};
ghost use Rattle.url.specs.Parser.{Gives, Parsed};
ghost use Rattle.url.specs.Parts.{Parts};
ghost use Rattle.sourcemap_file_urls.specs.Urls.{IsLong as IsLongSize, ReadsAs, UrlOf, JoinedUrl};

use sourcemap_errors::errors::{Error, Result};
use std::alloc::Global;
use url::{ParseError, ParseResult, Url};

/// Parses `text` as a URL, as the crate `url` does: by the URL Standard, except that very long
/// labels of a domain that is not ASCII are rejected. Returns `None` if `text` is rejected. May
/// also return `None` if `text` has 2^28 bytes or more. The only error is `OutOfMemory`.
pub fn parse(alloc: Global, text: &str) -> Result<Option<Url>>
    ensures { UrlOf text.now result }
{
    read(text.len(), Url::parse(alloc, text))
}

/// Resolves `reference` against `base`, as the crate `url` does (see `parse`). Returns `None` if
/// `reference` is rejected. May also return `None` if `base` and `reference` together have 2^28
/// bytes or more. The only error is `OutOfMemory`.
pub fn join(base: &Url, reference: &str) -> Result<Option<Url>>
    ensures { JoinedUrl base.now reference.now result }
{
    read(base.as_str().len() + reference.len(), base.join(reference))
}

// Whether texts with `size` bytes in total are long. Only long texts can make a URL of 2^32 bytes
// or more.
fn is_long(size: usize) -> bool
    ensures { IsTrue result ↔ IsLongSize size }
{
    size >= 1 << 28
}

// Converts the result of the `url` crate for texts that together have `size` bytes. `OutOfMemory`
// stays `OutOfMemory`. `Overflow` becomes `OutOfMemory` if `size` is below 2^28, otherwise `None`.
// Every other error becomes `None`.
//
// The crate returns `Overflow` only if the URL has 2^32 bytes or more. Texts of less than 2^28
// bytes never make such a URL, but the contract of the crate allows `Overflow` for them too.
fn read(size: usize, parsed: ParseResult<Url>) -> Result<Option<Url>>
    ensures { (due : Parsed Parts) → Gives parsed due → ReadsAs size due result }
{
    match parsed {
        Ok(url) => Ok(Some(url)),
        Err(ParseError::OutOfMemory) => Err(Error::OutOfMemory),
        Err(ParseError::Overflow) if !is_long(size) => Err(Error::OutOfMemory),
        Err(_) => Ok(None),
    }
}
