//! Absolute paths of files as URLs, and back.
ghost use Rattle.std.specs.Prelude.{◌≡◌, ◌<◌, ℕ, not, Ok, option_map, string_bytes, OnOk, IfErr, codes, [], ◌∷◌, ◌++◌};
ghost use Rattle.std.specs.Prelude.{if◌then◌else◌};
ghost use Rattle.sourcemap_errors.specs.Answer.{Gives, IsAnswer};
ghost use Rattle.sourcemap_file_urls.specs.Places as spec;
ghost use Rattle.sourcemap_file_urls.specs.Places.{PathUrl, NamesPath, path_of, text_of, escaped, is_unreserved};
ghost use Rattle.sourcemap_file_urls.specs.declared.places.TheConstants.{ESCAPED};
ghost use Rattle.percent_encoding.specs.AsciiSet.{should_percent_encode};
ghost use Rattle.percent_encoding.specs.Percent as percent;
ghost use Rattle.sourcemap_errors.specs.declared.errors.Error.TheVariants.{OutOfMemory};

use crate::urls;
use percent_encoding::{AsciiSet, NON_ALPHANUMERIC, ascii_set, percent_decode, percent_encode};
use sourcemap_errors::errors::Result;
use std::alloc::Global;
use url::Url;

/// The ASCII bytes that are escaped in a component of a path: all but letters, digits, `-`, `.`,
/// `_` and `~`.
pub const ESCAPED: AsciiSet = ascii_set!(
    NON_ALPHANUMERIC
        .remove(b'-')
        .remove(b'.')
        .remove(b'_')
        .remove(b'~')
);

/// Returns the `file` URL of a path that starts with `/`, and `None` for any other path. Components
/// are escaped, empty ones and `.` are dropped, and `..` is resolved. If `folder` is true, the URL
/// ends with `/`.
///
/// Also returns `None` if the `url` crate rejects the URL. May return `None` if the text of the URL
/// has 2^28 bytes or more before `..` is resolved. The only error is `OutOfMemory`.
pub fn path_url(alloc: Global, path: &str, folder: bool) -> Result<Option<Url>>
    ensures { PathUrl path.now folder result }
{
    if !path.as_bytes().starts_with(b"/") {
        return Ok(None);
    }
    let text = url_text(alloc, path, folder)?;
    urls::parse(alloc, text.as_str())
}

/// A law: in a component of a path exactly the bytes that are no letter, no digit and none of `-`,
/// `.`, `_` and `~` are escaped.
pub fn unreserved_bytes_alone_are_kept()
    ensures { (byte : ℕ) → byte < 256
        → should_percent_encode ESCAPED byte ≡ not (is_unreserved byte) }
{}

/// Returns the path of a `file` URL without host, with its escapes decoded. Returns `None` for any
/// other URL, or if the decoded path is not UTF-8. The only error is `OutOfMemory`.
pub fn url_path(alloc: Global, url: &Url) -> Result<Option<String>>
    ensures { Gives (option_map string_bytes) result (Ok (path_of url.now)) }
{
    if url.scheme() == "file" && !url.has_host() {
        return decode_text(alloc, url.path());
    }
    Ok(None)
}

// The text with its escapes decoded, `None` if the decoded bytes are not UTF-8.
fn decode_text(alloc: Global, text: &str) -> Result<Option<String>>
    ensures { Gives (option_map string_bytes) result (Ok (text_of (percent.percent_decode text.now))) }
{
    let mut bytes = Vec::new(alloc);
    percent_decode(text.as_bytes()).append_to(&mut bytes)?;
    match String::from_utf8(bytes) {
        Ok(text) => Ok(Some(text)),
        Err(_) => Ok(None),
    }
}

/// Returns the path of the file that a reference points to: `url_path` of the reference resolved
/// against `base`. Returns `None` if `urls::join` or `url_path` returns `None`. The only error is
/// `OutOfMemory`.
pub fn named_path(alloc: Global, base: &Url, reference: &str) -> Result<Option<String>>
    ensures { IsAnswer (option_map string_bytes) (NamesPath base.now reference.now) result }
{
    match urls::join(base, reference)? {
        Some(url) => url_path(alloc, &url),
        None => Ok(None),
    }
}

// The text of the URL of `path`. It begins with `file://`. For each component it then has a `/` and
// the component, escaped. It ends with a `/` if `folder` is true or if there is no component.
fn url_text(alloc: Global, path: &str, folder: bool) -> Result<String>
    ensures { Gives string_bytes result (Ok (spec.url_text path.now folder)) }
{
    let mut text = String::from_str(alloc, "file://")?;
    let mut is_bare = true;
    for part in path.split('/') {
        if is_component(part) {
            push_component(&mut text, part)?;
            is_bare = false;
        }
    }
    text.push_str(end_of(folder || is_bare))?;
    Ok(text)
}

// The end of a URL's text: `/` or nothing.
fn end_of(has_slash: bool) -> &'static str
    ensures { result.now ≡ (if has_slash then codes "/" else []) }
{
    if has_slash { "/" } else { "" }
}

fn push_component(text: &mut String, part: &str) -> Result<()>
    ensures adds { OnOk result (string_bytes text.new
        ≡ string_bytes text.old ++ escaped (part.now ∷ [])) }
    ensures refused { IfErr result (λ e. e ≡ OutOfMemory) }
{
    text.push_str("/")?;
    percent_encode(part.as_bytes(), ESCAPED).append_to(text)?;
    Ok(())
}

// Whether `url_text` writes this part of a path. It writes `..` too, which `urls::parse` resolves.
fn is_component(part: &str) -> bool
    ensures { result ≡ spec.is_component part.now }
{
    !part.is_empty() && part != "."
}
