//! The debug id and the file name by which a generated text names its map.
ghost use Rattle.std.specs.Prelude.{◌≡◌, ◌==◌, ◌||◌, ℕ, List, Ok, Some, IsOkUnless, option_map};
ghost use Rattle.std.specs.List.{before_first, after_last};
ghost use Rattle.sourcemap_errors.specs.Answer.{Gives};
ghost use Rattle.sourcemap_errors.specs.declared.errors.Error.TheVariants.{OutOfMemory};
ghost use Rattle.sourcemap_references.specs.Reference.{text_lines};
ghost use Rattle.sourcemap_references.specs.References.{reference};
ghost use Rattle.sourcemap_check_links.specs.Links.{id_text_on, last_id_text, named_id, other_id};
ghost use Rattle.sourcemap_check_links.specs.Links.{names_other, other_reference};

use percent_encoding::percent_decode;
use sourcemap_errors::errors::Result;
use sourcemap_headers::debug_id::DebugId;
use sourcemap_references::detector::{SourceMapRef, is_data_url, locate_in_text};
use std::alloc::Global;

// The text after the mark of a line, trimmed.
fn id_text_on(line: &str) -> Option<&str>
    ensures { option_map (λ text. text.now) result ≡ id_text_on line.now }
{
    if line.as_bytes().starts_with(b"//# debugId=") {
        return Some(line[12..].trim());
    }
    None
}

fn last_id_text(text: &str) -> Option<&str>
    ensures { option_map (λ text. text.now) result ≡ last_id_text (text_lines text.now) }
{
    let mut found = None;
    for line in text.split('\n') {
        found = id_text_on(line).or(found);
    }
    found
}

/// The debug id that a generated text names: that on its last line that starts with `//# debugId=`.
/// `None` if there is no such line, or if the rest of the line is no debug id. White space around the
/// id is left out.
pub fn named_id(text: &str) -> Option<DebugId>
    ensures { result ≡ named_id text.now }
{
    DebugId::parse(last_id_text(text)?)
}

/// The debug id that a generated text names, as `named_id` finds it, if it is not that of the map.
pub fn other_id(text: &str, own: DebugId) -> Option<DebugId>
    ensures { result ≡ other_id text.now own }
{
    let other = named_id(text)?;
    if other == own { None } else { Some(other) }
}

fn ends_path(byte: u8) -> bool
    ensures { result ≡ ((byte == 63) || (byte == 35)) }
{
    (byte == b'?') | (byte == b'#')
}

// The bytes before the first `?` or `#`.
fn path_of(url: &[u8]) -> &[u8]
    ensures { result.now ≡ before_first (λ b. (b == 63) || (b == 35)) url.now }
{
    for (end, byte) in url.iter().enumerate() {
        if ends_path(*byte) {
            return &url[..end];
        }
    }
    url
}

fn is_slash(byte: u8) -> bool
    ensures { result ≡ (byte == 47) }
{
    byte == b'/'
}

// The bytes after the last `/`.
fn after_slash(path: &[u8]) -> &[u8]
    ensures { result.now ≡ after_last (λ b. b == 47) path.now }
{
    let mut start = path.len();
    while start > 0 {
        if is_slash(path[start - 1]) {
            return &path[start..];
        }
        start -= 1;
    }
    path
}

fn names_other(alloc: Global, file: &str, url: &str) -> Result<bool>
    ensures { Gives (λ other. other) result (Ok (names_other file.now url.now)) }
{
    if is_data_url(url) {
        return Ok(false);
    }
    let mut name = Vec::new(alloc);
    let last = after_slash(path_of(url.as_bytes()));
    percent_decode(last).append_to(&mut name)?;
    Ok(name.as_slice() != file.as_bytes())
}

/// The reference of a generated text, as `locate_in_text` finds it, if it ends in another file name
/// than `file`, the name of the map's file. The file name of a reference is the part of its path
/// after the last `/`, with its escapes decoded. A `data:` URL has none. The only error is
/// `OutOfMemory`.
pub fn other_reference(alloc: Global, text: &str, file: &str) -> Result<Option<SourceMapRef>>
    ensures { Gives (option_map reference) result (Ok (other_reference text.now file.now)) }
{
    let Some(found) = locate_in_text(alloc, text)? else {
        return Ok(None);
    };
    if names_other(alloc, file, found.get_url())? {
        Ok(Some(found))
    } else {
        Ok(None)
    }
}
