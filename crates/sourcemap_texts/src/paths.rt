//! The common prefix of absolute paths.
ghost use Rattle.std.specs.Prelude.{◌≡◌, ◌≢◌, ◌<◌, ◌≤◌, Ok, map, option_map, string_bytes, slice_index, length, take};
ghost use Rattle.std.specs.Prelude.{nat_le, ◌||◌, true};
ghost use Rattle.std.specs.Bool.{OnTrue, OnFalse};
ghost use Rattle.std.specs.Iterator.{IsFinite};
ghost use Rattle.std.specs.Iterator.Runs.{WholeRun};
ghost use Rattle.sourcemap_errors.specs.Answer.{Gives};
ghost use Rattle.sourcemap_texts.specs.Paths.{is_absolute as starts_at_root, is_separator as separates, common_prefix};
ghost use Rattle.sourcemap_texts.specs.Paths.{unless_root, path_parts, common_parts};

use sourcemap_errors::errors::Result;
use std::alloc::Global;

/// Returns the common prefix of the absolute paths among `texts`. The prefix consists of whole
/// parts, as many as possible. For example, the prefix of `/a/b` and `/a/bc` is `/a`.
///
/// A path is split into parts before every `/` and `\`. A path is absolute if it starts with `/`. A
/// path of more than 3 bytes is also absolute if it starts with an ASCII letter, then `:`, then `/`
/// or `\`. Returns `None` if no text is an absolute path, or if the prefix is empty or `/` alone.
/// The only error is `OutOfMemory`.
pub fn find_common_prefix<'a, I: Iterator<Item = &'a str> + Drop>(
    alloc: Global,
    texts: I,
) -> Result<Option<String>>
    requires can { I.can_next texts }
    requires ends { IsFinite (I.remaining texts) }
    ensures runs { WholeRun I.next_gives texts (λ p.
        Gives (option_map string_bytes) result
        (Ok (common_prefix (map (λ text. text.now) p.items)))) }
{
    let mut prefix: Option<&'a str> = None;
    for text in texts {
        if is_absolute(text) {
            prefix = Some(match prefix {
                Some(start) => common_start(start, text),
                None => text,
            });
        }
    }
    owned_unless_root(alloc, prefix.unwrap_or(""))
}

fn is_absolute(text: &str) -> bool
    ensures { result ≡ starts_at_root text.now }
{
    match text.as_bytes() {
        [b'/', ..] => true,
        [drive, b':', b'/' | b'\\', _, ..] => drive.is_ascii_alphabetic(),
        _ => false,
    }
}

// Whether a path is split before this byte.
fn is_separator(byte: u8) -> bool
    ensures { result ≡ separates byte }
{
    byte == b'/' || byte == b'\\'
}

// A copy of the prefix, `None` if it is empty or `/`.
fn owned_unless_root(alloc: Global, prefix: &str) -> Result<Option<String>>
    ensures { Gives (option_map string_bytes) result (Ok (unless_root prefix.now)) }
{
    if prefix.is_empty() || prefix == "/" {
        return Ok(None);
    }
    Ok(Some(String::from_str(alloc, prefix)?))
}

// The common first parts of two paths, joined.
fn common_start<'a>(a: &'a str, b: &str) -> &'a str
    ensures { path_parts result.now ≡ common_parts (path_parts a.now) (path_parts b.now) }
{
    &a[..common_parts_length(a.as_bytes(), b.as_bytes())]
}

// The length in bytes of the equal parts at the start of both paths: 2 for `/a/b` and `/a/bc`.
fn common_parts_length(a: &[u8], b: &[u8]) -> usize
    ensures parts { path_parts (take result a.now)
        ≡ common_parts (path_parts a.now) (path_parts b.now) }
    ensures within { result ≤ length a.now }
    ensures cut { 0 < result → result < length a.now
        → separates (slice_index a.now result) ≡ true }
{
    let mut at = 0;
    let mut kept = 0;
    while has_same_byte(a, b, at) {
        if is_separator(a[at]) {
            kept = at;
        }
        at += 1;
    }
    // prover: `&` for one branch
    if ends_part(a, at) & ends_part(b, at) {
        at
    } else {
        kept
    }
}

fn has_same_byte(a: &[u8], b: &[u8], at: usize) -> bool
    ensures same { OnTrue result ((at < length a.now) × (at < length b.now)
        × (slice_index a.now at ≡ slice_index b.now at)) }
    ensures differ { OnFalse result (at < length a.now → at < length b.now
        → slice_index a.now at ≢ slice_index b.now at) }
{
    at < a.len() && at < b.len() && a[at] == b[at]
}

// Whether `text` has a separator at the index `at`, or has no byte there.
fn ends_part(text: &[u8], at: usize) -> bool
    ensures { result ≡ (nat_le (length text.now) at || separates (slice_index text.now at)) }
{
    at >= text.len() || is_separator(text[at])
}
