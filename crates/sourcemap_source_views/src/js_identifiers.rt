//! Identifiers of JavaScript.
ghost use Rattle.std.specs.Prelude.{◌≡◌, length, option_map};
ghost use Rattle.std.specs.Prelude.{drop, true};
ghost use Rattle.std.specs.Str.{IsCharBoundary, chars, encode_utf8_all, trim_start};
ghost use Rattle.std.specs.List.{take_while};
ghost use Rattle.sourcemap_source_views.specs.Identifiers.{first_passes, identifier_at_start, is_identifier, is_part};
ghost use Rattle.sourcemap_source_views.specs.Identifiers.{is_start, is_text, token_at_start, unless_empty};

use unicode_ident::{is_xid_continue, is_xid_start};

/// Returns whether the whole text is an identifier. The first character is `$`, `_`, an ASCII
/// letter, or non-ASCII with XID_Start. Later characters may also be ASCII digits, U+200C, U+200D,
/// or non-ASCII with XID_Continue. The empty text counts as an identifier.
pub fn is_valid_javascript_identifier(text: &str) -> bool
    ensures { result ≡ is_identifier (chars text.now) }
{
    identifier_length(text) == text.len()
}

/// Returns the longest identifier at the start of the first word, where words are separated by
/// white space. Returns `None` if there is no word, or if the word starts with no identifier.
pub fn get_javascript_token(text: &str) -> Option<&str>
    ensures { option_map (λ token. token.now) result ≡ token_at_start text.now }
{
    let words = text.trim_start();
    let length = identifier_length(words);
    if length == 0 {
        return None;
    }
    Some(&words[..length])
}

/// Returns whether the longest identifier at the start of a text is `name`. `name` must be an
/// identifier or empty, and an empty `name` gives false. Reads at most as many bytes of the text as
/// `name` has, and one character after them.
pub(crate) fn starts_with_identifier(text: &str, name: &str) -> bool
    requires { is_identifier (chars name.now) ≡ true }
    ensures { result ≡ is_text name.now (unless_empty (identifier_at_start (chars text.now))) }
{
    if name.is_empty() {
        return false;
    }
    match text.strip_prefix(name) {
        Some(rest) => !starts_with_part(rest),
        None => false,
    }
}

/// The length of the white space at the start of a text, in bytes.
pub(crate) fn blank_length(text: &str) -> usize
    ensures rest { drop result text.now ≡ trim_start text.now }
    ensures boundary { IsCharBoundary text.now result }
{
    text.len() - text.trim_start().len()
}

// The length of the longest identifier at the start of a text, in bytes; 0 if there is none.
fn identifier_length(text: &str) -> usize
    ensures value { result ≡ length (encode_utf8_all (identifier_at_start (chars text.now))) }
    ensures boundary { IsCharBoundary text.now result }
{
    if starts_with_start(text) {
        parts_length(text)
    } else {
        0
    }
}

/// Whether the first character of a text can start an identifier.
pub(crate) fn starts_with_start(text: &str) -> bool
    ensures { result ≡ first_passes is_start (chars text.now) }
{
    match text.chars().next() {
        Some(first) => starts_identifier(first),
        None => false,
    }
}

// Whether the first character of a text can continue an identifier.
fn starts_with_part(text: &str) -> bool
    ensures { result ≡ first_passes is_part (chars text.now) }
{
    match text.chars().next() {
        Some(first) => continues_identifier(first),
        None => false,
    }
}

/// The byte offset of the first character that cannot continue an identifier, or the length of the
/// text if all of its characters can.
pub(crate) fn parts_length(text: &str) -> usize
    ensures value { result ≡ length (encode_utf8_all (take_while is_part (chars text.now))) }
    ensures boundary { IsCharBoundary text.now result }
{
    for (offset, character) in text.char_indices() {
        if !continues_identifier(character) {
            return offset;
        }
    }
    text.len()
}

fn starts_identifier(character: char) -> bool
    ensures { result ≡ is_start character }
{
    match character {
        '$' | '_' | 'a'..='z' | 'A'..='Z' => true,
        '\0'..='\x7f' => false,
        _ => is_xid_start(character),
    }
}

fn continues_identifier(character: char) -> bool
    ensures { result ≡ is_part character }
{
    match character {
        '$' | '_' | 'a'..='z' | 'A'..='Z' | '0'..='9' | '\u{200c}' | '\u{200d}' => true,
        '\0'..='\x7f' => false,
        _ => is_xid_continue(character),
    }
}
