//! Single bytes of a JSON text, and white space.
ghost use Rattle.std.specs.Prelude.{◌≡◌, ◌≢◌, ◌<◌, ◌≤◌, ◌||◌, drop, get_or, length, true};
ghost use Rattle.json.specs.Word.{head, is_operator, is_space, ends_word};
ghost use Rattle.json.specs.Lex.{between, lex};
ghost use Rattle.sourcemap_json_read.specs.Strings.{IsUtf8UpTo};

/// Returns the byte at index `at`. If `at` is not less than the length of the text, returns a
/// space.
#[inline(always)]
pub(crate) fn byte_at(text: &[u8], at: usize) -> u8
    ensures value { result ≡ head (drop at text.now) }
    ensures got { result ≡ get_or text.now at 32 }
    ensures inside { result ≢ 32 → at < length text.now }
{
    if at < text.len() { text[at] } else { b' ' }
}

#[inline(always)]
fn is_white(byte: u8) -> bool
    ensures { result ≡ is_space byte }
{
    (byte == b' ') | (byte == b'\t') | (byte == b'\n') | (byte == b'\r')
}

/// Whether a byte is a bracket, a colon or a comma.
#[inline(always)]
fn is_punctuation(byte: u8) -> bool
    ensures { result ≡ is_operator byte }
{
    (byte == b'{')
        | (byte == b'}')
        | (byte == b'[')
        | (byte == b']')
        | (byte == b':')
        | (byte == b',')
}

/// Whether a word may end directly before `at`: punctuation or white space is at `at`, or `at` is
/// not less than the length of the text.
#[inline(always)]
pub(crate) fn is_word_end(text: &[u8], at: usize) -> bool
    ensures { result ≡ ends_word (drop at text.now) }
{
    let byte = byte_at(text, at);
    is_punctuation(byte) | is_white(byte)
}

/// Returns the index after the white space at `from`, or `from` if no white space is there. The
/// text from the returned index on has the same lexemes as the text from `from` on.
#[inline(always)]
pub(crate) fn skip_space(text: &[u8], from: usize) -> usize
    ensures same { lex between (drop result text.now) ≡ lex between (drop from text.now) }
    ensures passed { is_space (head (drop result text.now)) ≡ true → length text.now ≤ result }
    ensures utf8 { IsUtf8UpTo text.now from result }
{
    let mut at = from;
    while at < text.len() {
        if !is_white(byte_at(text, at)) {
            return at;
        }
        at = skip_blanks(text, at + 1);
    }
    at
}

// The index after the run of spaces at `from`, or `from` if no space is there. Most white space of
// an indented text is spaces. A byte needs one comparison here, but four in `is_white`.
#[inline(always)]
fn skip_blanks(text: &[u8], from: usize) -> usize
    ensures same { lex between (drop result text.now) ≡ lex between (drop from text.now) }
    ensures ahead { from ≤ result }
    ensures utf8 { IsUtf8UpTo text.now from result }
{
    let mut at = from;
    while at < text.len() {
        if byte_at(text, at) != b' ' {
            return at;
        }
        at += 1;
    }
    at
}
