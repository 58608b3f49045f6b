//! Lines of a text, and parts of a line.
ghost use Rattle.std.specs.Prelude.{◌≡◌, MatchOption, drop, option_map};
ghost use Rattle.sourcemap_c_compiled.specs.Codes.{ReturnsOption};
ghost use Rattle.sourcemap_source_views.specs.Columns.{slice_of};
ghost use Rattle.sourcemap_web.specs.Texts.{EndsAt, HasNoEnd, OnText, ReturnsLine, terminator_length};

use simdutf8::basic::from_utf8;
use sourcemap_source_views::columns::slice_at;

const OK: u32 = 0;

const UTF8: u32 = 2;

const ABSENT: u32 = 32;

/// Borrows the part of a line from column `column` up to column `column + span`, in UTF-16 units. A
/// column inside a surrogate pair is moved after the pair. `SM_ABSENT` if the line is too short for
/// either column, `SM_UTF8` if it is not UTF-8.
#[unsafe(no_mangle)]
pub extern "C" fn sm_slice<'a>(line: &'a [u8], column: u32, span: u32, part: &mut &'a [u8]) -> u32
    ensures { OnText line.now
        (ReturnsOption (slice_of line.now column span) result part.old.now part.new.now)
        result part.old.now part.new.now }
{
    match from_utf8(line) {
        Ok(line) => put_part(slice_at(line, column, span), part),
        Err(_) => UTF8,
    }
}

fn put_part<'a>(found: Option<&'a str>, part: &mut &'a [u8]) -> u32
    ensures { ReturnsOption (option_map (λ text. text.now) found.entry) result part.old.now part.new.now }
{
    match found {
        Some(found) => {
            *part = found.as_bytes();
            OK
        }
        None => ABSENT,
    }
}

/// Splits the first line off a text. Writes the line without its terminator `\n`, `\r` or `\r\n`, and
/// the text after it. If this is the last line, returns `SM_ABSENT` and writes only the line.
#[unsafe(no_mangle)]
pub extern "C" fn sm_next_line<'a>(text: &'a [u8], line: &mut &'a [u8], rest: &mut &'a [u8]) -> u32
    ensures { ReturnsLine text.now result line.new.now rest.old.now rest.new.now }
{
    match line_end(text) {
        Some(end) => {
            *line = &text[..end];
            *rest = after_terminator(&text[end..]);
            OK
        }
        None => {
            *line = text;
            ABSENT
        }
    }
}

// The offset of the first byte that ends a line.
fn line_end(text: &[u8]) -> Option<usize>
    ensures { MatchOption result (HasNoEnd text.now) (EndsAt text.now) }
{
    for i in 0..text.len() {
        if text[i] == b'\n' || text[i] == b'\r' {
            return Some(i);
        }
    }
    None
}

// The text after the terminator that it begins with.
fn after_terminator(text: &[u8]) -> &[u8]
    ensures { result.now ≡ drop (terminator_length text.now) text.now }
{
    match text {
        [b'\r', b'\n', rest @ ..] => rest,
        [_, rest @ ..] => rest,
        [] => text,
    }
}
