//! A cursor over the tokens of a JSON text. It returns each string decoded, as a `String`. It
//! supports the tokens that source maps are written with, and stops with `Unsupported` at any other
//! token. It does not check that the tokens make a value: for `[}` it returns both brackets.
ghost use Rattle.std.specs.Prelude.{◌≡◌, ◌<◌, ◌+◌, ◌^◌, Bool, IfOk, drop, length};
ghost use Rattle.std.specs.Str.{IsUtf8};
ghost use Rattle.json.specs.Ascii.{quote};
ghost use Rattle.json.specs.Lex.{may_begin, may_close, tokens};
ghost use Rattle.json.specs.Word.{head};
ghost use Rattle.sourcemap_json_read.specs.declared.cursor.State.TheVariants.{AfterValue};
ghost use Rattle.sourcemap_json_read.specs.Cursor.{Closes, IsStep, Opens, PassesWord, Takes, grammar_state};
ghost use Rattle.sourcemap_json_read.specs.Cursor.{tokens_from};
ghost use Rattle.sourcemap_json_read.specs.Strings.{IsUtf8UpTo};

use crate::bytes::{byte_at, skip_space};
use crate::filling::SLACK;
use crate::stop::Stop;
use crate::strings::read_string;
use crate::words::{whole_number, word_end};
use serde_json::Number;
use std::alloc::{AllocError, Global};
use std::marker::Model;

/// The next token of a JSON text, or its end.
#[derive(Drop)]
pub(crate) enum Step {
    BeginObject,
    EndObject,
    BeginArray,
    EndArray,
    Key(String),
    Text(String),
    Number(Number),
    Bool(bool),
    Null,
    End,
}

/// What the last token was, and so what may follow. `Fresh` is the state at the start of a text,
/// and after an opening bracket or a colon.
#[derive(Clone, Copy, Drop)]
pub(crate) enum State {
    Fresh,
    AfterValue,
    AfterComma,
}

impl State {
    // Whether a value or a key may follow.
    #[inline(always)]
    fn may_begin(self) -> bool
        ensures { result ≡ may_begin (grammar_state self) }
    {
        matches!(self, State::Fresh | State::AfterComma)
    }

    // Whether a closing bracket or the end of the text may follow.
    #[inline(always)]
    fn may_close(self) -> bool
        ensures { result ≡ may_close (grammar_state self) }
    {
        matches!(self, State::Fresh | State::AfterValue)
    }
}

/// An index into the text, and the state there.
#[derive(Clone, Copy, Drop)]
pub(crate) struct Position {
    at: usize,
    state: State,
}

/// A cursor over a JSON text. Contracts see the remaining tokens and bytes.
#[derive(Drop)]
pub(crate) struct Cursor<'a> {
    text: &'a [u8],
    position: Position,
    scratch: Vec<u8>,
}

impl<'a> Model for Cursor<'a> {
    ghost use Rattle.sourcemap_json_read.specs.Cursor.{Remaining, remaining_code, remaining_from};

    ghost Value = { Remaining };

    ghost coded = { remaining_code };

    ghost view = { λ c. remaining_from c.text.now c.position };
}

impl<'a> Cursor<'a> {
    /// Returns a cursor at the start of a text. The error is out of memory. Allocates one scratch
    /// buffer for all strings with escapes or characters past ASCII. For a valid text without such
    /// strings the buffer is never written. The capacity of the buffer is the length of the text
    /// plus `3 * SLACK` bytes. No string decodes to more bytes than the text has. The extra bytes
    /// are for `extend_with_zeros`, because a stored block may extend past the end of a decoded
    /// string.
    pub(crate) fn new(alloc: Global, text: &'a [u8]) -> Result<Cursor<'a>, AllocError>
        ensures { IfOk result
            (λ cursor. cursor ≡ record { tokens = tokens text.now; bytes = text.now }) }
    {
        let scratch = Vec::with_capacity(alloc, text.len() + 3 * SLACK)?;
        let position = Position {
            at: 0,
            state: State::Fresh,
        };
        Ok(Cursor {
            text,
            position,
            scratch,
        })
    }

    /// Reads the next token, and moves the cursor after it. If `keeps` is false, the text of a key
    /// or a string is only checked, and the step has an empty text.
    pub(crate) fn next(&mut self, alloc: Global, keeps: bool) -> Result<Step, Stop>
        ensures takes { IfOk result (λ step. Takes keeps self.old step self.new) }
        ensures utf8 { IfOk result (λ _. IsUtf8 self.new.bytes → IsUtf8 self.old.bytes) }
    {
        let position = skip_comma(self.text, self.position);
        let (step, after) = read_step(alloc, self.text, position, &mut self.scratch, keeps)?;
        // Assigns each field separately. To assign the whole `Position` takes longer, because this
        // also copies its padding.
        self.position.at = after.at;
        self.position.state = after.state;
        Ok(step)
    }
}

// The position after the white space at `position`. A comma after a value is skipped too, with the
// white space that follows the comma.
#[inline(always)]
fn skip_comma(text: &[u8], position: Position) -> Position
    ensures same { tokens_from text.now result ≡ tokens_from text.now position }
    ensures utf8 { IsUtf8UpTo text.now position.at result.at }
{
    let at = skip_space(text, position.at);
    match position.state {
        State::AfterValue => skip_comma_at(text, at),
        state => Position { at, state },
    }
}

// Skips a comma after a value. If a comma is at `at`, returns the position after the comma and the
// white space that follows the comma. If not, returns the position at `at`.
#[inline(always)]
fn skip_comma_at(text: &[u8], at: usize) -> Position
    ensures same { tokens_from text.now result
        ≡ tokens_from text.now (record { at = at; state = AfterValue }) }
    ensures utf8 { IsUtf8UpTo text.now at result.at }
{
    if byte_at(text, at) == b',' {
        return Position {
            at: skip_space(text, at + 1),
            state: State::AfterComma,
        };
    }
    Position {
        at,
        state: State::AfterValue,
    }
}

// The token that starts at `position`, and the position after it. White space after a string is
// skipped too. If a colon follows, the string is a key, and the colon is skipped too.
#[inline(always)]
fn read_step(
    alloc: Global,
    text: &[u8],
    position: Position,
    scratch: &mut Vec<u8>,
    keeps: bool,
) -> Result<(Step, Position), Stop>
    ensures is_step { IfOk result (λ taken. IsStep keeps text.now position taken.0 taken.1) }
    ensures utf8 { IfOk result (λ taken. IsUtf8UpTo text.now position.at taken.1.at) }
{
    match byte_at(text, position.at) {
        b'"' => read_string_step(alloc, text, position, scratch, keeps),
        b'{' => Ok((Step::BeginObject, after_open(position)?)),
        b'[' => Ok((Step::BeginArray, after_open(position)?)),
        b'}' => Ok((Step::EndObject, after_close(position)?)),
        b']' => Ok((Step::EndArray, after_close(position)?)),
        b't' => Ok((Step::Bool(true), after_word(text, position, b"true")?)),
        b'f' => Ok((Step::Bool(false), after_word(text, position, b"false")?)),
        b'n' => Ok((Step::Null, after_word(text, position, b"null")?)),
        b' ' => read_end_step(text, position),
        _ => read_number_step(text, position),
    }
}

// The position after the opening bracket at `position`. The error is `Unsupported` if no opening
// bracket is allowed there.
#[inline(always)]
fn after_open(position: Position) -> Result<Position, Stop>
    requires { position.at + 1 < 2 ^ 64 }
    ensures { IfOk result (λ after. Opens position after) }
{
    if position.state.may_begin() {
        return Ok(Position {
            at: position.at + 1,
            state: State::Fresh,
        });
    }
    Err(Stop::Unsupported)
}

// The position after the closing bracket at `position`. The error is `Unsupported` if no closing
// bracket is allowed there.
#[inline(always)]
fn after_close(position: Position) -> Result<Position, Stop>
    requires { position.at + 1 < 2 ^ 64 }
    ensures { IfOk result (λ after. Closes position after) }
{
    if position.state.may_close() {
        return Ok(Position {
            at: position.at + 1,
            state: State::AfterValue,
        });
    }
    Err(Stop::Unsupported)
}

// `Step::End`, if no byte is left at `position` and the text may end there. If not, the error is
// `Unsupported`.
#[inline(always)]
fn read_end_step(text: &[u8], position: Position) -> Result<(Step, Position), Stop>
    ensures is_step { IfOk result (λ taken. (keeps : Bool) → IsStep keeps text.now position taken.0 taken.1) }
    ensures utf8 { IfOk result (λ taken. IsUtf8UpTo text.now position.at taken.1.at) }
{
    if position.at >= text.len() && position.state.may_close() {
        return Ok((Step::End, position));
    }
    Err(Stop::Unsupported)
}

// The string that starts at `position`: a key if a colon follows it.
#[inline(always)]
fn read_string_step(
    alloc: Global,
    text: &[u8],
    position: Position,
    scratch: &mut Vec<u8>,
    keeps: bool,
) -> Result<(Step, Position), Stop>
    requires { head (drop position.at text.now) ≡ quote }
    ensures is_step { IfOk result (λ taken. IsStep keeps text.now position taken.0 taken.1) }
    ensures utf8 { IfOk result (λ taken. IsUtf8UpTo text.now position.at taken.1.at) }
{
    if !position.state.may_begin() {
        return Err(Stop::Unsupported);
    }
    let (found, end) = read_string(alloc, text, position.at + 1, scratch, keeps)?;
    let at = skip_space(text, end);
    if byte_at(text, at) == b':' {
        let after = Position {
            at: at + 1,
            state: State::Fresh,
        };
        return Ok((Step::Key(found), after));
    }
    let after = Position {
        at,
        state: State::AfterValue,
    };
    Ok((Step::Text(found), after))
}

// The position after `word`. The error is `Unsupported` if `word` is not at `position`, if the text
// has a longer word there, or if no value is allowed there.
#[inline(always)]
fn after_word(text: &[u8], position: Position, word: &[u8]) -> Result<Position, Stop>
    requires { position.at < length text.now }
    ensures { IfOk result (λ after. PassesWord text.now position word.now after) }
{
    if !position.state.may_begin() {
        return Err(Stop::Unsupported);
    }
    Ok(Position {
        at: word_end(text, position.at, word)?,
        state: State::AfterValue,
    })
}

#[inline(always)]
fn read_number_step(text: &[u8], position: Position) -> Result<(Step, Position), Stop>
    ensures is_step { IfOk result (λ taken. (keeps : Bool) → IsStep keeps text.now position taken.0 taken.1) }
    ensures utf8 { IfOk result (λ taken. IsUtf8UpTo text.now position.at taken.1.at) }
{
    if !position.state.may_begin() {
        return Err(Stop::Unsupported);
    }
    let (value, at) = whole_number(text, position.at)?;
    let after = Position {
        at,
        state: State::AfterValue,
    };
    Ok((Step::Number(Number::from(value)), after))
}
