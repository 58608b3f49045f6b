//! A walk back along the tokens of a map, to guess the name of a function.
ghost use Rattle.std.specs.Prelude.{◌≡◌, ◌≤◌, ℕ, List, [], ◌∷◌, IfSome, Option, Some, drop, nat_le, option_map, take};
ghost use Rattle.std.specs.Prelude.{true};
ghost use Rattle.std.specs.Option.{MatchOption, option_and_then, option_copied};
ghost use Rattle.std.specs.Str.{IsCharBoundary, chars};
ghost use Rattle.sourcemap_source_views.specs.Columns.{IsOffset, column_offset, reached_offset};
ghost use Rattle.sourcemap_source_views.specs.Identifiers.{is_identifier, is_text, token_at_start};
ghost use Rattle.sourcemap_source_views.specs.Walk.{HasLine, IsWord, IsWordEnd, function_token, guessed_name};
ghost use Rattle.sourcemap_source_views.specs.Walk.{identifier_from, position_in, sets, walked};

use crate::columns::{LineOffset, reach_from, reach_or_end};
use crate::js_identifiers::{
    blank_length, is_valid_javascript_identifier, parts_length, starts_with_identifier,
    starts_with_start,
};
use crate::sourceview::SourceView;

/// A token of a map. A walk back along the tokens of the map uses the methods of this trait.
pub trait WalkedToken: Copy + Drop {
    /// The type of a token's name.
    type Name;

    // Contracts describe a token by a value of this type. The value holds the token's generated
    // position and its name.
    ghost Seen: { Type 0 };

    ghost seen: { Self → Seen };

    ghost position_value: { Seen → ℕ × ℕ };

    ghost name_of: { Seen → Option (List ℕ) };

    ghost text_of: { Self.Name → List ℕ };

    // The tokens before this token in its map, the closest first.
    ghost before: { Self → List Seen };

    /// The generated line and column, both 0-based, the column in UTF-16 units.
    fn generated_position(&self) -> (u32, u32)
        ensures { result ≡ position_value (seen self.now) };

    /// The name, if the token has one.
    fn name(&self) -> Option<Self::Name>
        ensures { option_map text_of result ≡ name_of (seen self.now) };

    /// The token before this one in its map, `None` for the first.
    fn previous(&self) -> Option<Self>
        ensures { MatchOption result (before self.now ≡ [])
            (λ token. before self.now ≡ seen token ∷ before token) };
}

// A line of a view with its number, and an offset `at` in the line. `word` is the offset of the
// first non-white-space character at or after `at`, or the end of the line.
#[derive(Clone, Copy)]
struct Cursor<'view> {
    number: u32,
    line: &'view str,
    at: LineOffset,
    word: usize,
    ghost sound: { IsOffset line.now at.offset at.units },
    ghost first: { IsWord line.now at.offset word },
}

impl<'view> Cursor<'view> {
    // A cursor at a column, or at the end of a line that is too short. Searches from the start of
    // the line.
    fn new(number: u32, line: &'view str, col: u32) -> Cursor<'view>
        ensures number { result.number ≡ number }
        ensures line { result.line.now ≡ line.now }
        ensures offset { reached_offset col result.at.offset result.at.units
            ≡ column_offset line.now col }
    {
        let at = reach_or_end(line, u64::from(col));
        let word = word_from(line, at.offset);
        Cursor {
            number,
            line,
            at,
            word,
        }
    }

    // A cursor at another column of the same line, or at the end of a line that is too short. The
    // search goes back from this cursor if the column is not after this cursor. So in a walk over
    // tokens in descending order, only the first search in a line starts at the start of the line.
    fn moved_to(&self, col: u32) -> Cursor<'view>
        ensures number { result.number ≡ self.now.number }
        ensures line { result.line.now ≡ self.now.line.now }
        ensures offset { reached_offset col result.at.offset result.at.units
            ≡ column_offset self.now.line.now col }
    {
        let at = reach_from(self.line, self.at, u64::from(col));
        let word = word_near(self.line, at.offset, self.at.offset, self.word);
        Cursor {
            number: self.number,
            line: self.line,
            at,
            word,
        }
    }

    // Returns true if the line reaches column `col` and the identifier at the offset `word` is
    // `name`. `col` is the column that this cursor was made for.
    fn is_named(&self, col: u32, name: &str) -> bool
        requires { is_identifier (chars name.now) ≡ true }
        ensures { result ≡ is_text name.now
            (identifier_from self.now.line.now col self.now.at.offset self.now.at.units) }
    {
        u64::from(col) <= self.at.units && starts_with_identifier(&self.line[self.word..], name)
    }
}

// A cursor, and an offset `end` in the line of the cursor. The characters from the offset `word` of
// the cursor up to `end` can all continue an identifier. The character at `end`, if any, cannot.
#[derive(Clone, Copy)]
struct Word<'view> {
    cursor: Cursor<'view>,
    end: usize,
    ghost ended: { IsWordEnd cursor.line.now cursor.word end },
}

impl<'view> Word<'view> {
    // The word at a cursor. Searches for `end`.
    fn new(cursor: Cursor<'view>) -> Word<'view>
        ensures { result.cursor ≡ cursor.entry }
    {
        let end = cursor.word + parts_length(&cursor.line[cursor.word..]);
        Word { cursor, end }
    }

    // The word at another column of the same line. If the new word starts at or before the old
    // word, the search for the new `end` stops at the start of the old word.
    fn moved_to(&self, col: u32) -> Word<'view>
        ensures number { result.cursor.number ≡ self.now.cursor.number }
        ensures line { result.cursor.line.now ≡ self.now.cursor.line.now }
        ensures offset { reached_offset col result.cursor.at.offset result.cursor.at.units
            ≡ column_offset self.now.cursor.line.now col }
    {
        let cursor = self.cursor.moved_to(col);
        if cursor.word > self.cursor.word {
            return Word::new(cursor);
        }
        let end = end_before(cursor.line, cursor.word, self.cursor.word, self.end);
        Word { cursor, end }
    }

    // The identifier that starts at this word. `None` if none starts there, or if the line ends
    // before column `col`. `col` must be the column given to `moved_to` or `Cursor::new`.
    fn identifier(&self, col: u32) -> Option<&'view str>
        ensures { option_copied result ≡ identifier_from self.now.cursor.line.now col
            self.now.cursor.at.offset self.now.cursor.at.units }
    {
        let cursor = &self.cursor;
        if u64::from(col) <= cursor.at.units && starts_with_start(&cursor.line[cursor.word..]) {
            Some(&cursor.line[cursor.word..self.end])
        } else {
            None
        }
    }
}

// The offset of the first non-white-space character at or after `offset`, or the end of the line if
// there is no such character.
fn word_from(line: &str, offset: usize) -> usize
    requires { IsCharBoundary line.now offset }
    ensures { IsWord line.now offset result }
{
    offset + blank_length(&line[offset..])
}

// Returns the same as `word_from` for `offset`. `word` is the result of `word_from` for the offset
// `known`.
fn word_near(line: &str, offset: usize, known: usize, word: usize) -> usize
    requires offset { IsCharBoundary line.now offset }
    requires known { IsCharBoundary line.now known }
    requires word { IsWord line.now known word }
    ensures { IsWord line.now offset result }
{
    if offset <= known {
        word_before(line, offset, known, word)
    } else {
        word_from(line, offset)
    }
}

// Returns the same as `word_from` for `offset`. `word` is the result of `word_from` for the offset
// `next`, which is not before `offset`. White space is read only up to `next`.
fn word_before(line: &str, offset: usize, next: usize, word: usize) -> usize
    requires order { offset ≤ next }
    requires offset { IsCharBoundary line.now offset }
    requires next { IsCharBoundary line.now next }
    requires word { IsWord line.now next word }
    ensures { IsWord line.now offset result }
{
    let gap = &line[offset..next];
    let blank = blank_length(gap);
    if blank == gap.len() {
        word
    } else {
        offset + blank
    }
}

// The offset of the first character at or after `word` that cannot continue an identifier, or the
// end of the line if there is no such character. `next` is not before `word`. `end` is the offset
// of the first such character at or after `next`, or the end of the line. Reads no character at or
// after `next`.
fn end_before(line: &str, word: usize, next: usize, end: usize) -> usize
    requires order { word ≤ next }
    requires word { IsCharBoundary line.now word }
    requires next { IsCharBoundary line.now next }
    requires end { IsWordEnd line.now next end }
    ensures { IsWordEnd line.now word result }
{
    let gap = &line[word..next];
    let length = parts_length(gap);
    if length == gap.len() {
        end
    } else {
        word + length
    }
}

// A cursor at column `col` of line `line`, or at the end of the line if the line is too short.
// `None` if there is no such line. `last` is the cursor of the previous token in the walk, if any.
// If `last` is on line `line`, the result is `last.moved_to(col)`.
fn next_cursor<'view>(
    view: &'view SourceView,
    last: Option<Cursor<'view>>,
    line: u32,
    col: u32,
) -> Option<Cursor<'view>>
    requires { IfSome last (λ s. HasLine view.now s.number s.line.now) }
    ensures value { option_and_then
        (λ s. option_map (λ at. (s.line.now, at))
        (reached_offset col s.at.offset s.at.units)) result
        ≡ position_in view.now (line, col) }
    ensures kept { IfSome result (λ s. HasLine view.now s.number s.line.now) }
{
    match last {
        Some(cursor) if cursor.number == line => Some(cursor.moved_to(col)),
        _ => Some(Cursor::new(line, view.get_line(line)?, col)),
    }
}

// The word at column `col` of line `line`, or at the end of the line if the line is too short.
// `None` if there is no such line. `last` is the word of the previous token in the walk, if any. If
// `last` is on line `line`, the result is `last.moved_to(col)`.
fn next_word<'view>(
    view: &'view SourceView,
    last: Option<Word<'view>>,
    line: u32,
    col: u32,
) -> Option<Word<'view>>
    requires { IfSome last (λ w. HasLine view.now w.cursor.number w.cursor.line.now) }
    ensures value { option_and_then
        (λ w. option_map (λ at. (w.cursor.line.now, at))
        (reached_offset col w.cursor.at.offset w.cursor.at.units)) result
        ≡ position_in view.now (line, col) }
    ensures kept { IfSome result (λ w. HasLine view.now w.cursor.number w.cursor.line.now) }
{
    match last {
        Some(word) if word.cursor.number == line => Some(word.moved_to(col)),
        _ => Some(Word::new(Cursor::new(line, view.get_line(line)?, col))),
    }
}

/// An iterator over a token of a map and all tokens before it, the closest first. With each token
/// it returns the identifier at the token's generated position in a view. The iterator first skips
/// any white space at this position, but not past the end of the line. The identifier is the
/// longest one that starts at the resulting offset. The identifier is `None` if the view has no
/// such position, or if no identifier starts at this offset.
#[derive(Drop)]
pub struct RevTokenIter<'view, T> {
    view: &'view SourceView,
    token: Option<T>,
    word: Option<Word<'view>>,
    ghost own: { IfSome word (λ w. HasLine view.now w.cursor.number w.cursor.line.now) } by { Prim.hlevel sets },
}

impl<'view, T: WalkedToken> Iterator for RevTokenIter<'view, T> {
    type Item = (T, Option<&'view str>);

    ghost use Rattle.std.specs.Iterator.{YieldsFirstBy, item_count};
    ghost use Rattle.sourcemap_source_views.specs.Walks.{item_seen, walk_left};

    ghost next_gives = { YieldsFirstBy (item_seen T.seen) (walk_left T.seen T.before T.position_value) };

    ghost remaining = { item_count (walk_left T.seen T.before T.position_value) };

    fn next(&mut self) -> Option<(T, Option<&'view str>)> {
        let token = self.token?;
        self.token = token.previous();
        let (line, col) = token.generated_position();
        let word = next_word(self.view, self.word, line, col);
        self.word = word;
        Some((token, identifier_of(word, col)))
    }
}

// Returns the same as `Word::identifier`, or `None` if `word` is `None`.
fn identifier_of<'view>(word: Option<Word<'view>>, col: u32) -> Option<&'view str>
    ensures { option_copied result ≡ option_and_then
        (λ w. identifier_from w.cursor.line.now col w.cursor.at.offset w.cursor.at.units)
        word.entry }
{
    word?.identifier(col)
}

// Returns the same as `Cursor::is_named`, or false if `cursor` is `None`.
fn is_named(cursor: Option<Cursor<'_>>, col: u32, name: &str) -> bool
    requires { is_identifier (chars name.now) ≡ true }
    ensures { result ≡ is_text name.now (option_and_then
        (λ s. identifier_from s.line.now col s.at.offset s.at.units) cursor.entry) }
{
    match cursor {
        None => false,
        Some(cursor) => cursor.is_named(col, name),
    }
}

// Walks back over `token` and the tokens before it, at most 128 in all. Looks for two consecutive
// tokens of the walk: the first has the identifier `name`, the second the identifier `function`.
// Returns the first token of the first such pair, or `None` if there is no such pair. Uses cursors
// instead of words, because a comparison needs no search for the end of an identifier.
fn function_token<T: WalkedToken>(view: &SourceView, token: T, name: &str) -> Option<T>
    requires { is_identifier (chars name.now) ≡ true }
    ensures { option_map T.seen result ≡ function_token name.now
        (take 128 (walked T.position_value view.now (T.seen token ∷ T.before token))) }
{
    let mut left = Some(token);
    let mut cursor = None;
    let mut called = None;
    for _passed in 0..128u32 {
        let token = left?;
        left = token.previous();
        let (line, col) = token.generated_position();
        cursor = next_cursor(view, cursor, line, col);
        if called.is_some() && is_named(cursor, col, "function") {
            return called;
        }
        called = if is_named(cursor, col, name) {
            Some(token)
        } else {
            None
        };
    }
    None
}

impl SourceView {
    ghost use Rattle.sourcemap_source_views.specs.Walks.{walk_left};

    /// Iterates over this token of a map and all tokens before it, the closest first, each with the
    /// identifier at its position in the view.
    pub fn rev_token_iter<T: WalkedToken>(&self, token: T) -> RevTokenIter<'_, T>
        ensures { walk_left T.seen T.before T.position_value result
            ≡ walked T.position_value self.now (T.seen token ∷ T.before token) }
    {
        RevTokenIter {
            view: self,
            token: Some(token),
            word: None,
        }
    }

    /// Guesses the original name of a function from its minified name. Walks back over this token
    /// and the tokens before it, at most 128 in all. Two consecutive tokens of the walk match if
    /// the identifier at the position of the first token is `minified_name` and the identifier at
    /// the position of the second token is `function`. White space between a position and the
    /// identifier is skipped, but not past the end of the line. Returns the name of the first token
    /// of the first match. Returns `None` if no two tokens match, if the first token of the first
    /// match has no name, or if `minified_name` is no identifier.
    pub fn get_original_function_name<T: WalkedToken>(
        &self,
        token: T,
        minified_name: &str,
    ) -> Option<T::Name>
        ensures { option_map T.text_of result ≡ guessed_name T.position_value T.name_of self.now
            minified_name.now (T.seen token ∷ T.before token) }
    {
        if !is_valid_javascript_identifier(minified_name) {
            return None;
        }
        function_token(self, token, minified_name)?.name()
    }
}
