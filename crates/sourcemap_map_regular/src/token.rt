//! Tokens of a map with their texts.
ghost use Rattle.std.specs.Prelude.{◌≡◌, ℕ, ◌+◌, ◌++◌, ◌<◌, ◌^◌, Some, codes, decimal, slice_get};

use crate::map::SourceMap;
use itoa::write_digits;
use sourcemap_source_views::sourceview::SourceView;
use sourcemap_tokens::tokens::{NO_ID, RawToken};
use std::fmt;
use std::str::from_utf8_unchecked;

/// A token of a map, with a borrow of the map. Its getters return its source and its name as texts.
/// If a lookup of a position finds a range token on the same line, `get_src_col` returns the
/// original column plus the columns from the token to the position, but at most 4294967295. For any
/// other token, `get_src_col` returns the original column.
#[derive(Clone, Copy)]
pub struct Token<'a> {
    pub(crate) map: &'a SourceMap,
    pub(crate) raw: RawToken,
    pub(crate) index: usize,
    pub(crate) extra_columns: u32,
    ghost own: { slice_get map.now.tokens index ≡ Some raw },
    ghost small: { index + 1 < 2 ^ 64 },
}

impl<'a> Token<'a> {
    ghost use Rattle.std.specs.Prelude.{◌≢◌, ◌==◌, not, [], IsTrue, IsSome, ◌↔◌, option_map, is_some, unwrap_or};
    ghost use Rattle.std.specs.Fmt.{WritesOnOk};
    ghost use Rattle.std.specs.Option.{option_copied};
    ghost use Rattle.sourcemap_tokens.specs.Tokens.{no_id};
    ghost use Rattle.sourcemap_map_regular.specs.Map.{contents_of};
    ghost use Rattle.sourcemap_map_regular.specs.Token.{meaning_of_token, token_text, token_value};

    /// The map of the token.
    pub fn sourcemap(&self) -> &'a SourceMap
        ensures { result.now ≡ (token_value self.now).map_of }
    {
        self.map
    }

    /// The index of the token among the tokens of its map, as `get_token` takes it.
    pub fn get_index(&self) -> usize
        ensures value { result ≡ (token_value self.now).index }
        ensures own { slice_get (token_value self.now).map_of.tokens result
            ≡ Some (token_value self.now).raw }
        ensures small { result + 1 < 2 ^ 64 }
    {
        self.index
    }

    /// The generated line, counted from 0.
    pub fn get_dst_line(&self) -> u32
        ensures { result ≡ (token_value self.now).raw.dst_line }
    {
        self.raw.dst_line
    }

    /// The generated column, counted from 0 in UTF-16 units. In a map of Hermes bytecode, it is an
    /// offset in the bytecode.
    pub fn get_dst_col(&self) -> u32
        ensures { result ≡ (token_value self.now).raw.dst_col }
    {
        self.raw.dst_col
    }

    /// The generated position: line and column.
    pub fn get_dst(&self) -> (u32, u32)
        ensures { result
            ≡ ((token_value self.now).raw.dst_line, (token_value self.now).raw.dst_col) }
    {
        (self.raw.dst_line, self.raw.dst_col)
    }

    /// The original line, counted from 0; 4294967295 if the map is well-formed and the token has no
    /// source.
    pub fn get_src_line(&self) -> u32
        ensures { result ≡ (meaning_of_token self.now).line }
    {
        self.raw.src_line
    }

    /// The original column, counted from 0 in UTF-16 units; 4294967295 if the map is well-formed
    /// and the token has no source. If a lookup of a position found this token, and the token is a
    /// range token on the same line, the columns from the token to the position are added. The sum
    /// is at most 4294967295.
    pub fn get_src_col(&self) -> u32
        ensures { result ≡ (meaning_of_token self.now).column }
    {
        self.raw.src_col.saturating_add(self.extra_columns)
    }

    /// The original position: `get_src_line` and `get_src_col`.
    pub fn get_src(&self) -> (u32, u32)
        ensures { result ≡ ((meaning_of_token self.now).line, (meaning_of_token self.now).column) }
    {
        (self.get_src_line(), self.get_src_col())
    }

    /// The source id; 4294967295 (`NO_ID`) means that the token has no source.
    pub fn get_src_id(&self) -> u32
        ensures { result ≡ (token_value self.now).raw.src_id }
    {
        self.raw.src_id
    }

    /// The source with the token's source id, resolved against `sourceRoot`; `None` if no source of
    /// the map has this id.
    pub fn get_source(&self) -> Option<&'a str>
        ensures { option_copied result ≡ (meaning_of_token self.now).source }
    {
        self.map.get_source(self.raw.src_id)
    }

    /// A view of the contents that the map has for the token's source id, if it has any. The map
    /// may have contents for an id even if no source has this id. The call allocates no memory.
    pub fn get_source_view(&self) -> Option<&'a SourceView>
        ensures { option_copied result
            ≡ contents_of (token_value self.now).map_of (token_value self.now).raw.src_id }
    {
        self.map.get_source_view(self.raw.src_id)
    }

    /// Whether the token has a source id other than 4294967295 (`NO_ID`). The map need not have a
    /// source with this id.
    pub fn has_source(&self) -> bool
        ensures { result ≡ not ((token_value self.now).raw.src_id == no_id) }
    {
        self.raw.src_id != NO_ID
    }

    /// The name with the token's name id; `None` if no name of the map has this id.
    pub fn get_name(&self) -> Option<&'a str>
        ensures { option_copied result ≡ (meaning_of_token self.now).name }
    {
        self.map.get_name(self.raw.name_id)
    }

    /// Whether the map has a name with the token's name id.
    pub fn has_name(&self) -> bool
        ensures { result ≡ is_some (meaning_of_token self.now).name }
    {
        self.get_name().is_some()
    }

    /// The name id; 4294967295 (`NO_ID`) means that the token has no name.
    pub fn get_name_id(&self) -> u32
        ensures { result ≡ (token_value self.now).raw.name_id }
    {
        self.raw.name_id
    }

    /// Source (the empty string if there is none), original line and column, and name.
    pub fn to_tuple(&self) -> (&'a str, u32, u32, Option<&'a str>)
        ensures source { result.0.now ≡ unwrap_or (meaning_of_token self.now).source [] }
        ensures line { result.1 ≡ (meaning_of_token self.now).line }
        ensures column { result.2 ≡ (meaning_of_token self.now).column }
        ensures name { option_copied result.3 ≡ (meaning_of_token self.now).name }
    {
        (
            self.get_source().unwrap_or(""),
            self.get_src_line(),
            self.get_src_col(),
            self.get_name(),
        )
    }

    /// The raw token. Its original column does not include the columns that a lookup adds.
    pub fn get_raw_token(&self) -> RawToken
        ensures { result ≡ (token_value self.now).raw }
    {
        self.raw
    }

    /// Whether this is a range token.
    pub fn is_range(&self) -> bool
        ensures { result ≡ (meaning_of_token self.now).is_range }
    {
        self.raw.is_range
    }

    // Writes the text of the token, without the additions of the alternate form.
    fn put<W: fmt::Write>(&self, f: &mut fmt::Formatter<W>) -> fmt::Result
        ensures { WritesOnOk W.write_str_gives f.old result (token_text (meaning_of_token self.now)) f.new }
    {
        let mut buffer = [0; POSITION_LENGTH];
        let position = position_text(self.get_src_line(), self.get_src_col(), &mut buffer);
        f.write_str(self.get_source().unwrap_or("<unknown>"))?;
        f.write_str(position)?;
        if let Some(name) = self.get_name() {
            f.write_str(" name=")?;
            f.write_str(name)?;
        }
        Ok(())
    }
}

// The length in bytes of the longest text of a position: two colons and two numbers of ten digits.
const POSITION_LENGTH: usize = 22;

// Formats `:line:column` at the end of the buffer and returns this text. So `put` writes the
// position to the formatter with one write. Four writes, one for each colon and each number, would
// be slower.
fn position_text(line: u32, col: u32, buffer: &mut [u8; POSITION_LENGTH]) -> &str
    ensures { result.now ≡ codes ":" ++ decimal line ++ codes ":" ++ decimal col }
{
    let start = write_digits(u64::from(col), buffer, POSITION_LENGTH) - 1;
    buffer[start] = b':';
    let start = write_digits(u64::from(line), buffer, start) - 1;
    buffer[start] = b':';
    unsafe { from_utf8_unchecked(&buffer[start..]) }
}

impl fmt::Display for Token<'_> {
    ghost use Rattle.std.specs.Prelude.{Some as Stated};
    ghost use Rattle.sourcemap_map_regular.specs.Token.{meaning_of_token, token_text};

    ghost output = { λ token. Stated (token_text (meaning_of_token token)) };

    /// Writes the original position as `source:line:column`. Writes `<unknown>` for the source if
    /// there is no source. Adds ` name=NAME` if there is a name. The alternate form then adds the
    /// generated position as ` (line:column)`, and adds ` (range)` for a range token.
    fn fmt<W: fmt::Write>(&self, f: &mut fmt::Formatter<W>) -> fmt::Result {
        self.put(f)?;
        if f.alternate() {
            write!(f, " ({}:{})", self.raw.dst_line, self.raw.dst_col)?;
            if self.raw.is_range {
                f.write_str(" (range)")?;
            }
        }
        Ok(())
    }
}

impl fmt::Debug for Token<'_> {
    /// Writes the alternate form of `Display`, between `<Token ` and `>`.
    fn fmt<W: fmt::Write>(&self, f: &mut fmt::Formatter<W>) -> fmt::Result {
        write!(f, "<Token {self:#}>")
    }
}
