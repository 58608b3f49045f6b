//! Tokens of a compiled map with their texts.
ghost use Rattle.std.specs.Prelude.{◌≡◌, ◌<◌};
ghost use Rattle.sourcemap_compiled.specs.Layout.{token_count};

use crate::errors::CompiledMapError;
use crate::map::CompiledMap;
use sourcemap_tokens::tokens::{NO_ID, RawToken};

/// A token of a compiled map. If a lookup of a position finds a range token on the same line,
/// `get_src_col` returns the original column plus the columns from the token to the position, but
/// at most 4294967295. For any other token, `get_src_col` returns the original column.
#[derive(Clone, Copy)]
pub struct CompiledToken<'a> {
    pub(crate) map: CompiledMap<'a>,
    pub(crate) raw: RawToken,
    pub(crate) index: usize,
    pub(crate) extra_columns: u32,
    ghost inside: { index < token_count map.bytes.now },
}

impl<'a> CompiledToken<'a> {
    ghost use Rattle.std.specs.Prelude.{◌↔◌, ◌==◌, IsOk, IsTrue, not};
    ghost use Rattle.sourcemap_tokens.specs.Tokens.{no_id};
    ghost use Rattle.sourcemap_compiled.specs.Layout.{name_count};
    ghost use Rattle.sourcemap_compiled.specs.Stored.{bytes_of, meaning_of_token, token_value};
    ghost use Rattle.sourcemap_compiled.specs.Soundness.{IsSound};
    ghost use Rattle.sourcemap_compiled.specs.Texts.{ReadsText};

    /// The map of the token.
    pub fn compiled_map(&self) -> CompiledMap<'a>
        ensures { bytes_of result ≡ (token_value self.now).bytes }
    {
        self.map
    }

    /// The index of the token among the tokens of its map.
    pub fn get_index(&self) -> usize
        ensures { result ≡ (token_value self.now).index }
    {
        self.index
    }

    /// The generated line, counted from 0.
    pub fn get_dst_line(&self) -> u32
        ensures { result ≡ (token_value self.now).raw.dst_line }
    {
        self.raw.dst_line
    }

    /// The generated column, counted from 0 in UTF-16 units. In a map of Hermes bytecode, it is an
    /// offset in the bytecode.
    pub fn get_dst_col(&self) -> u32
        ensures { result ≡ (token_value self.now).raw.dst_col }
    {
        self.raw.dst_col
    }

    /// The generated position: line and column.
    pub fn get_dst(&self) -> (u32, u32)
        ensures { result
            ≡ ((token_value self.now).raw.dst_line, (token_value self.now).raw.dst_col) }
    {
        (self.raw.dst_line, self.raw.dst_col)
    }

    /// The original line, counted from 0. It is 4294967295 if the token has no source, as the maps
    /// have it that are decoded.
    pub fn get_src_line(&self) -> u32
        ensures { result ≡ (meaning_of_token self.now).line }
    {
        self.raw.src_line
    }

    /// The original column, counted from 0 in UTF-16 units, with the columns that a lookup adds for
    /// a range token, but at most 4294967295.
    pub fn get_src_col(&self) -> u32
        ensures { result ≡ (meaning_of_token self.now).column }
    {
        self.raw.src_col.saturating_add(self.extra_columns)
    }

    /// The original position: `get_src_line` and `get_src_col`.
    pub fn get_src(&self) -> (u32, u32)
        ensures { result ≡ ((meaning_of_token self.now).line, (meaning_of_token self.now).column) }
    {
        (self.get_src_line(), self.get_src_col())
    }

    /// The source id; 4294967295 (`NO_ID`) means that the token has no source.
    pub fn get_src_id(&self) -> u32
        ensures { result ≡ (token_value self.now).raw.src_id }
    {
        self.raw.src_id
    }

    /// The source with the token's source id, resolved; `None` if no source has this id. The error
    /// is `TextOutside` or `InvalidUtf8`.
    pub fn get_source(&self) -> Result<Option<&'a str>, CompiledMapError>
        ensures text { ReadsText (meaning_of_token self.now).source result }
        ensures sound { IsSound (token_value self.now).bytes → IsOk result }
    {
        self.map.source(self.raw.src_id)
    }

    /// Whether the token has a source id other than 4294967295 (`NO_ID`). The map need not have a
    /// source with this id.
    pub fn has_source(&self) -> bool
        ensures { result ≡ not ((token_value self.now).raw.src_id == no_id) }
    {
        self.raw.src_id != NO_ID
    }

    /// The name with the token's name id; `None` if no name has this id. The error is `TextOutside`
    /// or `InvalidUtf8`.
    pub fn get_name(&self) -> Result<Option<&'a str>, CompiledMapError>
        ensures text { ReadsText (meaning_of_token self.now).name result }
        ensures sound { IsSound (token_value self.now).bytes → IsOk result }
    {
        self.map.name(self.raw.name_id)
    }

    /// Whether the map has a name with the token's name id.
    pub fn has_name(&self) -> bool
        ensures { IsTrue result ↔ ((token_value self.now).raw.name_id < name_count (token_value self.now).bytes) }
    {
        self.raw.name_id < self.map.name_count()
    }

    /// The name id; 4294967295 (`NO_ID`) means that the token has no name.
    pub fn get_name_id(&self) -> u32
        ensures { result ≡ (token_value self.now).raw.name_id }
    {
        self.raw.name_id
    }

    /// The scope of the token, the name of a function of a Hermes map; `None` if it has none. The
    /// error is `TextOutside` or `InvalidUtf8`.
    pub fn get_scope(&self) -> Result<Option<&'a str>, CompiledMapError>
        ensures text { ReadsText (meaning_of_token self.now).scope result }
        ensures sound { IsSound (token_value self.now).bytes → IsOk result }
    {
        self.map.scope_of(self.index)
    }

    /// The raw token. Its original column does not include the columns that a lookup adds.
    pub fn get_raw_token(&self) -> RawToken
        ensures { result ≡ (token_value self.now).raw }
    {
        self.raw
    }

    /// Whether this is a range token.
    pub fn is_range(&self) -> bool
        ensures { result ≡ (meaning_of_token self.now).is_range }
    {
        self.raw.is_range
    }
}
