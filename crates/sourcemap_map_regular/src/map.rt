//! A regular map: its parts, getters and lookups.
ghost use Rattle.std.specs.Prelude.{◌≡◌, ◌==◌, not, ◌<◌, ◌≤◌, ◌+◌, ◌*◌, ◌^◌, [], IfOk, IfSome, Ok, Some, length, min};
ghost use Rattle.std.specs.Prelude.{option_map, slice_get, unwrap_or, vec_len};
ghost use Rattle.std.specs.Option.{option_copied, ForSome};
ghost use Rattle.sourcemap_map_conversions.specs.Parts.{parts_view};
ghost use Rattle.sourcemap_errors.specs.Answer.{Gives};
ghost use Rattle.sourcemap_texts.specs.Texts.{texts_of, contents_in};
ghost use Rattle.sourcemap_map_regular.specs.Map.{distance};

use crate::token::Token;
use sourcemap_errors::errors::Result;
use sourcemap_headers::debug_id::DebugId;
use sourcemap_line_index::token_list::TokenList;
use sourcemap_map_conversions::parts::Parts;
use sourcemap_map_parts::contents::Contents;
use sourcemap_map_parts::metadata::MapMetadata;
use sourcemap_map_parts::sources::Sources;
use sourcemap_source_views::sourceview::SourceView;
use sourcemap_texts::copies::copy_text;
use sourcemap_tokens::tokens::RawToken;
use std::alloc::Global;
use std::marker::Model;

/// A source map: tokens that map generated positions to original positions. Lines and columns count
/// from 0, columns in UTF-16 units.
#[derive(Debug)]
pub struct SourceMap {
    pub(crate) metadata: MapMetadata,
    pub(crate) tokens: TokenList,
    pub(crate) names: Vec<String>,
    pub(crate) sources: Sources,
    pub(crate) contents: Contents,
}

impl Model for SourceMap {
    ghost use Rattle.sourcemap_map_regular.specs.Map.{MapValue};

    ghost Value = { MapValue };

    ghost use Rattle.sourcemap_map_regular.specs.MapStored.{value_of, HasFewNames};

    ghost view = { value_of };

    ghost invariant = { HasFewNames };
}

// prover: one drop
impl Drop for SourceMap {
    fn drop(self) {
        let SourceMap {
            metadata: _,
            tokens: _,
            names: _,
            sources: _,
            contents: _,
        } = self;
    }
}

// The number of columns from a range token to a position on the token's line. It is 0 if the token
// is no range token, if the position is on another line, or if the position is before the token.
fn distance(token: RawToken, line: u32, col: u32) -> u32
    ensures { result ≡ distance token (line, col) }
{
    if token.is_range && token.dst_line == line {
        col.saturating_sub(token.dst_col)
    } else {
        0
    }
}

impl SourceMap {
    ghost use Rattle.sourcemap_tokens.specs.Tokens.{AllWithin, closest_token};
    ghost use Rattle.sourcemap_line_index.specs.LineIndex.{binary_digits};
    ghost use Rattle.sourcemap_map_regular.specs.Map.{IsWellFormed, made_of, meaning, name_of, source_of, contents_of};
    ghost use Rattle.sourcemap_map_regular.specs.MapStored.{map_over, parts_in};
    ghost use Rattle.sourcemap_map_regular.specs.Token.{meaning_of_token, lookup, token_at, token_value};

    /// A map of these parts, with its tokens sorted stably by generated position. It has no root,
    /// an empty ignore list and no debug id. `None` for `sources_content` is the same as an empty
    /// list. There may be at most 4294967295 names, sources and contents each. Each token keeps its
    /// source id and its name id. If no source has the source id, `get_source` of the token returns
    /// `None`. If no name has the name id, `get_name` of the token returns `None`. The only error
    /// is `OutOfMemory`.
    pub fn new(
        alloc: Global,
        file: Option<&str>,
        tokens: Vec<RawToken>,
        names: Vec<String>,
        sources: Vec<String>,
        sources_content: Option<Vec<Option<String>>>,
    ) -> Result<Self>
        requires few_names { vec_len names ≤ 4294967295 }
        requires few_sources { vec_len sources ≤ 4294967295 }
        requires few_contents { ForSome sources_content
            (λ contents. vec_len contents ≤ 4294967295) }
        ensures value { Gives (λ m. m) result (Ok (made_of (option_copied file.entry) tokens.items
            (texts_of names) (texts_of sources)
            (unwrap_or (option_map contents_in sources_content) []))) }
        ensures well_formed { AllWithin (vec_len sources) (vec_len names) tokens.items
            → IfOk result IsWellFormed }
    {
        // prover: smallest drops first
        let contents = contents_if(alloc, sources_content)?;
        let tokens = TokenList::from_unsorted(tokens)?;
        let file = copy_text(alloc, file)?;
        let metadata = MapMetadata::new(alloc, file);
        let sources = Sources::new(sources);
        Ok(SourceMap::of_parts(metadata, tokens, names, sources, contents))
    }

    /// The map of these parts. There may be at most 4294967295 names.
    pub fn of_parts(
        metadata: MapMetadata,
        tokens: TokenList,
        names: Vec<String>,
        sources: Sources,
        contents: Contents,
    ) -> Self
        requires { vec_len names ≤ 4294967295 }
        ensures { result ≡ map_over metadata tokens (texts_of names) sources contents }
    {
        SourceMap {
            metadata,
            tokens,
            names,
            sources,
            contents,
        }
    }

    pub(crate) fn into_parts(self) -> Parts
        ensures value { parts_view result ≡ parts_in self }
        ensures few { vec_len result.names ≤ 4294967295 }
    {
        let SourceMap {
            metadata,
            tokens,
            names,
            sources,
            contents,
        } = self;
        Parts {
            metadata,
            tokens,
            names,
            sources,
            contents,
        }
    }

    /// The name of the generated file, if the map has one.
    pub fn get_file(&self) -> Option<&str>
        ensures { option_copied result ≡ self.now.file }
    {
        self.metadata.file()
    }

    /// The `sourceRoot`, if the map has one.
    pub fn get_source_root(&self) -> Option<&str>
        ensures { option_copied result ≡ self.now.root }
    {
        self.sources.root()
    }

    /// The debug id, if the map has one. It associates the map with its generated file.
    pub fn get_debug_id(&self) -> Option<DebugId>
        ensures { result ≡ self.now.debug_id }
    {
        self.metadata.debug_id()
    }

    /// The allocator of the map.
    pub fn allocator(&self) -> Global {
        *self.names.allocator()
    }

    /// The token with this index; `None` after the last token. Indices count from 0, in order of
    /// generated position.
    pub fn get_token(&self, index: usize) -> Option<Token<'_>>
        ensures { option_map token_value result ≡ token_at self.now index }
    {
        match self.tokens.get(index) {
            None => None,
            Some(raw) => Some(Token {
                map: self,
                raw,
                index,
                extra_columns: 0,
            }),
        }
    }

    /// The number of tokens; 4294967295 if there are more.
    pub fn get_token_count(&self) -> u32
        ensures { result ≡ min (length self.now.tokens) 4294967295 }
    {
        u32::try_from(self.tokens.len()).unwrap_or(u32::MAX)
    }

    /// The token closest to a generated position: the first token at the position, otherwise the
    /// last token before the position, even if this token is on an earlier line. `None` if all
    /// tokens are after the position. If the token is a range token on the line of the position,
    /// `get_src_col` of the token returns the original column plus the number of columns from the
    /// token to the position, but at most 4294967295.
    #[inline(always)]
    pub fn lookup_token(&self, line: u32, col: u32) -> Option<Token<'_>>
        ensures value { option_map token_value result ≡ lookup self.now (line, col) }
        ensures meaning { option_map meaning_of_token result ≡ meaning self.now (line, col) }
    {
        self.lookup_token_steps(line, col).0
    }

    /// The token that `lookup_token` returns, and the number of comparisons that the lookup made.
    /// Each comparison is between `line` and the line of a token, or between `col` and the column
    /// of a token. If the number of tokens has d binary digits, there are at most 2 (d + 1)
    /// comparisons: at most 22 for 1000 tokens. The lookup allocates no memory.
    #[inline(always)]
    pub fn lookup_token_steps(&self, line: u32, col: u32) -> (Option<Token<'_>>, u32)
        ensures value { option_map token_value result.0 ≡ lookup self.now (line, col) }
        ensures meaning { option_map meaning_of_token result.0 ≡ meaning self.now (line, col) }
        ensures counted { result.1 ≤ 2 * (binary_digits (length self.now.tokens) + 1) }
        ensures positive { 0 < length self.now.tokens → 0 < result.1 }
    {
        let (found, steps) = self.tokens.closest_steps(line, col);
        (self.found_token(found, line, col), steps)
    }

    #[inline(always)]
    fn found_token(
        &self,
        found: Option<(usize, RawToken)>,
        line: u32,
        col: u32,
    ) -> Option<Token<'_>>
        requires closest { found ≡ closest_token self.now.tokens (line, col) }
        requires own_index { IfSome found (λ at. slice_get self.now.tokens at.0 ≡ Some at.1) }
        requires small { IfSome found (λ at. at.0 + 1 < 2 ^ 64) }
        ensures value { option_map token_value result ≡ lookup self.now (line, col) }
        ensures meaning { option_map meaning_of_token result ≡ meaning self.now (line, col) }
    {
        match found {
            None => None,
            Some((index, raw)) => {
                let extra_columns = distance(raw, line, col);
                Some(Token {
                    map: self,
                    raw,
                    index,
                    extra_columns,
                })
            }
        }
    }

    /// The token that `lookup_token` returns, found without the table of lines that the map keeps.
    /// For a map outside the processor's cache, this call is faster than `lookup_token`. Maps are
    /// usually outside the cache if lookups alternate between many maps, for example between the
    /// maps in the sections of an index map.
    pub fn lookup_token_among_many(&self, line: u32, col: u32) -> Option<Token<'_>>
        ensures value { option_map token_value result ≡ lookup self.now (line, col) }
        ensures meaning { option_map meaning_of_token result ≡ meaning self.now (line, col) }
    {
        let found = self.tokens.closest_among_many(line, col);
        self.found_token(found, line, col)
    }

    /// The number of sources.
    pub fn get_source_count(&self) -> u32
        ensures { result ≡ length self.now.sources }
    {
        self.sources.len()
    }

    /// The source with this id, resolved against `sourceRoot`; `None` if no source has this id.
    pub fn get_source(&self, id: u32) -> Option<&str>
        ensures { option_copied result ≡ source_of self.now id }
    {
        self.sources.get(id)
    }

    /// The contents that the map has for this source id, if it has any. The map may have contents
    /// for an id even if no source has this id.
    pub fn get_source_contents(&self, id: u32) -> Option<&str>
        ensures { option_copied result ≡ contents_of self.now id }
    {
        match self.contents.get(id) {
            None => None,
            Some(view) => Some(view.source()),
        }
    }

    /// A view of the contents that the map has for this source id, if it has any. The map may have
    /// contents for an id even if no source has this id. The map keeps the view, so the call
    /// allocates no memory.
    pub fn get_source_view(&self, id: u32) -> Option<&SourceView>
        ensures { option_copied result ≡ contents_of self.now id }
    {
        self.contents.get(id)
    }

    /// The number of names.
    pub fn get_name_count(&self) -> u32
        ensures { result ≡ length self.now.names }
    {
        self.names.len() as u32
    }

    /// Whether the map has names.
    pub fn has_names(&self) -> bool
        ensures { result ≡ not (length self.now.names == 0) }
    {
        !self.names.is_empty()
    }

    /// The name with this id; `None` if no name has this id.
    pub fn get_name(&self, id: u32) -> Option<&str>
        ensures { option_copied result ≡ name_of self.now id }
    {
        match self.names.get(id as usize) {
            Some(name) => Some(name.as_str()),
            None => None,
        }
    }
}

fn contents_if(alloc: Global, contents: Option<Vec<Option<String>>>) -> Result<Contents>
    requires { ForSome contents (λ list. vec_len list ≤ 4294967295) }
    ensures { Gives (λ c. c) result (Ok (unwrap_or (option_map contents_in contents) [])) }
{
    match contents {
        None => Ok(Contents::new(alloc)),
        Some(texts) => Contents::of_texts(alloc, texts),
    }
}
