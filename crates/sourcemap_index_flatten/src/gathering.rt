//! Concatenation of maps, each at its offset, to one map.
ghost use Rattle.std.specs.Prelude.{◌≡◌, ◌≤◌, ℕ, List, Option, Ok, [], IfErr, IfOk, OnOk, IsOkUnless, length, map, option_map, string_bytes};
ghost use Rattle.std.specs.Option.{option_copied};
ghost use Rattle.sourcemap_errors.specs.Answer.{Gives};
ghost use Rattle.sourcemap_errors.specs.declared.errors.Error.TheVariants.{OutOfMemory};
ghost use Rattle.sourcemap_texts.specs.Texts.{texts_of, contents_in};
ghost use Rattle.sourcemap_map_regular.specs.Map.{MapValue};
ghost use Rattle.sourcemap_map_regular.specs.Lists.{AreListsOf};
ghost use Rattle.sourcemap_index_model.specs.Flat.{Piece, merged};
ghost use Rattle.sourcemap_index_flatten.specs.Gathering.{Gathers, GathersMore, HasFewTexts, IsFlat, IsPartOf, RefusesPiece};

use crate::entries::{contents_of, names_of, sources_of, texts_of};
use crate::moving::{Move, add_ignored, move_all};
use crate::table::{Entry, Table};
use sourcemap_errors::errors::Result;
use sourcemap_line_index::token_list::TokenList;
use sourcemap_map_parts::contents::Contents;
use sourcemap_map_parts::metadata::MapMetadata;
use sourcemap_map_parts::sources::Sources;
use sourcemap_map_regular::lists::MapLists;
use sourcemap_map_regular::map::SourceMap;
use sourcemap_texts::copies::copy_text;
use sourcemap_tokens::tokens::RawToken;
use std::alloc::Global;
use std::collections::BTreeSet;

// The lists of a map that is added to a `Gathering`.
#[derive(Clone, Copy)]
pub(crate) struct Part<'b, 'a> {
    pub(crate) tokens: &'b [RawToken],
    pub(crate) ignored: &'b BTreeSet<u32>,
    pub(crate) sources: &'b [Entry<'a>],
    pub(crate) names: &'b [Entry<'a>],
}

/// The maps added so far. Texts are borrowed from them.
#[derive(Drop)]
pub struct Gathering<'a> {
    sources: Table<'a>,
    names: Table<'a>,
    tokens: Vec<RawToken>,
    ignored: BTreeSet<u32>,
}

/// The concatenation of maps, without a file name. Texts are borrowed from them.
#[derive(Drop)]
pub struct FlatMap<'a> {
    tokens: TokenList,
    ignored: BTreeSet<u32>,
    sources: Vec<Entry<'a>>,
    names: Vec<Entry<'a>>,
}

impl<'a> Gathering<'a> {
    /// An empty gathering, with capacity for `tokens` tokens. The only error is `OutOfMemory`.
    pub fn with_capacity(alloc: Global, tokens: usize) -> Result<Self>
        ensures ok { IfOk result (Gathers []) }
        ensures memory { IsOkUnless result OutOfMemory }
    {
        Ok(Gathering {
            sources: Table::new(alloc)?,
            names: Table::new(alloc)?,
            tokens: Vec::with_capacity(alloc, tokens)?,
            ignored: BTreeSet::new(alloc),
        })
    }

    /// Adds the map whose lists are `map`. All tokens of the map move down by `line`. The tokens on
    /// line 0 of the map also move right by `col`. Returns `CannotFlatten` ("too many sources or
    /// names") if the gathering would then have more than 4294967295 distinct sources or more than
    /// 4294967295 distinct names. Otherwise, returns `CannotFlatten` ("a position passes
    /// 4294967295") if a token would move past line 4294967295 or past column 4294967295. The only
    /// other error is `OutOfMemory`. After an error, the contents of the gathering are unspecified.
    pub fn add(&mut self, alloc: Global, line: u32, col: u32, map: &MapLists<'a>) -> Result<()>
        ensures ok { (before : List Piece) (m : MapValue) → Gathers before self.old
            → AreListsOf m map.now → OnOk result (GathersMore before ((line, col), m) self.new) }
        ensures refused { (before : List Piece) (m : MapValue) → Gathers before self.old
            → AreListsOf m map.now → IfErr result (RefusesPiece before ((line, col), m)) }
    {
        let sources = sources_of(alloc, map.sources, map.contents)?;
        let names = names_of(alloc, map.names)?;
        let part = Part {
            tokens: map.tokens,
            ignored: map.ignored,
            sources: sources.as_slice(),
            names: names.as_slice(),
        };
        self.add_part(alloc, line, col, part)
    }

    /// Adds `map`, a concatenation, as `add` adds a single map. The tokens of `map` move by `line`
    /// and `col` as in `add`. The errors are the same as in `add`. After an error, the contents of
    /// the gathering are unspecified.
    pub fn add_flat(&mut self, alloc: Global, line: u32, col: u32, map: &FlatMap<'a>) -> Result<()>
        ensures ok { (before inner : List Piece) (file : Option (List ℕ))
            → Gathers before self.old → IsFlat inner map.now
            → OnOk result (GathersMore before ((line, col), merged file inner) self.new) }
        ensures refused { (before inner : List Piece) (file : Option (List ℕ))
            → Gathers before self.old → IsFlat inner map.now
            → IfErr result (RefusesPiece before ((line, col), merged file inner)) }
    {
        let part = Part {
            tokens: map.tokens.as_slice(),
            ignored: &map.ignored,
            sources: map.sources.as_slice(),
            names: map.names.as_slice(),
        };
        self.add_part(alloc, line, col, part)
    }

    fn add_part(&mut self, alloc: Global, line: u32, col: u32, part: Part<'_, 'a>) -> Result<()>
        ensures ok { (before : List Piece) (m : MapValue) → Gathers before self.old
            → IsPartOf m part.entry → OnOk result (GathersMore before ((line, col), m) self.new) }
        ensures refused { (before : List Piece) (m : MapValue) → Gathers before self.old
            → IsPartOf m part.entry → IfErr result (RefusesPiece before ((line, col), m)) }
    {
        let sources = self.sources.enter_all(alloc, part.sources)?;
        let names = self.names.enter_all(alloc, part.names)?;
        let to = Move {
            line,
            column: col,
            sources: sources.as_slice(),
            names: names.as_slice(),
        };
        move_all(alloc, &mut self.tokens, part.tokens, to)?;
        add_ignored(&mut self.ignored, part.tokens, part.ignored, to.sources)?;
        Ok(())
    }

    /// The concatenation, with tokens sorted stably by generated position. The only error is
    /// `OutOfMemory`.
    pub fn finish(self) -> Result<FlatMap<'a>>
        ensures ok { (pieces : List Piece) → Gathers pieces self.entry
            → IfOk result (IsFlat pieces) }
        ensures memory { IsOkUnless result OutOfMemory }
    {
        let tokens = TokenList::from_unsorted(self.tokens)?;
        Ok(FlatMap {
            tokens,
            ignored: self.ignored,
            sources: self.sources.into_entries(),
            names: self.names.into_entries(),
        })
    }
}

impl FlatMap<'_> {
    /// Returns the concatenation as an owned map with the file name `file`. The owned map has no
    /// `sourceRoot` and no debug id. The only error is `OutOfMemory`. Requires at most 4294967295
    /// sources and at most 4294967295 names.
    pub fn into_map(self, alloc: Global, file: Option<&str>) -> Result<SourceMap>
        requires { HasFewTexts self }
        ensures { (pieces : List Piece) → IsFlat pieces self.entry
            → Gives (λ m. m) result (Ok (merged (option_copied file.entry) pieces)) }
    {
        let file = copy_text(alloc, file)?;
        let names = texts_of(alloc, self.names.as_slice())?;
        let sources = texts_of(alloc, self.sources.as_slice())?;
        let contents = contents_of(alloc, self.sources.as_slice())?;
        let metadata = MapMetadata::with(file, self.ignored, None);
        let sources = Sources::new(sources);
        let contents = Contents::of_views(contents);
        Ok(SourceMap::of_parts(metadata, self.tokens, names, sources, contents))
    }
}
