//! Iterators over the parts of a map.
ghost use Rattle.std.specs.Prelude.{◌≡◌, ◌<◌, ◌≤◌, ◌^◌, length};

use crate::map::SourceMap;
use crate::token::Token;
use std::collections::btree_set;

/// The tokens of a map, in order of generated position.
#[derive(Drop)]
pub struct TokenIter<'a> {
    pub(crate) map: &'a SourceMap,
    pub(crate) next: usize,
}

impl<'a> Iterator for TokenIter<'a> {
    type Item = Token<'a>;

    ghost use Rattle.std.specs.Iterator.{item_count};
    ghost use Rattle.sourcemap_map_regular.specs.Iterators.{GivesToken, tokens_left};

    ghost next_gives = { GivesToken };

    ghost remaining = { item_count tokens_left };

    fn next(&mut self) -> Option<Token<'a>> {
        let map = self.map;
        match map.get_token(self.next) {
            None => None,
            Some(token) => {
                self.next = token.index + 1;
                Some(token)
            }
        }
    }
}

impl TokenIter<'_> {
    ghost use Rattle.sourcemap_map_regular.specs.Iterators.{Seeks};

    /// Moves the iterator to just after the token that `lookup_token` returns for this generated
    /// position, and returns true. If `lookup_token` returns `None`, returns false and leaves the
    /// iterator unchanged.
    pub fn seek(&mut self, line: u32, col: u32) -> bool
        ensures { Seeks self.old (line, col) result self.new }
    {
        match self.map.lookup_token(line, col) {
            None => false,
            Some(token) => {
                self.next = token.index + 1;
                true
            }
        }
    }
}

/// The names of a map, in order of their ids.
#[derive(Drop)]
pub struct NameIter<'a> {
    pub(crate) names: &'a [String],
}

impl<'a> Iterator for NameIter<'a> {
    type Item = &'a str;

    ghost use Rattle.std.specs.Iterator.{YieldsFirstRef, item_count};
    ghost use Rattle.sourcemap_map_regular.specs.Iterators.{names_left};

    ghost next_gives = { YieldsFirstRef names_left };

    ghost remaining = { item_count names_left };

    fn next(&mut self) -> Option<&'a str> {
        let (first, rest) = self.names.split_first()?;
        self.names = rest;
        Some(first.as_str())
    }
}

/// The sources of a map, resolved against `sourceRoot`, in order of their ids.
#[derive(Drop)]
pub struct SourceIter<'a> {
    pub(crate) sources: &'a [String],
}

impl<'a> Iterator for SourceIter<'a> {
    type Item = &'a str;

    ghost use Rattle.std.specs.Iterator.{YieldsFirstRef, item_count};
    ghost use Rattle.sourcemap_map_regular.specs.Iterators.{sources_left};

    ghost next_gives = { YieldsFirstRef sources_left };

    ghost remaining = { item_count sources_left };

    fn next(&mut self) -> Option<&'a str> {
        let (first, rest) = self.sources.split_first()?;
        self.sources = rest;
        Some(first.as_str())
    }
}

/// The contents of each source of a map, in order of source ids; `None` for a source without
/// contents.
#[derive(Drop)]
pub struct SourceContentsIter<'a> {
    pub(crate) map: &'a SourceMap,
    pub(crate) next: u32,
}

impl<'a> Iterator for SourceContentsIter<'a> {
    type Item = Option<&'a str>;

    ghost use Rattle.std.specs.Option.{option_copied};
    ghost use Rattle.std.specs.Iterator.{YieldsFirstBy, item_count};
    ghost use Rattle.sourcemap_map_regular.specs.Iterators.{contents_left};

    ghost next_gives = { YieldsFirstBy option_copied contents_left };

    ghost remaining = { item_count contents_left };

    fn next(&mut self) -> Option<Option<&'a str>> {
        let map = self.map;
        let id = self.next;
        if id >= map.get_source_count() {
            return None;
        }
        self.next = id + 1;
        Some(map.get_source_contents(id))
    }
}

/// The source ids of the ignore list, ascending, without duplicates.
#[derive(Drop)]
pub struct IgnoreListIter<'a> {
    pub(crate) ids: btree_set::Iter<'a, u32>,
}

impl<'a> Iterator for IgnoreListIter<'a> {
    type Item = &'a u32;

    ghost use Rattle.std.specs.Iterator.{YieldsFirstRef, item_count};
    ghost use Rattle.sourcemap_map_regular.specs.Iterators.{ids_left};

    ghost next_gives = { YieldsFirstRef ids_left };

    ghost remaining = { item_count ids_left };

    fn next(&mut self) -> Option<&'a u32> {
        self.ids.next()
    }
}

impl SourceMap {
    ghost use Rattle.std.specs.List.Sorted.{IsStrictlySortedBy};
    ghost use Rattle.std.specs.Ordering.{nat_cmp};
    ghost use Rattle.sourcemap_map_regular.specs.Map.{resolved_sources, fitted};
    ghost use Rattle.sourcemap_tokens.specs.Tokens.{AreInOrder};
    ghost use Rattle.sourcemap_map_regular.specs.Iterators.{tokens_map, tokens_left, names_left, sources_left};
    ghost use Rattle.sourcemap_map_regular.specs.Iterators.{contents_left, ids_left};
    ghost use Rattle.sourcemap_map_regular.specs.Token.{tokens_from};

    /// The tokens, in order of generated position.
    pub fn tokens(&self) -> TokenIter<'_>
        ensures map { tokens_map result ≡ self.now }
        ensures rest { tokens_left result ≡ tokens_from self.now 0 }
        ensures bound { length (tokens_left result) < 2 ^ 64 }
        ensures in_order { AreInOrder self.now.tokens }
    {
        // prover: tokens are in order, and there are fewer than 2^64
        let _ = self.tokens.as_slice().len();
        TokenIter { map: self, next: 0 }
    }

    /// The names, in order of their ids.
    pub fn names(&self) -> NameIter<'_>
        ensures rest { names_left result ≡ self.now.names }
        ensures bound { length (names_left result) ≤ 4294967295 }
    {
        NameIter {
            names: self.names.as_slice(),
        }
    }

    /// The sources, resolved against `sourceRoot`, in order of their ids.
    pub fn sources(&self) -> SourceIter<'_>
        ensures rest { sources_left result ≡ resolved_sources self.now }
        ensures bound { length (sources_left result) ≤ 4294967295 }
    {
        SourceIter {
            sources: self.sources.resolved(),
        }
    }

    /// The contents of each source, in order of source ids; `None` for a source without contents.
    pub fn source_contents(&self) -> SourceContentsIter<'_>
        ensures rest { contents_left result ≡ fitted (length self.now.sources) self.now.contents }
        ensures bound { length (contents_left result) ≤ 4294967295 }
        ensures few { length self.now.contents ≤ 4294967295 }
    {
        // prover: there are at most 4294967295 sources and contents
        let _ = self.sources.len();
        let _ = self.contents.as_slice();
        SourceContentsIter { map: self, next: 0 }
    }

    /// The source ids of the ignore list, ascending, without duplicates.
    pub fn ignore_list(&self) -> IgnoreListIter<'_>
        ensures rest { ids_left result ≡ self.now.ignored }
        ensures rising { IsStrictlySortedBy nat_cmp (ids_left result) }
    {
        IgnoreListIter {
            ids: self.metadata.ignore_list().iter(),
        }
    }
}
