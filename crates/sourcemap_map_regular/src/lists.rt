//! Borrows all lists of a map for bulk iteration.
ghost use Rattle.std.specs.Prelude.{◌≡◌, map, string_bytes};

use crate::map::SourceMap;
use sourcemap_source_views::sourceview::SourceView;
use sourcemap_tokens::tokens::RawToken;
use std::collections::BTreeSet;

/// The lists of a map. The id of a source is its index in `sources`. The contents of the source are
/// at the same index of `contents`, if that list has this index. The id of a name is its index in
/// `names`.
#[derive(Clone, Copy)]
pub struct MapLists<'a> {
    /// The tokens, in order of generated position.
    pub tokens: &'a [RawToken],
    /// The names.
    pub names: &'a [String],
    /// The sources, resolved against `sourceRoot`.
    pub sources: &'a [String],
    /// The contents of sources by id, as views; `None` for a source without contents. The list may
    /// be shorter or longer than `sources`.
    pub contents: &'a [Option<SourceView>],
    /// The source ids of the ignore list.
    pub ignored: &'a BTreeSet<u32>,
}

impl SourceMap {
    ghost use Rattle.sourcemap_tokens.specs.Tokens.{AreInOrder};
    ghost use Rattle.sourcemap_map_regular.specs.Lists.{AreListsOf};

    /// Borrows the lists of the map.
    pub fn lists(&self) -> MapLists<'_>
        ensures lists { AreListsOf self.now result }
        ensures in_order { AreInOrder self.now.tokens }
    {
        MapLists {
            tokens: self.tokens.as_slice(),
            names: self.names.as_slice(),
            sources: self.sources.resolved(),
            contents: self.contents.as_slice(),
            ignored: self.metadata.ignore_list(),
        }
    }

    /// Borrows the sources as they are written, not resolved against `sourceRoot`, indexed by id.
    pub fn unresolved_sources(&self) -> &[String]
        ensures { map string_bytes result.now ≡ self.now.sources }
    {
        self.sources.unresolved()
    }
}
