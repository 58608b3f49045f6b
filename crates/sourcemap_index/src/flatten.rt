//! Index maps flattened to one regular map.
ghost use Rattle.std.specs.Prelude.{◌≡◌, [], List, IfErr, IfOk, OnOk};
ghost use Rattle.sourcemap_errors.specs.Answer.{IsAnswer};
ghost use Rattle.sourcemap_map_regular.specs.Map.{IsWellFormed as IsWellFormedRegular};
ghost use Rattle.sourcemap_map_regular.specs.Rewrite.{LeavesMeaning, removal_of};
ghost use Rattle.sourcemap_index_model.specs.Flat.{AnswersLike, FlatAnswer, Piece, SaysFlat, pieces_after};
ghost use Rattle.sourcemap_index_model.specs.FlatList.{IsOrderly};
ghost use Rattle.sourcemap_index_model.specs.MapTree.{index_tree, sections_from};
ghost use Rattle.sourcemap_index_model.specs.WellFormed.{HasTokensInOrder, IsWellFormed};
ghost use Rattle.sourcemap_index_flatten.specs.Gathering.{Gathers, RefusesFor};
ghost use Rattle.sourcemap_index.specs.Family.{index_value, map_tree, section_value};
ghost use Rattle.sourcemap_index.specs.Leaves.{AreAdded, HasComplete, IsComplete, leaves, section_leaves};
ghost use Rattle.sourcemap_index.specs.Flatten.{AnswersLess, Gathered, IsSectionInOrder, IsFlatOf, MeansFlatLess, RewriteAnswer, SaysFlatLess, map_added, section_added};

use crate::family::{DecodedMap, SourceMapIndex, SourceMapSection};
use sourcemap_errors::errors::{Error, Result};
use sourcemap_index_flatten::errors::{past_the_end, unresolved_error};
use sourcemap_index_flatten::gathering::{FlatMap, Gathering};
use sourcemap_index_flatten::positions::absolute_position;
use sourcemap_map_regular::map::SourceMap;
use sourcemap_map_regular::rewrite::RewriteOptions;
use std::alloc::Global;
use std::rt::Files;

impl SourceMapIndex {
    /// Returns the index map as one regular map. This map has the tokens of all sections. Each
    /// token moves down by the line of its section's offset. A token on line 0 of the section's map
    /// also moves right by the column of the offset. The tokens are sorted stably by generated
    /// position. Each resolved source and each name appears once. The contents of each source are
    /// the last contents that the maps of the sections have for this source. If the source of a
    /// token is on the ignore list of the token's own map, the source is also on the ignore list of
    /// the returned map; no other source is. A Hermes map counts as its regular map, without
    /// scopes. The file is that of the index map; `sourceRoot` and debug id are `None`.
    ///
    /// Sections are added in order, up to the first error. A section causes the error
    /// `CannotFlatten` in four cases: the section has no map; its map is an index map that cannot
    /// be flattened; the number of sources or of names rises above 4294967295; a token moves past
    /// line 4294967295 or past column 4294967295. The only other error is `OutOfMemory`.
    pub fn flatten(&self) -> Result<SourceMap>
        ensures answer { IsAnswer (λ m. m) (FlatAnswer (index_tree (index_value self.now))) result }
        ensures tokens { IfOk result (SaysFlat (index_tree (index_value self.now))) }
        // If no section reaches into the next one at any level (`IsOrderly`), each position with a
        // meaning in the index map has the same meaning in the flat map.
        ensures meaning { IfOk result (λ m. IsOrderly (index_tree (index_value self.now))
            → AnswersLike (index_tree (index_value self.now)) m) }
        ensures well_formed { IfOk result (λ m. IsWellFormed (index_tree (index_value self.now))
            → IsWellFormedRegular m) }
    {
        let flat = self.gather_all()?;
        flat.into_map(self.alloc, self.get_file())
    }

    /// Flattens the index map as `flatten` does, and rewrites the flat map as `SourceMap::rewrite`
    /// does. With `load_local_source_contents`, contents that the rewritten map lacks are read from
    /// files. A source is skipped if it resolves to no file path, or if its file is not a regular
    /// file, cannot be read or is not UTF-8. A very long source may also be skipped (see
    /// `RewriteOptions`).
    ///
    /// If `flatten` fails, its error is returned. Otherwise the error is `Io` of kind
    /// `InvalidInput` if `load_local_source_contents` is true but neither `base_path` nor
    /// `current_dir` is absolute. The only other error is `OutOfMemory`.
    pub fn flatten_and_rewrite<F: Files>(
        self,
        rt: &F,
        options: &RewriteOptions<'_>,
    ) -> Result<SourceMap>
        ensures answer { IsAnswer (λ m. m)
            (RewriteAnswer options.now (index_tree (index_value self))) result }
        ensures tokens { IfOk result
            (SaysFlatLess (removal_of options.now) (index_tree (index_value self))) }
        // At every position, the result has the same meaning as the flat map, except that the
        // options can remove the name and a prefix of the source. The clause `means` holds even if
        // sections overlap or are not sorted.
        ensures means { IfOk result
            (MeansFlatLess (removal_of options.now) (index_tree (index_value self))) }
        // If no section reaches into the next one at any level (`IsOrderly`), each position with a
        // meaning in the index map has this meaning in the result, except that the options can
        // remove the name and a prefix of the source.
        ensures meaning { IfOk result (λ m. IsOrderly (index_tree (index_value self))
            → AnswersLess (removal_of options.now) (index_tree (index_value self)) m) }
        // Options that keep names and list no prefix change no meaning. With such options, if no
        // section reaches into the next one at any level, each position with a meaning in the index
        // map has the same meaning in the result.
        ensures same { LeavesMeaning (removal_of options.now) → IfOk result (λ m.
            IsOrderly (index_tree (index_value self))
            → AnswersLike (index_tree (index_value self)) m) }
        ensures well_formed { IfOk result (λ m. IsWellFormed (index_tree (index_value self))
            → IsWellFormedRegular m) }
    {
        let flat = self.flatten()?;
        flat.rewrite(rt, options)
    }

    // The concatenation of all maps in the index map. One walk makes it. Where the walk meets an
    // error, the levels are flattened one after the other, since the first error is that of the
    // innermost level.
    fn gather_all(&self) -> Result<FlatMap<'_>>
        ensures ok { IfOk result
            (IsFlatOf (pieces_after [] (sections_from (index_value self.now).sections))) }
        ensures in_order { IfOk result (λ _. HasTokensInOrder (index_tree (index_value self.now))) }
        ensures refused { IfErr result
            (RefusesFor (pieces_after [] (sections_from (index_value self.now).sections))) }
    {
        match self.gather_at_once() {
            Ok(flat) => Ok(flat),
            Err(Error::OutOfMemory) => Err(Error::OutOfMemory),
            Err(_) => self.gather_by_level(),
        }
    }

    // Adds the map of each section. If it is an index map, this is flattened first.
    #[cycle(flatten)]
    fn gather_by_level(&self) -> Result<FlatMap<'_>>
        ensures ok { IfOk result
            (IsFlatOf (pieces_after [] (sections_from (index_value self.now).sections))) }
        ensures in_order { IfOk result (λ _. HasTokensInOrder (index_tree (index_value self.now))) }
        ensures refused { IfErr result
            (RefusesFor (pieces_after [] (sections_from (index_value self.now).sections))) }
    {
        let mut gathering = Gathering::with_capacity(self.alloc, self.token_capacity())?;
        for section in &self.sections {
            section.gather(&mut gathering)?;
        }
        gathering.finish()
    }

    // Adds each regular map and each Hermes map in the index map, at every level, directly to one
    // concatenation. An error other than `OutOfMemory` need not be the error of `flatten`.
    fn gather_at_once(&self) -> Result<FlatMap<'_>>
        ensures ok { IfOk result
            (IsFlatOf (pieces_after [] (sections_from (index_value self.now).sections))) }
        ensures in_order { IfOk result (λ _. HasTokensInOrder (index_tree (index_value self.now))) }
    {
        let mut gathering = Gathering::with_capacity(self.alloc, self.token_capacity())?;
        self.gather_leaves(&mut gathering, 0, 0)?;
        gathering.finish()
    }

    // Adds the regular maps and the Hermes maps of the index map, which starts at `line` and `col`.
    #[cycle(leaves)]
    fn gather_leaves<'a>(&'a self, gathering: &mut Gathering<'a>, line: u32, col: u32) -> Result<()>
        ensures ok { (before : List Piece) → Gathers before gathering.old
            → OnOk result (AreAdded before (line, col)
            (leaves (index_tree (index_value self.now))) gathering.new) }
        ensures complete { OnOk result (IsComplete (index_tree (index_value self.now))) }
    {
        for section in &self.sections {
            section.gather_leaves(gathering, line, col)?;
        }
        Ok(())
    }

    // The number of tokens in the maps of all sections, without those in nested index maps. It is
    // only a capacity, which saves reallocations.
    fn token_capacity(&self) -> usize {
        let mut capacity: usize = 0;
        for section in &self.sections {
            if let Some(map) = &section.map {
                capacity = capacity.saturating_add(map.token_capacity());
            }
        }
        capacity
    }
}

impl SourceMapSection {
    #[cycle(flatten)]
    fn gather<'a>(&'a self, gathering: &mut Gathering<'a>) -> Result<()>
        ensures ok { (before : List Piece) → Gathers before gathering.old
            → OnOk result (Gathered (section_added before (section_value self.now)) gathering.new) }
        ensures in_order { OnOk result (IsSectionInOrder (section_value self.now)) }
        ensures refused { (before : List Piece) → Gathers before gathering.old
            → IfErr result (RefusesFor (section_added before (section_value self.now))) }
    {
        let alloc = self.alloc;
        let (line, col) = self.offset;
        match &self.map {
            None => Err(unresolved_error(alloc, self.get_url())),
            Some(map) => map.gather(gathering, alloc, line, col),
        }
    }

    // Adds the maps of the section as `SourceMapIndex::gather_leaves` does. The index map of the
    // section starts at `line` and `col`.
    #[cycle(leaves)]
    fn gather_leaves<'a>(&'a self, gathering: &mut Gathering<'a>, line: u32, col: u32) -> Result<()>
        ensures ok { (before : List Piece) → Gathers before gathering.old
            → OnOk result (AreAdded before (line, col)
            (section_leaves (section_value self.now)) gathering.new) }
        ensures complete { OnOk result (HasComplete (section_value self.now).map) }
    {
        let alloc = self.alloc;
        match &self.map {
            None => Err(unresolved_error(alloc, self.get_url())),
            Some(map) => match absolute_position(line, col, self.offset) {
                None => Err(past_the_end(alloc)),
                Some((line, col)) => map.gather_leaves(gathering, alloc, line, col),
            },
        }
    }
}

impl DecodedMap {
    // The number of tokens of a regular map or a Hermes map, at most 4294967295; 0 for an index
    // map.
    fn token_capacity(&self) -> usize {
        match self {
            DecodedMap::Regular(map) => map.get_token_count() as usize,
            DecodedMap::Index(_) => 0,
            DecodedMap::Hermes(map) => map.get_token_count() as usize,
        }
    }

    // Adds the map to `gathering`. All tokens of the map move down by `line`. The tokens on line 0
    // of the map also move right by `col`.
    #[cycle(flatten)]
    fn gather<'a>(
        &'a self,
        gathering: &mut Gathering<'a>,
        alloc: Global,
        line: u32,
        col: u32,
    ) -> Result<()>
        ensures ok { (before : List Piece) → Gathers before gathering.old
            → OnOk result
            (Gathered (map_added before (line, col) (map_tree self.now)) gathering.new) }
        ensures in_order { OnOk result (HasTokensInOrder (map_tree self.now)) }
        ensures refused { (before : List Piece) → Gathers before gathering.old
            → IfErr result (RefusesFor (map_added before (line, col) (map_tree self.now))) }
    {
        match self {
            DecodedMap::Regular(map) => gathering.add(alloc, line, col, &map.lists()),
            DecodedMap::Hermes(map) => gathering.add(alloc, line, col, &map.lists()),
            DecodedMap::Index(index) => {
                let flat = index.gather_by_level()?;
                gathering.add_flat(alloc, line, col, &flat)
            }
        }
    }

    // Adds the map, or the maps in it if it is an index map. It starts at `line` and `col`.
    #[cycle(leaves)]
    fn gather_leaves<'a>(
        &'a self,
        gathering: &mut Gathering<'a>,
        alloc: Global,
        line: u32,
        col: u32,
    ) -> Result<()>
        ensures ok { (before : List Piece) → Gathers before gathering.old
            → OnOk result (AreAdded before (line, col) (leaves (map_tree self.now)) gathering.new) }
        ensures complete { OnOk result (IsComplete (map_tree self.now)) }
    {
        match self {
            DecodedMap::Regular(map) => gathering.add(alloc, line, col, &map.lists()),
            DecodedMap::Hermes(map) => gathering.add(alloc, line, col, &map.lists()),
            DecodedMap::Index(index) => index.gather_leaves(gathering, line, col),
        }
    }
}
