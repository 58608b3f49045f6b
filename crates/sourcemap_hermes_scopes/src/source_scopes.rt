//! The scopes of the sources of a Hermes map, as the JSON record has them, with their function
//! maps.
ghost use Rattle.std.specs.Prelude.{◌≡◌, ◌≤◌, ℕ, List, length, Some, Ok, IfOk, IsOkUnless, nat_eq, option_map};
ghost use Rattle.std.specs.Prelude.{slice_get};
ghost use Rattle.std.specs.Bool.{Decides};
ghost use Rattle.std.specs.Cmp.{partial_equiv_from_equiv};
ghost use Rattle.std.specs.Cmp.Lexicographic.{pointwise};
ghost use Rattle.std.specs.List.{IsDistinct};
ghost use Rattle.std.specs.Option.{option_copied, option_eq};
ghost use Rattle.sourcemap_errors.specs.Answer.{Gives};
ghost use Rattle.sourcemap_errors.specs.declared.errors.Error.TheVariants.{OutOfMemory};
ghost use Rattle.sourcemap_hermes_scopes.specs.FunctionMap.{same_offsets};
ghost use Rattle.sourcemap_tokens.specs.Items.{item_at};
ghost use Rattle.sourcemap_hermes_scopes.specs.ScopeLists.{entries_in, names_of};
ghost use Rattle.sourcemap_hermes_scopes.specs.SourceScopes.{SourceScopesValue, AreFewScopes, AreOfEntries};
ghost use Rattle.sourcemap_hermes_scopes.specs.SourceScopes.{IsInOrderAt, name_index, picked_scopes};
ghost use Rattle.sourcemap_hermes_scopes.specs.SourceScopes.{same_source_scopes, same_source_scopes_equiv, scope_at};

use crate::function_map::{HermesFunctionMap, copy_function_maps, same_function_maps};
use crate::picks::take_items;
use crate::scope_lists::{ScopeLists, copy_scope_lists, function_maps_of, same_scope_lists};
use sourcemap_errors::errors::Result;
use std::alloc::Global;
use std::marker::Model;

/// The scopes of sources, by source id. `entries` has the list of each source as in the JSON
/// record. `function_maps` has the function map of each source, decoded from the first item of the
/// source's list. A source may have no list, or a list without a function map.
#[derive(Debug, Drop)]
pub struct SourceScopes {
    entries: ScopeLists,
    function_maps: Vec<Option<HermesFunctionMap>>,
}

impl Model for SourceScopes {
    ghost use Rattle.sourcemap_hermes_scopes.specs.SourceScopes.{SourceScopesValue};

    ghost Value = { SourceScopesValue };

    ghost use Rattle.sourcemap_hermes_scopes.specs.SourceScopesStored.{source_scopes_in, AreStored};

    ghost view = { source_scopes_in };

    ghost invariant = { AreStored };
}

impl SourceScopes {
    /// Returns `entries` with the function maps of the sources. The function map of a source is
    /// decoded from the first item of its list. A source has no function map if it has no list, if
    /// its list is empty, or if the mappings of the first item are invalid. The only error is
    /// `OutOfMemory`. Requires at most 4294967295 entries; an entry that is `None` counts too.
    pub fn new(alloc: Global, entries: ScopeLists) -> Result<SourceScopes>
        requires { AreFewScopes (entries_in entries) }
        ensures entries { IfOk result (λ scopes. scopes.entries ≡ entries_in entries) }
        ensures function_maps { IfOk result AreOfEntries }
        ensures memory { IsOkUnless result OutOfMemory }
    {
        let function_maps = function_maps_of(alloc, entries.as_slice())?;
        Ok(SourceScopes {
            entries,
            function_maps,
        })
    }

    /// The number of entries. A source has no scopes if its id is this number or greater.
    pub fn count(&self) -> u32
        ensures count { result ≡ length self.now.entries }
        ensures few { AreFewScopes self.now.entries }
        ensures function_maps { AreOfEntries self.now }
    {
        self.entries.len() as u32
    }

    fn name_index(&self, source: u32, line: u32, col: u32) -> Option<u32>
        ensures { IsInOrderAt self.now source
            → result ≡ name_index self.now source (line, col) }
    {
        match self.function_maps.get(source as usize) {
            Some(Some(functions)) => functions.name_index(line, col),
            _ => None,
        }
    }

    fn name(&self, source: u32, index: u32) -> Option<&str>
        ensures { option_copied result
            ≡ slice_get (names_of (item_at self.now.entries source)) index }
    {
        let Some(Some(list)) = self.entries.get(source as usize) else {
            return None;
        };
        let scopes = list.first()?;
        let name = scopes.names.get(index as usize)?;
        Some(name.as_str())
    }

    /// The name of the function that contains a position of the source with this id. Line and
    /// column count from 0. The function is the first that starts at the position, else the last
    /// that starts before it. `None` if no function starts at or before the position, if the source
    /// has no function map, or if the function has no name. Requires functions sorted by where they
    /// start; otherwise the result is unspecified.
    pub fn scope(&self, source: u32, line: u32, col: u32) -> Option<&str>
        ensures { IsInOrderAt self.now source
            → option_copied result ≡ scope_at self.now source (line, col) }
    {
        let index = self.name_index(source, line, col)?;
        self.name(source, index)
    }

    /// The scopes of the sources with these ids, in the order of `ids`, moved and not copied. An id
    /// without scopes gives a source without scopes. If an id is repeated, the result is
    /// unspecified. The only error is `OutOfMemory`. Requires at most 4294967295 ids.
    pub fn select(self, alloc: Global, ids: &[u32]) -> Result<SourceScopes>
        requires { length ids.now ≤ 4294967295 }
        ensures select { IsDistinct nat_eq ids.now
            → IfOk result (λ scopes. scopes ≡ picked_scopes self ids.now) }
        ensures memory { IsOkUnless result OutOfMemory }
    {
        let SourceScopes {
            entries,
            function_maps,
        } = self;
        let entries = take_items(alloc, entries, ids)?;
        let function_maps = take_items(alloc, function_maps, ids)?;
        Ok(SourceScopes {
            entries,
            function_maps,
        })
    }

    /// The scopes as in the JSON record, moved and not copied.
    pub fn into_entries(self) -> ScopeLists
        ensures entries { entries_in result ≡ self.entries }
        ensures function_maps { AreOfEntries self }
    {
        self.entries
    }

    /// A copy of the scopes as in the JSON record. The only error is `OutOfMemory`.
    pub fn copy_entries(&self) -> Result<ScopeLists>
        ensures entries { Gives entries_in result (Ok self.now.entries) }
        ensures function_maps { AreOfEntries self.now }
    {
        copy_scope_lists(*self.entries.allocator(), self.entries.as_slice())
    }

    /// Copies the scopes and the function maps. The only error is `OutOfMemory`.
    pub fn clone(&self) -> Result<SourceScopes>
        ensures { Gives (λ scopes. scopes) result (Ok self.now) }
    {
        let entries = self.copy_entries()?;
        let alloc = *self.entries.allocator();
        let function_maps = copy_function_maps(alloc, self.function_maps.as_slice())?;
        Ok(SourceScopes {
            entries,
            function_maps,
        })
    }
}

fn are_same(a: &SourceScopes, b: &SourceScopes) -> bool
    ensures { result ≡ same_source_scopes a.now b.now }
{
    let entries = same_scope_lists(&a.entries, &b.entries);
    let function_maps = same_function_maps(&a.function_maps, &b.function_maps);
    // prover: no branch
    entries & function_maps
}

/// Scopes of sources are equal exactly if their entries and their function maps are equal.
impl PartialEq for SourceScopes {
    ghost eq = { same_source_scopes };

    ghost laws = { partial_equiv_from_equiv same_source_scopes_equiv };

    fn eq(&self, other: &Self) -> bool
        ensures value { result ≡ same_source_scopes self.now other.now }
        ensures same { Decides result (self.now ≡ other.now) }
    {
        are_same(self, other)
    }
}

/// A law: the function maps are determined by the entries.
pub fn entries_determine_function_maps()
    ensures { (a b : SourceScopesValue) → a.entries ≡ b.entries → AreOfEntries a → AreOfEntries b
        → a.function_maps ≡ b.function_maps }
{}

/// A law about selecting sources by id. A lookup at any position of a selected source finds the
/// same function name before and after the selection. If the functions of the source were sorted,
/// the functions stay sorted. If every entry encodes the function map of its source, the same is
/// true of the selected entries.
pub fn picked_scopes_answer_alike()
    ensures of_entries { (scopes : SourceScopesValue) (ids : List ℕ)
        → AreOfEntries scopes → AreOfEntries (picked_scopes scopes ids) }
    ensures in_order { (scopes : SourceScopesValue) (ids : List ℕ) (index id : ℕ)
        → slice_get ids index ≡ Some id → IsInOrderAt scopes id
        → IsInOrderAt (picked_scopes scopes ids) index }
    ensures scope { (scopes : SourceScopesValue) (ids : List ℕ) (index id : ℕ) (p : ℕ × ℕ)
        → slice_get ids index ≡ Some id
        → scope_at (picked_scopes scopes ids) index p ≡ scope_at scopes id p }
{}
