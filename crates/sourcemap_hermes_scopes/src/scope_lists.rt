//! The scopes of sources, as a JSON record has them under `x_facebook_sources`.
ghost use Rattle.std.specs.Prelude.{◌≡◌, Ok, map, IfOk, IsOkUnless};
ghost use Rattle.std.specs.List.{AllZip};
ghost use Rattle.std.specs.Cmp.Lexicographic.{pointwise};
ghost use Rattle.sourcemap_errors.specs.Answer.{Gives};
ghost use Rattle.sourcemap_errors.specs.declared.errors.Error.TheVariants.{OutOfMemory};
ghost use Rattle.sourcemap_records.specs.Jsontypes.{scopes_view};
ghost use Rattle.sourcemap_hermes_scopes.specs.ScopeLists.{EntryStandsFor, entries_in, entry_in, list_in, same_entry};

use crate::function_map::HermesFunctionMap;
use sourcemap_errors::errors::Result;
use sourcemap_records::jsontypes::FacebookScopeMapping;
use std::alloc::Global;

/// The scopes of sources, as a JSON record has them under `x_facebook_sources`. Item `n` is the
/// list of the source with id `n`, or `None`. The function map and the function names of a source
/// come from the first item of its list. `copy_scope_lists` and `same_scope_lists` use all items of
/// each list.
pub type ScopeLists = Vec<Option<Vec<FacebookScopeMapping>>>;

fn function_map_of(
    alloc: Global,
    entry: &Option<Vec<FacebookScopeMapping>>,
) -> Result<Option<HermesFunctionMap>>
    ensures map { IfOk result (EntryStandsFor (entry_in entry.now)) }
    ensures memory { IsOkUnless result OutOfMemory }
{
    let Some(list) = entry else {
        return Ok(None);
    };
    match list.first() {
        Some(scopes) => HermesFunctionMap::read(alloc, scopes.mappings.as_str()),
        None => Ok(None),
    }
}

pub(crate) fn function_maps_of(
    alloc: Global,
    entries: &[Option<Vec<FacebookScopeMapping>>],
) -> Result<Vec<Option<HermesFunctionMap>>>
    ensures maps { IfOk result
        (λ maps. AllZip EntryStandsFor (map entry_in entries.now) maps.items) }
    ensures memory { IsOkUnless result OutOfMemory }
{
    let mut maps = Vec::with_capacity(alloc, entries.len())?;
    for entry in entries {
        maps.push(function_map_of(alloc, entry)?)?;
    }
    Ok(maps)
}

fn copy_list(alloc: Global, list: &[FacebookScopeMapping]) -> Result<Vec<FacebookScopeMapping>>
    ensures { Gives list_in result (Ok (map scopes_view list.now)) }
{
    let mut copies = Vec::with_capacity(alloc, list.len())?;
    for scopes in list {
        copies.push(scopes.clone()?)?;
    }
    Ok(copies)
}

fn copy_entry(
    alloc: Global,
    entry: &Option<Vec<FacebookScopeMapping>>,
) -> Result<Option<Vec<FacebookScopeMapping>>>
    ensures { Gives entry_in result (Ok (entry_in entry.now)) }
{
    match entry {
        Some(list) => Ok(Some(copy_list(alloc, list.as_slice())?)),
        None => Ok(None),
    }
}

/// Copies the scopes of all sources. The only error is `OutOfMemory`.
pub fn copy_scope_lists(
    alloc: Global,
    entries: &[Option<Vec<FacebookScopeMapping>>],
) -> Result<ScopeLists>
    ensures { Gives entries_in result (Ok (map entry_in entries.now)) }
{
    let mut copies = Vec::with_capacity(alloc, entries.len())?;
    for entry in entries {
        copies.push(copy_entry(alloc, entry)?)?;
    }
    Ok(copies)
}

/// Whether the lists have the same length and the same scopes for each source. A source without a
/// list differs from a source with an empty list.
pub fn same_scope_lists(a: &ScopeLists, b: &ScopeLists) -> bool
    ensures { result ≡ pointwise same_entry (entries_in a.now) (entries_in b.now) }
{
    a == b
}
