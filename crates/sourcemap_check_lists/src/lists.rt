//! Items of lists that look wrong.
ghost use Rattle.std.specs.Prelude.{◌≡◌, IfOk, IfErr, length};
ghost use Rattle.std.specs.Prelude.{is_none};
ghost use Rattle.sourcemap_errors.specs.declared.errors.Error.TheVariants.{OutOfMemory};
ghost use Rattle.sourcemap_map_regular.specs.Map.{contents_of};
ghost use Rattle.sourcemap_check_texts.specs.Doubts.{ArePlaces, marked};
ghost use Rattle.sourcemap_check_lists.specs.Lists.{has_idle_root, is_doubtful, item_count};
ghost use Rattle.sourcemap_check_lists.specs.Marks.{AreMarks};

use crate::marks::{Field, marked_places, repeated_marks, same_texts, unused_marks};
use sourcemap_check_texts::tokens::Places;
use sourcemap_errors::errors::Result;
use sourcemap_map_regular::map::SourceMap;
use std::alloc::Global;

/// Why an item of a list looks wrong.
#[derive(Clone, Copy, Debug, PartialEq, Eq)]
pub enum ListDoubt {
    /// No token has the source.
    UnusedSource,
    /// No token has the name.
    UnusedName,
    /// The source is equal to one before it. Both are resolved against `sourceRoot`.
    EqualSource,
    /// The map has no contents for the source.
    MissingContents,
    /// The map has a `sourceRoot`, which changes no source: it is empty, or all sources are absolute.
    RootWithoutEffect,
}

/// The doubts, in the order of their codes.
pub const LIST_DOUBTS: [ListDoubt; 5] = [
    ListDoubt::UnusedSource,
    ListDoubt::UnusedName,
    ListDoubt::EqualSource,
    ListDoubt::MissingContents,
    ListDoubt::RootWithoutEffect,
];

// For each source, whether the map has no contents for it.
fn missing_marks(alloc: Global, map: &SourceMap) -> Result<Vec<bool>>
    ensures marks { IfOk result (AreMarks (λ i. is_none (contents_of map.now i))
        (length map.now.sources)) }
    ensures memory { IfErr result (λ e. e ≡ OutOfMemory) }
{
    let count = map.get_source_count();
    let mut marks = Vec::with_capacity(alloc, count as usize)?;
    for id in 0..count {
        marks.push(map.get_source_contents(id).is_none())?;
    }
    Ok(marks)
}

fn has_idle_root(map: &SourceMap) -> bool
    ensures { result ≡ has_idle_root map.now }
{
    let is_same = same_texts(map.lists().sources, map.unresolved_sources());
    // prover: `&` leaves one goal
    map.get_source_root().is_some() & is_same
}

fn doubtful_marks(alloc: Global, map: &SourceMap, doubt: ListDoubt) -> Result<Vec<bool>>
    ensures marks { IfOk result (AreMarks (is_doubtful doubt map.now) (item_count doubt map.now)) }
    ensures memory { IfErr result (λ e. e ≡ OutOfMemory) }
{
    let lists = map.lists();
    let sources = map.get_source_count() as usize;
    let names = map.get_name_count() as usize;
    match doubt {
        ListDoubt::UnusedSource => unused_marks(alloc, lists.tokens, Field::Source, sources),
        ListDoubt::UnusedName => unused_marks(alloc, lists.tokens, Field::Name, names),
        ListDoubt::EqualSource => repeated_marks(alloc, lists.sources),
        ListDoubt::MissingContents => missing_marks(alloc, map),
        ListDoubt::RootWithoutEffect => Ok(vec![in alloc; has_idle_root(map)]?),
    }
}

/// The items that look wrong in a way: the indexes of the first `most`, and how many there are. They
/// are sources, for `UnusedName` names. For `RootWithoutEffect` the root has the index 0. The only
/// error is `OutOfMemory`.
pub fn doubtful_items(
    alloc: Global,
    map: &SourceMap,
    doubt: ListDoubt,
    most: usize,
) -> Result<Places>
    ensures places { IfOk result (ArePlaces most
        (marked (is_doubtful doubt map.now) (item_count doubt map.now))) }
    ensures memory { IfErr result (λ e. e ≡ OutOfMemory) }
{
    let marks = doubtful_marks(alloc, map, doubt)?;
    // prover: `?` on its own line
    let places = marked_places(alloc, marks.as_slice(), most)?;
    Ok(places)
}
