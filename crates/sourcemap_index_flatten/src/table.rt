//! Distinct texts, numbered in the order of their first occurrence, with the last contents of each.
ghost use Rattle.std.specs.Prelude.{◌≡◌, ◌<◌, ◌++◌, ◌∷◌, [], List, None, IfErr, IfOk, OnOk, IsOkUnless, codes, length, true, false};
ghost use Rattle.sourcemap_interning.specs.Interner.{id_of, with_text};
ghost use Rattle.sourcemap_errors.specs.declared.errors.Error.TheVariants.{OutOfMemory};
ghost use Rattle.sourcemap_index_flatten.specs.Errors.{RefusesBy};
ghost use Rattle.sourcemap_index_flatten.specs.Table.{AreEntered, IsEntered, IsTable, TextEntry, are_too_many, entry_value, entry_values, with_entry, texts_entered};

use crate::errors::too_many;
use sourcemap_errors::errors::Result;
use sourcemap_interning::text_index::TextIndex;
use sourcemap_source_views::sourceview::SourceView;
use std::alloc::Global;

// A table has at most this many texts, so that their ids are less than `NO_ID`.
const MOST: usize = 4294967295;

// A source with its contents, if it has any; or a name, which has no contents.
#[derive(Clone, Copy)]
pub(crate) struct Entry<'a> {
    pub(crate) text: &'a str,
    pub(crate) contents: Option<&'a SourceView>,
}

// Distinct texts in the order of their first occurrence, each with the last contents given for it.
#[derive(Drop)]
pub(crate) struct Table<'a> {
    pub(crate) entries: Vec<Entry<'a>>,
    // finds the number of a text, which is the index of its entry
    ids: TextIndex<&'a str>,
}

impl<'a> Table<'a> {
    pub(crate) fn new(alloc: Global) -> Result<Self>
        ensures ok { IfOk result (IsTable []) }
        ensures memory { IsOkUnless result OutOfMemory }
    {
        Ok(Table {
            entries: Vec::new(alloc),
            ids: TextIndex::new(alloc)?,
        })
    }

    // Enters `entries` in order. For each of `entries`, returns the index of its text in the table.
    // The error is `CannotFlatten` if the table would contain more than 4294967295 texts. The only
    // other error is `OutOfMemory`.
    pub(crate) fn enter_all(&mut self, alloc: Global, entries: &[Entry<'a>]) -> Result<Vec<u32>>
        ensures ok { (before : List TextEntry) → IsTable before self.old
            → IfOk result (λ numbers. AreEntered (before ++ entry_values entries.now)
            (entry_values entries.now) numbers.items self.new) }
        ensures refused { (before : List TextEntry) → IsTable before self.old
            → IfErr result (RefusesBy
            (are_too_many (texts_entered (before ++ entry_values entries.now)))
            (codes "too many sources or names")) }
    {
        let mut numbers = Vec::with_capacity(alloc, entries.len())?;
        for item in entries {
            // prover: `?` on its own line
            let number = self.enter(alloc, *item)?;
            numbers.push(number)?;
        }
        Ok(numbers)
    }

    pub(crate) fn into_entries(self) -> Vec<Entry<'a>>
        ensures { result ≡ self.entry.entries }
    {
        let Table { entries, ids: _ } = self;
        entries
    }

    fn enter(&mut self, alloc: Global, item: Entry<'a>) -> Result<u32>
        ensures ok { (before : List TextEntry) → IsTable before self.old
            → IfOk result (λ number. IsEntered (before ++ entry_value item.entry ∷ [])
            item.entry.text.now number self.new) }
        ensures refused { (before : List TextEntry) → IsTable before self.old
            → IfErr result (RefusesBy
            (are_too_many (texts_entered (before ++ entry_value item.entry ∷ [])))
            (codes "too many sources or names")) }
    {
        if is_full(&self.ids, item.text) {
            return Err(too_many(alloc));
        }
        let number = self.ids.number_of(item.text)?;
        push_or_replace(&mut self.entries, number as usize, item)?;
        Ok(number)
    }
}

// Whether the text is new and no id is left for it.
fn is_full(ids: &TextIndex<&str>, text: &str) -> bool
    ensures free { result ≡ false → id_of text.now ids.now ≡ None
        → length ids.now < 4294967295 }
    ensures full { result ≡ true → are_too_many (with_text ids.now text.now) ≡ true }
{
    if ids.len() < MOST {
        return false;
    }
    !ids.contains(text)
}

// Appends `item` if `number` is not an index of `entries`. Otherwise `item` replaces the entry at
// the index `number`, but only if `item` has contents.
fn push_or_replace<'a>(entries: &mut Vec<Entry<'a>>, number: usize, item: Entry<'a>) -> Result<()>
    ensures ok { OnOk result (entry_values entries.new.items
        ≡ with_entry number (entry_value item.entry) (entry_values entries.old.items)) }
    ensures memory { IsOkUnless result OutOfMemory }
{
    if number >= entries.len() {
        entries.push(item)?;
    } else if item.contents.is_some() {
        entries[number] = item;
    }
    Ok(())
}
