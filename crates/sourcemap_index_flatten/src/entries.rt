//! Entries that borrow the sources, contents and names of a map. Also owned copies of the texts and
//! contents of entries.
ghost use Rattle.std.specs.Prelude.{None, Ok, map, string_bytes};
ghost use Rattle.sourcemap_errors.specs.Answer.{Gives};
ghost use Rattle.sourcemap_texts.specs.Texts.{texts_of};
ghost use Rattle.sourcemap_index_flatten.specs.Table.{entry_values};
ghost use Rattle.sourcemap_index_flatten.specs.Entries.{entries_with};

use crate::table::Entry;
use sourcemap_errors::errors::Result;
use sourcemap_map_parts::contents::copy_view;
use sourcemap_source_views::sourceview::SourceView;
use sourcemap_tokens::items::item_at;
use std::alloc::Global;

pub(crate) fn sources_of<'a>(
    alloc: Global,
    sources: &'a [String],
    contents: &'a [Option<SourceView>],
) -> Result<Vec<Entry<'a>>>
    ensures { Gives (λ v. entry_values v.items) result
        (Ok (entries_with contents.now (map string_bytes sources.now))) }
{
    let mut entries = Vec::with_capacity(alloc, sources.len())?;
    for text in sources {
        let id = entries.len();
        entries.push(Entry {
            text: text.as_str(),
            contents: item_at(contents, id),
        })?;
    }
    Ok(entries)
}

// One entry for each name. Only sources have contents, so `contents` is `None`.
pub(crate) fn names_of<'a>(alloc: Global, names: &'a [String]) -> Result<Vec<Entry<'a>>>
    ensures { Gives (λ v. entry_values v.items) result
        (Ok (map (λ name. (name, None)) (map string_bytes names.now))) }
{
    let mut entries = Vec::with_capacity(alloc, names.len())?;
    for text in names {
        entries.push(Entry {
            text: text.as_str(),
            contents: None,
        })?;
    }
    Ok(entries)
}

pub(crate) fn texts_of(alloc: Global, entries: &[Entry<'_>]) -> Result<Vec<String>>
    ensures { Gives texts_of result (Ok (map (λ e. e.0) (entry_values entries.now))) }
{
    let mut texts = Vec::with_capacity(alloc, entries.len())?;
    for entry in entries {
        texts.push(String::from_str(alloc, entry.text)?)?;
    }
    Ok(texts)
}

pub(crate) fn contents_of(alloc: Global, entries: &[Entry<'_>]) -> Result<Vec<Option<SourceView>>>
    ensures { Gives (λ v. v.items) result (Ok (map (λ e. e.1) (entry_values entries.now))) }
{
    let mut contents = Vec::with_capacity(alloc, entries.len())?;
    for entry in entries {
        contents.push(copy_view(entry.contents)?)?;
    }
    Ok(contents)
}
