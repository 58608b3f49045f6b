//! Maps of modules, made from the flat map of a bundle.
ghost use Rattle.std.specs.Prelude.{◌≡◌, ◌<◌, ◌≤◌, All, None, Ok, Some, IfOk, OnOk, IsOkUnless, [], is_some, length};
ghost use Rattle.std.specs.Prelude.{map, string_bytes};
ghost use Rattle.sourcemap_errors.specs.Answer.{Gives};
ghost use Rattle.sourcemap_errors.specs.declared.errors.Error.TheVariants.{OutOfMemory};
ghost use Rattle.sourcemap_tokens.specs.Items.{item_at};
ghost use Rattle.sourcemap_tokens.specs.Tokens.{AreInOrder};
ghost use Rattle.sourcemap_map_regular.specs.Map.{meaning};
ghost use Rattle.sourcemap_texts.specs.Texts.{texts_of};
ghost use Rattle.sourcemap_bundle_split.specs.ModuleMap.{end_of, module_map, moved_by, texts_at, used_ids};

use crate::id_numbers::IdNumbers;
use crate::lines::{end_of, tokens_in};
use sourcemap_errors::errors::Result;
use sourcemap_line_index::token_list::TokenList;
use sourcemap_map_parts::contents::{Contents, copy_view};
use sourcemap_map_parts::metadata::MapMetadata;
use sourcemap_map_parts::sources::Sources;
use sourcemap_map_regular::lists::MapLists;
use sourcemap_map_regular::map::SourceMap;
use sourcemap_source_views::sourceview::SourceView;
use sourcemap_tokens::items::item_at;
use sourcemap_tokens::tokens::RawToken;
use std::alloc::Global;
use std::marker::Model;

/// The flat map of a bundle, and tables that number the sources and the names that the tokens of
/// one module use.
pub(crate) struct ModuleMaps {
    flat: SourceMap,
    sources: IdNumbers,
    names: IdNumbers,
}

impl Model for ModuleMaps {
    ghost use Rattle.sourcemap_map_regular.specs.Map.{MapValue};
    ghost use Rattle.sourcemap_bundle_split.specs.Maps.{HasTables};

    ghost Value = { MapValue };

    ghost view = { λ maps. maps.flat };

    ghost invariant = { HasTables };
}

// prover: one drop
impl Drop for ModuleMaps {
    fn drop(self) {
        let ModuleMaps {
            flat: _,
            sources: _,
            names: _,
        } = self;
    }
}

impl ModuleMaps {
    /// Consumes the flat map of a bundle. The only error is `OutOfMemory`.
    pub(crate) fn new(alloc: Global, flat: SourceMap) -> Result<Self>
        ensures { Gives (λ maps. maps) result (Ok flat) }
    {
        let sources = IdNumbers::new(alloc, flat.get_source_count() as usize)?;
        let names = IdNumbers::new(alloc, flat.get_name_count() as usize)?;
        Ok(ModuleMaps {
            flat,
            sources,
            names,
        })
    }

    /// Returns the map of the module with the name `name` and the text `view`. The module begins at
    /// column 0 of `line` of the flat map. The only error is `OutOfMemory`.
    pub(crate) fn map_of(
        &mut self,
        alloc: Global,
        name: &str,
        line: u32,
        view: &SourceView,
    ) -> Result<SourceMap>
        ensures map { Gives (λ m. m) result
            (Ok (module_map self.old name.now line (end_of line view.now))) }
        ensures kept { self.new ≡ self.old }
    {
        let lists = self.flat.lists();
        let own = tokens_in(lists.tokens, line, end_of(line, view));
        self.sources.clear();
        self.names.clear();
        let tokens = move_tokens(alloc, own, line, &mut self.sources, &mut self.names)?;
        let tokens = TokenList::of_sorted(tokens)?;
        map_of_tokens(
            alloc,
            name,
            tokens,
            &lists,
            self.sources.ids(),
            self.names.ids(),
        )
    }

    /// Returns whether the flat map has a token at or before the first column of `line`.
    pub(crate) fn reaches(&self, line: u32) -> bool
        ensures { result ≡ is_some (meaning self.now (line, 0)) }
    {
        self.flat.lookup_token(line, 0).is_some()
    }
}

// The map with the file name `name` and the tokens `tokens`. The sources of the map are those of
// `flat` with the ids `sources`, in this order, each with its contents. The names of the map are
// those of `flat` with the ids `names`, in this order. The only error is `OutOfMemory`.
fn map_of_tokens(
    alloc: Global,
    name: &str,
    tokens: TokenList,
    flat: &MapLists<'_>,
    sources: &[u32],
    names: &[u32],
) -> Result<SourceMap>
    requires source_ids { All (λ id. id < length flat.now.sources.now) sources.now }
    requires name_ids { All (λ id. id < length flat.now.names.now) names.now }
    requires few_sources { length sources.now ≤ 4294967295 }
    requires few_names { length names.now ≤ 4294967295 }
    ensures { Gives (λ m. m) result (Ok (record {
      file = Some name.now;
      root = None;
      tokens = tokens;
      names = texts_at (map string_bytes flat.now.names.now) names.now;
      sources = texts_at (map string_bytes flat.now.sources.now) sources.now;
      contents = map (item_at flat.now.contents.now) sources.now;
      ignored = [];
      debug_id = None;
    })) }
{
    let contents = contents_at(alloc, flat.contents, sources)?;
    let file = String::from_str(alloc, name)?;
    let names = texts_at(alloc, flat.names, names)?;
    let sources = texts_at(alloc, flat.sources, sources)?;
    let metadata = MapMetadata::new(alloc, Some(file));
    let sources = Sources::new(sources);
    let contents = Contents::of_views(contents);
    Ok(SourceMap::of_parts(metadata, tokens, names, sources, contents))
}

// The tokens with their generated lines counted from `line`, and with new numbers for their sources
// and names.
fn move_tokens(
    alloc: Global,
    tokens: &[RawToken],
    line: u32,
    sources: &mut IdNumbers,
    names: &mut IdNumbers,
) -> Result<Vec<RawToken>>
    requires later { All (λ t. line ≤ t.dst_line) tokens.now }
    requires in_order { AreInOrder tokens.now }
    requires no_sources { sources.old.ids ≡ [] }
    requires no_names { names.old.ids ≡ [] }
    ensures tokens { IfOk result (λ moved. moved.items
        ≡ map (moved_by line sources.new.ids names.new.ids) tokens.now) }
    ensures sources { OnOk result (sources.new.ids
        ≡ used_ids sources.old.count (map (λ t. t.src_id) tokens.now)) }
    ensures names { OnOk result (names.new.ids
        ≡ used_ids names.old.count (map (λ t. t.name_id) tokens.now)) }
    ensures counts { (sources.new.count ≡ sources.old.count) × (names.new.count ≡ names.old.count) }
    ensures moved_in_order { IfOk result (λ moved. AreInOrder moved.items) }
    ensures memory { IsOkUnless result OutOfMemory }
{
    let mut moved = Vec::with_capacity(alloc, tokens.len())?;
    for token in tokens {
        moved.push(RawToken {
            dst_line: token.dst_line - line,
            src_id: sources.number(token.src_id)?,
            name_id: names.number(token.name_id)?,
            ..*token
        })?;
    }
    Ok(moved)
}

fn texts_at(alloc: Global, texts: &[String], ids: &[u32]) -> Result<Vec<String>>
    requires { All (λ id. id < length texts.now) ids.now }
    ensures { Gives texts_of result (Ok (texts_at (map string_bytes texts.now) ids.now)) }
{
    let mut copies = Vec::with_capacity(alloc, ids.len())?;
    for id in ids {
        copies.push(texts[*id as usize].clone()?)?;
    }
    Ok(copies)
}

fn contents_at(
    alloc: Global,
    contents: &[Option<SourceView>],
    ids: &[u32],
) -> Result<Vec<Option<SourceView>>>
    ensures { Gives (λ copies. copies.items) result
        (Ok (map (item_at contents.now) ids.now)) }
{
    let mut copies = Vec::with_capacity(alloc, ids.len())?;
    for id in ids {
        copies.push(copy_view(item_at(contents, *id as usize))?)?;
    }
    Ok(copies)
}
