//! The file of a regular map, with scopes of its tokens.
ghost use Rattle.std.specs.Prelude.{◌≡◌, IfOk, IsOkUnless, map};
ghost use Rattle.std.specs.Option.{option_copied};
ghost use Rattle.sourcemap_errors.specs.declared.errors.Error.TheVariants.{OutOfMemory};
ghost use Rattle.sourcemap_cache.specs.Compile.{FileAnswer, bytes_in, chosen, parts_with};
ghost use Rattle.sourcemap_cache.specs.Texts.{AreTexts, borrowed};

use crate::errors::CompileError;
use crate::texts::{contents_of, file_of, texts_of};
use sourcemap_compiled_write::parts::FileParts;
use sourcemap_compiled_write::write::write_file;
use sourcemap_errors::errors::Result;
use sourcemap_headers::debug_id::DebugId;
use sourcemap_map_regular::map::SourceMap;
use sourcemap_source_views::sourceview::SourceView;
use std::alloc::Global;
use std::result;

/// Whether a compiled map has the contents of its sources.
#[derive(Clone, Copy, Debug, PartialEq, Eq)]
pub enum WithContents {
    /// It has all contents that the map has.
    Yes,
    /// It has no contents.
    No,
}

/// Returns the file of a map. For each token, `scopes` has the number of its scope in `scope_names`,
/// counted from 1, or 0. Tokens past the end of `scopes` have no scope. The error is `TooLarge` or
/// `Map(OutOfMemory)`.
pub(crate) fn file_with(
    alloc: Global,
    map: &SourceMap,
    contents: WithContents,
    scopes: &[u32],
    scope_names: &[&str],
) -> result::Result<Vec<u8>, CompileError>
    ensures { FileAnswer (parts_with contents map.now scopes.now (borrowed scope_names.now))
        (bytes_in result) }
{
    let lists = map.lists();
    let sources = texts_of(alloc, lists.sources)?;
    let names = texts_of(alloc, lists.names)?;
    let scope_names = texts_of(alloc, scope_names)?;
    let contents = chosen_contents(alloc, lists.contents, contents)?;
    let parts = FileParts {
        tokens: lists.tokens,
        scopes,
        sources: &sources,
        names: &names,
        scope_names: &scope_names,
        file: file_of(map),
        contents: &contents,
        debug_id: debug_id_bytes(map.get_debug_id()),
    };
    Ok(write_file(alloc, &parts)?)
}

fn chosen_contents(
    alloc: Global,
    views: &[Option<SourceView>],
    contents: WithContents,
) -> Result<Vec<Option<&str>>>
    ensures same { IfOk result (λ texts. map option_copied texts.items
        ≡ chosen contents views.now) }
    ensures utf8 { IfOk result (λ _. AreTexts (chosen contents views.now)) }
    ensures memory { IsOkUnless result OutOfMemory }
{
    match contents {
        WithContents::Yes => contents_of(alloc, views),
        WithContents::No => Ok(Vec::new(alloc)),
    }
}

fn debug_id_bytes(id: Option<DebugId>) -> Option<[u8; 16]>
    ensures { result ≡ id }
{
    match id {
        None => None,
        Some(id) => Some(id.uuid().into_bytes()),
    }
}
