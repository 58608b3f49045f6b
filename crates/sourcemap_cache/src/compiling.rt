//! Compiles maps of any kind.
ghost use Rattle.std.specs.Prelude.{◌≡◌, IfOk};
ghost use Rattle.sourcemap_compiled.specs.Layout.{IsAccepted};
ghost use Rattle.sourcemap_compiled.specs.Soundness.{IsSound};
ghost use Rattle.sourcemap_hermes.specs.Map.{hermes_value};
ghost use Rattle.sourcemap_index.specs.Family.{index_value, map_tree};
ghost use Rattle.sourcemap_index_model.specs.FlatList.{IsOrderly};
ghost use Rattle.sourcemap_index_model.specs.MapTree.{hermes, index_tree, leaf, regular};
ghost use Rattle.sourcemap_cache.specs.Compile.{CompileAnswer, bytes_in};
ghost use Rattle.sourcemap_cache.specs.Meaning.{AnswersLike, MeansTheSame};

use crate::errors::CompileError;
use crate::parts::{WithContents, file_with};
use crate::scopes::scopes_of;
use sourcemap_hermes::map::SourceMapHermes;
use sourcemap_index::family::{DecodedMap, SourceMapIndex};
use sourcemap_map_regular::map::SourceMap;
use std::alloc::Global;

/// Compiles a map: returns the bytes of the file that `CompiledMap::parse` takes. The file has the
/// tokens, the sources resolved against `sourceRoot`, the names, the file name, the debug id, and
/// the contents of sources if they are wanted. Of a Hermes map it has the scope of each token too:
/// what `get_scope_for_token` returns for the token. It has no ignore list. An index map is
/// compiled as the map that `flatten` returns. Equal maps give equal bytes.
///
/// If the functions of a source of a Hermes map are not sorted by start position, the scopes of
/// tokens with this source may be wrong.
///
/// The error is `Map(CannotFlatten)` if `flatten` returns it for an index map, and `TooLarge` if the
/// file would have 2^32 bytes or more, or if there are 2^32 tokens or more. The only other error is
/// `Map(OutOfMemory)`.
pub fn compile(
    alloc: Global,
    map: &DecodedMap,
    contents: WithContents,
) -> Result<Vec<u8>, CompileError>
    ensures answer { CompileAnswer contents (map_tree map.now) (bytes_in result) }
    // At each position the file means what the map means, or the flat map if it is an index map.
    ensures meaning { IfOk result (λ bytes. MeansTheSame (map_tree map.now) bytes.items) }
    // If no section reaches into the next one at any level (`IsOrderly`), each position with a
    // meaning in the map has the same meaning in the file.
    ensures orderly { IfOk result (λ bytes. IsOrderly (map_tree map.now)
        → AnswersLike (map_tree map.now) bytes.items) }
    // `CompiledMap::parse` accepts the file, and so does `verify`: lookups are exact, and no getter
    // returns an error.
    ensures accepted { IfOk result (λ bytes. IsAccepted bytes.items) }
    ensures sound { IfOk result (λ bytes. IsSound bytes.items) }
{
    match map {
        DecodedMap::Regular(map) => file_with(alloc, map, contents, &[], &[]),
        DecodedMap::Hermes(map) => compile_hermes(alloc, map, contents),
        DecodedMap::Index(map) => {
            let flat = map.flatten()?;
            file_with(alloc, &flat, contents, &[], &[])
        }
    }
}

fn compile_hermes(
    alloc: Global,
    map: &SourceMapHermes,
    contents: WithContents,
) -> Result<Vec<u8>, CompileError>
    ensures { CompileAnswer contents (leaf (hermes (hermes_value map.now))) (bytes_in result) }
{
    if map.lists().tokens.len() > u32::MAX as usize {
        return Err(CompileError::TooLarge);
    }
    let scopes = scopes_of(alloc, map)?;
    file_with(
        alloc,
        map,
        contents,
        &scopes.numbers,
        scopes.names.as_slice(),
    )
}
