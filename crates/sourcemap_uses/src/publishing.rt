//! Removes names and source contents from a map before it is published.
ghost use Rattle.std.specs.Prelude.{◌≡◌, ℕ, Err, IfErr, IfOk, IfSome, Some};
ghost use Rattle.sourcemap.specs.Answer.{UnlessMemory};
ghost use Rattle.sourcemap.specs.AnyMap.{index_value};
ghost use Rattle.sourcemap.specs.Flat.{FlatAnswer};
ghost use Rattle.sourcemap.specs.FlatList.{IsOrderly};
ghost use Rattle.sourcemap.specs.Reading.{BytesHaveResult, RegularDecodes};
ghost use Rattle.sourcemap.specs.Trees.{index_tree, meaning as meaning_of};
ghost use Rattle.sourcemap.specs.Types.{meaning};
ghost use Rattle.sourcemap_uses.specs.Publishing.{IsBareFlat, Publishes, without_name};

use sourcemap::encoder::encode_to_vec;
use sourcemap::laws::written_maps_read_back;
use sourcemap::{Result, RewriteOptions, SourceMap, SourceMapIndex};
use std::alloc::Global;
use std::rt::Files;

/// Returns the map in `bytes`, encoded without names and source contents. The new map maps each
/// position to the same original position. Sources that no token uses are removed. The other
/// sources are resolved against `sourceRoot`. The new map has no `sourceRoot` and no ignore list.
/// Returns the errors of `SourceMap::from_slice`.
pub fn publish<F: Files>(rt: &F, alloc: Global, bytes: &[u8]) -> Result<Vec<u8>>
    ensures published { IfOk result (λ text. Publishes bytes.now text.items) }
    ensures error { IfErr result
        (λ e. UnlessMemory e (BytesHaveResult RegularDecodes bytes.now (Err e))) }
{
    written_maps_read_back();
    let map = SourceMap::from_slice(alloc, bytes)?;
    let options = RewriteOptions {
        with_names: false,
        with_source_contents: false,
        ..RewriteOptions::default()
    };
    let bare = map.rewrite(rt, &options)?;
    // prover: clauses of a call after `?`
    let text = encode_to_vec(alloc, &bare)?;
    Ok(text)
}

/// Returns the index map as one regular map without names and source contents. The new map maps
/// each position to the same original position as the flattened index map. If no section reaches
/// into the next one at any level, it also does so for each position that has a meaning in the index
/// map itself. Sources that no token uses are removed. Returns the errors of
/// `SourceMapIndex::flatten`.
pub fn publish_index<F: Files>(rt: &F, index: SourceMapIndex) -> Result<SourceMap>
    ensures bare { IfOk result (IsBareFlat (index_tree (index_value index))) }
    ensures meaning { IfOk result (λ new. IsOrderly (index_tree (index_value index))
        → (p : ℕ × ℕ) → IfSome (meaning_of (index_tree (index_value index)) p)
        (λ says. meaning new p ≡ Some (without_name says))) }
    ensures error { IfErr result
        (λ e. UnlessMemory e (FlatAnswer (index_tree (index_value index)) (Err e))) }
{
    let options = RewriteOptions {
        with_names: false,
        with_source_contents: false,
        ..RewriteOptions::default()
    };
    index.flatten_and_rewrite(rt, &options)
}
