//! Positions in the modules of a RAM bundle.
ghost use Rattle.std.specs.Prelude.{◌≡◌, ℕ, ◌+◌, IfErr, IfOk, IfSome, IsOkUnless, string_bytes};
ghost use Rattle.sourcemap.specs.Answer.{IsAnswer, UnlessMemory};
ghost use Rattle.sourcemap.specs.AnyMap.{index_value};
ghost use Rattle.sourcemap.specs.BundleModules.{ModuleValue, modules_of};
ghost use Rattle.sourcemap.specs.Encoder.{ReadsBack, Restores};
ghost use Rattle.sourcemap.specs.Reading.{BytesHaveResult, RegularDecodes};
ghost use Rattle.sourcemap.specs.Trees.{IsWellFormed, index_tree};
ghost use Rattle.sourcemap.specs.Types.{IsWellFormed as IsWellFormedRegular, MapValue, meaning};
ghost use Rattle.sourcemap.specs.declared.errors.Error.TheVariants.{OutOfMemory};
ghost use Rattle.sourcemap_uses.specs.Splitting.{IsFirstModule, IsInModule, IsFirstRefused, StoresFirst, TracesFirst, printed};

use sourcemap::encoder::encode_to_vec;
use sourcemap::laws::{
    module_maps_are_well_formed, module_means_what_flat_means, written_maps_read_back,
};
use sourcemap::ram_bundle::{RamBundle, split_ram_bundle};
use sourcemap::{Result, SourceMap, SourceMapIndex};
use std::alloc::Global;

/// Looks up a position in the map of the first module of a bundle. A module whose offset in
/// `x_facebook_offsets` is null is skipped, unless reading the module from the bundle fails. Lines
/// count from 0 at the first line of the module. Returns the original position as text, in the
/// format of `lookup_text`. The text is empty if there is no module, or if the module's map has no
/// token at or before the position.
///
/// Returns the error if `split_ram_bundle` fails, or if the first item of its iterator is an error.
/// Any other error is `OutOfMemory`.
///
/// Let `first` be the offset of the module in `x_facebook_offsets`: the line of the bundle on which
/// the module starts. Let `p` be line `first + line` and column `col`. For `p`, the flattened index
/// map gives the same text if both conditions hold:
///
/// - `p` is in the module, before the end of the module's text.
/// - A lookup of `p` in the flattened index map finds a token, and the generated position of the
///   token is in the module, before the end of the module's text.
pub fn trace_first_module<'a>(
    alloc: Global,
    bundle: &'a RamBundle<'a>,
    map: &SourceMapIndex,
    line: u32,
    col: u32,
) -> Result<String>
    ensures answer { IsAnswer string_bytes
        (TracesFirst (index_value map.now) (modules_of bundle.now) (line, col)) result }
    ensures flat { (flat : MapValue) (found : ModuleValue) (first : ℕ)
        → IsFirstModule (index_value map.now) (modules_of bundle.now) flat found first
        → IsInModule flat found first (first + line, col)
        → IfOk result (λ text. string_bytes text ≡ printed (meaning flat (first + line, col))) }
{
    module_means_what_flat_means();
    let mut modules = split_ram_bundle(alloc, bundle, map)?;
    match modules.next() {
        None => Ok(String::new(alloc)),
        Some(Err(error)) => Err(error),
        Some(Ok((_, _, map))) => text_at(alloc, &map, line, col),
    }
}

fn text_at(alloc: Global, map: &SourceMap, line: u32, col: u32) -> Result<String>
    ensures text { IfOk result
        (λ text. string_bytes text ≡ printed (meaning map.now (line, col))) }
    ensures memory { IsOkUnless result OutOfMemory }
{
    match map.lookup_token(line, col) {
        None => Ok(String::new(alloc)),
        Some(token) => Ok(token.to_string(alloc)?),
    }
}

/// Encodes the map of the first module of a bundle. If the index map is well-formed, as every
/// decoded map is, the bytes decode to a map with the meanings of the module's map. Returns `None`
/// if there is no module. A module whose offset in `x_facebook_offsets` is null is skipped, unless
/// reading the module from the bundle fails.
///
/// Returns the error if `split_ram_bundle` fails, or if the first item of its iterator is an error.
/// Any other error is `OutOfMemory`.
pub fn store_first_module<'a>(
    alloc: Global,
    bundle: &'a RamBundle<'a>,
    map: &SourceMapIndex,
) -> Result<Option<Vec<u8>>>
    ensures reads_back { IsWellFormed (index_tree (index_value map.now)) → IfOk result (λ text.
        IfSome text
        (λ text. StoresFirst (index_value map.now) (modules_of bundle.now) text.items)) }
    ensures error { IfErr result (λ e. UnlessMemory e
        (IsFirstRefused (index_value map.now) (modules_of bundle.now) e)) }
{
    module_maps_are_well_formed();
    let mut modules = split_ram_bundle(alloc, bundle, map)?;
    match modules.next() {
        None => Ok(None),
        Some(Err(refused)) => Err(refused),
        Some(Ok((_, _, map))) => stored(alloc, &map),
    }
}

fn stored(alloc: Global, map: &SourceMap) -> Result<Option<Vec<u8>>>
    ensures text { IfOk result (λ text. IfSome text (λ text. IsWellFormedRegular map.now
        → ReadsBack (BytesHaveResult RegularDecodes text.items) (Restores map.now))) }
    ensures memory { IsOkUnless result OutOfMemory }
{
    written_maps_read_back();
    // prover: clauses of a call after `?`
    let text = encode_to_vec(alloc, map)?;
    Ok(Some(text))
}
