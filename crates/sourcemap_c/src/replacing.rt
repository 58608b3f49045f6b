//! Calls that replace a map: rewriting, flattening and composition.
ghost use Rattle.std.specs.Prelude.{◌≡◌, Err, IsSomeAnd, MatchResult, Ok, Some, false, map as list_map};
ghost use Rattle.std.specs.List.{All};
ghost use Rattle.std.specs.Str.{IsUtf8};
ghost use Rattle.sourcemap_errors.specs.Answer.{Gives, UnlessMemory as UnlessOutOfMemory};
ghost use Rattle.sourcemap_errors.specs.declared.errors.Error.TheVariants.{OutOfMemory};
ghost use Rattle.sourcemap_c_handles.specs.Handles.{held_in};
ghost use Rattle.sourcemap_hermes.specs.Map.{hermes_value};
ghost use Rattle.sourcemap_hermes.specs.Rewrite.{rewritten as hermes_rewritten};
ghost use Rattle.sourcemap_index.specs.Family.{map_tree};
ghost use Rattle.sourcemap_map_regular.specs.Adjust.{adjusted};
ghost use Rattle.sourcemap_map_regular.specs.Rewrite.{removal_of, rewritten};
ghost use Rattle.sourcemap_index_model.specs.MapTree.{leaf, regular};
ghost use Rattle.sourcemap_c.specs.Changing.{FailsAs, HoldsNew, IsAdjustedBy, IsFlat, IsRewritten};
ghost use Rattle.sourcemap_c.specs.Codes.{Answers, Does, UnlessMemory};
ghost use Rattle.sourcemap_c.specs.Kinds.{tree_in};
ghost use Rattle.sourcemap_c.specs.Replacing.{HasNoText, OrNoPrefix, removal};

use crate::codes::text_in;
use crate::kinds::{map_in, put_map};
use sourcemap::{DecodedMap, Result, RewriteOptions, SourceMap, SourceMapHermes};
use sourcemap_c_handles::Handle;
use sourcemap_c_handles::errors::{ErrorReport, Failure, Outcome, finish};
use sourcemap_c_handles::no_files::NoFiles;
use std::alloc::Global;

/// Flattens an index map. Afterwards the handle holds a regular map instead.
#[unsafe(no_mangle)]
pub extern "C" fn sm_flatten(alloc: Global, map: &mut Handle, error: &mut ErrorReport) -> u32
    ensures { Answers result error.old error.new (HoldsNew IsFlat (held_in map.old) (held_in map.new))
        (FailsAs IsFlat (tree_in (held_in map.old))) (held_in map.new ≡ held_in map.old) }
{
    finish(alloc, flatten(alloc, map), error)
}

fn flatten(alloc: Global, map: &mut Handle) -> Outcome<()>
    ensures { Does result (HoldsNew IsFlat (held_in map.old) (held_in map.new))
        (FailsAs IsFlat (tree_in (held_in map.old))) (held_in map.new ≡ held_in map.old) }
{
    let flat = flat_in(map)?;
    put_map(alloc, map, flat)
}

fn flat_in(map: &mut Handle) -> Outcome<DecodedMap>
    ensures flat { MatchResult result
        (λ flat. IsSomeAnd (tree_in (held_in map.old)) (λ t. IsFlat t (Ok (map_tree flat))))
        (λ failure. UnlessMemory failure (FailsAs IsFlat (tree_in (held_in map.old)) failure)) }
    ensures kept { held_in map.new ≡ held_in map.old }
{
    match map_in(map) {
        Some(DecodedMap::Index(index)) => Ok(DecodedMap::Regular(index.flatten()?)),
        _ => Err(Failure::WrongKind),
    }
}

/// Adjusts the map in `map` to a later version of its generated text, by the map in `adjustment`.
#[unsafe(no_mangle)]
pub extern "C" fn sm_compose(
    alloc: Global,
    map: &mut Handle,
    adjustment: &mut Handle,
    error: &mut ErrorReport,
) -> u32
    ensures adjusted { Answers result error.old error.new
        (HoldsNew (IsAdjustedBy (tree_in (held_in adjustment.old))) (held_in map.old) (held_in map.new))
        (FailsAs (IsAdjustedBy (tree_in (held_in adjustment.old))) (tree_in (held_in map.old)))
        (held_in map.new ≡ held_in map.old) }
    ensures kept { held_in adjustment.new ≡ held_in adjustment.old }
{
    finish(alloc, compose(alloc, map, adjustment), error)
}

fn compose(alloc: Global, map: &mut Handle, adjustment: &mut Handle) -> Outcome<()>
    ensures adjusted { Does result (HoldsNew (IsAdjustedBy (tree_in (held_in adjustment.old)))
        (held_in map.old) (held_in map.new))
        (FailsAs (IsAdjustedBy (tree_in (held_in adjustment.old))) (tree_in (held_in map.old)))
        (held_in map.new ≡ held_in map.old) }
    ensures kept { held_in adjustment.new ≡ held_in adjustment.old }
{
    let composed = compose_handles(map, adjustment)?;
    put_map(alloc, map, composed)
}

fn compose_handles(map: &mut Handle, adjustment: &mut Handle) -> Outcome<DecodedMap>
    ensures composed { MatchResult result (λ new. IsSomeAnd (tree_in (held_in map.old))
        (λ t. IsAdjustedBy (tree_in (held_in adjustment.old)) t (Ok (map_tree new))))
        (λ failure. UnlessMemory failure
        (FailsAs (IsAdjustedBy (tree_in (held_in adjustment.old))) (tree_in (held_in map.old)) failure)) }
    ensures kept { held_in map.new ≡ held_in map.old }
    ensures adjustment_kept { held_in adjustment.new ≡ held_in adjustment.old }
{
    match map_in(map) {
        Some(DecodedMap::Regular(map)) => compose_with_handle(map, adjustment),
        _ => Err(Failure::WrongKind),
    }
}

fn compose_with_handle(map: &SourceMap, adjustment: &mut Handle) -> Outcome<DecodedMap>
    ensures composed { MatchResult result
        (λ new. IsAdjustedBy (tree_in (held_in adjustment.old)) (leaf (regular map.now)) (Ok (map_tree new)))
        (λ failure. UnlessMemory failure
        (IsAdjustedBy (tree_in (held_in adjustment.old)) (leaf (regular map.now)) (Err failure))) }
    ensures adjustment_kept { held_in adjustment.new ≡ held_in adjustment.old }
{
    match map_in(adjustment) {
        Some(DecodedMap::Regular(adjustment)) => {
            Ok(DecodedMap::Regular(compose_copy(map, adjustment)?))
        }
        _ => Err(Failure::WrongKind),
    }
}

fn compose_copy(map: &SourceMap, adjustment: &SourceMap) -> Result<SourceMap>
    ensures { Gives (λ m. m) result (adjusted map.now adjustment.now) }
{
    let mut copy = map.clone()?;
    copy.adjust_mappings(adjustment)?;
    Ok(copy)
}

/// Rewrites the map: resolves its sources, removes what no token uses, and removes prefixes.
#[unsafe(no_mangle)]
pub extern "C" fn sm_rewrite(
    alloc: Global,
    map: &mut Handle,
    with_names: bool,
    with_contents: bool,
    prefixes: &[&[u8]],
    error: &mut ErrorReport,
) -> u32
    ensures { let texts = list_map (λ prefix. prefix.now) prefixes.now in
        let Rewritten = IsRewritten (removal with_names with_contents texts) in
        Answers result error.old error.new
        (All IsUtf8 texts × HoldsNew Rewritten (held_in map.old) (held_in map.new))
        (OrNoPrefix texts (FailsAs Rewritten (tree_in (held_in map.old)))) (held_in map.new ≡ held_in map.old) }
{
    finish(
        alloc,
        rewrite(alloc, map, with_names, with_contents, prefixes),
        error,
    )
}

fn rewrite(
    alloc: Global,
    map: &mut Handle,
    with_names: bool,
    with_contents: bool,
    prefixes: &[&[u8]],
) -> Outcome<()>
    ensures { let texts = list_map (λ prefix. prefix.now) prefixes.now in
        let Rewritten = IsRewritten (removal with_names with_contents texts) in
        Does result (All IsUtf8 texts × HoldsNew Rewritten (held_in map.old) (held_in map.new))
        (OrNoPrefix texts (FailsAs Rewritten (tree_in (held_in map.old)))) (held_in map.new ≡ held_in map.old) }
{
    match texts_in(alloc, prefixes) {
        Ok(prefixes) => rewrite_by(alloc, map, with_names, with_contents, prefixes.as_slice()),
        Err(error) => Err(Failure::Library(error)),
    }
}

/// Returns each item of `texts` as a text. The error is `Utf8` if an item is not UTF-8. The only
/// other error is `OutOfMemory`.
pub(crate) fn texts_in<'a>(alloc: Global, texts: &[&'a [u8]]) -> Result<Vec<&'a str>>
    ensures { MatchResult result (λ found. let found = list_map (λ text. text.now) found.items in
        (found ≡ list_map (λ text. text.now) texts.now) × All IsUtf8 found)
        (λ e. UnlessOutOfMemory e (HasNoText (list_map (λ text. text.now) texts.now) e)) }
{
    let mut found = Vec::with_capacity(alloc, texts.len())?;
    for text in texts {
        found.push(text_in(text)?)?;
    }
    Ok(found)
}

fn rewrite_by(
    alloc: Global,
    map: &mut Handle,
    with_names: bool,
    with_contents: bool,
    prefixes: &[&str],
) -> Outcome<()>
    ensures { let texts = list_map (λ prefix. prefix.now) prefixes.now in
        let Rewritten = IsRewritten (removal with_names with_contents texts) in
        Does result (HoldsNew Rewritten (held_in map.old) (held_in map.new))
        (FailsAs Rewritten (tree_in (held_in map.old))) (held_in map.new ≡ held_in map.old) }
{
    let options = RewriteOptions {
        with_names,
        with_source_contents: with_contents,
        load_local_source_contents: false,
        base_path: None,
        strip_prefixes: prefixes,
        current_dir: None,
    };
    let rewritten = rewrite_handle(map, &options)?;
    put_map(alloc, map, rewritten)
}

fn rewrite_handle(map: &mut Handle, options: &RewriteOptions<'_>) -> Outcome<DecodedMap>
    requires { options.now.load_local_source_contents ≡ false }
    ensures rewritten { MatchResult result (λ new. IsSomeAnd (tree_in (held_in map.old))
        (λ t. IsRewritten (removal_of options.now) t (Ok (map_tree new)))) (λ failure. UnlessMemory failure
        (FailsAs (IsRewritten (removal_of options.now)) (tree_in (held_in map.old)) failure)) }
    ensures kept { held_in map.new ≡ held_in map.old }
{
    match map_in(map) {
        Some(DecodedMap::Regular(map)) => {
            Ok(DecodedMap::Regular(rewritten_regular(map, options)?))
        }
        Some(DecodedMap::Hermes(map)) => { Ok(DecodedMap::Hermes(rewritten_hermes(map, options)?)) }
        _ => Err(Failure::WrongKind),
    }
}

fn rewritten_regular(map: &SourceMap, options: &RewriteOptions<'_>) -> Result<SourceMap>
    requires { options.now.load_local_source_contents ≡ false }
    ensures { MatchResult result (λ new. new ≡ rewritten (removal_of options.now) map.now)
        (λ e. e ≡ OutOfMemory) }
{
    let copy = map.clone()?;
    copy.rewrite(&NoFiles, options)
}

fn rewritten_hermes(map: &SourceMapHermes, options: &RewriteOptions<'_>) -> Result<SourceMapHermes>
    requires { options.now.load_local_source_contents ≡ false }
    ensures { MatchResult result (λ new.
        hermes_value new ≡ hermes_rewritten (removal_of options.now) (hermes_value map.now))
        (λ e. e ≡ OutOfMemory) }
{
    let copy = map.clone()?;
    copy.rewrite(&NoFiles, options)
}
