//! Finds the function that contains a bytecode offset. Shrinks a Hermes map.
ghost use Rattle.std.specs.Prelude.{Err, IfErr, IfOk, IsOkUnless, Ok, option_map, string_bytes};
ghost use Rattle.sourcemap.specs.Answer.{Gives, UnlessMemory};
ghost use Rattle.sourcemap.specs.Hermes.{hermes_value};
ghost use Rattle.sourcemap.specs.HermesDecoder.{RecordDecodesAsHermes};
ghost use Rattle.sourcemap.specs.HermesRewrite.{HasDistinctSources, KeepsScopes, rewritten};
ghost use Rattle.sourcemap.specs.Reading.{BytesHaveResult};
ghost use Rattle.sourcemap.specs.Rewrite.{no_removal};
ghost use Rattle.sourcemap.specs.Types.{IsWellFormed};
ghost use Rattle.sourcemap.specs.declared.errors.Error.TheVariants.{OutOfMemory};
ghost use Rattle.sourcemap_uses.specs.Functions.{IsNameAt, IsNameIn};

use sourcemap::{Result, RewriteOptions, SourceMapHermes};
use std::alloc::Global;
use std::rt::Files;

/// Returns the name of the function that contains a bytecode offset, by the Hermes map in `bytes`.
/// Returns `None` if the map has no token or no function name for the offset. The result may be
/// wrong if the token has a source whose functions are not sorted by start position. Returns the
/// errors of `SourceMapHermes::from_slice`.
pub fn function_at(alloc: Global, bytes: &[u8], offset: u32) -> Result<Option<String>>
    ensures name { IfOk result
        (λ name. IsNameAt bytes.now offset (option_map string_bytes name)) }
    ensures error { IfErr result
        (λ e. UnlessMemory e (BytesHaveResult RecordDecodesAsHermes bytes.now (Err e))) }
{
    // prover: error passed on by `match`
    match SourceMapHermes::from_slice(alloc, bytes) {
        Ok(map) => name_at(alloc, &map, offset),
        Err(error) => Err(error),
    }
}

// prover: one drop
fn name_at(alloc: Global, map: &SourceMapHermes, offset: u32) -> Result<Option<String>>
    ensures name { IfOk result (λ name. IsNameIn (hermes_value map.now) offset
        (option_map string_bytes name)) }
    ensures memory { IsOkUnless result OutOfMemory }
{
    match map.get_original_function_name(offset) {
        None => Ok(None),
        Some(name) => Ok(Some(String::from_str(alloc, name)?)),
    }
}

/// Returns a copy, rewritten with default options: sources and names that no token uses are
/// removed. If the regular map in `map` is well-formed, and no two sources resolve against
/// `sourceRoot` to the same text, then each token keeps its scope, and each bytecode offset keeps
/// its function name. The only error is `OutOfMemory`.
pub fn shrink_copy<F: Files>(rt: &F, map: &SourceMapHermes) -> Result<SourceMapHermes>
    ensures value { Gives hermes_value result (Ok (rewritten no_removal (hermes_value map.now))) }
    ensures scopes { IsWellFormed (hermes_value map.now).map
        → HasDistinctSources (hermes_value map.now)
        → IfOk result (λ small. KeepsScopes (hermes_value map.now) (hermes_value small)) }
{
    // prover: entries of scopes are few, and each entry encodes the function map of its source
    let _ = map.scope_count();
    let copy = map.clone()?;
    copy.rewrite(rt, &RewriteOptions::default())
}
