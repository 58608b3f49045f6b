//! Removes unused sources and names from a map.
ghost use Rattle.std.specs.Prelude.{◌≡◌, IfOk, IsOkUnless, None, option_map};
ghost use Rattle.sourcemap.specs.Rewrite.{no_removal, rewritten, used_names, used_sources};
ghost use Rattle.sourcemap.specs.Types.{MeansTheSame, meaning};
ghost use Rattle.sourcemap.specs.declared.errors.Error.TheVariants.{OutOfMemory};
ghost use Rattle.sourcemap_uses.specs.Adjusting.{position_meaning};

use crate::adjusting::{OriginalPosition, position_at};
use sourcemap::laws::default_rewriting_is_final;
use sourcemap::{Result, RewriteOptions, SourceMap};
use std::alloc::Global;
use std::rt::Files;

/// Removes unused sources and names. Each used source and each used name is kept once, in the order
/// of first use. Sources are resolved against `sourceRoot`, and the result has no `sourceRoot` and
/// no ignore list. Every position keeps its meaning. The result is what `rewrite` returns with
/// default options, and shrinking it again changes nothing. The only error is `OutOfMemory`.
pub fn shrink<F: Files>(rt: &F, map: SourceMap) -> Result<SourceMap>
    ensures means { IfOk result (λ small. MeansTheSame small map) }
    ensures root { IfOk result (λ small. small.root ≡ None) }
    ensures sources { IfOk result (λ small. small.sources ≡ used_sources map) }
    ensures names { IfOk result (λ small. small.names ≡ used_names map) }
    ensures whole { IfOk result (λ small. small ≡ rewritten no_removal map) }
    ensures last { IfOk result (λ small. rewritten no_removal small ≡ small) }
    ensures memory { IsOkUnless result OutOfMemory }
{
    default_rewriting_is_final();
    // prover: there are at most 4294967295 sources and names
    let _ = map.get_source_count();
    let _ = map.get_name_count();
    map.rewrite(rt, &RewriteOptions::default())
}

/// Shrinks a map and looks up a position in the shrunk map. Returns the same original position as a
/// lookup in `map`, or `None` if no token is at or before the position. The only error is
/// `OutOfMemory`.
pub fn lookup_once_shrunk<F: Files>(
    rt: &F,
    alloc: Global,
    map: SourceMap,
    line: u32,
    col: u32,
) -> Result<Option<OriginalPosition>>
    ensures position { IfOk result (λ found. option_map position_meaning found ≡ meaning map (line, col)) }
    ensures memory { IsOkUnless result OutOfMemory }
{
    let small = shrink(rt, map)?;
    position_at(alloc, &small, line, col)
}
