//! Rewriting a Hermes map: only sources and names that tokens use are left.
ghost use Rattle.std.specs.Prelude.{◌≡◌, ◌≤◌, IfOk, length};
ghost use Rattle.sourcemap_errors.specs.Answer.{IsAnswer};
ghost use Rattle.sourcemap_map_rewrite.specs.Options.{Removal, no_removal, removal_of};
ghost use Rattle.sourcemap_map_regular.specs.Map.{MeansTheSame};
ghost use Rattle.sourcemap_map_regular.specs.Rewrite.{LeavesMeaning, MeansLess, TokensMeanLess};
ghost use Rattle.sourcemap_hermes.specs.Map.{HermesValue, IsWellFormed, hermes_value};
ghost use Rattle.sourcemap_hermes.specs.Rewrite.{HasDistinctSources, KeepsScopes, Rewrites, rewritten};

use crate::map::SourceMapHermes;
use sourcemap_errors::errors::Result;
use sourcemap_map_rewrite::options::RewriteOptions;
use std::rt::Files;

impl SourceMapHermes {
    /// Rewrites the regular map as `SourceMap::rewrite` does: the result has only the sources and
    /// names that tokens use, and each name once. Scopes are moved, not copied. Sources in use that
    /// resolve to the same text become one new source, with the scopes of only one old source: the
    /// one whose id comes first in the list of tokens. If this old source has no scopes, the new
    /// source has no scopes. If the map is well-formed, and no two sources resolve against
    /// `sourceRoot` to the same text, each token keeps its scope.
    ///
    /// With `load_local_source_contents`, missing contents are read from files, as by
    /// `SourceMap::rewrite`. Returns `Io` of kind `InvalidInput` if contents are to be loaded and
    /// neither `base_path` nor `current_dir` is absolute. The only other error is `OutOfMemory`.
    pub fn rewrite<F: Files>(self, rt: &F, options: &RewriteOptions<'_>) -> Result<SourceMapHermes>
        ensures value { IsAnswer hermes_value (Rewrites options.now (hermes_value self)) result }
        // The meaning of each position is unchanged, except for what the options remove.
        ensures meaning { IfOk result (λ h. MeansLess (removal_of options.now)
            (hermes_value self).map (hermes_value h).map) }
        ensures tokens { IfOk result (λ h. TokensMeanLess (removal_of options.now)
            (hermes_value self).map (hermes_value h).map) }
        // If the options keep names and list no prefix, each position keeps its meaning.
        ensures same { LeavesMeaning (removal_of options.now)
            → IfOk result (λ h. MeansTheSame (hermes_value h).map (hermes_value self).map) }
        ensures well_formed { IfOk result
            (λ h. IsWellFormed (hermes_value self) → IsWellFormed (hermes_value h)) }
        // If no two sources of a well-formed map resolve to the same text, each token keeps its
        // scope.
        ensures scopes { IfOk result
            (λ h. IsWellFormed (hermes_value self) → HasDistinctSources (hermes_value self)
            → KeepsScopes (hermes_value self) (hermes_value h)) }
    {
        let SourceMapHermes { sm, scopes } = self;
        // prover: there are at most 4294967295 sources
        let _ = sm.get_source_count();
        let alloc = sm.allocator();
        let (sm, ids) = sm.rewrite_with_ids(rt, options)?;
        let scopes = scopes.select(alloc, ids.as_slice())?;
        Ok(SourceMapHermes { sm, scopes })
    }
}

/// A law: if a well-formed map has at most 4294967295 sources, and no two of them resolve against
/// `sourceRoot` to the same text, the rewritten map has the same scope for each token, and the same
/// function name at each bytecode offset.
pub fn rewriting_keeps_scopes()
    ensures { (removal : Removal) (h : HermesValue) → length h.map.sources ≤ 4294967295
        → IsWellFormed h → HasDistinctSources h → KeepsScopes h (rewritten removal h) }
{}

/// A law: if a map has at most 4294967295 sources and at most 4294967295 names, rewriting it twice
/// with default options gives the same map and the same scopes as rewriting it once.
pub fn default_rewriting_keeps_scopes()
    ensures { (h : HermesValue) → length h.map.sources ≤ 4294967295
        → length h.map.names ≤ 4294967295
        → rewritten no_removal (rewritten no_removal h) ≡ rewritten no_removal h }
{}
