//! `rewrite`: reduces a map to what its tokens use.
ghost use Rattle.std.specs.Prelude.{◌≡◌, IfOk, nat_eq};
ghost use Rattle.std.specs.List.{IsDistinct};
ghost use Rattle.sourcemap_errors.specs.Answer.{IsAnswer};
ghost use Rattle.sourcemap_map_rewrite.specs.Options.{IsDefault, no_removal, removal_of};
ghost use Rattle.sourcemap_map_rewrite.specs.declared.options.RewriteOptions.{RewriteOptions};
ghost use Rattle.sourcemap_map_regular.specs.Map.{MapValue};
ghost use Rattle.sourcemap_map_regular.specs.Rewrite.{IsFinal};

use crate::map::SourceMap;
use sourcemap_errors::errors::Result;
use sourcemap_map_conversions::parts::Parts;
use sourcemap_map_parts::contents::Contents;
use sourcemap_map_parts::sources::Sources;
pub use sourcemap_map_rewrite::options::RewriteOptions;
use sourcemap_map_rewrite::rewritten::{RewrittenParts, names_if, rewritten_parts};
use std::rt::Files;

impl SourceMap {
    ghost use Rattle.sourcemap_map_regular.specs.Map.{IsWellFormed, MeansTheSame};
    ghost use Rattle.sourcemap_map_regular.specs.Rewrite.{first_ids, LeavesMeaning, MeansLess, Rewrites};
    ghost use Rattle.sourcemap_map_regular.specs.Rewrite.{TokensMeanLess};

    /// Reduces the map to the sources and names that tokens use, each once, in the order of first
    /// use. Sources are resolved against `sourceRoot`, and the result has no root. Used sources
    /// that resolve to the same text become one new source. If contents are kept, the new source
    /// gets contents from the first of these sources, in the order of first use, that has contents.
    /// File and debug id are kept, and the ignore list is cleared. `options` says whether names and
    /// contents are kept, and which prefixes are removed from sources. Sources that become equal
    /// only when prefixes are removed stay separate sources.
    ///
    /// With `load_local_source_contents`, each new source without kept contents gets contents from
    /// a file. If contents are not kept, these are all new sources. To find the file, a source is
    /// resolved against the URL of a folder, before any prefix is removed. The folder is
    /// `base_path` if this path is absolute, otherwise `current_dir` and `base_path` joined by `/`.
    /// A source is skipped if it resolves to no file path, or if its file is not a regular file,
    /// cannot be read or is not UTF-8. A source may also be skipped if the source and the URL of
    /// the folder together are very long (see `RewriteOptions`).
    ///
    /// If contents are to be loaded and neither `base_path` nor `current_dir` is absolute, the
    /// error is `Io` of kind `InvalidInput`. The only other error is `OutOfMemory`.
    pub fn rewrite<F: Files>(self, rt: &F, options: &RewriteOptions<'_>) -> Result<SourceMap>
        ensures value { IsAnswer (λ m. m) (Rewrites options.now self) result }
        // At each generated position, the new map has the meaning of the old map, with two changes:
        // a prefix that `options` selects is removed from the source, and the name is removed if
        // names are not kept. Each token keeps its generated position, and its meaning changes in
        // the same way.
        ensures meaning { IfOk result (λ m. MeansLess (removal_of options.now) self m) }
        ensures tokens { IfOk result (λ m. TokensMeanLess (removal_of options.now) self m) }
        // If names are kept and `options` lists no prefix, each position keeps its meaning.
        ensures same { LeavesMeaning (removal_of options.now)
            → IfOk result (λ m. MeansTheSame m self) }
        ensures well_formed { IfOk result (λ m. IsWellFormed self → IsWellFormed m) }
    {
        // prover: `?` on its own line
        let (map, _) = self.rewrite_with_ids(rt, options)?;
        Ok(map)
    }

    /// Rewrites the map as `rewrite` does. Also returns one old source id for each new source, in
    /// the order of the new sources: the old source id of the first token that uses the new source.
    /// The errors are those of `rewrite`.
    pub fn rewrite_with_ids<F: Files>(
        self,
        rt: &F,
        options: &RewriteOptions<'_>,
    ) -> Result<(SourceMap, Vec<u32>)>
        ensures value { IsAnswer (λ new. new.0) (Rewrites options.now self) result }
        ensures ids { IfOk result (λ new. new.1.items ≡ first_ids self) }
        ensures distinct { IfOk result (λ new. IsDistinct nat_eq new.1.items) }
        ensures meaning { IfOk result (λ new. MeansLess (removal_of options.now) self new.0) }
        ensures tokens { IfOk result (λ new. TokensMeanLess (removal_of options.now) self new.0) }
        ensures same { LeavesMeaning (removal_of options.now)
            → IfOk result (λ new. MeansTheSame new.0 self) }
        ensures well_formed { IfOk result (λ new. IsWellFormed self → IsWellFormed new.0) }
    {
        // prover: there are at most 4294967295 sources
        let _ = self.sources.len();
        // prover: `?` on its own line
        let new = self.reduce(rt, options)?;
        Ok(new)
    }

    fn reduce<F: Files>(self, rt: &F, options: &RewriteOptions<'_>) -> Result<(SourceMap, Vec<u32>)>
        ensures value { IsAnswer (λ new. new.0) (Rewrites options.now self) result }
        ensures ids { IfOk result (λ new. new.1.items ≡ first_ids self) }
    {
        let alloc = self.allocator();
        let Parts {
            metadata,
            tokens,
            names,
            sources,
            contents,
        } = self.into_parts();
        let names = names_if(alloc, names, options.with_names);
        let (sources, resolved) = sources.into_lists();
        let contents = contents.into_views();
        let parts = rewritten_parts(
            rt, alloc, tokens, sources, resolved, names, contents, options,
        )?;
        let RewrittenParts {
            tokens,
            names,
            sources,
            contents,
            first_ids,
        } = parts;
        let metadata = metadata.without_ignored(alloc);
        let sources = Sources::new(sources);
        let contents = Contents::of_views(contents);
        let map = SourceMap::of_parts(metadata, tokens, names, sources, contents);
        Ok((map, first_ids))
    }
}

/// A law: the default options keep names and contents, and list no prefix. With these options,
/// rewriting a map twice gives the same map as rewriting it once, if the map has at most
/// 4294967295 sources and at most 4294967295 names. Every `SourceMap` is such a map.
pub fn default_rewriting_is_final()
    ensures default { (options : RewriteOptions)
        → IsDefault options → removal_of options ≡ no_removal }
    ensures twice { (m : MapValue) → IsFinal m }
{}
