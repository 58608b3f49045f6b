//! Merges the sources of two maps.
ghost use Rattle.std.specs.Prelude.{◌≡◌, ◌⊎◌, ◌++◌, [], None, Some, IfErr, IfOk, OnErr, OnOk, fold, slice_get};
ghost use Rattle.sourcemap.specs.Answer.{Gives, UnlessMemory};
ghost use Rattle.sourcemap.specs.Builder.{with_source};
ghost use Rattle.sourcemap.specs.Interner.{id_for};
ghost use Rattle.sourcemap.specs.Rewrite.{kept_once};
ghost use Rattle.sourcemap.specs.Types.{made_of, resolved_sources};
ghost use Rattle.sourcemap_uses.specs.Merging.{AreTooMany, HasFirstOf, with_display_text};

use sourcemap::{Result, SourceMap, SourceMapBuilder};
use std::alloc::Global;

/// Returns a source map with the resolved sources of `first`, followed by the resolved sources of
/// `second`. Each source is kept once, in the order of first occurrence. The new map has no `file`,
/// tokens, names, contents, `sourceRoot`, ignore list or debug id. Errors: `OutOfMemory`, and
/// `IncompatibleSourceMap` for more than 4294967295 different sources.
pub fn merged_sources(alloc: Global, first: &SourceMap, second: &SourceMap) -> Result<SourceMap>
    ensures map { IfOk result (λ m. m ≡ made_of None [] []
        (kept_once (resolved_sources first.now ++ resolved_sources second.now)) []) }
    ensures resolved { IfOk result (λ m. resolved_sources m
        ≡ kept_once (resolved_sources first.now ++ resolved_sources second.now)) }
    ensures error { IfErr result (λ e. UnlessMemory e
        (AreTooMany (kept_once (resolved_sources first.now ++ resolved_sources second.now)) e)) }
{
    let mut builder = SourceMapBuilder::new(alloc, None)?;
    add_sources(&mut builder, first)?;
    add_sources(&mut builder, second)?;
    builder.into_sourcemap()
}

/// Adds the resolved sources of a map to a builder. Errors: `OutOfMemory`, and
/// `IncompatibleSourceMap` for more than 4294967295 different sources in all. After an error some
/// of the sources may have been added: the first ones, in order. Nothing else is changed.
pub fn add_sources(builder: &mut SourceMapBuilder, map: &SourceMap) -> Result<()>
    ensures added { OnOk result
        (builder.new ≡ fold with_source builder.old (resolved_sources map.now)) }
    ensures stopped { OnErr result
        (HasFirstOf builder.old builder.new (resolved_sources map.now)) }
    ensures error { IfErr result (λ e. UnlessMemory e
        (AreTooMany (fold with_source builder.old (resolved_sources map.now)).interned e)) }
{
    for source in map.sources() {
        builder.add_source(source)?;
    }
    Ok(())
}

/// Adds `source` to a builder, then replaces this source by `display`, as `set_source` does.
/// Returns the id of the source. The errors are those of `add_source`. After an error the builder
/// is unchanged, or `source` is added but not replaced.
pub fn add_source_displayed_as(
    builder: &mut SourceMapBuilder,
    source: &str,
    display: &str,
) -> Result<u32>
    ensures id { Gives (λ id. id) result (id_for builder.old.interned source.now) }
    ensures added { IfOk result (λ id. builder.new
        ≡ with_display_text (with_source builder.old source.now) id display.now) }
    ensures displayed { IfOk result (λ id. slice_get builder.new.sources id ≡ Some display.now) }
    ensures stopped { OnErr result ((builder.new ≡ builder.old)
        ⊎ (builder.new ≡ with_source builder.old source.now)) }
{
    let id = builder.add_source(source)?;
    builder.set_source(id, display)?;
    Ok(id)
}
