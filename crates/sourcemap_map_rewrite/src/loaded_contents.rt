//! Finds the contents of the sources in use. The options decide whether the contents in the map are
//! kept, and whether contents are loaded from files.
ghost use Rattle.std.specs.Prelude.{◌≡◌, [], true, IfErr, IfOk, IsOkUnless, MatchBool, length, map, string_bytes};
ghost use Rattle.std.specs.Prelude.{vec_len};
ghost use Rattle.std.specs.List.{AllByRecursion};
ghost use Rattle.sourcemap_errors.specs.Answer.{UnlessMemory};
ghost use Rattle.sourcemap_errors.specs.declared.errors.Error.TheVariants.{OutOfMemory};
ghost use Rattle.sourcemap_map_rewrite.specs.KeptContents.{AreKept, HasNewNumber};
ghost use Rattle.sourcemap_map_rewrite.specs.Loaded.{AreKeptOrNone, AreKeptAndLoaded, LacksFolder};

use crate::kept_contents::{kept_contents, without_contents};
use crate::numbering::NewNumbers;
use crate::options::RewriteOptions;
use sourcemap_errors::errors::Result;
use sourcemap_source_files::loading::load_contents;
use sourcemap_source_views::sourceview::SourceView;
use std::alloc::Global;
use std::rt::Files;

// The kept contents by new number; an empty list if contents are not kept.
fn contents_if(
    alloc: Global,
    contents: Vec<Option<SourceView>>,
    numbers: &NewNumbers,
    count: usize,
    with_contents: bool,
) -> Result<Vec<Option<SourceView>>>
    requires { AllByRecursion (HasNewNumber numbers.now.numbers.items count) numbers.now.order.items }
    ensures ok { IfOk result (λ kept. MatchBool with_contents
        (AreKept numbers.now.numbers.items numbers.now.order.items contents.items count kept.items)
        (kept.items ≡ [])) }
    ensures memory { IsOkUnless result OutOfMemory }
{
    if !with_contents {
        return Ok(Vec::new(alloc));
    }
    let order = numbers.order.as_slice();
    let numbers = numbers.numbers.as_slice();
    // prover: `?` on its own line
    let kept = kept_contents(alloc, contents, order, numbers, count)?;
    Ok(kept)
}

// The kept contents by new number; `None` for each source if contents are not kept.
fn contents_or_none(
    alloc: Global,
    contents: Vec<Option<SourceView>>,
    numbers: &NewNumbers,
    count: usize,
    with_contents: bool,
) -> Result<Vec<Option<SourceView>>>
    requires { AllByRecursion (HasNewNumber numbers.now.numbers.items count) numbers.now.order.items }
    ensures ok { IfOk result (λ unloaded. AreKeptOrNone with_contents
        numbers.now.numbers.items numbers.now.order.items contents.items count unloaded.items) }
    ensures many { IfOk result (λ unloaded. vec_len unloaded ≡ count) }
    ensures memory { IsOkUnless result OutOfMemory }
{
    if !with_contents {
        // prover: `?` on its own line
        let none = without_contents(alloc, count)?;
        return Ok(none);
    }
    let order = numbers.order.as_slice();
    let numbers = numbers.numbers.as_slice();
    let kept = kept_contents(alloc, contents, order, numbers, count)?;
    Ok(kept)
}

// The result of `contents_or_none`, with contents loaded from files for sources that have none.
fn contents_loaded<F: Files>(
    rt: &F,
    alloc: Global,
    contents: Vec<Option<SourceView>>,
    numbers: &NewNumbers,
    sources: &[String],
    options: &RewriteOptions<'_>,
) -> Result<Vec<Option<SourceView>>>
    requires new_numbers { AllByRecursion
        (HasNewNumber numbers.now.numbers.items (length sources.now)) numbers.now.order.items }
    requires loads { options.now.load_local_source_contents ≡ true }
    ensures ok { IfOk result (λ after. AreKeptAndLoaded options.now (map string_bytes sources.now)
        numbers.now.numbers.items numbers.now.order.items contents.items (length sources.now)
        after.items) }
    ensures err { IfErr result (λ e. UnlessMemory e (LacksFolder options.now e)) }
{
    let with_contents = options.with_source_contents;
    let mut contents = contents_or_none(alloc, contents, numbers, sources.len(), with_contents)?;
    let current_dir = options.current_dir.unwrap_or("");
    load_contents(
        rt,
        alloc,
        current_dir,
        options.base_path,
        sources,
        &mut contents,
    )?;
    Ok(contents)
}

// The contents of the sources by new number: kept, loaded, or both, as the options say; an empty
// list if the options ask for neither.
pub(crate) fn resulting_contents<F: Files>(
    rt: &F,
    alloc: Global,
    contents: Vec<Option<SourceView>>,
    numbers: &NewNumbers,
    sources: &[String],
    options: &RewriteOptions<'_>,
) -> Result<Vec<Option<SourceView>>>
    requires { AllByRecursion
        (HasNewNumber numbers.now.numbers.items (length sources.now)) numbers.now.order.items }
    ensures ok { IfOk result (λ after. MatchBool options.now.load_local_source_contents
        (AreKeptAndLoaded options.now (map string_bytes sources.now)
        numbers.now.numbers.items numbers.now.order.items contents.items (length sources.now)
        after.items)
        (MatchBool options.now.with_source_contents
        (AreKept numbers.now.numbers.items numbers.now.order.items contents.items
        (length sources.now) after.items)
        (after.items ≡ []))) }
    ensures err { IfErr result (λ e. UnlessMemory e (LacksFolder options.now e)) }
{
    if options.load_local_source_contents {
        let loaded = contents_loaded(rt, alloc, contents, numbers, sources, options)?;
        return Ok(loaded);
    }
    let with_contents = options.with_source_contents;
    let kept = contents_if(alloc, contents, numbers, sources.len(), with_contents)?;
    Ok(kept)
}
