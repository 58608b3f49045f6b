//! The parts of a map that `rewrite` changes.
ghost use Rattle.std.specs.Prelude.{◌≡◌, ◌≤◌, [], IfErr, IfOk, cond, map, string_bytes, unwrap_or, vec_len};
ghost use Rattle.sourcemap_errors.specs.Answer.{UnlessMemory};
ghost use Rattle.sourcemap_texts.specs.Texts.{texts_of};
ghost use Rattle.sourcemap_map_rewrite.specs.Loaded.{LacksFolder};
ghost use Rattle.sourcemap_map_rewrite.specs.Rewritten.{AreFew, AreRewritten};

use crate::cut_sources::{all_prefixes, cut_sources};
use crate::first_ids::first_ids;
use crate::kept_texts::kept_texts;
use crate::loaded_contents::resulting_contents;
use crate::options::RewriteOptions;
use crate::renumbering::renumber;
use sourcemap_errors::errors::Result;
use sourcemap_line_index::token_list::TokenList;
use sourcemap_source_views::sourceview::SourceView;
use std::alloc::Global;
use std::rt::Files;

// The sources resolved against `sourceRoot`, if `rooted` has them. Otherwise `sources`.
fn rooted_or_plain<'a>(rooted: &'a Option<Vec<String>>, sources: &'a Vec<String>) -> &'a [String]
    ensures { map string_bytes result.now ≡ texts_of (unwrap_or rooted.now sources.now) }
{
    match rooted {
        Some(texts) => texts.as_slice(),
        None => sources.as_slice(),
    }
}

fn into_rooted_or_plain(rooted: Option<Vec<String>>, sources: Vec<String>) -> Vec<String>
    ensures { texts_of result ≡ texts_of (unwrap_or rooted sources) }
{
    match rooted {
        Some(texts) => texts,
        None => sources,
    }
}

/// The names; an empty list if `with_names` is false.
pub fn names_if(alloc: Global, names: Vec<String>, with_names: bool) -> Vec<String>
    ensures { texts_of result ≡ cond with_names (texts_of names) [] }
{
    if with_names { names } else { Vec::new(alloc) }
}

/// The parts of a rewritten map.
#[derive(Drop)]
pub struct RewrittenParts {
    /// The tokens, in their old order.
    pub tokens: TokenList,
    /// The names in use.
    pub names: Vec<String>,
    /// The sources in use.
    pub sources: Vec<String>,
    /// The contents of `sources`, by index; an empty list if contents are neither kept nor loaded.
    pub contents: Vec<Option<SourceView>>,
    /// For each of `sources`, the old source id of the first token that uses this source.
    pub first_ids: Vec<u32>,
}

/// Rewrites the parts of a map. The list `with_root` contains the sources after resolution against
/// `sourceRoot`; `None` means that resolution changes nothing. The prefix `~` means the common
/// prefix of the absolute paths among `sources`. The option `with_names` is ignored; the caller
/// applies it to `names` beforehand, with [`names_if`]. There must be at most 4294967295 sources
/// and at most 4294967295 names. If `load_local_source_contents` is true and neither `base_path`
/// nor `current_dir` starts with `/`, the error is `Io` of kind `InvalidInput`. The only other
/// error is `OutOfMemory`.
pub fn rewritten_parts<F: Files>(
    rt: &F,
    alloc: Global,
    tokens: TokenList,
    sources: Vec<String>,
    with_root: Option<Vec<String>>,
    names: Vec<String>,
    contents: Vec<Option<SourceView>>,
    options: &RewriteOptions<'_>,
) -> Result<RewrittenParts>
    requires few_sources { vec_len (unwrap_or with_root sources) ≤ 4294967295 }
    requires few_names { vec_len names ≤ 4294967295 }
    ensures parts { IfOk result (λ parts. AreRewritten
        (texts_of (unwrap_or with_root sources)) (texts_of names) (texts_of sources)
        contents.items options.now tokens parts) }
    ensures few { IfOk result AreFew }
    ensures err { IfErr result (λ e. UnlessMemory e (LacksFolder options.now e)) }
{
    let texts = rooted_or_plain(&with_root, &sources);
    let (tokens, numbers) = renumber(alloc, tokens, texts, names.as_slice())?;
    let prefixes = all_prefixes(alloc, options.strip_prefixes, sources.as_slice())?;
    let texts = into_rooted_or_plain(with_root, sources);
    let texts = kept_texts(alloc, texts, &numbers.sources)?;
    // load contents before prefixes are stripped: the unstripped source leads to the file
    let contents = resulting_contents(
        rt,
        alloc,
        contents,
        &numbers.sources,
        texts.as_slice(),
        options,
    )?;
    let first_ids = first_ids(alloc, &numbers.sources, texts.len())?;
    let sources = cut_sources(alloc, texts, prefixes.as_slice())?;
    let names = kept_texts(alloc, names, &numbers.names)?;
    Ok(RewrittenParts {
        tokens,
        names,
        sources,
        contents,
        first_ids,
    })
}
