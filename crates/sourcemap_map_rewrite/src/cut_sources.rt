//! Strips prefixes from sources.
ghost use Rattle.std.specs.Prelude.{◌≡◌, ◌∷◌, [], ◌++◌, None, Ok, OnOk, IsOkUnless, codes, cond, filter, map, not};
ghost use Rattle.std.specs.Prelude.{option_map, string_bytes};
ghost use Rattle.std.specs.List.{list_any};
ghost use Rattle.std.specs.Str.{bytes_eq};
ghost use Rattle.sourcemap_errors.specs.Answer.{Gives};
ghost use Rattle.sourcemap_texts.specs.Paths.{common_prefix};
ghost use Rattle.sourcemap_errors.specs.declared.errors.Error.TheVariants.{OutOfMemory};
ghost use Rattle.sourcemap_texts.specs.Texts.{texts_of};
ghost use Rattle.sourcemap_texts.specs.Prefixes.{without_prefix};
ghost use Rattle.sourcemap_map_rewrite.specs.CutSources.{all_prefixes, common_if};
ghost use Rattle.sourcemap_map_rewrite.specs.Kept.{present};

use sourcemap_errors::errors::Result;
use sourcemap_texts::paths::find_common_prefix;
use sourcemap_texts::prefixes::strip_text;
use std::alloc::Global;

// In a list of prefixes, `~` means the common prefix of the absolute paths among the sources.
const COMMON_MARKER: &str = "~";

fn common_of(alloc: Global, texts: &[String]) -> Result<Option<String>>
    ensures { Gives (option_map string_bytes) result
        (Ok (common_prefix (map string_bytes texts.now))) }
{
    find_common_prefix(alloc, texts.iter().map(|text| text.as_str()))
}

fn contains_marker(prefixes: &[&str]) -> bool
    ensures { result
        ≡ list_any (λ prefix. bytes_eq prefix (codes "~"))
        (map (λ prefix. prefix.now) prefixes.now) }
{
    for prefix in prefixes {
        if *prefix == COMMON_MARKER {
            return true;
        }
    }
    false
}

fn common_if_marked(alloc: Global, prefixes: &[&str], texts: &[String]) -> Result<Option<String>>
    ensures { Gives (option_map string_bytes) result
        (Ok (common_if (map (λ prefix. prefix.now) prefixes.now) (map string_bytes texts.now))) }
{
    if contains_marker(prefixes) {
        // prover: `?` on its own line
        let common = common_of(alloc, texts)?;
        Ok(common)
    } else {
        Ok(None)
    }
}

// The prefixes other than `~`.
fn plain_prefixes(alloc: Global, prefixes: &[&str]) -> Result<Vec<String>>
    ensures { Gives texts_of result
        (Ok (filter (λ prefix. not (bytes_eq prefix (codes "~")))
        (map (λ prefix. prefix.now) prefixes.now))) }
{
    let mut list = Vec::new(alloc);
    for prefix in prefixes {
        if *prefix != COMMON_MARKER {
            list.push(String::from_str(alloc, prefix)?)?;
        }
    }
    Ok(list)
}

fn with_one_more(mut texts: Vec<String>, text: Option<String>) -> Result<Vec<String>>
    ensures { Gives texts_of result
        (Ok (texts_of texts ++ present (option_map string_bytes text ∷ []))) }
{
    if let Some(text) = text {
        texts.push(text)?;
    }
    Ok(texts)
}

fn cut_text(alloc: Global, text: &mut String, prefixes: &[String]) -> Result<()>
    ensures ok { OnOk result
        (string_bytes text.new ≡ without_prefix (map string_bytes prefixes.now) (string_bytes text.old)) }
    ensures memory { IsOkUnless result OutOfMemory }
{
    if let Some(rest) = strip_text(alloc, text.as_str(), None, prefixes)? {
        *text = rest;
    }
    Ok(())
}

fn cut_all(alloc: Global, texts: &mut [String], prefixes: &[String]) -> Result<()>
    ensures ok { OnOk result (map string_bytes texts.new
        ≡ map (without_prefix (map string_bytes prefixes.now)) (map string_bytes texts.old)) }
    ensures memory { IsOkUnless result OutOfMemory }
{
    for text in texts.iter_mut() {
        cut_text(alloc, text, prefixes)?;
    }
    Ok(())
}

// The prefixes to strip: `prefixes` without `~`. If `prefixes` contains `~`, the common prefix of
// the absolute paths among `paths` is appended, unless `find_common_prefix` returns `None`.
pub(crate) fn all_prefixes(
    alloc: Global,
    prefixes: &[&str],
    paths: &[String],
) -> Result<Vec<String>>
    ensures { Gives texts_of result
        (Ok (all_prefixes (map (λ prefix. prefix.now) prefixes.now) (map string_bytes paths.now))) }
{
    let common = common_if_marked(alloc, prefixes, paths)?;
    let plain = plain_prefixes(alloc, prefixes)?;
    with_one_more(plain, common)
}

pub(crate) fn cut_sources(
    alloc: Global,
    mut texts: Vec<String>,
    prefixes: &[String],
) -> Result<Vec<String>>
    ensures { Gives texts_of result
        (Ok (map (without_prefix (map string_bytes prefixes.now)) (texts_of texts))) }
{
    cut_all(alloc, texts.as_mut_slice(), prefixes)?;
    Ok(texts)
}
