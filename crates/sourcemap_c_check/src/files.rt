//! The files of sources that C passes.
ghost use Rattle.std.specs.Prelude.{◌≡◌, MatchResult, map, option_map};
ghost use Rattle.sourcemap_errors.specs.declared.errors.Error.TheVariants.{OutOfMemory};
ghost use Rattle.sourcemap_c_check.specs.Files.{file_text, file_texts, files_if};

use sourcemap_errors::errors::Result;
use sourcemap_source_views::sourceview::SourceView;
use std::alloc::Global;
use std::str;

#[tactic(auto, using(crate::proofs::FileLemmas::text_is, crate::proofs::FileLemmas::no_text))]
fn file_text(alloc: Global, bytes: &[u8]) -> Result<Option<SourceView>>
    ensures { MatchResult result (λ text. text ≡ file_text bytes.now) (λ e. e ≡ OutOfMemory) }
{
    match str::from_utf8(bytes) {
        Ok(text) => Ok(Some(SourceView::new(alloc, text)?)),
        Err(_) => Ok(None),
    }
}

fn file_texts(alloc: Global, files: &[&[u8]]) -> Result<Vec<Option<SourceView>>>
    ensures { MatchResult result
        (λ texts. texts.items ≡ file_texts (map (λ file. file.now) files.now))
        (λ e. e ≡ OutOfMemory) }
{
    let mut texts = Vec::with_capacity(alloc, files.len())?;
    for file in files {
        texts.push(file_text(alloc, file)?)?;
    }
    Ok(texts)
}

/// The texts of files, in their order, if `present` is true; of them `None` for a file that is not
/// UTF-8. The only error is `OutOfMemory`.
pub fn files_if(
    alloc: Global,
    present: bool,
    files: &[&[u8]],
) -> Result<Option<Vec<Option<SourceView>>>>
    ensures { MatchResult result
        (λ texts. option_map (λ texts. texts.items) texts
        ≡ files_if present (map (λ file. file.now) files.now))
        (λ e. e ≡ OutOfMemory) }
{
    if present {
        Ok(Some(file_texts(alloc, files)?))
    } else {
        Ok(None)
    }
}
