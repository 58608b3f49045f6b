//! The texts of a map, borrowed, each with the fact that it is UTF-8.
ghost use Rattle.std.specs.Prelude.{◌≡◌, IfOk, IfSome, IsOkUnless, Some, map};
ghost use Rattle.std.specs.Option.{option_copied};
ghost use Rattle.std.specs.Str.{IsUtf8};
ghost use Rattle.sourcemap_errors.specs.declared.errors.Error.TheVariants.{OutOfMemory};
ghost use Rattle.sourcemap_cache.specs.Texts.{AreTexts};

use sourcemap_errors::errors::Result;
use sourcemap_interning::text::Text;
use sourcemap_map_regular::map::SourceMap;
use sourcemap_source_views::sourceview::SourceView;
use std::alloc::Global;

// prover: a `str` is UTF-8 (compiles to nothing)
#[inline]
fn check_utf8(text: &str)
    ensures { IsUtf8 text.now }
{}

/// Borrows a list of texts. The only error is `OutOfMemory`.
pub(crate) fn texts_of<T: Text>(alloc: Global, list: &[T]) -> Result<Vec<Option<&str>>>
    ensures same { IfOk result (λ texts. map option_copied texts.items
        ≡ map Some (map T.bytes list.now)) }
    ensures utf8 { IfOk result (λ _. AreTexts (map Some (map T.bytes list.now))) }
    ensures memory { IsOkUnless result OutOfMemory }
{
    let mut texts = Vec::with_capacity(alloc, list.len())?;
    for item in list {
        let text = item.as_text();
        check_utf8(text);
        texts.push(Some(text))?;
    }
    Ok(texts)
}

/// Borrows the contents of sources. The only error is `OutOfMemory`.
pub(crate) fn contents_of(alloc: Global, views: &[Option<SourceView>]) -> Result<Vec<Option<&str>>>
    ensures same { IfOk result (λ texts. map option_copied texts.items ≡ views.now) }
    ensures utf8 { IfOk result (λ _. AreTexts views.now) }
    ensures memory { IsOkUnless result OutOfMemory }
{
    let mut texts = Vec::with_capacity(alloc, views.len())?;
    for view in views {
        let text = text_in(view);
        texts.push(text)?;
    }
    Ok(texts)
}

fn text_in(view: &Option<SourceView>) -> Option<&str>
    ensures same { option_copied result ≡ view.now }
    ensures utf8 { IfSome view.now IsUtf8 }
{
    match view {
        None => None,
        Some(view) => {
            let text = view.source();
            check_utf8(text);
            Some(text)
        }
    }
}

/// Borrows the name of the generated file.
pub(crate) fn file_of(map: &SourceMap) -> Option<&str>
    ensures same { option_copied result ≡ map.now.file }
    ensures utf8 { IfSome map.now.file IsUtf8 }
{
    match map.get_file() {
        None => None,
        Some(file) => {
            check_utf8(file);
            Some(file)
        }
    }
}
