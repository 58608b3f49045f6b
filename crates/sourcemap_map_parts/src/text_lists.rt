//! Copies and comparisons of texts and of lists of texts.
ghost use Rattle.std.specs.Prelude.{◌≡◌, Ok, map, option_map, string_bytes};
ghost use Rattle.std.specs.Option.{option_eq};
ghost use Rattle.std.specs.Cmp.Lexicographic.{pointwise};
ghost use Rattle.sourcemap_errors.specs.Answer.{Gives};
ghost use Rattle.sourcemap_texts.specs.Texts.{texts_of};
ghost use Rattle.sourcemap_map_parts.specs.TextLists.{same_text};

use sourcemap_errors::errors::Result;
use sourcemap_texts::copies::copy_text;
use std::alloc::Global;

/// Copies all texts. The only error is `OutOfMemory`.
pub fn copy_texts(alloc: Global, texts: &[String]) -> Result<Vec<String>>
    ensures { Gives texts_of result (Ok (map string_bytes texts.now)) }
{
    let mut copies = Vec::with_capacity(alloc, texts.len())?;
    for text in texts {
        copies.push(text.clone()?)?;
    }
    Ok(copies)
}

/// Copies all texts of the list, if there is a list. The only error is `OutOfMemory`.
pub fn copy_optional_texts(
    alloc: Global,
    texts: &Option<Vec<String>>,
) -> Result<Option<Vec<String>>>
    ensures { Gives (option_map texts_of) result (Ok (option_map texts_of texts.now)) }
{
    match texts {
        None => Ok(None),
        Some(texts) => Ok(Some(copy_texts(alloc, texts.as_slice())?)),
    }
}

/// Copies the text, if there is one. The only error is `OutOfMemory`.
pub fn copy_string(alloc: Global, text: &Option<String>) -> Result<Option<String>>
    ensures { Gives (option_map string_bytes) result (Ok (option_map string_bytes text.now)) }
{
    match text {
        None => Ok(None),
        Some(text) => copy_text(alloc, Some(text.as_str())),
    }
}

/// Whether both are `None` or the same text.
pub fn same_optional_texts(a: &Option<String>, b: &Option<String>) -> bool
    ensures { result
        ≡ option_eq same_text (option_map string_bytes a.now) (option_map string_bytes b.now) }
{
    a == b
}

/// Whether both lists hold the same texts in the same order.
pub fn same_texts(a: &Vec<String>, b: &Vec<String>) -> bool
    ensures { result ≡ pointwise same_text (texts_of a.now) (texts_of b.now) }
{
    a == b
}
