//! Moves texts to their new numbers.
ghost use Rattle.std.specs.Prelude.{◌≡◌, ◌<◌, [], IfOk, IsOkUnless, slice_get, slice_set, Some, string_bytes, vec_len};
ghost use Rattle.sourcemap_errors.specs.declared.errors.Error.TheVariants.{OutOfMemory};
ghost use Rattle.sourcemap_texts.specs.Texts.{texts_of};
ghost use Rattle.sourcemap_map_rewrite.specs.Numbering.{AreNumbered, seen_texts};

use crate::numbering::NewNumbers;
use sourcemap_errors::errors::Result;
use std::alloc::Global;
use std::mem;

// Moves the text at `id` out of the list, and leaves an empty string.
fn take_text(alloc: Global, texts: &mut Vec<String>, id: usize) -> String
    requires { id < vec_len texts.old }
    ensures taken { slice_get (texts_of texts.old) id ≡ Some (string_bytes result) }
    ensures left { texts_of texts.new ≡ slice_set (texts_of texts.old) id [] }
{
    mem::replace(&mut texts[id], String::new(alloc))
}

// Returns the texts in use, each once, in the order of their new numbers. The texts are moved out
// of `texts`, not copied. Among equal texts, the text whose old number comes first in
// `numbers.order` is moved. All other texts are dropped. The only error is `OutOfMemory`.
// `numbers` must be the new numbers of `texts` (`AreNumbered`).
pub(crate) fn kept_texts(
    alloc: Global,
    mut texts: Vec<String>,
    numbers: &NewNumbers,
) -> Result<Vec<String>>
    requires { AreNumbered (texts_of texts) numbers.now }
    ensures ok { IfOk result (λ kept. texts_of kept ≡ seen_texts (texts_of texts) numbers.now) }
    ensures memory { IsOkUnless result OutOfMemory }
{
    let mut kept = Vec::new(alloc);
    for id in &numbers.order {
        let id = *id as usize;
        if numbers.numbers[id] as usize == kept.len() {
            kept.push(take_text(alloc, &mut texts, id))?;
        }
    }
    Ok(kept)
}
