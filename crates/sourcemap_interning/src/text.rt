//! The texts that an index keeps: strings of its own, or slices that it borrows.
ghost use Rattle.std.specs.Prelude.{◌≡◌, ℕ, List, Some, cond, if◌then◌else◌, is_ok, map, slice_get};
ghost use Rattle.std.specs.Str.{bytes_eq};
ghost use Rattle.sourcemap_interning.specs.Texts.{is_text, number_in_tree};

use std::alloc::{AllocError, Global};
use std::collections::BTreeMap;

/// A text that a `TextIndex` can keep. This crate implements it for `String` and `&str`.
pub trait Text: Ord + Drop {
    // The bytes of the text.
    ghost bytes: { Self → List ℕ };

    /// The text.
    fn as_text(&self) -> &str
        ensures { result.now ≡ bytes self.now };

    /// The number that `tree` has for `text`, or `None`.
    fn number_in(tree: &BTreeMap<Self, u32>, text: &str) -> Option<u32>
        ensures { result ≡ number_in_tree bytes tree.now text.now };

    /// Stores `number` for this text in `tree`. The key is a copy of a `String`, or the `&str`
    /// itself. All other texts keep their numbers. After an error all texts do.
    fn insert_into(
        &self,
        tree: &mut BTreeMap<Self, u32>,
        number: u32,
        alloc: Global,
    ) -> Result<(), AllocError>
        ensures { (other : List ℕ) → number_in_tree bytes tree.new other
            ≡ (if is_ok result
            then cond (bytes_eq (bytes self.now) other) (Some number)
            (number_in_tree bytes tree.old other)
            else number_in_tree bytes tree.old other) };
}

impl<'a> Text for &'a str {
    ghost bytes = { λ text. text.now };

    fn as_text(&self) -> &str {
        *self
    }

    fn number_in(tree: &BTreeMap<&'a str, u32>, text: &str) -> Option<u32> {
        tree.get(text).copied()
    }

    fn insert_into(
        &self,
        tree: &mut BTreeMap<&'a str, u32>,
        number: u32,
        _: Global,
    ) -> Result<(), AllocError> {
        tree.insert(*self, number)?;
        Ok(())
    }
}

impl Text for String {
    ghost use Rattle.std.specs.Prelude.{string_bytes};

    ghost bytes = { string_bytes };

    fn as_text(&self) -> &str {
        self.as_str()
    }

    fn number_in(tree: &BTreeMap<String, u32>, text: &str) -> Option<u32> {
        tree.get(text).copied()
    }

    fn insert_into(
        &self,
        tree: &mut BTreeMap<String, u32>,
        number: u32,
        alloc: Global,
    ) -> Result<(), AllocError> {
        let key = String::from_str(alloc, self.as_str())?;
        tree.insert(key, number)?;
        Ok(())
    }
}

// Whether `texts` has `text` at this number.
pub(crate) fn is_text<T: Text>(texts: &[T], number: u32, text: &str) -> bool
    ensures { result ≡ is_text text.now (slice_get (map T.bytes texts.now) number) }
{
    match texts.get(number as usize) {
        Some(other) => other.as_text() == text,
        None => false,
    }
}
