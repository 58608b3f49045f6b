//! An index that assigns a number to each text, in the order in which the texts first occur.
ghost use Rattle.std.specs.Prelude.{◌≡◌, ◌<◌, ◌≤◌, ◌++◌, ◌∷◌, [], None, Some, length, map, is_some, IfOk, OnOk, OnErr};
ghost use Rattle.std.specs.Prelude.{IsOk, IsSome, IsOkUnless};
ghost use Rattle.sourcemap_interning.specs.Interner.{AreDistinct, id_of, with_text};
ghost use Rattle.sourcemap_interning.specs.Slots.{hash_of};
ghost use Rattle.sourcemap_errors.specs.declared.errors.Error.TheVariants.{OutOfMemory};

use crate::slots::{NumberTable, hash_of};
use crate::text::Text;
use sourcemap_errors::errors;
use std::alloc::{AllocError, Global};
use std::marker::Model;

// The mask of the table of a new index.
const FIRST_MASK: usize = 31;

/// Texts that are numbered in the order in which they first occur. A search starts at the slot that
/// the hash of the text selects. It reads at most 32 slots, and ends at the first slot that is free
/// or has this hash. A text without a slot is found by its SipHash. If an earlier text without a
/// slot has the same SipHash, it is found in a tree of texts. So n texts take at most some n log n
/// comparisons, even if their hashes collide.
#[derive(Drop)]
pub struct TextIndex<T: Text> {
    // the texts, by number
    texts: Vec<T>,
    table: NumberTable<T>,
}

impl<T: Text> Model for TextIndex<T> {
    ghost use Rattle.std.specs.Prelude.{ℕ, List, map};
    ghost use Rattle.sourcemap_interning.specs.Slots.{IsTable};

    ghost Value = { List (List ℕ) };

    ghost view = { λ i. map T.bytes i.texts.items };

    ghost invariant = { λ i. IsTable T.bytes (map T.bytes i.texts.items) i.table };
}

impl<T: Text> TextIndex<T> {
    /// An empty index. The only error is `OutOfMemory`.
    pub fn new(alloc: Global) -> errors::Result<Self>
        ensures ok { IfOk result (λ index. index ≡ []) }
        ensures memory { IsOkUnless result OutOfMemory }
    {
        let table = NumberTable::with_mask(alloc, FIRST_MASK)?;
        Ok(TextIndex {
            texts: Vec::new(alloc),
            table,
        })
    }

    /// The number of texts.
    pub fn len(&self) -> usize
        ensures count { result ≡ length self.now }
        ensures few { result ≤ 4294967295 }
        ensures distinct { AreDistinct self.now }
    {
        self.texts.len()
    }

    /// The texts in order of their numbers.
    pub fn as_slice(&self) -> &[T]
        ensures texts { map T.bytes result.now ≡ self.now }
        ensures few { length result.now ≤ 4294967295 }
    {
        self.texts.as_slice()
    }

    /// The texts in order of their numbers, moved out without a copy.
    pub fn into_texts(self) -> Vec<T>
        ensures texts { map T.bytes result.items ≡ self }
        ensures distinct { AreDistinct self }
    {
        let TextIndex { texts, .. } = self;
        texts
    }

    /// Whether the text has a number.
    pub fn contains(&self, text: &str) -> bool
        ensures { result ≡ is_some (id_of text.now self.now) }
    {
        self.find(text, hash_of(text)).is_some()
    }

    /// Returns the number of a text. A new text gets the next number; before it is added, there
    /// must be fewer than 4294967295 texts. The only error is `OutOfMemory`, and only for a new
    /// text. An error leaves the index unchanged.
    pub fn number_of(&mut self, text: T) -> errors::Result<u32>
        requires few { id_of (T.bytes text) self.old ≡ None → length self.old < 4294967295 }
        ensures number { IfOk result (λ number. id_of (T.bytes text) self.new ≡ Some number) }
        ensures texts { OnOk result (self.new ≡ with_text self.old (T.bytes text)) }
        ensures unchanged { OnErr result (self.new ≡ self.old) }
        ensures memory { IsOkUnless result OutOfMemory }
        ensures existing { IsSome (id_of (T.bytes text) self.old) → IsOk result }
    {
        let hash = hash_of(text.as_text());
        if let Some(number) = self.find(text.as_text(), hash) {
            return Ok(number);
        }
        let number = self.append(text, hash)?;
        Ok(number)
    }

    // The number of a text, whose hash is `hash`. `None` if it has no number.
    pub(crate) fn find(&self, text: &str, hash: u32) -> Option<u32>
        requires { hash ≡ hash_of text.now }
        ensures { result ≡ id_of text.now self.now }
    {
        self.table.number(self.texts.as_slice(), text, hash)
    }

    // Adds a new text, whose hash is `hash`, under the next number, and returns this number. An
    // error leaves the index unchanged.
    pub(crate) fn append(&mut self, text: T, hash: u32) -> Result<u32, AllocError>
        requires hash { hash ≡ hash_of (T.bytes text) }
        requires new { id_of (T.bytes text) self.old ≡ None }
        requires few { length self.old < 4294967295 }
        ensures number { IfOk result (λ number. number ≡ length self.old) }
        ensures index { IfOk result (λ number. id_of (T.bytes text) self.new ≡ Some number) }
        ensures texts { OnOk result (self.new ≡ self.old ++ T.bytes text ∷ []) }
        ensures unchanged { OnErr result (self.new ≡ self.old) }
    {
        self.grow()?;
        let alloc = *self.texts.allocator();
        // so that the push below cannot fail
        self.texts.reserve(1)?;
        let number = self.texts.len() as u32;
        self.table.enter(&text, hash, number, alloc)?;
        self.texts.push(text)?;
        Ok(number)
    }

    // Makes the larger table that `larger_mask` asks for, if any. The texts and their numbers stay
    // the same, also after an error.
    fn grow(&mut self) -> Result<(), AllocError>
        ensures { self.new ≡ self.old }
    {
        let Some(mask) = self.table.larger_mask(self.texts.len()) else {
            return Ok(());
        };
        let alloc = *self.texts.allocator();
        let mut larger = NumberTable::with_mask(alloc, mask)?;
        for (number, text) in self.texts.iter().enumerate() {
            larger.enter(text, hash_of(text.as_text()), number as u32, alloc)?;
        }
        self.table = larger;
        Ok(())
    }
}
