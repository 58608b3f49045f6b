//! The numbers of the texts that have no slot in a `NumberTable`.
ghost use Rattle.std.specs.Prelude.{◌≡◌, ◌++◌, ◌∷◌, ℕ, List, [], None, Some, cond, length, map, OnOk, OnErr};
ghost use Rattle.std.specs.BTreeMap.{get};
ghost use Rattle.std.specs.Ordering.{nat_cmp};
ghost use Rattle.std.specs.Str.{bytes_eq};
ghost use Rattle.sourcemap_interning.specs.Interner.{AreDistinct, id_of};
ghost use Rattle.sourcemap_interning.specs.Overflow.{number_among, sip_hash_of};

use crate::text::{Text, is_text};
use std::alloc::{AllocError, Global};
use std::collections::BTreeMap;
use std::hash::{DefaultHasher, Hasher};

// A text has no slot if an earlier text has the same hash, or if its 32 slots have other hashes.
// Texts with equal hashes by `FoldHasher` are easy to construct. We know of no easy way to construct
// many texts that all have one SipHash. So a tree finds a text by its SipHash, and has no copy of
// the text. A second tree, of texts, keeps the bound even if such texts are found.
#[derive(Drop)]
pub(crate) struct Overflow<T: Text> {
    // for each SipHash, the number of the first text without a slot that has it
    firsts: BTreeMap<u64, u32>,
    // the numbers of all other texts: an earlier text without a slot has the same SipHash
    rest: BTreeMap<T, u32>,
}

impl<T: Text> Overflow<T> {
    // An overflow without texts. This call does not allocate.
    pub(crate) fn new(alloc: Global) -> Self
        ensures { (texts : List (List ℕ)) (text : List ℕ)
            → number_among T.bytes texts result text ≡ None }
    {
        Overflow {
            firsts: BTreeMap::new(alloc),
            rest: BTreeMap::new(alloc),
        }
    }

    // The number of `text`, or `None`. `texts` has each text that was entered, at its number.
    #[inline(never)]
    pub(crate) fn number(&self, texts: &[T], text: &str) -> Option<u32>
        ensures { result ≡ number_among T.bytes (map T.bytes texts.now) self.now text.now }
    {
        match self.firsts.get(&sip_hash_of(text)).copied() {
            Some(first) if is_text(texts, first, text) => Some(first),
            _ => T::number_in(&self.rest, text),
        }
    }

    // Enters the next number for a new text. After an error all texts have the numbers that they
    // had.
    #[inline(never)]
    pub(crate) fn enter(&mut self, text: &T, number: u32, alloc: Global) -> Result<(), AllocError>
        ensures entered { (texts : List (List ℕ)) → length texts ≡ number → AreDistinct texts
            → id_of (T.bytes text.now) texts ≡ None
            → (other : List ℕ)
            → OnOk result (number_among T.bytes (texts ++ T.bytes text.now ∷ []) self.new other
            ≡ cond (bytes_eq (T.bytes text.now) other) (Some number)
            (number_among T.bytes texts self.old other)) }
        ensures kept { (texts : List (List ℕ)) (other : List ℕ)
            → OnErr result (number_among T.bytes texts self.new other
            ≡ number_among T.bytes texts self.old other) }
        ensures first { get nat_cmp self.old.firsts (sip_hash_of (T.bytes text.now)) ≡ None
            → self.new.rest ≡ self.old.rest }
    {
        let hash = sip_hash_of(text.as_text());
        if self.firsts.contains_key(&hash) {
            return text.insert_into(&mut self.rest, number, alloc);
        }
        self.firsts.insert(hash, number)?;
        Ok(())
    }
}

fn sip_hash_of(text: &str) -> u64
    ensures { result ≡ sip_hash_of text.now }
{
    let mut hasher = DefaultHasher::new();
    hasher.write(text.as_bytes());
    hasher.finish()
}
