//! A hash table with open addressing. It finds the number of a text by the hash of the text. The
//! texts are in a list beside the table.
ghost use Rattle.std.specs.Prelude.{◌≡◌, ◌<◌, ◌≤◌, ◌+◌, ◌*◌, ◌++◌, ◌∷◌, ℕ, List, [], None, length, map, IfOk, IfSome};
ghost use Rattle.std.specs.Prelude.{OnOk, OnErr};
ghost use Rattle.sourcemap_interning.specs.Interner.{id_of};
ghost use Rattle.sourcemap_interning.specs.Slots.{IsProbed, IsTable, hash_of, start_of};

use crate::overflow::Overflow;
use crate::text::{Text, is_text};
use std::alloc::{AllocError, Global};
use std::hash::{FoldHasher, Hasher};

// The number of slots that a search reads at most.
const WINDOW: usize = 32;

// The value of `number` in a free slot. No text has this number.
const NO_NUMBER: u32 = 4294967295;

#[derive(Clone, Copy)]
pub(crate) struct Slot {
    hash: u32,
    number: u32,
}

// How a search for a hash ends.
#[derive(Clone, Copy)]
enum Probe {
    // at a free slot, which has this index
    Free(usize),
    // at a slot that has the hash, and this number
    Taken(u32),
    // after 32 slots, which all have other hashes
    Full,
}

// A search for a text starts at the slot that the hash of the text selects. It reads at most 32
// slots, and ends at the first slot that is free or has this hash. If this is the slot of another
// text, or if there is no such slot, the search goes on in `others`.
#[derive(Drop)]
pub(crate) struct NumberTable<T: Text> {
    slots: Vec<Slot>,
    // a search starts at the slot `hash & mask`
    mask: usize,
    // the number of texts whose search ended at the slot of another text, with the same hash
    collisions: usize,
    // the numbers of the texts that have no slot
    others: Overflow<T>,
}

impl<T: Text> NumberTable<T> {
    // An empty table. A search starts at one of the slots from 0 to `mask`, inclusive. `mask`
    // is bounded so that the number of slots cannot wrap.
    pub(crate) fn with_mask(alloc: Global, mask: usize) -> Result<Self, AllocError>
        requires { mask ≤ 4294967296 * 64 }
        ensures { IfOk result (λ table. IsTable T.bytes [] table) }
    {
        let none = Slot {
            hash: 0,
            number: NO_NUMBER,
        };
        Ok(NumberTable {
            slots: vec![in alloc; none; mask + WINDOW]?,
            mask,
            collisions: 0,
            others: Overflow::new(alloc),
        })
    }

    // The mask of a larger table for `count` texts. `None` as long as the number of texts without
    // the `collisions` is at most half of the mask: a collision has no slot in a larger table
    // either. But a larger table has to enter all texts again. So its mask is at least a quarter of
    // `count`, and the table grows at most three times until the number of texts has doubled.
    pub(crate) fn larger_mask(&self, count: usize) -> Option<usize>
        requires { count ≤ 4294967295 }
        ensures larger { IfSome result (λ mask. self.now.mask * 4 < mask) }
        ensures bound { IfSome result (λ mask. mask ≤ 4294967296 * 64) }
    {
        let hashes = count.saturating_sub(self.collisions);
        if hashes <= self.mask / 2 {
            return None;
        }
        let next = self.mask * 4 + 3;
        let least = (count / 4 + 1).next_power_of_two() - 1;
        Some(if next < least { least } else { next })
    }

    // The number of `text`, whose hash is `hash`. `None` if it is not one of `texts`.
    pub(crate) fn number(&self, texts: &[T], text: &str, hash: u32) -> Option<u32>
        requires table { IsTable T.bytes (map T.bytes texts.now) self.now }
        requires hash { hash ≡ hash_of text.now }
        ensures { result ≡ id_of text.now (map T.bytes texts.now) }
    {
        match self.probe(hash) {
            Probe::Free(_) => None,
            Probe::Taken(number) if is_text(texts, number, text) => Some(number),
            _ => self.others.number(texts, text),
        }
    }

    #[inline(always)]
    fn probe(&self, hash: u32) -> Probe
        requires { length self.now.slots.items ≡ self.now.mask + 32 }
        ensures { IsProbed self.now.slots.items hash (start_of self.now.mask hash) result }
    {
        let start = start_of(hash, self.mask);
        for step in 0..WINDOW {
            let slot = self.slots[start + step];
            if slot.number == NO_NUMBER {
                return Probe::Free(start + step);
            }
            if slot.hash == hash {
                return Probe::Taken(slot.number);
            }
        }
        Probe::Full
    }

    // Enters the next number for a new text, whose hash is `hash`. After an error the table has
    // the same texts as before.
    pub(crate) fn enter(
        &mut self,
        text: &T,
        hash: u32,
        number: u32,
        alloc: Global,
    ) -> Result<(), AllocError>
        requires long { length self.old.slots.items ≡ self.old.mask + 32 }
        requires hash { hash ≡ hash_of (T.bytes text.now) }
        requires few { number < 4294967295 }
        ensures entered { (texts : List (List ℕ)) → IsTable T.bytes texts self.old
            → length texts ≡ number → id_of (T.bytes text.now) texts ≡ None
            → OnOk result (IsTable T.bytes (texts ++ T.bytes text.now ∷ []) self.new) }
        ensures kept { (texts : List (List ℕ)) → IsTable T.bytes texts self.old
            → OnErr result (IsTable T.bytes texts self.new) }
    {
        match self.probe(hash) {
            Probe::Free(at) => {
                self.slots[at] = Slot { hash, number };
                Ok(())
            }
            Probe::Taken(_) => {
                self.others.enter(text, number, alloc)?;
                self.collisions = self.collisions.saturating_add(1);
                Ok(())
            }
            Probe::Full => self.others.enter(text, number, alloc),
        }
    }
}

// The upper 32 bits of a hash. The seed of `FoldHasher` is fixed, so texts with equal hashes are
// easy to construct. At most one of them gets a slot.
pub(crate) fn hash_of(text: &str) -> u32
    ensures { result ≡ hash_of text.now }
{
    let mut hasher = FoldHasher::default();
    hasher.write(text.as_bytes());
    (hasher.finish() >> 32) as u32
}

fn start_of(hash: u32, mask: usize) -> usize
    ensures start { result ≡ start_of mask hash }
    ensures within { result ≤ mask }
{
    hash as usize & mask
}
