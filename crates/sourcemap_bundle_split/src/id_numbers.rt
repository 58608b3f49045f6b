//! A table that numbers ids in the order of first use.
ghost use Rattle.std.specs.Prelude.{◌≡◌, ◌<◌, ◌≤◌, All, Ok, IfOk, OnErr, OnOk, IsOkUnless, Some, length, slice_get};
ghost use Rattle.std.specs.Prelude.{unwrap_or};
ghost use Rattle.std.specs.Bool.{Decides};
ghost use Rattle.sourcemap_errors.specs.Answer.{Gives};
ghost use Rattle.sourcemap_errors.specs.declared.errors.Error.TheVariants.{OutOfMemory};
ghost use Rattle.sourcemap_tokens.specs.Tokens.{no_id};
ghost use Rattle.sourcemap_bundle_split.specs.ModuleMap.{number_of};

use sourcemap_errors::errors::Result;
use sourcemap_tokens::tokens::NO_ID;
use std::alloc::Global;
use std::marker::Model;

/// A table that numbers the ids of a list of items. An id that is used for the first time gets the
/// next number, from 0 on.
#[derive(Drop)]
pub(crate) struct IdNumbers {
    // Let `n` be `numbers[id]`. If `order` has `id` at index `n`, then `n` is the number of `id`.
    // Otherwise `id` has no number, and `n` means nothing. So `clear` only empties `order`.
    numbers: Vec<u32>,
    // the ids that have a number, in the order of their numbers
    order: Vec<u32>,
}

impl Model for IdNumbers {
    ghost use Rattle.sourcemap_bundle_split.specs.Numbers.{NumbersValue, numbers_in, AreNumbers};

    ghost Value = { NumbersValue };

    ghost view = { numbers_in };

    ghost invariant = { AreNumbers };
}

impl IdNumbers {
    ghost use Rattle.sourcemap_bundle_split.specs.Numbers.{none_of, with_number};

    /// Returns a table that can number the ids of `count` items. No id has a number yet. The only
    /// error is `OutOfMemory`.
    pub(crate) fn new(alloc: Global, count: usize) -> Result<Self>
        requires { count ≤ 4294967295 }
        ensures { Gives (λ n. n) result (Ok (none_of count)) }
    {
        Ok(IdNumbers {
            numbers: vec![in alloc; 0; count]?,
            order: Vec::new(alloc),
        })
    }

    /// Removes the numbers of all ids.
    pub(crate) fn clear(&mut self)
        ensures { self.new ≡ none_of self.old.count }
    {
        self.order.clear();
    }

    /// Returns the number of an id, or `NO_ID` if the id is not below the count of items. An id
    /// below this count that has no number gets the next number. The only error is `OutOfMemory`,
    /// and then nothing changes.
    pub(crate) fn number(&mut self, id: u32) -> Result<u32>
        ensures ids { OnOk result (self.new ≡ with_number self.old id) }
        ensures number { IfOk result (λ n. n ≡ unwrap_or (number_of self.new.ids id) no_id) }
        ensures unchanged { OnErr result (self.new ≡ self.old) }
        ensures memory { IsOkUnless result OutOfMemory }
    {
        let slot = id as usize;
        if slot >= self.numbers.len() {
            return Ok(NO_ID);
        }
        let number = self.numbers[slot];
        if is_at(&self.order, number as usize, id) {
            return Ok(number);
        }
        let number = self.order.len() as u32;
        self.order.push(id)?;
        self.numbers[slot] = number;
        Ok(number)
    }

    /// Returns the ids that have a number, in the order of their numbers.
    pub(crate) fn ids(&self) -> &[u32]
        ensures ids { result.now ≡ self.now.ids }
        ensures below { All (λ id. id < self.now.count) result.now }
        ensures few { length result.now ≤ 4294967295 }
    {
        self.order.as_slice()
    }
}

fn is_at(ids: &[u32], index: usize, id: u32) -> bool
    ensures { Decides result (slice_get ids.now index ≡ Some id) }
{
    match ids.get(index) {
        Some(known) => *known == id,
        None => false,
    }
}
