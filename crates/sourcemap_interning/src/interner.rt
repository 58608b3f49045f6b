//! Interned strings: equal strings have the same id.
ghost use Rattle.std.specs.Prelude.{◌≡◌, ◌≤◌, [], Some, Err, ◌==◌, map, length, IsOk, IsSome, IfOk, OnOk, OnErr};
ghost use Rattle.std.specs.Prelude.{option_map, slice_get, string_bytes};
ghost use Rattle.sourcemap_errors.specs.Answer.{Gives};
ghost use Rattle.sourcemap_interning.specs.Interner.{id_of, AreDistinct, with_text, id_for};
ghost use Rattle.sourcemap_errors.specs.declared.errors.Error.TheVariants.{IncompatibleSourceMap};

use crate::slots::hash_of;
use crate::text_index::TextIndex;
use sourcemap_errors::errors::{Error, Result};
use std::alloc::Global;
use std::marker::Model;

// The maximum number of strings.
const MOST: usize = 4294967295;

/// Distinct strings, each with an id. Ids count from 0, in the order of the first `add`.
#[derive(Drop)]
pub struct Interner {
    alloc: Global,
    // `None` until the first string is added
    index: Option<TextIndex<String>>,
}

impl Model for Interner {
    ghost use Rattle.std.specs.Prelude.{ℕ, List};
    ghost use Rattle.sourcemap_interning.specs.Interner.{texts_of};

    ghost Value = { List (List ℕ) };

    ghost view = { λ i. texts_of i.index };
}

impl Interner {
    /// Returns an empty interner. This call does not allocate. Later calls allocate with `alloc`.
    pub fn new(alloc: Global) -> Interner
        ensures { result ≡ [] }
    {
        Interner { alloc, index: None }
    }

    /// Returns the id of `text`. A new string is added under the next id. Only a new string
    /// allocates. The error is `IncompatibleSourceMap` if the string is new and there are
    /// 4294967295 strings already. Any other error is `OutOfMemory`. An error leaves the interner
    /// unchanged.
    pub fn add(&mut self, text: &str) -> Result<u32>
        ensures id { Gives (λ id. id) result (id_for self.old text.now) }
        ensures texts { OnOk result (self.new ≡ with_text self.old text.now) }
        ensures unchanged { OnErr result (self.new ≡ self.old) }
        // equal strings have equal ids, and `get` of the id returns the string
        ensures index { IfOk result (λ id. id_of text.now self.new ≡ Some id) }
        ensures text { IfOk result (λ id. slice_get self.new id ≡ Some text.now) }
        // an existing string causes no error. If no id is left, a new string always causes
        // `IncompatibleSourceMap`
        ensures existing { IsSome (id_of text.now self.old) → IsOk result }
        ensures full { id_for self.old text.now ≡ Err IncompatibleSourceMap
            → result ≡ Err IncompatibleSourceMap }
    {
        if let Some(index) = &mut self.index {
            return add_to(index, text, self.alloc);
        }
        let mut index = TextIndex::new(self.alloc)?;
        let id = add_to(&mut index, text, self.alloc)?;
        self.index = Some(index);
        Ok(id)
    }

    /// The string with this id, or `None` if no string has this id.
    pub fn get(&self, id: u32) -> Option<&str>
        ensures text { option_map (λ text. text.now) result ≡ slice_get self.now id }
    {
        match self.as_slice().get(id as usize) {
            Some(text) => Some(text.as_str()),
            None => None,
        }
    }

    /// The number of strings.
    pub fn len(&self) -> u32
        ensures count { result ≡ length self.now }
        ensures distinct { AreDistinct self.now }
    {
        match &self.index {
            Some(index) => index.len() as u32,
            None => 0,
        }
    }

    /// Whether there are no strings.
    pub fn is_empty(&self) -> bool
        ensures { result ≡ (length self.now == 0) }
    {
        self.len() == 0
    }

    /// The strings in order of their ids.
    pub fn as_slice(&self) -> &[String]
        ensures texts { map string_bytes result.now ≡ self.now }
        ensures few { length result.now ≤ 4294967295 }
    {
        match &self.index {
            Some(index) => index.as_slice(),
            None => &[],
        }
    }

    /// The strings in order of their ids, moved out without a copy.
    pub fn into_texts(self) -> Vec<String>
        ensures texts { map string_bytes result.items ≡ self }
        ensures distinct { AreDistinct self }
    {
        let Interner { alloc, index } = self;
        match index {
            Some(index) => index.into_texts(),
            None => Vec::new(alloc),
        }
    }
}

// `Interner::add`, once there is an index.
fn add_to(index: &mut TextIndex<String>, text: &str, alloc: Global) -> Result<u32>
    ensures id { Gives (λ id. id) result (id_for index.old text.now) }
    ensures texts { OnOk result (index.new ≡ with_text index.old text.now) }
    ensures unchanged { OnErr result (index.new ≡ index.old) }
    ensures index { IfOk result (λ id. id_of text.now index.new ≡ Some id) }
    ensures text { IfOk result (λ id. slice_get index.new id ≡ Some text.now) }
    ensures existing { IsSome (id_of text.now index.old) → IsOk result }
    ensures full { id_for index.old text.now ≡ Err IncompatibleSourceMap
        → result ≡ Err IncompatibleSourceMap }
{
    let hash = hash_of(text);
    if let Some(id) = index.find(text, hash) {
        return Ok(id);
    }
    if index.len() >= MOST {
        return Err(Error::IncompatibleSourceMap);
    }
    let kept = String::from_str(alloc, text)?;
    let id = index.append(kept, hash)?;
    Ok(id)
}
