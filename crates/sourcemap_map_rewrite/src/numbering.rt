//! Assigns new numbers to texts in the order of first use.
ghost use Rattle.std.specs.Prelude.{◌≡◌, ◌<◌, ◌≤◌, None, [], length, map, slice_get, string_bytes, vec_len, replicate};
ghost use Rattle.std.specs.Prelude.{IfOk, OnOk, IsOkUnless};
ghost use Rattle.sourcemap_interning.specs.Interner.{id_of};
ghost use Rattle.sourcemap_tokens.specs.Tokens.{no_id};
ghost use Rattle.sourcemap_errors.specs.declared.errors.Error.TheVariants.{OutOfMemory};
ghost use Rattle.sourcemap_map_rewrite.specs.Kept.{number_in};
ghost use Rattle.sourcemap_map_rewrite.specs.Numbering.{IsNumbering, NumbersMore, Assigns, seen_texts};

use sourcemap_errors::errors::Result;
use sourcemap_interning::text_index::TextIndex;
use sourcemap_tokens::tokens::NO_ID;
use std::alloc::Global;

#[derive(Drop)]
pub(crate) struct NewNumbers {
    // the new number of each old number; `NO_ID` if the old number was not seen
    pub(crate) numbers: Vec<u32>,
    // the old numbers that were seen, in order of first use
    pub(crate) order: Vec<u32>,
}

// Assigns new numbers in the order of first use. Equal texts get one number. The first use of an
// old number looks up its text in `ids`. Later uses find its new number in `seen`.
#[derive(Drop)]
pub(crate) struct Numbering<'a> {
    pub(crate) seen: NewNumbers,
    // the texts in use, by new number
    ids: TextIndex<&'a str>,
}

impl<'a> Numbering<'a> {
    // A numbering of `count` texts, none of which was used yet.
    pub(crate) fn new(alloc: Global, count: usize) -> Result<Self>
        ensures numbers { IfOk result (λ n. n.seen.numbers.items ≡ replicate count no_id) }
        ensures order { IfOk result (λ n. n.seen.order.items ≡ []) }
        ensures ids { IfOk result (λ n. n.ids ≡ []) }
        ensures memory { IsOkUnless result OutOfMemory }
    {
        Ok(Numbering {
            seen: NewNumbers {
                numbers: vec![in alloc; NO_ID; count]?,
                order: Vec::new(alloc),
            },
            ids: TextIndex::new(alloc)?,
        })
    }

    // Returns `NO_ID` if `id` is not an index of `texts`. Otherwise returns the new number of the
    // old number `id`. If `id` has no new number yet, first assigns a number to `id` (see
    // `assign`). Each token takes this path twice, so it stays small and in the caller's loop.
    #[inline(always)]
    pub(crate) fn number(&mut self, texts: &'a [String], id: u32) -> Result<u32>
        requires few { length texts.now ≤ 4294967295 }
        requires numbering { IsNumbering (map string_bytes texts.now) self.old }
        ensures number { IfOk result (λ n. n
            ≡ number_in (seen_texts (map string_bytes texts.now) self.new.seen)
            (slice_get (map string_bytes texts.now) id)) }
        ensures more { OnOk result
            (NumbersMore (map string_bytes texts.now) id self.old.seen self.new.seen) }
        ensures numbering { OnOk result (IsNumbering (map string_bytes texts.now) self.new) }
        ensures memory { IsOkUnless result OutOfMemory }
    {
        let index = id as usize;
        if index >= texts.len() {
            return Ok(NO_ID);
        }
        let existing = self.seen.numbers[index];
        if existing != NO_ID {
            return Ok(existing);
        }
        // prover: `?` on its own line
        let number = self.assign(texts[index].as_str(), id)?;
        Ok(number)
    }

    // Returns the number of `text` in `ids`. If `ids` lacks `text`, first appends `text` to `ids`.
    // Sets `numbers[id]` to the returned number, and appends `id` to `order`. The caller checks
    // beforehand that `id` has no new number yet. The old number `id` must be below the length of
    // `numbers`. If `ids` lacks `text`, `ids` must have fewer than 4294967295 texts. The only error
    // is `OutOfMemory`.
    #[inline(never)]
    fn assign(&mut self, text: &'a str, id: u32) -> Result<u32>
        requires within { id < vec_len self.old.seen.numbers }
        requires below_max { id_of text.now self.old.ids ≡ None → length self.old.ids < 4294967295 }
        ensures seen { IfOk result (λ number. Assigns text.now id number self.old self.new) }
        ensures memory { IsOkUnless result OutOfMemory }
    {
        let number = self.ids.number_of(text)?;
        self.seen.order.push(id)?;
        self.seen.numbers[id as usize] = number;
        Ok(number)
    }
}
