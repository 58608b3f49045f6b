//! `adjust_mappings`: adjusts a map to a later version of its generated text.
ghost use Rattle.std.specs.Prelude.{◌≡◌, ℕ, ◌≤◌, ◌+◌, OnErr, OnOk, length};
ghost use Rattle.sourcemap_errors.specs.Answer.{Gives};
ghost use Rattle.sourcemap_compose.specs.declared.stretches.Stretch.{Stretch};
ghost use Rattle.sourcemap_compose.specs.Composition.{moved};
ghost use Rattle.sourcemap_compose.specs.Moved.{IsMovedAlone};
ghost use Rattle.sourcemap_map_regular.specs.Adjust.{adjusted};
ghost use Rattle.sourcemap_map_regular.specs.Map.{IsWellFormed, meaning};

use crate::map::SourceMap;
use sourcemap_compose::composition::compose;
use sourcemap_errors::errors::Result;
use sourcemap_line_index::token_list::TokenList;

impl SourceMap {
    /// Adjusts the map to a later version of its generated text: `adjustment` maps the later text
    /// to the text that this map describes. The new tokens have generated positions in the later
    /// text. All other parts are unchanged, and sources and names of `adjustment` are ignored. The
    /// errors are `IncompatibleSourceMap` if a token moves beyond column 4294967295, and
    /// `OutOfMemory`. An error leaves the map unchanged.
    ///
    /// Each token of `adjustment` moves a stretch of the text that this map describes. The stretch
    /// begins at the original position of the token. The stretch ends before the original position
    /// of the next token, in the order of original positions, or before column 4294967295 of the
    /// line on which the stretch begins, whichever comes first. The start of the stretch moves to
    /// the generated position of the token.
    ///
    /// Each old token covers the text from its generated position up to the next token on the line,
    /// or up to column 4294967295 of the line. No stretch and no old token covers column 4294967295
    /// itself. For each overlap of a stretch with the text of an old token, one new token comes
    /// from the stretch. The new token begins at the moved start of the overlap. An empty stretch
    /// or an empty text overlaps exactly what begins before it and ends after it.
    ///
    /// Suppose that a stretch moves the position `p` to the position `q`. A lookup of `q` in the
    /// new map gives the same source, original position, name and range flag as a lookup of `p` in
    /// the old map, if all of this holds:
    ///
    /// - The call succeeds.
    /// - The old map is well-formed, and no two of its tokens have the same generated position.
    /// - The lookup of `p` in the old map finds a token on the line of `p`.
    /// - Every new token at a generated position from the moved start of this stretch to `q`, both
    ///   included, comes from this stretch.
    pub fn adjust_mappings(&mut self, adjustment: &SourceMap) -> Result<()>
        ensures value { Gives (λ _. self.new) result (adjusted self.old adjustment.now) }
        ensures unchanged { OnErr result (self.new ≡ self.old) }
        ensures well_formed { IsWellFormed self.old → IsWellFormed self.new }
        ensures few { OnOk result (length self.new.tokens
            ≤ length self.old.tokens + length adjustment.now.tokens) }
        ensures meaning { (a : Stretch) (q : ℕ × ℕ) → IsWellFormed self.old
            → IsMovedAlone self.old.tokens adjustment.now.tokens a q
            → OnOk result (meaning self.new (moved a q) ≡ meaning self.old q) }
    {
        // prover: there are at most 4294967295 sources
        let _ = self.sources.len();
        let alloc = self.allocator();
        let tokens = compose(alloc, self.tokens.as_slice(), adjustment.tokens.as_slice())?;
        let list = TokenList::of_sorted(tokens)?;
        self.tokens = list;
        Ok(())
    }
}
