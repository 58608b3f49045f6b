//! The search for the token closest to a position.
ghost use Rattle.std.specs.Prelude.{◌≡◌, ◌≤◌, ◌<◌, ◌-◌, ◌/◌, ◌^◌, IfSome, MatchOption, option_map};
ghost use Rattle.sourcemap_tokens.specs.Tokens.{closest_token};
ghost use Rattle.sourcemap_compiled.specs.Blocks.{compiled_token, compiled_tokens, start_at};
ghost use Rattle.sourcemap_compiled.specs.Layout.{block_count, token_count};
ghost use Rattle.sourcemap_compiled.specs.Lookup.{IsFirstAt, IsInOrder, IsNextTo, StartsAfter, position_of};
ghost use Rattle.sourcemap_compiled.specs.Numbers.{position_number};

use crate::blocks::{BLOCK_SIZE, Bracket, position_number};
use crate::map::CompiledMap;

impl CompiledMap<'_> {
    ghost use Rattle.sourcemap_compiled.specs.Stored.{IsNear, bytes_of};

    /// Returns the index of the token closest to a position, if there is one, and the position of
    /// that token. If the tokens are not in order, returns those of some token next to the
    /// position, or `None`.
    #[inline(always)]
    pub(crate) fn closest_index(&self, line: u32, column: u32) -> Option<(usize, u64)>
        ensures closest { IsInOrder (bytes_of self.now)
            → option_map (λ found. (found.0, compiled_token (bytes_of self.now) found.0)) result
            ≡ closest_token (compiled_tokens (bytes_of self.now)) (line, column) }
        ensures next { MatchOption result (StartsAfter (bytes_of self.now) (position_number (line, column)))
            (λ found. IsNextTo (bytes_of self.now) (position_number (line, column)) found.0) }
        ensures position { IfSome result (λ found. found.1 ≡ position_of (bytes_of self.now) found.0) }
    {
        let position = position_number(line, column);
        let found = self.search(position);
        if found.index < self.token_count() as usize {
            if found.next == position {
                return Some((found.index, position));
            }
        }
        let Some(index) = found.index.checked_sub(1) else {
            return None;
        };
        Some((index, self.exact_position(index, position, found.ahead)))
    }

    /// Returns the generated position of a token, for which a search for a position found this
    /// position.
    #[inline(always)]
    fn exact_position(&self, index: usize, position: u64, near: u64) -> u64
        requires within { index < token_count (bytes_of self.now) }
        requires near { IsNear (position_of (bytes_of self.now) index) (position / 2 ^ 32) near }
        ensures { result ≡ position_of (bytes_of self.now) index }
    {
        if near >> 32 == position >> 32 {
            near
        } else {
            self.position(index)
        }
    }

    /// Searches for a token at or after a position, where the token ahead of it is before the
    /// position. Returns its index with both positions. If all tokens are before the position, the
    /// index is the number of tokens. If the tokens are in order, it is that of the first token at
    /// or after the position.
    #[inline(always)]
    fn search(&self, position: u64) -> Bracket
        ensures index { IsFirstAt (bytes_of self.now) position result.index }
        ensures ahead { 0 < result.index
            → IsNear (position_of (bytes_of self.now) (result.index - 1)) (position / 2 ^ 32) result.ahead }
        ensures next { result.index < token_count (bytes_of self.now)
            → IsNear (position_of (bytes_of self.now) result.index) (position / 2 ^ 32) result.next }
    {
        let first_block = self.first_block(position);
        let next = self.start_or_zero(first_block);
        let Some(block) = first_block.checked_sub(1) else {
            return Bracket {
                index: 0,
                ahead: 0,
                next,
            };
        };
        let first = BLOCK_SIZE * block;
        let size = (self.token_count() as usize - first).min(BLOCK_SIZE);
        let found = self.block(block).search(size, position, next);
        Bracket {
            index: first + found.index,
            ..found
        }
    }

    /// Returns the number of the first block that starts at or after a position, or the number of
    /// blocks. If the starts are not in order, the block before is before the position, and this
    /// one is not.
    #[inline(always)]
    fn first_block(&self, position: u64) -> usize
        ensures within { result ≤ block_count (bytes_of self.now) }
        ensures before { 0 < result → start_at (bytes_of self.now) (result - 1) < position }
        ensures from { result < block_count (bytes_of self.now)
            → position ≤ start_at (bytes_of self.now) result }
    {
        let mut low = 0;
        let mut high = self.block_count();
        while low < high {
            let middle = (low + high) / 2;
            if self.start(middle) < position {
                low = middle + 1;
            } else {
                high = middle;
            }
        }
        low
    }
}
