//! The tokens of a compiled map, by index and by position.
ghost use Rattle.std.specs.Prelude.{◌≡◌, ◌<◌, IfSome, MatchOption, option_map};
ghost use Rattle.sourcemap_compose.specs.Moved.{distance};
ghost use Rattle.sourcemap_compiled.specs.Lookup.{IsInOrder, IsNextTo, StartsAfter, answer_by, compiled_meaning};
ghost use Rattle.sourcemap_compiled.specs.Layout.{token_count};
ghost use Rattle.sourcemap_compiled.specs.Lookup.{lookup, position_of, token_at};
ghost use Rattle.sourcemap_compiled.specs.Numbers.{position_number};

use crate::map::CompiledMap;
use crate::token::CompiledToken;
use sourcemap_tokens::tokens::RawToken;

impl<'a> CompiledMap<'a> {
    ghost use Rattle.sourcemap_compiled.specs.Stored.{bytes_of, meaning_of_token, token_value};

    /// The token with this index; `None` after the last token. Indices count from 0, in order of
    /// generated position if the file is in order.
    pub fn get_token(&self, index: usize) -> Option<CompiledToken<'a>>
        ensures { option_map token_value result ≡ token_at (bytes_of self.now) index }
    {
        if index >= self.token_count() as usize {
            return None;
        }
        Some(CompiledToken {
            map: *self,
            raw: self.token(index, self.position(index)),
            index,
            extra_columns: 0,
        })
    }

    /// The token closest to a generated position: the first token at the position, otherwise the
    /// last token before the position, even if this token is on an earlier line. `None` if all
    /// tokens are after the position. If the token is a range token on the line of the position,
    /// `get_src_col` of the token returns the original column plus the number of columns from the
    /// token to the position, but at most 4294967295.
    ///
    /// This holds if the file is in order, as `compile` writes it. `parse` does not look at the
    /// order. In a file out of order, the result is a token at the position, with the token ahead of
    /// it elsewhere, or a token before the position, with the next token after it; `None` only if
    /// the first token is after the position.
    pub fn lookup_token(&self, line: u32, column: u32) -> Option<CompiledToken<'a>>
        ensures value { IsInOrder (bytes_of self.now)
            → option_map token_value result ≡ lookup (bytes_of self.now) (line, column) }
        ensures meaning { IsInOrder (bytes_of self.now)
            → option_map meaning_of_token result ≡ compiled_meaning (bytes_of self.now) (line, column) }
        ensures own { IfSome result
            (λ found. token_value found ≡ answer_by (bytes_of self.now) (line, column) found.index) }
        ensures next { MatchOption result (StartsAfter (bytes_of self.now) (position_number (line, column)))
            (λ found. IsNextTo (bytes_of self.now) (position_number (line, column)) found.index) }
    {
        let (index, position) = self.closest_index(line, column)?;
        Some(self.answer(index, position, line, column))
    }

    /// As `lookup_token`, for one loop over many positions: where a program calls it once, its code
    /// becomes part of the loop.
    // A call would write its result to memory, for its caller to read.
    pub fn lookup_token_in_loop(&self, line: u32, column: u32) -> Option<CompiledToken<'a>>
        ensures value { IsInOrder (bytes_of self.now)
            → option_map token_value result ≡ lookup (bytes_of self.now) (line, column) }
        ensures meaning { IsInOrder (bytes_of self.now)
            → option_map meaning_of_token result ≡ compiled_meaning (bytes_of self.now) (line, column) }
        ensures own { IfSome result
            (λ found. token_value found ≡ answer_by (bytes_of self.now) (line, column) found.index) }
        ensures next { MatchOption result (StartsAfter (bytes_of self.now) (position_number (line, column)))
            (λ found. IsNextTo (bytes_of self.now) (position_number (line, column)) found.index) }
    {
        let (index, position) = self.closest_index(line, column)?;
        Some(self.answer(index, position, line, column))
    }

    // The token with this index and generated position, as a lookup of a position answers it.
    #[inline(always)]
    fn answer(&self, index: usize, position: u64, line: u32, column: u32) -> CompiledToken<'a>
        requires within { index < token_count (bytes_of self.now) }
        requires position { position ≡ position_of (bytes_of self.now) index }
        ensures { token_value result ≡ answer_by (bytes_of self.now) (line, column) index }
    {
        let raw = self.token(index, position);
        let extra_columns = distance(&raw, line, column);
        CompiledToken {
            map: *self,
            raw,
            index,
            extra_columns,
        }
    }
}

// The columns from a range token to a position on its line; 0 for any other token.
#[inline(always)]
fn distance(token: &RawToken, line: u32, column: u32) -> u32
    ensures { result ≡ distance token.now (line, column) }
{
    if token.is_range {
        let token = *token;
        range_distance(token, line, column)
    } else {
        0
    }
}

// Range tokens are rare, and apart from them no lookup pays for them.
#[cold]
#[inline(never)]
fn range_distance(token: RawToken, line: u32, column: u32) -> u32
    ensures { result ≡ distance token (line, column) }
{
    if token.is_range && token.dst_line == line {
        column.saturating_sub(token.dst_col)
    } else {
        0
    }
}
