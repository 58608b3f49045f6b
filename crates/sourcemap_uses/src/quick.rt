//! Lookups with a bound on the number of comparisons.
ghost use Rattle.std.specs.Prelude.{◌≡◌, ◌≤◌, ◌<◌, ◌^◌, ◌+◌, ◌*◌, ℕ, length, option_map};
ghost use Rattle.sourcemap.specs.Token.{meaning_of_token};
ghost use Rattle.sourcemap.specs.Types.{meaning};

use sourcemap::laws::binary_digits_are_fewest;
use sourcemap::{SourceMap, Token};

/// Returns the first token at a generated position, or else the last token before it. Also returns
/// the number of comparisons of the search. The token is `None` if no token is at or before the
/// position. For fewer than 2^d tokens, the number is at most 2(d+1). So it is at most 42 for fewer
/// than 1,048,576 tokens. The bound holds even if all tokens have the same position. Lines and
/// columns count from 0.
pub fn quick_lookup(map: &SourceMap, line: u32, col: u32) -> (Option<Token<'_>>, u32)
    ensures position { option_map meaning_of_token result.0 ≡ meaning map.now (line, col) }
    ensures quick { (digits : ℕ) → length map.now.tokens < 2 ^ digits
        → result.1 ≤ 2 * (digits + 1) }
{
    binary_digits_are_fewest();
    map.lookup_token_steps(line, col)
}
