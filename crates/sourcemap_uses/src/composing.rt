//! Composes lists of tokens, without maps.
ghost use Rattle.std.specs.Prelude.{◌≡◌, ◌≤◌, ℕ, IfOk, List, Ok};
ghost use Rattle.sourcemap.specs.Answer.{IsAnswer};
ghost use Rattle.sourcemap.specs.Composition.{composition, moved};
ghost use Rattle.sourcemap.specs.Moved.{IsMovedAlone, origin};
ghost use Rattle.sourcemap.specs.Tokens.{AllWithin, AreInOrder};
ghost use Rattle.sourcemap.specs.declared.compose.Stretch.{Stretch};
ghost use Rattle.sourcemap.specs.declared.types.RawToken.{RawToken};
ghost use Rattle.sourcemap_uses.specs.Composing.{ComposesTwice};

use sourcemap::Result;
use sourcemap::compose::compose;
use sourcemap::laws::{composed_tokens_stay_within, moved_positions_answer_as_before};
use sourcemap::types::RawToken;
use std::alloc::Global;

/// Composes the tokens of three build steps, such as a compiler, a bundler and a minifier: the
/// tokens of the first step, adjusted by those of the second and then by those of the third. The
/// result has the source ids and name ids of `original`. Returns the errors of `compose`.
///
/// Suppose that a stretch of `second` moves the position `q` to `p`, and a stretch of `third` moves
/// `p` on. Then the result gives the last position what `original` gives `q`: the same source id,
/// original position, name id and range flag. The premises are those of the law
/// `moved_positions_answer_as_before`, for each of the two moves.
pub fn compose_steps(
    alloc: Global,
    original: &[RawToken],
    second: &[RawToken],
    third: &[RawToken],
) -> Result<Vec<RawToken>>
    ensures answer { IsAnswer (λ tokens. tokens.items)
        (ComposesTwice original.now second.now third.now) result }
    ensures moved { (sources names : ℕ) (a b : Stretch) (q : ℕ × ℕ) (middle : List RawToken)
        → AreInOrder original.now → sources ≤ 4294967295 → AllWithin sources names original.now
        → composition original.now second.now ≡ Ok middle
        → IsMovedAlone original.now second.now a q → IsMovedAlone middle third.now b (moved a q)
        → IfOk result (λ tokens. origin tokens.items (moved b (moved a q)) ≡ origin original.now q) }
{
    composed_tokens_stay_within();
    moved_positions_answer_as_before();
    // prover: error passed on by `match`
    match compose(alloc, original, second) {
        Ok(middle) => compose(alloc, middle.as_slice(), third),
        Err(error) => Err(error),
    }
}
