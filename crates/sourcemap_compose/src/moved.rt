//! Laws about the tokens of a composition, and about the positions that an adjustment moves.
ghost use Rattle.std.specs.Prelude.{◌≡◌, ℕ, ◌≤◌, List, Ok};
ghost use Rattle.sourcemap_tokens.specs.Tokens.{AllWithin, AreInOrder};
ghost use Rattle.sourcemap_tokens.specs.declared.tokens.RawToken.{RawToken};
ghost use Rattle.sourcemap_compose.specs.declared.stretches.Stretch.{Stretch};
ghost use Rattle.sourcemap_compose.specs.Composition.{composition, moved};
ghost use Rattle.sourcemap_compose.specs.Moved.{IsMovedAlone, origin};

/// A law: if the composition has no error, and the tokens of the original are within some counts of
/// sources and names (see `AllWithin`), the composed tokens are within the same counts.
pub fn composed_tokens_stay_within()
    ensures { (sources names : ℕ) (original adjustment new : List RawToken)
        → AllWithin sources names original → composition original adjustment ≡ Ok new
        → AllWithin sources names new }
{}

/// A law: at a moved position, the composition has the same source, original position, name and
/// range flag as the original has at `q`, the position before the move. The premises:
///
/// - The composition has no error.
/// - The tokens of the original are sorted by generated position, and no two of them have the same
///   generated position.
/// - The tokens of the original are within some counts of sources and names, see `AllWithin`. The
///   count of sources is at most 4294967295.
/// - The original has a token on the line of `q`, at or before `q`.
/// - A stretch `a` of the adjustment covers `q`. No other stretch of the adjustment gives a
///   composed token at a generated position from `moved a a.start` to `moved a q`, both included.
pub fn moved_positions_answer_as_before()
    ensures { (sources names : ℕ) (original adjustment new : List RawToken)
        (a : Stretch) (q : ℕ × ℕ)
        → AreInOrder original → sources ≤ 4294967295 → AllWithin sources names original
        → composition original adjustment ≡ Ok new → IsMovedAlone original adjustment a q
        → origin new (moved a q) ≡ origin original q }
{}
