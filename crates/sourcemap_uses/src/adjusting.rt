//! Looks up positions in the output of a later build step.
ghost use Rattle.std.specs.Option.{option_copied};
ghost use Rattle.std.specs.Prelude.{◌≡◌, ℕ, Err, IfErr, IfOk, IsOkUnless, Ok, option_map, string_bytes};
ghost use Rattle.sourcemap.specs.Adjust.{adjusted};
ghost use Rattle.sourcemap.specs.Answer.{UnlessMemory};
ghost use Rattle.sourcemap.specs.Composition.{moved};
ghost use Rattle.sourcemap.specs.Moved.{IsMovedAlone};
ghost use Rattle.sourcemap.specs.Token.{meaning_of_token};
ghost use Rattle.sourcemap.specs.Types.{IsWellFormed, MapValue, meaning};
ghost use Rattle.sourcemap.specs.declared.compose.Stretch.{Stretch};
ghost use Rattle.sourcemap.specs.declared.errors.Error.TheVariants.{OutOfMemory};
ghost use Rattle.sourcemap_uses.specs.Adjusting.{position_meaning};

use sourcemap::{Result, SourceMap, Token};
use std::alloc::{AllocError, Global};

/// The original position that a token maps to, with owned strings.
#[derive(Debug, Drop)]
pub struct OriginalPosition {
    pub source: Option<String>,
    pub line: u32,
    pub column: u32,
    pub name: Option<String>,
    /// Whether the token is a range token.
    pub is_range: bool,
}

/// Looks up a position in the output of a later build step. `adjustment` maps that output to the
/// generated text of `map`. Adjusts `map` by `adjustment`, and returns the original position that
/// the adjusted map gives. `None` if the adjusted map has no token at or before the position.
/// Returns the errors of `adjust_mappings`.
///
/// Take the tokens of `adjustment` in the order of their original positions. Each token moves a
/// stretch of the generated text of `map`. The stretch begins at the original position of the
/// token. If the next token has an original position on the same line, the stretch ends before this
/// position. Otherwise the stretch ends before column 4294967295 of the line. The start of the
/// stretch moves to the generated position of the token. Each token of the adjusted map comes from
/// one stretch.
///
/// Suppose that a stretch moves the position `p` to the position `line`, `col`. The call returns
/// the original position that a lookup of `p` in `map` gives before the adjustment, if all of this
/// holds:
///
/// - The call succeeds.
/// - `map` is well-formed.
/// - No two tokens of `map` have the same generated position.
/// - A lookup of `p` in `map` finds a token on the line of `p`.
/// - Let `s` be the position to which the start of this stretch moves. All tokens of the adjusted
///   map with a generated position from `s` to `line`, `col` (both included) come from this
///   stretch.
pub fn lookup_adjusted(
    alloc: Global,
    mut map: SourceMap,
    adjustment: &SourceMap,
    line: u32,
    col: u32,
) -> Result<Option<OriginalPosition>>
    ensures answer { IfOk result
        (λ found. (new : MapValue) × (adjusted map adjustment.now ≡ Ok new)
        × (option_map position_meaning found ≡ meaning new (line, col))) }
    ensures meaning { (a : Stretch) (q : ℕ × ℕ) → IsWellFormed map
        → IsMovedAlone map.tokens adjustment.now.tokens a q → moved a q ≡ (line, col)
        → IfOk result (λ found. option_map position_meaning found ≡ meaning map q) }
    ensures error { IfErr result (λ e. UnlessMemory e (adjusted map adjustment.now ≡ Err e)) }
{
    // prover: error passed on by `match`
    match map.adjust_mappings(adjustment) {
        Ok(()) => position_at(alloc, &map, line, col),
        Err(error) => Err(error),
    }
}

pub(crate) fn position_at(
    alloc: Global,
    map: &SourceMap,
    line: u32,
    col: u32,
) -> Result<Option<OriginalPosition>>
    ensures position { IfOk result
        (λ found. option_map position_meaning found ≡ meaning map.now (line, col)) }
    ensures memory { IsOkUnless result OutOfMemory }
{
    match map.lookup_token(line, col) {
        None => Ok(None),
        Some(token) => Ok(Some(position_of(alloc, &token)?)),
    }
}

fn position_of(
    alloc: Global,
    token: &Token<'_>,
) -> std::result::Result<OriginalPosition, AllocError>
    ensures { IfOk result (λ position. position_meaning position ≡ meaning_of_token token.now) }
{
    Ok(OriginalPosition {
        source: copy_text(alloc, token.get_source())?,
        line: token.get_src_line(),
        column: token.get_src_col(),
        name: copy_text(alloc, token.get_name())?,
        is_range: token.is_range(),
    })
}

fn copy_text(alloc: Global, text: Option<&str>) -> std::result::Result<Option<String>, AllocError>
    ensures { IfOk result (λ copy. option_map string_bytes copy ≡ option_copied text.entry) }
{
    match text {
        None => Ok(None),
        Some(text) => Ok(Some(String::from_str(alloc, text)?)),
    }
}
