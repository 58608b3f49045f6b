//! Tokens that do not fit the generated text.
ghost use Rattle.std.specs.Prelude.{◌≡◌, ℕ, List, IfOk, IfErr, IfSome, Some, length, slice_get};
ghost use Rattle.sourcemap_errors.specs.declared.errors.Error.TheVariants.{OutOfMemory};
ghost use Rattle.sourcemap_source_views.specs.Lines.{line_bodies};
ghost use Rattle.sourcemap_check_texts.specs.Doubts.{ArePlaces, marked};
ghost use Rattle.sourcemap_check_texts.specs.Generated.{IsSpot, is_misplaced, misses_text};

use crate::spots::Spot;
use crate::tokens::{Places, add_place};
use sourcemap_errors::errors::Result;
use sourcemap_map_regular::map::SourceMap;
use sourcemap_source_views::sourceview::SourceView;
use sourcemap_tokens::tokens::RawToken;
use std::alloc::Global;

/// Why a token does not fit the generated text.
#[derive(Clone, Copy, Debug, PartialEq, Eq)]
pub enum GeneratedDoubt {
    /// The text has no such line.
    PastText,
    /// Its generated line has fewer columns. The column at the end of the line is not past it.
    PastLine,
    /// Its generated column is in the middle of a surrogate pair.
    WithinPair,
}

/// The doubts about generated positions, in the order of their codes.
pub const GENERATED_DOUBTS: [GeneratedDoubt; 3] = [
    GeneratedDoubt::PastText,
    GeneratedDoubt::PastLine,
    GeneratedDoubt::WithinPair,
];

// The spot of a generated position, from the last spot. `None` if the text has no such line.
fn next_spot<'text>(
    generated: &'text SourceView,
    last: Option<Spot<'text>>,
    token: RawToken,
) -> Option<Spot<'text>>
    requires { IfSome last
        (λ s. slice_get (line_bodies generated.now) s.number ≡ Some s.line.now) }
    ensures spot { IsSpot generated.now token result }
    ensures kept { IfSome result
        (λ s. slice_get (line_bodies generated.now) s.number ≡ Some s.line.now) }
{
    match last {
        Some(spot) if spot.number == token.dst_line => Some(spot.moved_to(token.dst_col)),
        _ => {
            let line = generated.get_line(token.dst_line)?;
            Some(Spot::new(token.dst_line, line, token.dst_col))
        }
    }
}

// Whether a token does not fit the text, in which it has this spot.
fn misses_text(doubt: GeneratedDoubt, spot: Option<Spot<'_>>, token: RawToken) -> bool
    ensures { (text : List ℕ) → IsSpot text token spot.entry
        → result ≡ misses_text doubt text token }
{
    let column = u64::from(token.dst_col);
    match (doubt, spot) {
        (GeneratedDoubt::PastText, spot) => spot.is_none(),
        (GeneratedDoubt::PastLine, Some(spot)) => spot.at.units < column,
        (GeneratedDoubt::WithinPair, Some(spot)) => spot.at.units > column,
        (GeneratedDoubt::PastLine | GeneratedDoubt::WithinPair, None) => false,
    }
}

/// The tokens that do not fit the generated text in a way: the indexes of the first `most`, in
/// order of generated position, and how many there are. Reads each line of the text once, if the
/// tokens are in order. The only error is `OutOfMemory`.
pub fn doubtful_positions(
    alloc: Global,
    map: &SourceMap,
    generated: &SourceView,
    doubt: GeneratedDoubt,
    most: usize,
) -> Result<Places>
    ensures places { IfOk result (λ places. ArePlaces most
        (marked (is_misplaced doubt generated.now map.now) (length map.now.tokens)) places) }
    ensures memory { IfErr result (λ e. e ≡ OutOfMemory) }
{
    let mut places = Places {
        first: Vec::new(alloc),
        count: 0,
    };
    let mut spot = None;
    let mut index = 0;
    while let Some(token) = map.get_token(index) {
        let raw = token.get_raw_token();
        spot = next_spot(generated, spot, raw);
        let holds = misses_text(doubt, spot, raw);
        add_place(&mut places, most, token.get_index(), holds)?;
        index += 1;
    }
    Ok(places)
}
