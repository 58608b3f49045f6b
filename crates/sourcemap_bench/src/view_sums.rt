//! Checksums of lines of texts, and of guessed names.
ghost use Rattle.std.specs.Prelude.{◌≡◌, fold};
ghost use Rattle.std.specs.Option.{option_copied};
ghost use Rattle.sourcemap.specs.TokenWalk.{function_name};
ghost use Rattle.sourcemap_bench.specs.Sums.{mixed};
ghost use Rattle.sourcemap_bench.specs.ViewSums.{absent_name, line_sum, name_sum, name_worth};

use crate::sums::{add_count, add_to_sum};
use sourcemap::{SourceMap, SourceView};

// No function of the timed texts has this name, so no walk ends early.
const ABSENT_NAME: &str = "nameOfNoFunction";

/// Adds the byte count of each line of a view to the checksum `start`, in order, and returns the
/// new checksum. Lines after the first 4294967296 lines are ignored. Line terminators are not
/// counted. A byte count above 4294967295 is taken as 4294967295.
pub fn line_sum(view: &SourceView, start: u32) -> u32
    ensures { result ≡ line_sum view.now start }
{
    let mut sum = start;
    for line in view.lines() {
        sum = add_count(sum, line.len());
    }
    sum
}

// The number that a name adds to a checksum: 0 for `None`, otherwise the byte count of the name
// plus 1, at most 4294967295.
fn name_worth(name: Option<&str>) -> u32
    ensures { result ≡ name_worth (option_copied name.entry) }
{
    match name {
        Some(name) => u32::try_from(name.len() + 1).unwrap_or(u32::MAX),
        None => 0,
    }
}

fn add_guess(map: &SourceMap, view: &SourceView, sum: u32, position: (u32, u32)) -> u32
    ensures { result
        ≡ mixed sum (name_worth (function_name map.now view.now absent_name position)) }
{
    let (line, column) = position;
    let name = map.get_original_function_name(line, column, ABSENT_NAME, view);
    add_to_sum(sum, name_worth(name))
}

/// Adds one number to the checksum `start` for each of these generated positions, in order, and
/// returns the new checksum. At each position, `get_original_function_name` guesses the original
/// name of the function with the minified name `ABSENT_NAME`. The number is 0 if no name is found.
/// Otherwise it is the byte count of the found name plus 1, at most 4294967295.
pub fn name_sum(map: &SourceMap, view: &SourceView, positions: &[(u32, u32)], start: u32) -> u32
    ensures { result ≡ name_sum map.now view.now positions.now start }
{
    let mut sum = start;
    for position in positions {
        sum = add_guess(map, view, sum, *position);
    }
    sum
}
