//! Checksums of results.
ghost use Rattle.std.specs.Prelude.{◌≡◌, ℕ, fold, option_map};
ghost use Rattle.sourcemap.specs.AnyMap.{map_tree};
ghost use Rattle.sourcemap.specs.Token.{token_value};
ghost use Rattle.sourcemap.specs.Trees.{IsInOrder, lookup};
ghost use Rattle.sourcemap_bench.specs.Sums.{counted, mixed, worth, lookup_sum, token_sum};

use sourcemap::{DecodedMap, SourceMap, Token};

/// Adds a number to a checksum: returns `(31 * sum + number) % 2^32`.
#[inline]
pub fn add_to_sum(sum: u32, number: u32) -> u32
    ensures { result ≡ mixed sum number }
{
    ((31 * u64::from(sum) + u64::from(number)) % (1 << 32)) as u32
}

/// Adds a count to a checksum. A count above 4294967295 is taken as 4294967295.
pub fn add_count(sum: u32, count: usize) -> u32
    ensures { result ≡ counted sum count }
{
    add_to_sum(sum, u32::try_from(count).unwrap_or(u32::MAX))
}

/// Returns the number that a token adds to a checksum: `(line + 7 * column + 1) % 2^32`. The values
/// `line` and `column` are the token's original position from `get_src`. Returns 0 if there is no
/// token, or if the source id of the token is 4294967295 (`NO_ID`).
#[inline]
pub fn worth(token: Option<Token<'_>>) -> u32
    ensures { result ≡ worth (option_map token_value token.entry) }
{
    match token {
        Some(token) if token.has_source() => {
            let line = u64::from(token.get_src_line());
            let column = u64::from(token.get_src_col());
            ((line + 7 * column + 1) % (1 << 32)) as u32
        }
        _ => 0,
    }
}

#[inline]
fn add_lookup(map: &DecodedMap, sum: u32, position: (u32, u32)) -> u32
    ensures { IsInOrder (map_tree map.now)
        → result ≡ mixed sum (worth (lookup (map_tree map.now) position)) }
{
    let (line, column) = position;
    add_to_sum(sum, worth(map.lookup_token(line, column)))
}

/// Looks up each of these generated positions with `lookup_token`, in order. Adds `worth` of each
/// result to the checksum `start`, and returns the new checksum. For an index map, the checksum may
/// be wrong unless the sections are sorted by offset at every level.
pub fn lookup_sum(map: &DecodedMap, positions: &[(u32, u32)], start: u32) -> u32
    ensures { IsInOrder (map_tree map.now)
        → result ≡ lookup_sum (map_tree map.now) positions.now start }
{
    let mut sum = start;
    for position in positions {
        sum = add_lookup(map, sum, *position);
    }
    sum
}

/// Adds `worth` of each token of the map to the checksum `start`, in order, and returns the new
/// checksum.
pub fn token_sum(map: &SourceMap, start: u32) -> u32
    ensures { result ≡ token_sum map.now start }
{
    let mut sum = start;
    for token in map.tokens() {
        sum = add_to_sum(sum, worth(Some(token)));
    }
    sum
}
