//! Draws generated positions for lookups in a map. The draws are pseudo-random and start from a
//! fixed state, so two runs with the same map draw the same positions.
ghost use Rattle.std.specs.Prelude.{◌≡◌, ℕ, ◌+◌, ◌<◌, ◌≤◌, ◌%◌, ◌^◌, IfOk, IfErr, length, vec_len};
ghost use Rattle.sourcemap.specs.declared.errors.Error.TheVariants.{OutOfMemory};
ghost use Rattle.sourcemap_bench.specs.Draws.{scrambled, step, IsBeside};

use sourcemap::{Result, SourceMap};
use std::alloc::Global;

/// The number of drawn positions.
pub const POSITIONS: usize = 1_000_000;

// The generator splitmix64.
#[derive(Clone, Copy)]
struct Draws {
    count: u64,
}

impl Draws {
    fn next(&mut self) -> u64
        ensures count { self.new.count ≡ (self.old.count + step) % 2 ^ 64 }
        ensures drawn { result ≡ scrambled self.new.count }
    {
        self.count = self.count.wrapping_add(0x9E37_79B9_7F4A_7C15);
        let first = self.count;
        let second = (first ^ (first >> 30)).wrapping_mul(0xBF58_476D_1CE4_E5B9);
        let third = (second ^ (second >> 27)).wrapping_mul(0x94D0_49BB_1331_11EB);
        third ^ (third >> 31)
    }
}

// The position of a random token, or up to three columns after it; (0, 0) for a map without tokens.
fn beside_token(map: &SourceMap, draws: &mut Draws) -> (u32, u32)
    ensures { 0 < length map.now.tokens → IsBeside map.now result }
{
    let drawn = draws.next();
    let columns = (draws.next() % 4) as u32;
    let count = u64::from(map.get_token_count());
    let index = drawn.checked_rem(count).unwrap_or(0);
    match map.get_token(index as usize) {
        Some(token) => (
            token.get_dst_line(),
            token.get_dst_col().saturating_add(columns),
        ),
        None => (0, 0),
    }
}

/// Draws a million positions, each at a token of the map or up to three columns after it. For a map
/// without tokens all positions are (0, 0). The only error is `OutOfMemory`.
pub fn drawn_positions(alloc: Global, map: &SourceMap) -> Result<Vec<(u32, u32)>>
    ensures count { IfOk result (λ positions. vec_len positions ≡ 1000000) }
    ensures memory { IfErr result (λ e. e ≡ OutOfMemory) }
{
    let mut draws = Draws { count: 1 };
    let mut positions = Vec::with_capacity(alloc, POSITIONS)?;
    for _ in 0..POSITIONS {
        positions.push(beside_token(map, &mut draws))?;
    }
    Ok(positions)
}
