//! Computes the generated positions where walks start. A walk visits a token of a map and then the
//! tokens before it, at most 128 tokens in all.
ghost use Rattle.std.specs.Prelude.{◌≡◌, ℕ, ◌+◌, ◌*◌, ◌<◌, ◌≤◌, IfErr, IfOk, IfSome, length, min, slice_get, vec_len};
ghost use Rattle.sourcemap.specs.declared.errors.Error.TheVariants.{OutOfMemory};

use sourcemap::{Result, SourceMap};
use std::alloc::Global;

/// The number of tokens of a walk.
const WALKED: usize = 128;

// The generated position of a token, or (0, 0) if no token has this index.
fn position_of(map: &SourceMap, index: usize) -> (u32, u32)
    ensures { IfSome (slice_get map.now.tokens index) (λ t. result ≡ (t.dst_line, t.dst_col)) }
{
    match map.get_token(index) {
        Some(token) => token.get_dst(),
        None => (0, 0),
    }
}

fn walks_over(count: usize) -> usize
    ensures all { count ≤ 128 * result }
    ensures few { 128 * result < count + 128 }
{
    count.div_ceil(WALKED)
}

/// Returns the generated position of every 128th token of a map, from the last token down. If a
/// walk of 128 tokens goes back from each of these tokens, the walks cover each token of the map
/// once. Tokens after the first 4294967295 tokens are ignored. The only error is `OutOfMemory`.
pub fn walk_starts(alloc: Global, map: &SourceMap) -> Result<Vec<(u32, u32)>>
    ensures all { IfOk result (λ starts.
        min (length map.now.tokens) 4294967295 ≤ 128 * vec_len starts) }
    ensures few { IfOk result (λ starts.
        128 * vec_len starts < min (length map.now.tokens) 4294967295 + 128) }
    ensures memory { IfErr result (λ e. e ≡ OutOfMemory) }
{
    let count = map.get_token_count() as usize;
    let walks = walks_over(count);
    let mut starts = Vec::new(alloc);
    for walk in 0..walks {
        starts.push(position_of(map, count - 1 - WALKED * walk))?;
    }
    Ok(starts)
}
