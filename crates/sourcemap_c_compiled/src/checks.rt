//! Checks of compiled maps.
ghost use Rattle.std.specs.Prelude.{◌≡◌, MatchOption};
ghost use Rattle.sourcemap_compiled.specs.Layout.{refusal};
ghost use Rattle.sourcemap_compiled.specs.Stored.{bytes_of};
ghost use Rattle.sourcemap_c_compiled.specs.Codes.{ReturnsVerdict, check_code, compiled_code};

use crate::codes::{OK, code_of};
use sourcemap_compiled::map::CompiledMap;

/// Checks the header of a compiled map.
pub fn check(bytes: &[u8]) -> u32
    ensures { result ≡ check_code (refusal bytes.now) }
{
    match CompiledMap::parse(bytes) {
        Ok(_) => OK,
        Err(error) => code_of(error),
    }
}

/// Checks all bytes of a compiled map: its header, the order of its tokens, and its texts.
pub fn verify(bytes: &[u8]) -> u32
    ensures { MatchOption (refusal bytes.now) (ReturnsVerdict bytes.now result)
        (λ e. result ≡ compiled_code e) }
{
    match CompiledMap::parse(bytes) {
        Ok(map) => verdict(&map),
        Err(error) => code_of(error),
    }
}

fn verdict(map: &CompiledMap<'_>) -> u32
    ensures { ReturnsVerdict (bytes_of map.now) result }
{
    match map.verify() {
        Ok(()) => OK,
        Err(error) => code_of(error),
    }
}
