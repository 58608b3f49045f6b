//! The counts and the debug id of a compiled map.
ghost use Rattle.std.specs.Prelude.{◌≡◌, Some};
ghost use Rattle.sourcemap_compiled.specs.Layout.{compiled_debug_id};
ghost use Rattle.sourcemap_compiled.specs.Stored.{bytes_of};
ghost use Rattle.sourcemap_c_compiled.specs.Codes.{OnCompiled, ReturnsOption};
ghost use Rattle.sourcemap_c_compiled.specs.Counts.{counts_of};

use crate::codes::{ABSENT, OK, code_of};
use sourcemap_c_handles::layout::{Counts, IdBytes};
use sourcemap_compiled::map::CompiledMap;

/// Writes how many tokens, sources and names the map has.
pub fn put_counts(bytes: &[u8], counts: &mut Counts) -> u32
    ensures { OnCompiled bytes.now
        (ReturnsOption (Some (counts_of bytes.now)) result counts.old counts.new)
        result counts.old counts.new }
{
    match CompiledMap::parse(bytes) {
        Ok(map) => {
            *counts = counts_of(&map);
            OK
        }
        Err(error) => code_of(error),
    }
}

fn counts_of(map: &CompiledMap<'_>) -> Counts
    ensures { result ≡ counts_of (bytes_of map.now) }
{
    Counts {
        tokens: map.token_count(),
        sources: map.source_count(),
        names: map.name_count(),
        ignored: 0,
        sections: 0,
    }
}

/// Writes the debug id.
pub fn put_debug_id(bytes: &[u8], id: &mut IdBytes) -> u32
    ensures { OnCompiled bytes.now
        (ReturnsOption (compiled_debug_id bytes.now) result id.old.bytes id.new.bytes)
        result id.old.bytes id.new.bytes }
{
    match CompiledMap::parse(bytes) {
        Ok(map) => put_id(map.debug_id(), id),
        Err(error) => code_of(error),
    }
}

fn put_id(found: Option<[u8; 16]>, id: &mut IdBytes) -> u32
    ensures { ReturnsOption found result id.old.bytes id.new.bytes }
{
    match found {
        Some(bytes) => {
            *id = IdBytes { bytes };
            OK
        }
        None => ABSENT,
    }
}
