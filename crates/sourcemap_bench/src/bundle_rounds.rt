//! Splits a bundle repeatedly, and makes a checksum of the modules.
ghost use Rattle.std.specs.Prelude.{◌≡◌};
ghost use Rattle.sourcemap_bundle_split.specs.Split.{parts_value};
ghost use Rattle.sourcemap_bench.specs.BundleSums.{with_module};

use crate::sums::{add_count, add_to_sum};
use sourcemap::ram_bundle::{RamBundle, SplitRamBundleModuleIter, split_ram_bundle};
use sourcemap::{Result, SourceMap, SourceMapIndex, SourceView};
use std::alloc::Global;

// Adds two numbers to the checksum `sum` and returns the new checksum. The first number is the byte
// count of the module's text; a count above 4294967295 is taken as 4294967295. The second number is
// the number of sources of the module's map.
fn with_module(sum: u32, parts: &(String, SourceView, SourceMap)) -> u32
    ensures { result ≡ with_module sum (parts_value parts.now) }
{
    let (_, view, map) = parts;
    add_to_sum(add_count(sum, view.source().len()), map.get_source_count())
}

// Adds all modules to a checksum, or returns the first error that the iterator yields.
fn with_modules(modules: SplitRamBundleModuleIter<'_>, start: u32) -> Result<u32> {
    let mut sum = start;
    for item in modules {
        let parts = item?;
        sum = with_module(sum, &parts);
    }
    Ok(sum)
}

fn split_sum(
    alloc: Global,
    bundle: &RamBundle<'_>,
    index: &SourceMapIndex,
    start: u32,
) -> Result<u32> {
    let modules = split_ram_bundle(alloc, bundle, index)?;
    with_modules(modules, start)
}

fn split_rounds(
    alloc: Global,
    bundle: &RamBundle<'_>,
    index: &SourceMapIndex,
    rounds: u32,
) -> Result<u32> {
    let mut sum = 0;
    for _ in 0..rounds {
        sum = split_sum(alloc, bundle, index, sum)?;
    }
    Ok(sum)
}

/// Splits the bundle `rounds` times and returns the checksum. The index map is on the first line,
/// and the bundle is after that line.
pub fn repeat_split(alloc: Global, rounds: u32, bytes: &[u8]) -> Result<u32> {
    let mut parts = bytes.splitn(2, |byte| *byte == b'\n');
    let index = SourceMapIndex::from_slice(alloc, parts.next().unwrap_or_default())?;
    let bundle = RamBundle::parse_indexed_from_slice(parts.next().unwrap_or_default())?;
    split_rounds(alloc, &bundle, &index, rounds)
}
