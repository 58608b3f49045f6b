//! Reads the modules of a RAM bundle.

use sourcemap::Result;
use sourcemap::ram_bundle::{RamBundle, is_unbundle_path};
use std::alloc::Global;
use std::rt::Files;
use std::str;

// The byte count of all modules of a bundle, plus 1 for each invalid module.
fn module_size(bundle: &RamBundle<'_>) -> usize {
    let mut size = 0usize;
    for found in bundle.iter_modules() {
        size = size.wrapping_add(found.map_or(1, |found| found.data().len()));
    }
    size
}

/// The byte count of all modules of an indexed bundle, plus 1 for each invalid module.
pub fn modules(bytes: &[u8]) -> Result<usize> {
    let bundle = RamBundle::parse_indexed_from_slice(bytes)?;
    Ok(module_size(&bundle))
}

/// The byte count of all modules of a bundle, plus 1 for each invalid module. `bytes` is the path
/// of an indexed bundle, or of the startup code of a file bundle.
pub fn modules_at<F: Files>(rt: &F, alloc: Global, bytes: &[u8]) -> Result<usize> {
    let path = str::from_utf8(bytes)?.trim();
    let bundle = if is_unbundle_path(rt, alloc, path)? {
        RamBundle::parse_unbundle_from_path(rt, alloc, path)?
    } else {
        RamBundle::parse_indexed_from_path(rt, alloc, path)?
    };
    Ok(module_size(&bundle))
}
