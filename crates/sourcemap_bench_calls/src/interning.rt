//! Interns the lines of a text.

use sourcemap::Result;
use sourcemap_interning::interner::Interner;
use std::alloc::Global;
use std::str;

/// Interns each line and returns the number of different lines.
pub fn intern_lines(alloc: Global, bytes: &[u8]) -> Result<usize> {
    let mut interner = Interner::new(alloc);
    for line in str::from_utf8(bytes)?.lines() {
        interner.add(line)?;
    }
    Ok(interner.len() as usize)
}
