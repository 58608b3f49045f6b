//! Measured calls that write maps.

use sourcemap::encoder::{encode_in_parts, encode_to};
use sourcemap::{DecodedMap, Error, Result, SourceMap, decode_slice};
use std::alloc::Global;
use std::io;
use std::io::Write;

// Counts the bytes that are written, and does not store them.
#[derive(Drop)]
struct Counter {
    size: usize,
}

impl Write for Counter {
    fn write(&mut self, buf: &[u8]) -> io::Result<usize> {
        self.size = self.size.wrapping_add(buf.len());
        Ok(buf.len())
    }

    fn flush(&mut self) -> io::Result<()> {
        Ok(())
    }
}

// Decodes a map, and flattens it if it is an index map. A Hermes map is an error.
fn flat_map(alloc: Global, bytes: &[u8]) -> Result<SourceMap> {
    match decode_slice(alloc, bytes)? {
        DecodedMap::Regular(map) => Ok(map),
        DecodedMap::Index(index) => index.flatten(),
        DecodedMap::Hermes(_) => Err(Error::IncompatibleSourceMap),
    }
}

/// The number of bytes that `encode_to` writes.
pub fn count_encoded(alloc: Global, bytes: &[u8]) -> Result<usize> {
    let map = flat_map(alloc, bytes)?;
    let mut counter = Counter { size: 0 };
    encode_to(alloc, &map, &mut counter)?;
    Ok(counter.size)
}

/// The number of bytes that `encode_in_parts` writes.
pub fn count_encoded_in_parts(alloc: Global, bytes: &[u8]) -> Result<usize> {
    let map = flat_map(alloc, bytes)?;
    let mut counter = Counter { size: 0 };
    encode_in_parts(alloc, &map, &mut counter)?;
    Ok(counter.size)
}

/// The number of bytes in the data URL that `to_data_url` returns.
pub fn measure_data_url(alloc: Global, bytes: &[u8]) -> Result<usize> {
    let map = flat_map(alloc, bytes)?;
    let url = map.to_data_url()?;
    Ok(url.len())
}
