//! The header of an indexed bundle, the entries of its modules, and ranges of its bytes.
ghost use Rattle.std.specs.Prelude.{◌≡◌, ◌↔◌, IsTrue};
ghost use Rattle.sourcemap_bundles.specs.Bundle.{Returns, bundle_magic, entry_of, header_of, range_of};

use byteorder::{ByteOrder, LittleEndian};
use sourcemap_errors::errors::{Error, RangeFault, Result};

/// The number that an indexed bundle begins with, lowest byte first.
pub const RAM_BUNDLE_MAGIC: u32 = 0xFB0B_D1E5;

const HEADER_SIZE: u64 = 12;

const ENTRY_SIZE: u64 = 8;

/// The header of an indexed bundle: the first 12 bytes of the bundle, as three numbers of 32 bits,
/// lowest byte first.
#[derive(Clone, Copy, Debug)]
pub struct RamBundleHeader {
    /// `RAM_BUNDLE_MAGIC`, if the bytes are an indexed bundle.
    pub magic: u32,
    /// How many entries the table of modules has.
    pub module_count: u32,
    /// The length of the startup code in bytes.
    pub startup_code_size: u32,
}

impl RamBundleHeader {
    /// Returns the header that `bytes` begins with, whatever its magic number. The error is
    /// `Scroll` if there are fewer than 12 bytes.
    pub fn read(bytes: &[u8]) -> Result<Self>
        ensures { result ≡ header_of bytes.now }
    {
        let header = byte_range(bytes, 0, HEADER_SIZE)?;
        Ok(RamBundleHeader {
            magic: LittleEndian::read_u32(header),
            module_count: LittleEndian::read_u32(&header[4..]),
            startup_code_size: LittleEndian::read_u32(&header[8..]),
        })
    }

    /// Whether the magic number is that of an indexed bundle.
    pub fn is_valid_magic(&self) -> bool
        ensures { IsTrue result ↔ (self.now.magic ≡ bundle_magic) }
    {
        self.magic == RAM_BUNDLE_MAGIC
    }
}

/// An entry of the table of modules.
#[derive(Clone, Copy, Debug)]
pub struct ModuleEntry {
    /// How many bytes lie between the end of the table and the module.
    pub offset: u32,
    /// The length of the module in bytes, the zero byte at its end included.
    pub length: u32,
}

impl ModuleEntry {
    /// Returns the entry of the module `id`. Ignores the header's `module_count`. The error is
    /// `Scroll` if the bytes end before the end of the entry.
    pub fn read(bytes: &[u8], id: u32) -> Result<Self>
        ensures { result ≡ entry_of bytes.now id }
    {
        let entry = byte_range(bytes, HEADER_SIZE + ENTRY_SIZE * id as u64, ENTRY_SIZE)?;
        Ok(ModuleEntry {
            offset: LittleEndian::read_u32(entry),
            length: LittleEndian::read_u32(&entry[4..]),
        })
    }

    /// Whether the entry belongs to no module: its offset and its length are 0.
    pub fn is_empty(self) -> bool
        ensures { IsTrue result ↔ ((self.offset ≡ 0) × (self.length ≡ 0)) }
    {
        self.offset == 0 && self.length == 0
    }
}

/// Returns the `size` bytes from `start` on. The error is `Scroll` exactly if their end passes the
/// end of `bytes`. So an empty range at the end of `bytes` is no error.
pub fn byte_range(bytes: &[u8], start: u64, size: u64) -> Result<&[u8]>
    ensures { Returns (λ range. range.now) result (range_of bytes.now start size) }
{
    let len = bytes.len() as u64;
    match start.checked_add(size) {
        Some(end) if end <= len => Ok(&bytes[start as usize..end as usize]),
        _ => Err(Error::Scroll(RangeFault { start, size, len })),
    }
}
