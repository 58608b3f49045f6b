//! An indexed bundle: one file with a table of its modules.
ghost use Rattle.std.specs.Prelude.{◌≡◌, ◌<◌, ◌^◌, Ok, option_map};
ghost use Rattle.std.specs.Cow.{cow_slice_items};
ghost use Rattle.sourcemap_errors.specs.Answer.{Gives};
ghost use Rattle.sourcemap_bundles.specs.Bundle.{Returns};
ghost use Rattle.sourcemap_bundles.specs.Modules.{code_start, indexed_bundle, indexed_module, indexed_startup};
ghost use Rattle.sourcemap_bundles.specs.Stored.{indexed_value, module_value};

use crate::bundle::{ModuleEntry, RamBundleHeader, byte_range};
use crate::modules::RamBundleModule;
use sourcemap_errors::errors::{Error, Result};
use std::borrow::CowSlice;

/// The bytes of an indexed bundle, borrowed or owned, and the header that they begin with.
#[derive(Debug, Drop)]
pub(crate) struct IndexedRamBundle<'a> {
    bytes: CowSlice<'a, u8>,
    header: RamBundleHeader,
}

impl<'a> IndexedRamBundle<'a> {
    /// Returns these bytes as an indexed bundle. Only the header is read. The error is `Scroll` for
    /// fewer than 12 bytes. For 12 bytes or more, the error is `InvalidRamBundleMagic` if the magic
    /// number in the header is not `RAM_BUNDLE_MAGIC`.
    pub(crate) fn parse(bytes: CowSlice<'a, u8>) -> Result<Self>
        ensures { Returns indexed_value result (indexed_bundle (cow_slice_items bytes.entry)) }
    {
        let header = RamBundleHeader::read(bytes.as_slice())?;
        if header.is_valid_magic() {
            Ok(IndexedRamBundle { bytes, header })
        } else {
            Err(Error::InvalidRamBundleMagic)
        }
    }

    /// Returns how many entries the table has.
    pub(crate) fn module_count(&self) -> usize
        ensures { result ≡ self.now.header.module_count }
    {
        self.header.module_count as usize
    }

    /// Returns the startup code, which begins where the table ends. The error is `Scroll` if the
    /// code passes the end of the bytes.
    pub(crate) fn startup_code(&self) -> Result<&[u8]>
        ensures { Returns (λ code. code.now) result (indexed_startup self.now.header (cow_slice_items self.now.bytes)) }
    {
        let size = self.header.startup_code_size;
        byte_range(self.bytes.as_slice(), self.code_start(), size as u64)
    }

    /// Returns the module with this number. Returns `None` if the entry for this number has offset
    /// 0 and length 0. `RamBundle::get_module` lists the errors.
    pub(crate) fn get_module(&self, id: usize) -> Result<Option<RamBundleModule<'_>>>
        ensures { Returns (option_map module_value) result (indexed_module self.now.header (cow_slice_items self.now.bytes) id) }
    {
        if id >= self.header.module_count as usize {
            return Err(Error::InvalidRamBundleIndex);
        }
        let bytes = self.bytes.as_slice();
        let entry = ModuleEntry::read(bytes, id as u32)?;
        if entry.is_empty() {
            return Ok(None);
        }
        if entry.length == 0 {
            return Err(Error::InvalidRamBundleEntry);
        }
        let start = self.code_start() + entry.offset as u64;
        let text = byte_range(bytes, start, entry.length as u64 - 1)?;
        Ok(Some(RamBundleModule { id, text }))
    }

    /// Returns a copy. Bytes that the bundle owns are copied, and bytes that it borrows are
    /// borrowed again.
    pub(crate) fn clone(&self) -> Result<Self>
        ensures { Gives indexed_value result (Ok (indexed_value self.now)) }
    {
        let bytes = self.bytes.clone()?;
        Ok(IndexedRamBundle {
            bytes,
            header: self.header,
        })
    }

    /// Returns the byte offset of the end of the table.
    fn code_start(&self) -> u64
        ensures start { result ≡ code_start self.now.header }
        ensures small { result < 2 ^ 36 }
    {
        12 + 8 * self.header.module_count as u64
    }
}
