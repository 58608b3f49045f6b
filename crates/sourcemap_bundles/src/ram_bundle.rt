//! Bundles of either kind, and an iterator over the modules of a bundle.
ghost use Rattle.std.specs.Prelude.{◌≡◌, ◌≤◌, ◌↔◌, IfErr, IfOk, IsTrue, Ok, length, option_map};
ghost use Rattle.sourcemap_errors.specs.Answer.{Gives};
ghost use Rattle.sourcemap_bundles.specs.Bundle.{Returns};
ghost use Rattle.sourcemap_bundles.specs.Modules.{HasBundleHeader, ReadsIndexedBundle, bundle_count, bundle_module, bundle_startup, indexed_bundle, modules_of};
ghost use Rattle.sourcemap_bundles.specs.Folder.{IsFileBundle, IsFileError};
ghost use Rattle.sourcemap_bundles.specs.Stored.{module_value, type_of};

use crate::bundle::RamBundleHeader;
use crate::indexed::IndexedRamBundle;
pub use crate::modules::RamBundleModule;
use crate::unbundle::UnbundleRamBundle;
pub use crate::unbundle::is_unbundle_path;
use sourcemap_errors::errors::{Error, Result};
use std::alloc::Global;
use std::borrow::CowSlice;
use std::fs;
use std::marker::Model;
use std::rt::Files;

/// How a bundle is laid out.
#[derive(Clone, Copy, Debug, PartialEq, Eq, PartialOrd, Ord, Hash)]
pub enum RamBundleType {
    /// One file with a table of its modules.
    Indexed,
    /// A file for each module.
    Unbundle,
}

#[derive(Debug, Drop)]
enum RamBundleImpl<'a> {
    Indexed(IndexedRamBundle<'a>),
    Unbundle(UnbundleRamBundle),
}

/// A bundle contains startup code and modules. Each module has its own number.
#[derive(Debug)]
pub struct RamBundle<'a> {
    repr: RamBundleImpl<'a>,
}

impl<'a> Model for RamBundle<'a> {
    ghost use Rattle.sourcemap_bundles.specs.Modules.{BundleValue};
    ghost use Rattle.sourcemap_bundles.specs.Stored.{bundle_value};

    ghost Value = { BundleValue };

    ghost view = { λ bundle. bundle_value bundle.repr };
}

// prover: one drop
impl Drop for RamBundle<'_> {
    fn drop(self) {
        let RamBundle { repr: _ } = self;
    }
}

impl<'a> RamBundle<'a> {
    ghost use Rattle.sourcemap_bundles.specs.Iterators.{modules_left};

    /// Returns these bytes as an indexed bundle. The bundle borrows the bytes. Only the header is
    /// read. The error is `Scroll` for fewer than 12 bytes. For 12 bytes or more, the error is
    /// `InvalidRamBundleMagic` if the magic number in the header is not `RAM_BUNDLE_MAGIC`.
    pub fn parse_indexed_from_slice(bytes: &'a [u8]) -> Result<Self>
        ensures { Returns (λ bundle. bundle) result (indexed_bundle bytes.now) }
    {
        let indexed = IndexedRamBundle::parse(CowSlice::Borrowed(bytes))?;
        Ok(RamBundle {
            repr: RamBundleImpl::Indexed(indexed),
        })
    }

    /// Returns what `parse_indexed_from_slice` returns, but the bundle owns the bytes.
    pub fn parse_indexed_from_vec(bytes: Vec<u8>) -> Result<Self>
        ensures { Returns (λ bundle. bundle) result (indexed_bundle bytes.items) }
    {
        let indexed = IndexedRamBundle::parse(CowSlice::Owned(bytes))?;
        Ok(RamBundle {
            repr: RamBundleImpl::Indexed(indexed),
        })
    }

    /// Reads a file, and returns its bytes as an indexed bundle. If the read fails, the error is
    /// `Io`, or `OutOfMemory` if memory ran out. Any other error is an error of
    /// `parse_indexed_from_slice`.
    pub fn parse_indexed_from_path<F: Files>(rt: &F, alloc: Global, path: &str) -> Result<Self>
        ensures { ReadsIndexedBundle result }
    {
        RamBundle::parse_indexed_from_vec(fs::read(&(rt, alloc), path)?)
    }

    /// Reads the file bundle with the startup code at `path`. Its modules are the plain files other
    /// than `UNBUNDLE` in the folder `js-modules` beside the startup code. A link is not a plain
    /// file. The name of a module file must be `N.js`, where `N` is a number in ASCII digits and
    /// below `usize::MAX`. If two files have the same number, the file whose name is later in the
    /// order of bytes is kept: of `07.js` and `7.js`, `7.js` is kept.
    ///
    /// Returns `NotARamBundle` if `is_unbundle_path` is false for `path`. Otherwise, the error is
    /// `Io` if the startup code or the folder cannot be read, or if any name in the folder is not
    /// UTF-8. If no such error occurs, the call reads the module files in the byte order of their
    /// names, and returns the first error: `InvalidRamBundleIndex` if the name of a file is not a
    /// valid `N.js`, or `Io` if the file cannot be read. `OutOfMemory` can come at any time.
    pub fn parse_unbundle_from_path<F: Files>(rt: &F, alloc: Global, path: &str) -> Result<Self>
        ensures files { IfOk result IsFileBundle }
        ensures refused { IfErr result IsFileError }
    {
        let files = UnbundleRamBundle::parse(rt, alloc, path)?;
        Ok(RamBundle {
            repr: RamBundleImpl::Unbundle(files),
        })
    }

    /// Returns how the bundle is laid out.
    pub fn bundle_type(&self) -> RamBundleType
        ensures { result ≡ type_of self.now }
    {
        match &self.repr {
            RamBundleImpl::Indexed(_) => RamBundleType::Indexed,
            RamBundleImpl::Unbundle(_) => RamBundleType::Unbundle,
        }
    }

    /// Returns the module with this number, or `None` if the number has no module. In an indexed
    /// bundle, a number has no module if its entry has offset 0 and length 0. Allocates nothing.
    ///
    /// Only an indexed bundle has errors. They are checked in this order: `InvalidRamBundleIndex`
    /// if the number is not below `module_count`, `Scroll` if the entry passes the end of the
    /// bytes, `InvalidRamBundleEntry` if the entry has length 0 and an offset other than 0, and
    /// `Scroll` if the module, without its last byte, passes the end of the bytes.
    pub fn get_module(&self, id: usize) -> Result<Option<RamBundleModule<'_>>>
        ensures { Returns (option_map module_value) result (bundle_module self.now id) }
    {
        match &self.repr {
            RamBundleImpl::Indexed(indexed) => indexed.get_module(id),
            RamBundleImpl::Unbundle(files) => Ok(files.get_module(id)),
        }
    }

    /// Returns the count in the header of an indexed bundle. For a file bundle, returns one more
    /// than the greatest number of a module, or 1 if there is no module.
    pub fn module_count(&self) -> usize
        ensures { result ≡ bundle_count self.now }
    {
        match &self.repr {
            RamBundleImpl::Indexed(indexed) => indexed.module_count(),
            RamBundleImpl::Unbundle(files) => files.module_count(),
        }
    }

    /// Returns the startup code. Only an indexed bundle has an error: `Scroll` if the startup code
    /// passes the end of the bytes.
    pub fn startup_code(&self) -> Result<&[u8]>
        ensures { Returns (λ code. code.now) result (bundle_startup self.now) }
    {
        match &self.repr {
            RamBundleImpl::Indexed(indexed) => indexed.startup_code(),
            RamBundleImpl::Unbundle(files) => Ok(files.startup_code()),
        }
    }

    /// Iterates over the modules, by rising number. A number without a module is skipped. If
    /// reading a module fails, the item is the error.
    #[tactic(auto, using(crate::proofs::ModulesLemmas::modules_length))]
    pub fn iter_modules(&self) -> RamBundleModuleIter<'_>
        ensures left { modules_left result ≡ modules_of self.now }
        ensures bound { length (modules_left result) ≤ bundle_count self.now }
    {
        RamBundleModuleIter {
            bundle: self,
            next: 0,
            end: self.module_count(),
        }
    }

    /// Returns a copy. Bytes that the bundle borrows are borrowed again. The only error is
    /// `OutOfMemory`.
    pub fn clone(&self) -> Result<Self>
        ensures { Gives (λ bundle. bundle) result (Ok self.now) }
    {
        let repr = match &self.repr {
            RamBundleImpl::Indexed(indexed) => RamBundleImpl::Indexed(indexed.clone()?),
            RamBundleImpl::Unbundle(files) => RamBundleImpl::Unbundle(files.clone()?),
        };
        Ok(RamBundle { repr })
    }
}

/// The modules of a bundle that are still to come.
#[derive(Drop)]
pub struct RamBundleModuleIter<'a> {
    bundle: &'a RamBundle<'a>,
    next: usize,
    end: usize,
}

impl<'a> Iterator for RamBundleModuleIter<'a> {
    type Item = Result<RamBundleModule<'a>>;

    ghost use Rattle.std.specs.Iterator.{YieldsFirstBy, item_count};
    ghost use Rattle.sourcemap_bundles.specs.Iterators.{modules_left};
    ghost use Rattle.sourcemap_bundles.specs.Stored.{item_value};

    ghost next_gives = { YieldsFirstBy item_value modules_left };

    ghost remaining = { item_count modules_left };

    #[tactic(auto, using(crate::proofs::ModulesLemmas::modules_next, crate::proofs::ModulesLemmas::modules_end, crate::proofs::ModulesLemmas::modules_no_file))]
    fn next(&mut self) -> Option<Result<RamBundleModule<'a>>> {
        let bundle = self.bundle;
        let end = self.end;
        // In a file bundle, the module numbers may be far apart, so the iterator does not look up
        // every number.
        if let RamBundleImpl::Unbundle(files) = &bundle.repr {
            let found = files.module_from(self.next)?;
            if found.id() >= end {
                return None;
            }
            self.next = found.id() + 1;
            return Some(Ok(found));
        }
        for id in self.next..end {
            self.next = id + 1;
            match bundle.get_module(id) {
                Ok(None) => {}
                Ok(Some(found)) => return Some(Ok(found)),
                Err(e) => return Some(Err(e)),
            }
        }
        None
    }
}

/// Whether these bytes begin with the header of an indexed bundle: there are at least 12 bytes, and
/// the first 4 are the magic number of indexed bundles.
pub fn is_ram_bundle_slice(bytes: &[u8]) -> bool
    ensures { IsTrue result ↔ HasBundleHeader bytes.now }
{
    match RamBundleHeader::read(bytes) {
        Ok(header) => header.is_valid_magic(),
        Err(_) => false,
    }
}
