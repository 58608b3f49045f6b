//! The file name, the ignore list and the debug id of a map or of a builder.
ghost use Rattle.std.specs.Prelude.{◌≡◌, Ok, [], option_map, string_bytes};
ghost use Rattle.std.specs.Bool.{Decides};
ghost use Rattle.std.specs.BTreeSet.{insert_key};
ghost use Rattle.std.specs.Cmp.{partial_equiv_from_equiv};
ghost use Rattle.std.specs.List.Sorted.{IsStrictlySortedBy};
ghost use Rattle.std.specs.Option.{option_copied};
ghost use Rattle.std.specs.Ordering.{nat_cmp};
ghost use Rattle.sourcemap_errors.specs.Answer.{Gives, Changes};
ghost use Rattle.sourcemap_map_parts.specs.MapMetadata.{metadata_of_file, same_metadata, same_metadata_equiv};

use crate::text_lists::{copy_string, same_optional_texts};
use sourcemap_errors::errors::Result;
use sourcemap_headers::debug_id::DebugId;
use sourcemap_texts::copies::copy_text;
use std::alloc::Global;
use std::collections::BTreeSet;
use std::marker::Model;

/// The name of the generated file, the ids of the sources on the ignore list, and the debug id.
#[derive(Debug)]
pub struct MapMetadata {
    file: Option<String>,
    ignored: BTreeSet<u32>,
    debug_id: Option<DebugId>,
}

impl Model for MapMetadata {
    ghost use Rattle.std.specs.Prelude.{option_map, string_bytes};
    ghost use Rattle.sourcemap_map_parts.specs.MapMetadata.{MetadataValue};

    ghost Value = { MetadataValue };

    ghost view = { λ a. record {
      file = option_map string_bytes a.file;
      ignored = a.ignored.keys;
      debug_id = a.debug_id;
    } };
}

// prover: one drop
impl Drop for MapMetadata {
    fn drop(self) {
        let MapMetadata {
            file: _,
            ignored: _,
            debug_id: _,
        } = self;
    }
}

impl MapMetadata {
    /// Metadata with `file` as the file name, an empty ignore list and no debug id.
    pub fn new(alloc: Global, file: Option<String>) -> MapMetadata
        ensures { result ≡ metadata_of_file (option_map string_bytes file) }
    {
        MapMetadata {
            file,
            ignored: BTreeSet::new(alloc),
            debug_id: None,
        }
    }

    /// Metadata with these three fields.
    pub fn with(
        file: Option<String>,
        ignored: BTreeSet<u32>,
        debug_id: Option<DebugId>,
    ) -> MapMetadata
        ensures { result ≡ record {
          file = option_map string_bytes file;
          ignored = ignored.keys;
          debug_id = debug_id;
        } }
    {
        MapMetadata {
            file,
            ignored,
            debug_id,
        }
    }

    /// The name of the generated file.
    pub fn file(&self) -> Option<&str>
        ensures { option_copied result ≡ self.now.file }
    {
        match &self.file {
            None => None,
            Some(file) => Some(file.as_str()),
        }
    }

    /// Sets or clears the file name. The only error is `OutOfMemory`, and then nothing changes.
    pub fn set_file(&mut self, alloc: Global, file: Option<&str>) -> Result<()>
        ensures { Changes result self.old self.new
            (record self.old { file = option_copied file.entry }) }
    {
        self.file = copy_text(alloc, file)?;
        Ok(())
    }

    /// The id that the generated file and its map share.
    pub fn debug_id(&self) -> Option<DebugId>
        ensures { result ≡ self.now.debug_id }
    {
        self.debug_id
    }

    /// Sets or clears the debug id.
    pub fn set_debug_id(&mut self, debug_id: Option<DebugId>)
        ensures { self.new ≡ record self.old { debug_id = debug_id } }
    {
        self.debug_id = debug_id;
    }

    /// Adds a source id to the ignore list, even if no source has this id. The only error is
    /// `OutOfMemory`, and then nothing changes.
    pub fn ignore(&mut self, id: u32) -> Result<()>
        ensures { Changes result self.old self.new (record self.old {
          ignored = insert_key nat_cmp self.old.ignored id;
        }) }
    {
        self.ignored.insert(id)?;
        Ok(())
    }

    /// The source ids on the ignore list, in increasing order.
    pub fn ignore_list(&self) -> &BTreeSet<u32>
        ensures ids { result.now.keys ≡ self.now.ignored }
        ensures rising { IsStrictlySortedBy nat_cmp self.now.ignored }
    {
        // prover: keys are sorted
        let _ = self.ignored.iter();
        &self.ignored
    }

    /// The metadata with an empty ignore list.
    pub fn without_ignored(self, alloc: Global) -> MapMetadata
        ensures { result ≡ record self { ignored = [] } }
    {
        let MapMetadata {
            file,
            ignored: _ignored,
            debug_id,
        } = self;
        MapMetadata {
            file,
            ignored: BTreeSet::new(alloc),
            debug_id,
        }
    }

    /// The file name, the ignore list and the debug id.
    pub fn into_parts(self) -> (Option<String>, BTreeSet<u32>, Option<DebugId>)
        ensures file { option_map string_bytes result.0 ≡ self.file }
        ensures ignored { result.1.keys ≡ self.ignored }
        ensures debug_id { result.2 ≡ self.debug_id }
    {
        let MapMetadata {
            file,
            ignored,
            debug_id,
        } = self;
        (file, ignored, debug_id)
    }

    /// Copies all fields. The only error is `OutOfMemory`.
    pub fn clone(&self, alloc: Global) -> Result<MapMetadata>
        ensures { Gives (λ h. h) result (Ok self.now) }
    {
        Ok(MapMetadata {
            file: copy_string(alloc, &self.file)?,
            ignored: self.ignored.clone()?,
            debug_id: self.debug_id,
        })
    }
}

fn are_same(a: &MapMetadata, b: &MapMetadata) -> bool
    ensures { result ≡ same_metadata a.now b.now }
{
    let file = same_optional_texts(&a.file, &b.file);
    let ignored = a.ignored == b.ignored;
    let debug_id = a.debug_id == b.debug_id;
    // prover: `&` leaves one goal
    file & ignored & debug_id
}

/// Two values are equal exactly if their file names, their ignore lists and their debug ids are
/// equal.
impl PartialEq for MapMetadata {
    ghost eq = { same_metadata };

    ghost laws = { partial_equiv_from_equiv same_metadata_equiv };

    fn eq(&self, other: &Self) -> bool
        ensures value { result ≡ same_metadata self.now other.now }
        ensures same { Decides result (self.now ≡ other.now) }
    {
        are_same(self, other)
    }
}
