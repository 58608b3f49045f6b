//! An index map: its constructors, getters and setters.
ghost use Rattle.std.specs.Prelude.{◌≡◌, ◌≢◌, None, Ok, length, map, min, option_map, slice_get, string_bytes};
ghost use Rattle.std.specs.Bool.{Decides};
ghost use Rattle.std.specs.Option.{option_copied};
ghost use Rattle.std.specs.Borrow.{sem};
ghost use Rattle.sourcemap_errors.specs.Answer.{Changes};
ghost use Rattle.sourcemap_records.specs.Jsontypes.{text_view};

use crate::family::{SourceMapIndex, SourceMapSection};
use crate::section::SourceMapSectionIter;
use sourcemap_errors::errors::Result;
use sourcemap_headers::debug_id::DebugId;
use sourcemap_texts::copies::copy_text;
use std::alloc::Global;

impl SourceMapIndex {
    ghost use Rattle.sourcemap_index.specs.Family.{index_value, section_value};
    ghost use Rattle.sourcemap_index.specs.Index.{index_made, with_file, with_debug_id, LendsSection};
    ghost use Rattle.sourcemap_index.specs.Section.{sections_left};

    /// An index map with these sections. The debug id, `x_facebook_offsets` and
    /// `x_metro_module_paths` are `None`. Lookups require sections sorted by offset.
    pub fn new(alloc: Global, file: Option<String>, sections: Vec<SourceMapSection>) -> Self
        ensures { index_value result
            ≡ index_made (text_view file) (map section_value sections.items) None None }
    {
        SourceMapIndex::new_ram_bundle_compatible(alloc, file, sections, None, None)
    }

    /// An index map with these sections and the two lists of a RAM bundle. The debug id is `None`.
    /// Item `n` of `x_facebook_offsets` is the line, counted from 0, at which module `n` of the
    /// bundle starts, or `None` if there is no module `n`. `x_metro_module_paths` has the path of
    /// each module.
    pub fn new_ram_bundle_compatible(
        alloc: Global,
        file: Option<String>,
        sections: Vec<SourceMapSection>,
        x_facebook_offsets: Option<Vec<Option<u32>>>,
        x_metro_module_paths: Option<Vec<String>>,
    ) -> Self
        ensures { index_value result ≡ index_made (text_view file)
            (map section_value sections.items)
            (option_map (λ v. v.items) x_facebook_offsets)
            (option_map (λ v. map string_bytes v.items) x_metro_module_paths) }
    {
        SourceMapIndex {
            file,
            debug_id: None,
            sections,
            x_facebook_offsets,
            x_metro_module_paths,
            alloc,
        }
    }

    /// The name of the generated file.
    pub fn get_file(&self) -> Option<&str>
        ensures { option_copied result ≡ (index_value self.now).parts.file }
    {
        self.file.as_deref()
    }

    /// Sets the name of the generated file. The only error is `OutOfMemory`; the index map is then
    /// unchanged.
    pub fn set_file(&mut self, file: Option<&str>) -> Result<()>
        ensures { Changes result (index_value self.old) (index_value self.new)
            (with_file (index_value self.old) (option_copied file.entry)) }
    {
        self.file = copy_text(self.alloc, file)?;
        Ok(())
    }

    pub(crate) fn debug_id(&self) -> Option<DebugId>
        ensures { result ≡ (index_value self.now).parts.debug_id }
    {
        self.debug_id
    }

    pub(crate) fn set_debug_id(&mut self, debug_id: Option<DebugId>)
        ensures { index_value self.new ≡ with_debug_id (index_value self.old) debug_id }
    {
        self.debug_id = debug_id;
    }

    /// The number of sections; 4294967295 if there are more.
    pub fn get_section_count(&self) -> u32
        ensures { result ≡ min (length (index_value self.now).sections) 4294967295 }
    {
        u32::try_from(self.sections.len()).unwrap_or(u32::MAX)
    }

    /// The section with the index `id`, counted from 0. `None` if there is no such section.
    pub fn get_section(&self, id: u32) -> Option<&SourceMapSection>
        ensures { option_map (λ s. section_value s.now) result
            ≡ slice_get (index_value self.now).sections id }
    {
        self.sections.get(id as usize)
    }

    /// The section with the index `id`, counted from 0, borrowed mutably. `None` if there is no
    /// such section.
    pub fn get_section_mut(&mut self, id: u32) -> Option<&mut SourceMapSection>
        ensures* writes_back { sem 𝓛 (LendsSection self.entry id result) }
        ensures value { option_map (λ s. section_value s.now) result
            ≡ slice_get (index_value self.old).sections id }
    {
        self.sections.get_mut(id as usize)
    }

    /// The sections, in their order.
    pub fn sections(&self) -> SourceMapSectionIter<'_>
        ensures { sections_left result ≡ (index_value self.now).sections }
    {
        SourceMapSectionIter {
            sections: self.sections.as_slice(),
        }
    }

    /// Whether the index map has both lists of a RAM bundle, `x_facebook_offsets` and
    /// `x_metro_module_paths`.
    pub fn is_for_ram_bundle(&self) -> bool
        ensures { Decides result (((index_value self.now).parts.x_facebook_offsets ≢ None)
            × ((index_value self.now).parts.x_metro_module_paths ≢ None)) }
    {
        // prover: `&` leaves one goal
        self.x_facebook_offsets.is_some() & self.x_metro_module_paths.is_some()
    }

    /// The lines at which the modules of a bundle start. Item `n` is the line, counted from 0, at
    /// which module `n` starts, or `None` if there is no module `n`. The result is `None` if the
    /// index map has no such list.
    pub fn x_facebook_offsets(&self) -> Option<&[Option<u32>]>
        ensures { option_map (λ xs. xs.now) result
            ≡ (index_value self.now).parts.x_facebook_offsets }
    {
        self.x_facebook_offsets.as_deref()
    }

    /// The path of each module of a bundle: item `n` for module `n`. `None` if the index map has no
    /// list of module paths.
    pub fn x_metro_module_paths(&self) -> Option<&[String]>
        ensures { option_map (λ xs. map string_bytes xs.now) result
            ≡ (index_value self.now).parts.x_metro_module_paths }
    {
        self.x_metro_module_paths.as_deref()
    }
}
