//! A section of an index map: its getters and setters, and the iterator over sections.
ghost use Rattle.std.specs.Prelude.{◌≡◌, Ok, option_map};
ghost use Rattle.std.specs.Option.{option_copied};
ghost use Rattle.std.specs.Borrow.{sem};
ghost use Rattle.sourcemap_errors.specs.Answer.{Gives, Changes};
ghost use Rattle.sourcemap_records.specs.Jsontypes.{text_view};
ghost use Rattle.sourcemap_index_model.specs.MapTree.{section_offset};

use crate::family::{DecodedMap, SourceMapSection};
use sourcemap_errors::errors::Result;
use sourcemap_texts::copies::copy_text;
use std::alloc::Global;

fn box_map(alloc: Global, map: Option<DecodedMap>) -> Result<Option<Box<DecodedMap>>>
    ensures { Gives (λ kept. option_map (λ b. b.value) kept) result (Ok map) }
{
    match map {
        Some(map) => Ok(Some(Box::new(alloc, map)?)),
        None => Ok(None),
    }
}

impl SourceMapSection {
    ghost use Rattle.sourcemap_index.specs.Family.{map_tree, section_value};
    ghost use Rattle.sourcemap_index.specs.Section.{section_made, with_url, with_map, LendsMap};

    /// A section that starts at `offset`, a generated line and column. `url` is the URL of the
    /// section's map. `url`, `map` or both can be `None`. The only error is `OutOfMemory`.
    pub fn new(
        alloc: Global,
        offset: (u32, u32),
        url: Option<String>,
        map: Option<DecodedMap>,
    ) -> Result<Self>
        ensures { Gives section_value result
            (Ok (section_made offset (text_view url) (option_map map_tree map))) }
    {
        let map = box_map(alloc, map)?;
        Ok(SourceMapSection {
            offset,
            url,
            map,
            alloc,
        })
    }

    /// The line, from 0, on which the section starts.
    pub fn get_offset_line(&self) -> u32
        ensures { result ≡ (section_value self.now).head.line }
    {
        self.offset.0
    }

    /// The column, from 0 and in UTF-16 units, at which the section starts.
    pub fn get_offset_col(&self) -> u32
        ensures { result ≡ (section_value self.now).head.column }
    {
        self.offset.1
    }

    /// The line and the column at which the section starts, both from 0, the column in UTF-16
    /// units.
    pub fn get_offset(&self) -> (u32, u32)
        ensures { result ≡ section_offset (section_value self.now) }
    {
        self.offset
    }

    /// The URL of the section's map. `None` if the section has no URL.
    pub fn get_url(&self) -> Option<&str>
        ensures { option_copied result ≡ (section_value self.now).head.url }
    {
        self.url.as_deref()
    }

    /// Sets the URL of the section's map. The only error is `OutOfMemory`; the section is then
    /// unchanged.
    pub fn set_url(&mut self, url: Option<&str>) -> Result<()>
        ensures { Changes result (section_value self.old) (section_value self.new)
            (with_url (section_value self.old) (option_copied url.entry)) }
    {
        self.url = copy_text(self.alloc, url)?;
        Ok(())
    }

    /// The map of the section, if it has one.
    pub fn get_sourcemap(&self) -> Option<&DecodedMap>
        ensures { option_map (λ m. map_tree m.now) result ≡ (section_value self.now).map }
    {
        self.map.as_deref()
    }

    /// The map of the section, borrowed mutably. `None` if the section has no map.
    pub fn get_sourcemap_mut(&mut self) -> Option<&mut DecodedMap>
        ensures* writes_back { sem 𝓛 (LendsMap self.entry result) }
        ensures value { option_map (λ m. map_tree m.now) result ≡ (section_value self.old).map }
    {
        match &mut self.map {
            Some(map) => Some(&mut **map),
            None => None,
        }
    }

    /// Sets the map of the section. The only error is `OutOfMemory`; the section is then unchanged,
    /// and the given map is dropped.
    pub fn set_sourcemap(&mut self, map: Option<DecodedMap>) -> Result<()>
        ensures { Changes result (section_value self.old) (section_value self.new)
            (with_map (section_value self.old) (option_map map_tree map)) }
    {
        self.map = box_map(self.alloc, map)?;
        Ok(())
    }
}

/// The sections of an index map, in their order.
#[derive(Drop)]
pub struct SourceMapSectionIter<'a> {
    pub(crate) sections: &'a [SourceMapSection],
}

impl<'a> Iterator for SourceMapSectionIter<'a> {
    type Item = &'a SourceMapSection;

    ghost use Rattle.std.specs.Iterator.{YieldsFirstBy, item_count};
    ghost use Rattle.sourcemap_index.specs.Family.{section_value};
    ghost use Rattle.sourcemap_index.specs.Section.{sections_left};

    ghost next_gives = { YieldsFirstBy (λ s. section_value s.now) sections_left };

    ghost remaining = { item_count sections_left };

    fn next(&mut self) -> Option<&'a SourceMapSection> {
        let (first, rest) = self.sections.split_first()?;
        self.sections = rest;
        Some(first)
    }
}
