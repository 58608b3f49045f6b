//! Copies maps of any kind, index maps, and sections.
ghost use Rattle.std.specs.Prelude.{Ok, map, option_map};
ghost use Rattle.sourcemap_errors.specs.Answer.{Gives};
ghost use Rattle.sourcemap_index.specs.Family.{index_value, map_tree, section_value};

use crate::family::{DecodedMap, SourceMapIndex, SourceMapSection};
use sourcemap_errors::errors::Result;
use sourcemap_map_parts::text_lists::{copy_optional_texts, copy_string};
use std::alloc::Global;

pub(crate) fn copy_lines(
    alloc: Global,
    lines: &Option<Vec<Option<u32>>>,
) -> Result<Option<Vec<Option<u32>>>>
    ensures { Gives (option_map (λ v. v.items)) result (Ok (option_map (λ v. v.items) lines.now)) }
{
    match lines {
        None => Ok(None),
        Some(lines) => {
            let mut copies = Vec::with_capacity(alloc, lines.len())?;
            copies.extend_from_slice(lines.as_slice())?;
            Ok(Some(copies))
        }
    }
}

impl SourceMapSection {
    /// An equal section, with a copy of its map. The only error is `OutOfMemory`.
    #[cycle(clone)]
    pub fn clone(&self) -> Result<Self>
        ensures { Gives section_value result (Ok (section_value self.now)) }
    {
        let map = match &self.map {
            Some(map) => Some(Box::new(self.alloc, (**map).clone()?)?),
            None => None,
        };
        let url = copy_string(self.alloc, &self.url)?;
        Ok(SourceMapSection {
            offset: self.offset,
            url,
            map,
            alloc: self.alloc,
        })
    }
}

#[cycle(clone)]
fn copy_sections(alloc: Global, sections: &Vec<SourceMapSection>) -> Result<Vec<SourceMapSection>>
    ensures { Gives (λ v. map section_value v.items) result
        (Ok (map section_value sections.now.items)) }
{
    let mut copies = Vec::with_capacity(alloc, sections.len())?;
    for section in sections {
        copies.push(section.clone()?)?;
    }
    Ok(copies)
}

impl SourceMapIndex {
    /// An equal index map, with copies of its sections and their maps. The only error is
    /// `OutOfMemory`.
    #[cycle(clone)]
    pub fn clone(&self) -> Result<Self>
        ensures { Gives index_value result (Ok (index_value self.now)) }
    {
        let file = copy_string(self.alloc, &self.file)?;
        let sections = copy_sections(self.alloc, &self.sections)?;
        let x_facebook_offsets = copy_lines(self.alloc, &self.x_facebook_offsets)?;
        let x_metro_module_paths = copy_optional_texts(self.alloc, &self.x_metro_module_paths)?;
        Ok(SourceMapIndex {
            file,
            debug_id: self.debug_id,
            sections,
            x_facebook_offsets,
            x_metro_module_paths,
            alloc: self.alloc,
        })
    }
}

impl DecodedMap {
    /// An equal map, of the same kind. The only error is `OutOfMemory`.
    #[cycle(clone)]
    pub fn clone(&self) -> Result<Self>
        ensures { Gives map_tree result (Ok (map_tree self.now)) }
    {
        match self {
            DecodedMap::Regular(map) => Ok(DecodedMap::Regular(map.clone()?)),
            DecodedMap::Index(index) => Ok(DecodedMap::Index(index.clone()?)),
            DecodedMap::Hermes(map) => Ok(DecodedMap::Hermes(map.clone()?)),
        }
    }
}
