//! The mutually recursive types `DecodedMap` (a map of any kind), `SourceMapIndex` (an index map)
//! and `SourceMapSection` (a section of an index map).
use sourcemap_headers::debug_id::DebugId;
use sourcemap_hermes::map::SourceMapHermes;
use sourcemap_map_regular::map::SourceMap;
use std::alloc::Global;

/// A section of an index map. It starts at its offset, which is a generated line and column. Its
/// map is for the generated text from the offset on, and its URL is the URL of that map. A section
/// can lack the map, the URL or both. Lines and columns count from 0, columns in UTF-16 units.
#[derive(Debug, Drop)]
#[cycle(family)]
pub struct SourceMapSection {
    pub(crate) offset: (u32, u32),
    pub(crate) url: Option<String>,
    pub(crate) map: Option<Box<DecodedMap>>,
    pub(crate) alloc: Global,
}

/// An index map: a list of sections. Each section may have the map of its part of the generated
/// text.
#[derive(Debug, Drop)]
#[cycle(family)]
pub struct SourceMapIndex {
    pub(crate) file: Option<String>,
    pub(crate) debug_id: Option<DebugId>,
    pub(crate) sections: Vec<SourceMapSection>,
    pub(crate) x_facebook_offsets: Option<Vec<Option<u32>>>,
    pub(crate) x_metro_module_paths: Option<Vec<String>>,
    pub(crate) alloc: Global,
}

/// A map of any kind. Lines and columns count from 0, columns in UTF-16 units.
#[derive(Debug, Drop)]
#[cycle(family)]
pub enum DecodedMap {
    /// A regular map.
    Regular(SourceMap),
    /// An index map.
    Index(SourceMapIndex),
    /// A Hermes map: a regular map and the function maps of its sources.
    Hermes(SourceMapHermes),
}
