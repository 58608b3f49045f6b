//! The parts of a regular map.
use sourcemap_line_index::token_list::TokenList;
use sourcemap_map_parts::contents::Contents;
use sourcemap_map_parts::metadata::MapMetadata;
use sourcemap_map_parts::sources::Sources;

/// The parts of a regular map.
#[derive(Debug, Drop)]
pub struct Parts {
    /// The file name, the ignore list and the debug id.
    pub metadata: MapMetadata,
    /// The tokens in order.
    pub tokens: TokenList,
    /// The names, by id.
    pub names: Vec<String>,
    /// The sources and their root.
    pub sources: Sources,
    /// The contents of the sources.
    pub contents: Contents,
}
