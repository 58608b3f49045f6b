//! Maps of any kind, their tokens and iterators.

pub use sourcemap_index::family::{DecodedMap, SourceMapIndex, SourceMapSection};
pub use sourcemap_index::section::SourceMapSectionIter;
pub use sourcemap_maps::types::{
    IgnoreListIter, MapLists, NameIter, RewriteOptions, SourceContentsIter, SourceIter, SourceMap,
    Token, TokenIter,
};
pub use sourcemap_tokens::tokens::RawToken;
