//! Regular maps, their tokens and iterators, and the options of `rewrite`.

pub use sourcemap_map_regular::iterators::{
    IgnoreListIter, NameIter, SourceContentsIter, SourceIter, TokenIter,
};
pub use sourcemap_map_regular::lists::MapLists;
pub use sourcemap_map_regular::map::SourceMap;
pub use sourcemap_map_regular::token::Token;
pub use sourcemap_map_rewrite::options::RewriteOptions;
pub use sourcemap_tokens::tokens::RawToken;
