//! The steps of `rewrite` on the lists of a map, from dropped sources and names to loaded contents
//! and stripped prefixes; knows nothing of `SourceMap`.
#![tactic(auto)]

mod cut_sources;
mod first_ids;
mod kept_contents;
mod kept_texts;
mod loaded_contents;
mod numbering;
pub mod options;
mod renumbering;
pub mod rewritten;
