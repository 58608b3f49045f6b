//! Types for the sources, the contents and the metadata of a map or a builder; knows nothing of a
//! whole map.
#![tactic(auto)]

pub mod contents;
pub mod fitting;
pub mod metadata;
pub mod sources;
pub mod text_lists;
