//! Flattening: maps are concatenated, each at its offset, to one map that has each source and each
//! name once. This crate knows nothing of the types of index maps and of their sections.
#![tactic(auto)]

mod entries;
pub mod errors;
pub mod gathering;
mod moving;
pub mod positions;
mod table;
