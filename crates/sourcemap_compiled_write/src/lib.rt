//! Writes compiled maps: from tokens, scopes and texts to the bytes of the file. This crate knows
//! bytes, tokens and texts, and no type of map.
#![tactic(auto)]

mod blocks;
pub mod errors;
pub mod laws;
mod packing;
pub mod parts;
mod texts;
pub mod write;
