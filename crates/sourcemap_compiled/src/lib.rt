//! Compiled maps: a file of bytes that is looked up where it lies. This crate has the format and the
//! reader. It knows bytes and tokens, and no other kind of map.
#![tactic(auto)]

mod blocks;
pub mod errors;
mod lookup;
pub mod map;
mod numbers;
mod search;
mod texts;
pub mod token;
mod verify;
