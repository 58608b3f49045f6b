//! Regular source maps, with lookups, setters, decoding, encoding, adjusting and rewriting; knows
//! nothing of Hermes and index maps.
#![tactic(auto)]

mod adjust;
mod changes;
mod clone;
pub mod decode;
pub mod encode;
mod equality;
pub mod iterators;
pub mod lists;
pub mod map;
pub mod rewrite;
pub mod token;
mod token_order;
mod walk;
pub mod write;
