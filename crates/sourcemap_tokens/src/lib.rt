//! Tokens and their order, the item closest to a key, and items by id; knows nothing of the texts
//! behind the ids.
#![tactic(auto)]

pub mod items;
pub mod search;
pub mod tokens;
