//! The scopes of the sources of Hermes maps, with the function at an original position; knows
//! nothing of a whole map.
#![tactic(auto)]

pub mod function_map;
pub mod offsets;
mod picks;
pub mod scope_lists;
pub mod source_scopes;
