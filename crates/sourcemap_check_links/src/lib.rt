//! Says where a generated text names another map: by its debug id, or by its reference; knows
//! nothing of what the maps contain.
#![tactic(auto)]

pub mod links;
