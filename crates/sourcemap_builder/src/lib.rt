//! Builds a regular map, token by token; knows nothing of the JSON form of maps.
#![tactic(auto)]

pub mod builder;
