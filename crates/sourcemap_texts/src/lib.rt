//! Copies of strings, the common prefix of paths, and stripped prefixes; knows nothing of maps.
#![tactic(auto)]

pub mod copies;
pub mod paths;
pub mod prefixes;
