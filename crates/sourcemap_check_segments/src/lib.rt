//! Checks the text `mappings` against the rules of ECMA-426; knows nothing of JSON, nor of tokens.
#![tactic(auto)]

pub mod check;
pub mod last;
pub mod laws;
mod segment;
mod sums;
