//! Checks whether bytes are a valid map by ECMA-426.
#![tactic(auto)]

pub mod check;
mod keys;
pub mod laws;
mod levels;
mod sections;
pub mod tree;
