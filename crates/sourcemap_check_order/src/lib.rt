//! Says what looks wrong in the texts `mappings` and `rangeMappings`; knows nothing of JSON, nor of
//! tokens.
#![tactic(auto)]

pub mod laws;
pub mod order;
pub mod ranges;
