//! Decodes and encodes `mappings` and `rangeMappings`; knows nothing of the sources and names but
//! their counts.
#![tactic(auto)]

pub mod buffer;
pub mod read;
pub mod segment;
pub mod write;
