//! Converts the JSON record of a regular map to the parts of the map, and back; knows nothing of
//! `SourceMap`.
#![tactic(auto)]

pub mod from_record;
pub mod parts;
pub mod to_record;
