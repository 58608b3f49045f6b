//! Says which sources and names of a regular map look wrong, though the map is valid; knows nothing
//! of positions.
#![tactic(auto)]

pub mod contents;
pub mod lists;
mod marks;
