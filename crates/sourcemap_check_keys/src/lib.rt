//! Checks the keys of a map, and of its sections, against the rules of ECMA-426; knows nothing of
//! segments.
#![tactic(auto)]

pub mod map_rules;
pub mod section_rules;
pub mod values;
