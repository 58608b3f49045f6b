//! What looks wrong in the map of a text, though the map is valid: the findings of all doubts in one
//! list. An index map is looked at as its flat map.
#![tactic(auto)]

mod adding;
pub mod codes;
pub mod reading;
pub mod shifted;
pub mod suspects;
