//! Writes the parts of a regular map as compact JSON in pieces, through a small buffer. It knows no
//! type of map.
#![tactic(auto)]

mod buffered;
pub mod encode;
mod members;
mod ranges;
pub mod segments;
mod texts;
