//! Writes JSON values as compact JSON texts; knows nothing of what the values mean.
#![tactic(auto)]

mod quoting;
mod short;
pub mod writing;
