//! Maps of every kind as values: their meaning, their flattened map, the records that they are
//! decoded from and written as. This crate has definitions and laws but no code, and knows nothing
//! of the types that hold index maps in memory.
#![tactic(auto)]

pub mod laws;
