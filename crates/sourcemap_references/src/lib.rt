//! Finds the references to source maps in generated code and resolves them; knows nothing of what
//! the maps contain.
#![tactic(auto)]

pub mod detector;
mod lines;
