//! Finds the closest token through a table of lines and counts the comparisons; knows nothing of the
//! map of the tokens.
#![tactic(auto)]

pub mod line_index;
pub mod probe;
mod samples;
pub mod token_list;
