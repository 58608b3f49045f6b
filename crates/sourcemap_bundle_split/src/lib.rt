//! Splits a bundle into its modules, with the text and the map of each; knows nothing of the JSON
//! form of maps.
#![tactic(auto)]

mod id_numbers;
pub mod laws;
mod lines;
mod module_maps;
pub mod split;
