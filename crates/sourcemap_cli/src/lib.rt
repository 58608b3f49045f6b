//! The commands of the program: their words, and what a run prints for a map. The crate knows
//! nothing of how maps are stored, and nothing of the process but its words, files and streams.
#![tactic(auto)]

pub mod checking;
mod checks;
pub mod command;
pub mod compiled;
mod files;
pub mod maps;
pub mod output;
pub mod program;
pub mod system;
