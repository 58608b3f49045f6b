//! Says which tokens of a regular map look wrong, though the map is valid: by themselves, and by the
//! texts of its sources. Compares it with the generated text.
#![tactic(auto)]

mod checkpoints;
pub mod generated;
pub mod shifts;
mod sources;
mod spots;
pub mod tokens;
