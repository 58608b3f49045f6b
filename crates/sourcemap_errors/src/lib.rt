//! The error type and the definitions of what a call may return; knows nothing of maps.
#![tactic(auto)]

pub mod errors;
