//! The rules of ECMA-426 with their codes, and reports of findings; knows nothing of maps.
#![tactic(auto)]

pub mod report;
pub mod rules;
