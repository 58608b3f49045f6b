//! RAM bundles: JavaScript modules in one indexed file, or in a folder of files. This crate knows
//! nothing of source maps.
#![tactic(auto)]

pub mod bundle;
mod indexed;
mod modules;
pub mod ram_bundle;
mod unbundle;
