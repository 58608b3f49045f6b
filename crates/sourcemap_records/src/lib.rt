//! Records of source maps, which are read from JSON values and written as JSON values key by key,
//! and the detection of maps by their keys. This crate knows nothing of tokens, nor of what the
//! texts of a record mean.
#![tactic(auto)]

pub mod bytes;
mod copy;
pub mod detection;
mod field;
mod field_types;
mod from_json;
pub mod jsontypes;
mod keys;
mod levels;
mod to_json;
