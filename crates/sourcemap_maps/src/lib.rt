//! A facade of regular maps and their builder; knows nothing of Hermes and index maps.
#![tactic(auto)]

pub mod builder;
pub mod decoder;
pub mod encoder;
pub mod laws;
pub mod sourceview;
pub mod types;

pub use sourcemap_core::{compose, errors};
pub use sourcemap_records::jsontypes;
