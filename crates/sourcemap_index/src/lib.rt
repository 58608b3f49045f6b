//! Source maps of any kind and their methods. The maps are decoded from records, JSON values, bytes,
//! data URLs and references. This crate knows nothing of the bytes of RAM bundles.
#![tactic(auto)]

mod clone;
pub mod decode;
mod decode_index;
pub mod decoded_map;
pub mod embedded;
pub mod encode;
mod equality;
pub mod family;
pub mod flatten;
pub mod index;
pub mod laws;
pub mod lookup;
pub mod names;
mod rows;
pub mod section;
