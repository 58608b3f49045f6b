//! Hermes maps, which are regular maps with the functions of their sources; knows nothing of index
//! maps.
#![tactic(auto)]

mod clone;
pub mod decode;
mod deref;
pub mod encode;
mod equality;
pub mod map;
pub mod rewrite;
