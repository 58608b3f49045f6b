//! Numbers texts in the order in which they first occur, with at most some n log n comparisons for n
//! texts, even if their hashes collide; knows nothing of maps.
#![tactic(auto)]

pub mod interner;
mod overflow;
mod slots;
pub mod text;
pub mod text_index;
