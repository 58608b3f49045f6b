//! Composes the tokens of two maps, where the generated text of one is the source text of the other;
//! knows nothing of the texts.
#![tactic(auto)]

mod block_sort;
pub mod composition;
pub mod moved;
pub mod stretches;
