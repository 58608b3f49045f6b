//! A symbolicator: looks up lists of generated positions in a map, decoded or compiled. It knows
//! nothing of how a map is stored or decoded: the proof of `trace_text_from` uses only the contracts
//! of `lookup_token` and those of the parts and the printing of a token.
#![tactic(auto)]

mod asked;
mod positions;
pub mod trace;

pub use asked::{AskedMap, push_original};
pub use positions::Counting;
pub use trace::{push_found, trace_text, trace_text_from};
