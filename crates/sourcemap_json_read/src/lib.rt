//! Reads JSON texts to JSON values, with a fast path for the forms that source maps have. The caller
//! says which members are kept; this crate knows nothing of what they mean.
#![tactic(auto)]

pub mod blocks;
mod bytes;
mod cursor;
mod escapes;
mod exact;
mod filling;
pub mod kept;
mod levels;
mod numbers;
pub mod runs;
mod stop;
mod strings;
mod values;
mod words;
