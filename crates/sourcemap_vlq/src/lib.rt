//! Base64 digits, as VLQ numbers and as the bits of range mappings; knows nothing of what the
//! numbers mean.
#![tactic(auto)]

pub mod bits;
pub mod vlq;
