//! What the C library does with the bytes of compiled maps. Each call reads the caller's bytes where
//! they lie; it knows nothing of handles. `sourcemap_c` exports these calls.
#![tactic(auto)]

pub mod checks;
mod codes;
pub mod compiling;
pub mod counts;
pub mod lookups;
pub mod texts;
