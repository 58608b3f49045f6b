//! What a page calls of the library, compiled to WebAssembly. The page owns the memory: these exports
//! read bytes in it, write their results to it, and allocate nothing. They know nothing of maps that
//! are not compiled.
#![tactic(auto)]

pub mod compiled;
pub mod segments;
pub mod texts;
