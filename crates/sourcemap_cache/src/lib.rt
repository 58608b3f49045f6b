//! Compiled maps: compiles maps of any kind, and re-exports the reader of what is compiled; knows
//! nothing of C and of command lines.
#![tactic(auto)]

pub mod compiling;
pub mod errors;
pub mod laws;
pub mod parts;
mod scopes;
mod texts;

pub use compiling::compile;
pub use errors::CompileError;
pub use parts::WithContents;
pub use sourcemap_compiled::errors::CompiledMapError;
pub use sourcemap_compiled::map::CompiledMap;
pub use sourcemap_compiled::token::CompiledToken;
