//! Builds maps token by token.

pub use sourcemap_builder::builder::SourceMapBuilder;
