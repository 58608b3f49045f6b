//! Views of source texts: lines, slices, function names, and the reference to a map.

pub use sourcemap_references::detector::SourceMapRef;
pub use sourcemap_source_views::sourceview::{Lines, SourceView};
pub use sourcemap_source_views::walk::{RevTokenIter, WalkedToken};
