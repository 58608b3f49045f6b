//! References to source maps in generated texts, maps inside of `data:` references, and whether
//! bytes hold a map.

pub use sourcemap_index::embedded::EmbeddedSourceMap;
pub use sourcemap_records::detection::{is_sourcemap, is_sourcemap_slice};
pub use sourcemap_references::detector::{
    SourceMapRef, locate_sourcemap_reference, locate_sourcemap_reference_slice,
};
