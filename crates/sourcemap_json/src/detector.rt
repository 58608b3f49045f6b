//! References to source maps in generated texts, and detection of source maps.

pub use sourcemap_records::detection::{is_sourcemap, is_sourcemap_slice};
pub use sourcemap_references::detector::{
    SourceMapRef, locate_sourcemap_reference, locate_sourcemap_reference_slice,
};
