//! A facade of source maps, under the names of the Rust crate `sourcemap`; knows nothing of C and of
//! command lines.
#![tactic(auto)]

pub mod decoder;
pub mod detector;
pub mod hermes;
pub mod laws;
pub mod ram_bundle;
pub mod types;

pub use decoder::{decode, decode_data_url, decode_slice};
pub use detector::{
    SourceMapRef, is_sourcemap, is_sourcemap_slice, locate_sourcemap_reference,
    locate_sourcemap_reference_slice,
};
pub use hermes::SourceMapHermes;
pub use sourcemap_core::utils::make_relative_path;
pub use sourcemap_core::{compose, errors, js_identifiers, places, utils, vlq};
pub use sourcemap_errors::errors::{Error, Result};
pub use sourcemap_maps::builder::SourceMapBuilder;
pub use sourcemap_maps::{builder, encoder, sourceview};
pub use sourcemap_records::jsontypes;
pub use sourceview::SourceView;
pub use types::{
    DecodedMap, NameIter, RawToken, RewriteOptions, SourceContentsIter, SourceIter, SourceMap,
    SourceMapIndex, SourceMapSection, SourceMapSectionIter, Token, TokenIter,
};
