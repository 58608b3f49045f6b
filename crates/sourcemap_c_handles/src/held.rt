//! The values that a handle can hold.
use crate::report::CheckReport;
use sourcemap_builder::builder::SourceMapBuilder;
use sourcemap_bundle_split::split::BundleSplitter;
use sourcemap_bundles::ram_bundle::RamBundle;
use sourcemap_index::family::{DecodedMap, SourceMapSection};
use sourcemap_source_views::sourceview::SourceView;
use std::sync::Arc;

/// The value of a handle.
#[derive(Drop)]
pub enum Held {
    /// A regular map, a Hermes map or an index map. Several handles can share the map.
    Map(Arc<DecodedMap>),
    /// A builder.
    Builder(SourceMapBuilder),
    /// A text with its table of lines. Several handles can share it.
    View(Arc<SourceView>),
    /// A RAM bundle. Several handles can share it.
    Bundle(Arc<RamBundle<'static>>),
    /// What splits a RAM bundle into modules with maps.
    Split(BundleSplitter),
    /// A text that a call made.
    Bytes(Vec<u8>),
    /// The sections of an index map that is being made.
    Sections(Vec<SourceMapSection>),
    /// What a check found.
    Report(CheckReport),
}
