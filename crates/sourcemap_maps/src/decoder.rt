//! Decodes regular maps from records.

pub use sourcemap_map_regular::decode::decode_regular;
