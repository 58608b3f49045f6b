//! The text of mappings, read and written.

pub use sourcemap_mappings::read::parse_mappings;
pub use sourcemap_mappings::write::{write_mappings, write_range_mappings};
pub use sourcemap_tokens::tokens::tokens_in_order;
