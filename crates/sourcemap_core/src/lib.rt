//! A facade of what needs neither JSON nor a type of maps; knows nothing of either.
#![tactic(auto)]

pub mod compose;
pub mod laws;
pub mod mappings;
pub mod places;
pub mod utils;
pub mod vlq;

pub use sourcemap_bundles::bundle;
pub use sourcemap_errors::errors;
pub use sourcemap_interning::interner;
pub use sourcemap_line_index::{line_index, probe};
pub use sourcemap_source_views::{js_identifiers, lines};
pub use sourcemap_tokens::tokens;
pub use sourcemap_vlq::bits;
