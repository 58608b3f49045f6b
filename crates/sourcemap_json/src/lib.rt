//! A facade of records, junk headers, data URLs, detection and references; knows nothing of the
//! types of maps.
#![tactic(auto)]

pub mod decoder;
pub mod detector;
pub mod laws;

pub use sourcemap_errors::errors;
pub use sourcemap_headers::data_url;
pub use sourcemap_records::jsontypes;
