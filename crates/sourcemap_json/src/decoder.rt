//! Skips junk headers.

pub use sourcemap_headers::header::strip_junk_header;
pub use sourcemap_headers::header_reader::StripHeaderReader;
