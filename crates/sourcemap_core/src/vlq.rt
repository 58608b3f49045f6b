//! Segments of `mappings`: numbers written as VLQ digits of base 64.

pub use sourcemap_vlq::vlq::{generate_vlq_segment, parse_vlq_segment};
