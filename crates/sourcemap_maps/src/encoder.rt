//! Encodes maps as records and as JSON text.

pub use sourcemap_map_regular::encode::{Encodable, encode_in_parts};
pub use sourcemap_map_regular::write::{encode, encode_to, encode_to_vec};
