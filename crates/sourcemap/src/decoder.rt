//! Decodes maps from bytes, readers, data URLs and records. Also drops junk headers, and reads and
//! makes data URLs.

pub use sourcemap_headers::data_url::{data_url, data_url_bytes};
pub use sourcemap_headers::header::strip_junk_header;
pub use sourcemap_headers::header_reader::StripHeaderReader;
pub use sourcemap_index::decode::{decode, decode_data_url, decode_slice, decode_vec};
pub use sourcemap_maps::decoder::decode_regular;
