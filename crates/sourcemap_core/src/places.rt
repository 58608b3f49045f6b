//! Absolute paths of files as URLs, and back.

pub use sourcemap_file_urls::places::{ESCAPED, path_url, url_path};
