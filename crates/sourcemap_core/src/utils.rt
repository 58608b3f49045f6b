//! Utilities: a search in a sorted list, the common prefix of paths, and the path from one file to
//! another.

pub use sourcemap_file_urls::relative_paths::make_relative_path;
pub use sourcemap_texts::paths::find_common_prefix;
pub use sourcemap_tokens::search::greatest_lower_bound;
