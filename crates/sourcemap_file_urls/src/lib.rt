//! Paths of files as `file` URLs and back, and relative to another file; knows nothing of maps and
//! reads no file.
#![tactic(auto)]

pub mod places;
pub mod relative_paths;
pub mod urls;
