//! Views of source texts, with their lines, UTF-16 columns and the identifiers at positions; knows
//! nothing of tokens.
#![tactic(auto)]

pub mod columns;
pub mod js_identifiers;
pub mod lines;
pub mod sourceview;
pub mod walk;
