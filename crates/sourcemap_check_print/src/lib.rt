//! What a check finds, and how it is printed: a line for each finding, as compilers print them, or one
//! JSON object. It knows nothing of command lines, readers and writers.
#![tactic(auto)]

pub mod entries;
pub mod findings;
mod json;
mod lines;
pub mod places;
pub mod print;
mod suspicions;
mod words;

pub use findings::{Counts, Findings, Verdict, check_findings};
pub use print::{CheckText, Form, check_text};
