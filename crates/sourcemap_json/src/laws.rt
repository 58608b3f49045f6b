//! Laws: statements that follow from the definitions in contracts. A function calls a law to use
//! its statement in a proof. The call does nothing at run time.

pub use sourcemap_headers::data_url::data_urls_have_one_answer;
pub use sourcemap_references::detector::readers_find_what_slices_do;
