//! The handles, the structs and the error reports of the C interface; it knows nothing of the calls.
#![tactic(auto)]

pub mod errors;
pub mod handle;
pub mod held;
pub mod layout;
pub mod no_files;
pub mod report;
pub(crate) mod sealed;

pub use handle::Handle;
pub use held::Held;
