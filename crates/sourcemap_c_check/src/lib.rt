//! Reports of checks for the C library, finding by finding. It knows nothing of handles. `sourcemap_c`
//! exports them.
#![tactic(auto)]

pub mod checks;
pub mod files;
