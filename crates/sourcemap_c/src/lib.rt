//! The functions of `sourcemap.h`: each calls the library on what a handle holds, and knows nothing
//! of how maps are read, looked up or written. The header says what each does and with which errors.
#![tactic(auto)]

pub mod assembling;
pub mod building;
pub mod bundles;
pub mod changing;
pub mod checks;
mod codes;
pub mod compiled;
pub mod compiling;
pub mod debug_ids;
pub mod equality;
pub mod functions;
pub mod getters;
pub mod hermes;
pub mod ignore_lists;
mod kinds;
pub mod lookup;
pub mod module_paths;
pub mod offsets;
pub mod opening;
pub mod references;
pub mod replacing;
pub mod scopes;
pub mod sections;
pub mod segments;
pub mod setters;
pub mod token_texts;
pub mod views;
pub mod writing;
