//! Tests that load source contents from files through the facade `sourcemap`. The test in `failing`
//! uses a fake file system. Every other test writes to its own folder, and removes this folder at
//! the start of the test and again after all checks pass.
#![tactic(auto)]

#[cfg(test)]
mod failing;
#[cfg(test)]
mod folders;
#[cfg(test)]
mod loading;
#[cfg(test)]
mod rewriting;
