//! Calls the functions of `sourcemap_uses` with enough memory.
#![tactic(auto)]

#[cfg(test)]
mod facades;
#[cfg(test)]
mod stored;
#[cfg(test)]
mod uses;
