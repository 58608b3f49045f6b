//! Tests of items of `sourcemap_core`, `sourcemap_compose`, `sourcemap_line_index` and
//! `sourcemap_interning`. These crates do not depend on the crates of records and maps. Some test
//! data come from other implementations of source maps.
#![tactic(auto)]

#[cfg(test)]
mod common_prefixes;
#[cfg(test)]
mod composition;
#[cfg(test)]
mod interning;
#[cfg(test)]
mod line_index;
#[cfg(test)]
mod mappings;
#[cfg(test)]
mod paths;
#[cfg(test)]
mod token_lists;
#[cfg(test)]
mod vlq;
