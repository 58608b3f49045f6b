//! Tests of index maps: decoding, construction, lookups, changes, flattening and writing. Also
//! tests of Hermes maps, of reading, writing and compiling maps of each kind, and of splitting a
//! RAM bundle and its index map into modules.
#![tactic(auto)]

#[cfg(test)]
mod changes;
#[cfg(test)]
mod compiled;
#[cfg(test)]
mod copies;
#[cfg(test)]
mod debug_ids;
#[cfg(test)]
mod decoding;
#[cfg(test)]
mod flattening;
#[cfg(test)]
mod getters;
#[cfg(test)]
mod hermes;
#[cfg(test)]
mod lookups;
#[cfg(test)]
mod maps;
#[cfg(test)]
mod nested;
#[cfg(test)]
mod readers;
#[cfg(test)]
mod samples;
#[cfg(test)]
mod shifting;
#[cfg(test)]
mod splitting;
#[cfg(test)]
mod writers;
#[cfg(test)]
mod writing;
