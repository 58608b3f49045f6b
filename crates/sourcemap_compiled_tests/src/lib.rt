//! Tests of compiled maps whose bytes were made by hand: parsed, looked up, verified, damaged.
#![tactic(auto)]

#[cfg(test)]
mod damaged;
#[cfg(test)]
mod lookups;
#[cfg(test)]
mod maps;
#[cfg(test)]
mod texts;
#[cfg(test)]
mod written;
