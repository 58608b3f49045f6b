//! Tests of reading valid JSON texts to values of each kind, and of refusing invalid JSON texts.
//! Also tests of writing values as compact JSON texts.
#![tactic(auto)]

#[cfg(test)]
mod answers;
#[cfg(test)]
mod blocks;
#[cfg(test)]
mod bytes;
#[cfg(test)]
mod kept;
mod letters;
#[cfg(test)]
mod long_strings;
#[cfg(test)]
mod mutations;
#[cfg(test)]
mod nesting;
#[cfg(test)]
mod scalars;
#[cfg(test)]
mod structures;
#[cfg(test)]
mod written;
