//! Tests of the program's runs.
#![tactic(auto)]

#[cfg(test)]
mod applied;
#[cfg(test)]
mod arguments;
#[cfg(test)]
mod checks;
#[cfg(test)]
mod compiled;
#[cfg(test)]
mod composes;
#[cfg(test)]
mod fake_files;
#[cfg(test)]
mod index_checks;
#[cfg(test)]
mod io_errors;
#[cfg(test)]
mod memory;
#[cfg(test)]
mod refusals;
#[cfg(test)]
mod runs;
#[cfg(test)]
mod traces;
