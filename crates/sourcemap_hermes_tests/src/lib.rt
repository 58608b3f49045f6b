//! Tests of the formats of React Native: Hermes maps and the scopes of their sources, decoded from
//! JSON, and RAM bundles. Indexed bundles are parsed from bytes and from a file. File bundles are
//! parsed from folders that the tests create, and from a fake file system in which an access may
//! fail.
#![tactic(auto)]

#[cfg(test)]
mod failing;
#[cfg(test)]
mod folders;
#[cfg(test)]
mod indexed;
#[cfg(test)]
mod maps;
#[cfg(test)]
mod rewriting;
#[cfg(test)]
mod scopes;
#[cfg(test)]
mod texts;
