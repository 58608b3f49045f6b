//! Helpers for the `*_tests` crates. `checks::check` compares a result with the expected text. The
//! functions in `results` repeat a call, box a value, or make a text from an error or an
//! option. Those in `tokens` make tokens from rows. Those in `records` make records from texts, and
//! texts from records and values. The other modules contain fake readers, fake writers and a fake
//! file. Each fake can return errors.
#![tactic(auto)]

pub mod checks;
pub mod files;
pub mod readers;
pub mod records;
pub mod results;
pub mod tokens;
pub mod writers;
