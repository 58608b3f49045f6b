//! Repeats one operation of the library on standard input, so that the operation can be timed, and
//! prints a checksum of the results. It knows nothing of time, which its caller takes.
//!
//! Standard input is one source map, except for these operations. `compose` reads two maps, one on
//! each of the first two lines. For `views lines`, standard input is a text. For `views names`, the
//! first line is a source map, and all text after this line is the generated text. For
//! `bundles split`, the first line is the index map of an indexed RAM bundle, and all bytes after
//! this line are the bundle. `write` repeats nothing: it decodes the map and writes it once, as
//! compact JSON.
#![tactic(auto)]

mod bundle_rounds;
mod command;
mod draws;
mod starts;
mod sums;
mod view_rounds;
mod view_sums;
mod work;
mod written;

use bundle_rounds::repeat_split;
use command::{Command, Operation, parse_words};
use sourcemap::Result;
use std::alloc::Global;
use std::io::Read;
use std::process::ExitCode;
use std::rt::Files;
use std::{env, io};
use view_rounds::repeat_on_view;
use work::{prepare, repeat_work};
use written::write_map;

const USAGE: &str =
    "usage: decode N | decode-reader N | lookup N | tokens N | encode N | rewrite N | flatten N | compose N | write | views lines N | views names N | bundles split N";

fn repeat_on_map<F: Files>(
    rt: &F,
    alloc: Global,
    operation: Operation,
    rounds: u32,
    bytes: Vec<u8>,
) -> Result<u32> {
    let work = prepare(alloc, operation, bytes)?;
    repeat_work(rt, alloc, &work, rounds)
}

fn main(rt: HostRuntime) -> Result<ExitCode> {
    let alloc = rt.alloc();
    let words: Vec<String> = env::args(&rt)?.skip(1).collect(alloc)?;
    let Some(command) = parse_words(words.as_slice()) else {
        println!(rt; "{USAGE}")?;
        return Ok(ExitCode::from(2));
    };
    let mut bytes = Vec::new(alloc);
    rt.reader().read_to_end(&mut bytes)?;
    let sum = match command {
        Command::Repeat(operation, rounds) => repeat_on_map(&rt, alloc, operation, rounds, bytes)?,
        Command::RepeatOnView(operation, rounds) => {
            repeat_on_view(alloc, operation, rounds, bytes.as_slice())?
        }
        Command::Split(rounds) => repeat_split(alloc, rounds, bytes.as_slice())?,
        Command::Write => {
            write_map(alloc, bytes.as_slice(), &mut io::writer(&rt))?;
            return Ok(ExitCode::SUCCESS);
        }
    };
    println!(rt; "{sum}")?;
    Ok(ExitCode::SUCCESS)
}
