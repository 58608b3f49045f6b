//! The file that a command names.
ghost use Rattle.sourcemap.specs.Answer.{IsAnswer};
ghost use Rattle.sourcemap.specs.AnyMap.{map_tree};
ghost use Rattle.sourcemap_cli.specs.Program.{FileDecodes, MayBeRead, file_read};

use crate::checking::Checking;
use crate::command::Command;
use sourcemap::decoder::decode_vec;
use sourcemap::{DecodedMap, Result};
use sourcemap_records::bytes::read_all;
use std::alloc::Global;
use std::fs;
use std::rt::Files;

/// Reads a file.
pub(crate) fn read_file<F: Files>(rt: &F, alloc: Global, path: &str) -> Result<Vec<u8>>
    ensures { MayBeRead (file_read result) }
{
    let file = fs::open(rt, path)?;
    read_all(alloc, file)
}

fn read_generated<F: Files>(rt: &F, alloc: Global, checking: &Checking) -> Result<Vec<u8>>
    ensures { MayBeRead (file_read result) }
{
    match &checking.generated {
        Some(path) => read_file(rt, alloc, path.as_str()),
        None => Ok(Vec::new(alloc)),
    }
}

/// Returns the bytes of the file that the command names, or the error of reading it; no bytes if
/// the command names no file.
pub fn read_command_file<F: Files>(rt: &F, alloc: Global, command: &Command) -> Result<Vec<u8>>
    ensures { MayBeRead (file_read result) }
{
    match command {
        Command::Compose(path) => read_file(rt, alloc, path.as_str()),
        Command::Trace(_, path) => read_file(rt, alloc, path.as_str()),
        Command::Check(checking) => read_generated(rt, alloc, checking),
        _ => Ok(Vec::new(alloc)),
    }
}

/// Decodes the map in a file, which is given as its bytes or as the error of reading it.
pub fn decode_file(alloc: Global, file: Result<Vec<u8>>) -> Result<DecodedMap>
    ensures { IsAnswer map_tree (FileDecodes (file_read file)) result }
{
    // prover: error passed on by `match`
    match file {
        Ok(bytes) => decode_vec(alloc, bytes),
        Err(error) => Err(error),
    }
}
