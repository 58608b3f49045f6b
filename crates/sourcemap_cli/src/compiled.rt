//! Compiled maps on standard input.
ghost use Rattle.std.specs.Prelude.{◌≡◌, ℕ, List, MatchResult, Ok, string_bytes};
ghost use Rattle.sourcemap.specs.Answer.{Gives};
ghost use Rattle.sourcemap.specs.Flat.{flat};
ghost use Rattle.sourcemap.specs.Trees.{MapTree, leaf, meaning, regular};
ghost use Rattle.sourcemap.specs.Types.{MapValue};
ghost use Rattle.sourcemap_compiled.specs.Soundness.{HasFault, IsSound};
ghost use Rattle.sourcemap_compiled.specs.Stored.{bytes_of};
ghost use Rattle.sourcemap_cache.specs.Compile.{IsCompiled};
ghost use Rattle.sourcemap_cache.specs.declared.parts.WithContents.{WithContents};
ghost use Rattle.sourcemap_trace.specs.Asked.{compiled_says};
ghost use Rattle.sourcemap_trace.specs.Positions.{first_of};
ghost use Rattle.sourcemap_cli.specs.Compiled.{IsFaultOf, compiled_line, is_compiled};
ghost use Rattle.sourcemap_cli.specs.Program.{is_applied};

use crate::command::Command;
use sourcemap::Result;
use sourcemap_cache::laws::compiled_maps_mean_the_same;
use sourcemap_compiled::errors::CompiledMapError;
use sourcemap_compiled::map::CompiledMap;
use sourcemap_trace::{AskedMap, Counting, push_original};
use std::alloc::Global;
use std::result;

fn is_compiled(bytes: &[u8]) -> bool
    ensures { result ≡ is_compiled bytes.now }
{
    bytes.starts_with(b"\x8fSMC")
}

/// Whether a command is applied to the map that bytes decode to. `Compile` and `Check` are not, nor
/// are `Lookup` and `Trace` if the bytes begin as a compiled map.
pub(crate) fn is_applied(command: &Command, bytes: &[u8]) -> bool
    ensures { result ≡ is_applied command.now bytes.now }
{
    match command {
        Command::Lookup(_, _, _) => !is_compiled(bytes),
        Command::Trace(_, _) => !is_compiled(bytes),
        Command::Compile(_) => false,
        Command::Check(_) => false,
        _ => true,
    }
}

/// Returns the compiled map in these bytes, after `verify` has read all of it. The error is its
/// first fault.
pub(crate) fn sound_map(bytes: &[u8]) -> result::Result<CompiledMap<'_>, CompiledMapError>
    ensures { MatchResult result
        (λ map. (bytes_of map ≡ bytes.now) × IsSound bytes.now)
        (IsFaultOf bytes.now) }
{
    // prover: error passed on by `match`
    match CompiledMap::parse(bytes) {
        Ok(map) => verified(map),
        Err(error) => Err(error),
    }
}

fn verified(map: CompiledMap<'_>) -> result::Result<CompiledMap<'_>, CompiledMapError>
    ensures { MatchResult result
        (λ same. (bytes_of same ≡ bytes_of map.entry) × IsSound (bytes_of map.entry))
        (HasFault (bytes_of map.entry)) }
{
    // prover: error passed on by `match`
    match map.verify() {
        Ok(()) => Ok(map),
        Err(error) => Err(error),
    }
}

/// Returns the line that `lookup` prints for a compiled map. The only error is `OutOfMemory`.
pub(crate) fn compiled_line(
    alloc: Global,
    map: CompiledMap<'_>,
    counting: Counting,
    line: u32,
    col: u32,
) -> Result<String>
    requires { IsSound (bytes_of map) }
    ensures { Gives string_bytes result
        (Ok (compiled_line (first_of counting) (bytes_of map.entry) (line, col))) }
{
    let mut text = String::new(alloc);
    push_original(&mut text, AskedMap::Compiled(map), line, col, counting)?;
    text.push_str("\n")?;
    Ok(text)
}

/// A law: of the file that `compile` prints for a map, each position means what it means in the
/// map; of an index map, what it means in its flat map. So `lookup` and `trace` print the same.
pub fn compiled_maps_print_alike()
    ensures { (contents : WithContents) (t : MapTree) (bytes : List ℕ) → IsCompiled contents t bytes
        → (m : MapValue) × (flat t ≡ Ok m)
        × ((p : ℕ × ℕ) → compiled_says bytes p ≡ meaning (leaf (regular m)) p) }
{
    compiled_maps_mean_the_same();
}
