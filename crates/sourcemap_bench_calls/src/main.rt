//! Makes one call on the bytes of standard input, so that the time and the memory of this call can
//! be measured.
#![tactic(auto)]

mod builders;
mod bundles;
mod call;
mod encoding;
mod indexes;
mod interning;
mod lines;
mod maps;
mod paths;
mod references;
mod scopes;
mod segments;
mod setters;
mod views;

use call::{Call, list_words, parse_words};
use sourcemap::Result;
use std::alloc::Global;
use std::env;
use std::env::Env;
use std::io::Read;
use std::process::ExitCode;
use std::rt::Files;

// Makes a call, and returns a number computed from the result. `main` prints this number, so that
// the call is not optimised away.
fn size_of<R: Files + Env + AllocGlobal>(
    rt: &R,
    alloc: Global,
    call: Call,
    bytes: &[u8],
) -> Result<usize> {
    match call {
        Call::Walk => views::walk_tokens(alloc, bytes),
        Call::View => views::view_lines(alloc, bytes),
        Call::Slices => views::slice_lines(alloc, bytes),
        Call::Locate => references::locate_in_slice(alloc, bytes),
        Call::LocateReader => references::locate_by_reader(alloc, bytes),
        Call::LocateView => references::locate_by_view(alloc, bytes),
        Call::Resolve => references::resolve_reference(alloc, bytes),
        Call::ResolvePath => references::resolve_reference_path(alloc, bytes),
        Call::DataUrl => references::decode_url(alloc, bytes),
        Call::Embedded => references::decode_embedded(alloc, bytes),
        Call::Detect => references::detect_in_slice(alloc, bytes),
        Call::DetectReader => references::detect_by_reader(alloc, bytes),
        Call::Relative => paths::relative(alloc, bytes),
        Call::Prefix => paths::prefix(alloc, bytes),
        Call::Vlq => segments::segment_size(alloc, bytes),
        Call::Identifier => segments::identifier_size(bytes),
        Call::Intern => interning::intern_lines(alloc, bytes),
        Call::Bundle => bundles::modules(bytes),
        Call::BundlePath => bundles::modules_at(rt, alloc, bytes),
        Call::Scopes => scopes::name_size(alloc, bytes),
        Call::BytecodeNames => scopes::bytecode_name_size(alloc, bytes),
        Call::Builder(call) => builders::size_of(rt, alloc, call, bytes),
        Call::Index(call) => indexes::size_of(rt, alloc, call, bytes),
        Call::Map(call) => maps::size_of(rt, alloc, call, bytes),
        Call::Setter(setter) => setters::size_of(alloc, setter, bytes),
    }
}

fn main(rt: HostRuntime) -> Result<ExitCode> {
    let alloc = rt.alloc();
    let words: Vec<String> = env::args(&rt)?.skip(1).collect(alloc)?;
    let Some(call) = parse_words(words.as_slice()) else {
        let calls = list_words(alloc)?;
        println!(rt; "usage: one of{calls}")?;
        return Ok(ExitCode::from(2));
    };
    let mut bytes = Vec::new(alloc);
    rt.reader().read_to_end(&mut bytes)?;
    match size_of(&rt, alloc, call, bytes.as_slice()) {
        Ok(size) => {
            println!(rt; "{size}")?;
            Ok(ExitCode::SUCCESS)
        }
        Err(error) => {
            println!(rt; "{error}")?;
            Ok(ExitCode::FAILURE)
        }
    }
}
