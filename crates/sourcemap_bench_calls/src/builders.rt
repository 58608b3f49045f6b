//! Makes a call on a builder, so that the time and the memory of this call can be measured.

use crate::call::BuilderCall;
use crate::lines::{contents_size, number_in, source_size, split_first_line};
use sourcemap::jsontypes::DebugId;
use sourcemap::{Result, SourceMap, SourceMapBuilder};
use std::alloc::Global;
use std::env::Env;
use std::rt::Files;
use std::{env, str};

/// Makes a call on a new builder, with `bytes` as the input of the call, and then builds the map.
/// Returns the size of one part of the map: the number of tokens, the number of ids in the ignore
/// list, or the byte count of the sources, the contents or the file name. More than 4294967295
/// tokens count as 4294967295. `SetDebugIds` returns 1 if the map has a debug id, else 0.
///
/// Each call returns the errors of the builder. `AddTokens` also returns the errors of
/// `SourceMap::from_slice`. All calls except `AddTokens` return `Utf8` if `bytes` is not UTF-8.
/// `Load` also returns the errors of `env::current_dir`.
pub fn size_of<R: Files + Env + AllocGlobal>(
    rt: &R,
    alloc: Global,
    call: BuilderCall,
    bytes: &[u8],
) -> Result<usize> {
    match call {
        BuilderCall::Add => add(alloc, bytes),
        BuilderCall::AddRaw => add_raw(alloc, bytes),
        BuilderCall::AddTokens => add_tokens(alloc, bytes),
        BuilderCall::SetSources => set_sources(alloc, bytes),
        BuilderCall::SetContents => set_contents(alloc, bytes),
        BuilderCall::SetFile => set_file(alloc, bytes),
        BuilderCall::SetRoot => set_root(alloc, bytes),
        BuilderCall::SetDebugIds => set_debug_ids(alloc, bytes),
        BuilderCall::Ignore => ignore(alloc, bytes),
        BuilderCall::Load => load(rt, alloc, bytes),
        BuilderCall::Strip => strip(alloc, bytes),
    }
}

// A builder with a source for each different line.
fn builder_of_lines(alloc: Global, text: &str) -> Result<SourceMapBuilder> {
    let mut builder = SourceMapBuilder::new(alloc, None)?;
    for line in text.lines() {
        builder.add_source(line)?;
    }
    Ok(builder)
}

fn token_count(builder: SourceMapBuilder) -> Result<usize> {
    let map = builder.into_sourcemap()?;
    Ok(map.get_token_count() as usize)
}

// Adds a token for each line, with the line as source and as name. Returns the number of tokens.
fn add(alloc: Global, bytes: &[u8]) -> Result<usize> {
    let mut builder = SourceMapBuilder::new(alloc, None)?;
    for line in str::from_utf8(bytes)?.lines() {
        builder.add(0, 0, 0, 0, Some(line), Some(line), false)?;
    }
    token_count(builder)
}

// Adds a token for each line, with the number on the line as generated column, source id and name
// id. Returns the number of tokens.
fn add_raw(alloc: Global, bytes: &[u8]) -> Result<usize> {
    let mut builder = SourceMapBuilder::new(alloc, None)?;
    for line in str::from_utf8(bytes)?.lines() {
        let number = number_in(line);
        builder.add_raw(0, number, 0, 0, Some(number), Some(number), false)?;
    }
    token_count(builder)
}

// Adds all tokens of a map. Returns the number of tokens.
fn add_tokens(alloc: Global, bytes: &[u8]) -> Result<usize> {
    let map = SourceMap::from_slice(alloc, bytes)?;
    let mut builder = SourceMapBuilder::new(alloc, None)?;
    for token in map.tokens() {
        builder.add_token(&token, true)?;
    }
    token_count(builder)
}

// Adds each line as a source, then replaces this source with the same line. Returns the byte count
// of all sources.
fn set_sources(alloc: Global, bytes: &[u8]) -> Result<usize> {
    let mut builder = SourceMapBuilder::new(alloc, None)?;
    for line in str::from_utf8(bytes)?.lines() {
        let id = builder.add_source(line)?;
        builder.set_source(id, line)?;
    }
    Ok(source_size(&builder.into_sourcemap()?))
}

// Adds each line as a source, with the line itself as contents. Returns the byte count of all
// contents.
fn set_contents(alloc: Global, bytes: &[u8]) -> Result<usize> {
    let mut builder = SourceMapBuilder::new(alloc, None)?;
    for line in str::from_utf8(bytes)?.lines() {
        let id = builder.add_source(line)?;
        builder.set_source_contents(id, Some(line))?;
    }
    Ok(contents_size(&builder.into_sourcemap()?))
}

// Sets the file name to each line in turn. Returns the byte count of the last file name, 0 if there
// is no line.
fn set_file(alloc: Global, bytes: &[u8]) -> Result<usize> {
    let mut builder = SourceMapBuilder::new(alloc, None)?;
    for line in str::from_utf8(bytes)?.lines() {
        builder.set_file(Some(line))?;
    }
    let map = builder.into_sourcemap()?;
    Ok(map.get_file().map_or(0, |file| file.len()))
}

// Adds each different line after the first as a source, and sets the first line as `sourceRoot`.
// Input without `\n` is treated as empty. Returns the byte count of all sources, resolved against
// `sourceRoot`.
fn set_root(alloc: Global, bytes: &[u8]) -> Result<usize> {
    let (root, text) = split_first_line(bytes)?;
    let mut builder = builder_of_lines(alloc, text)?;
    builder.set_source_root(Some(root))?;
    Ok(source_size(&builder.into_sourcemap()?))
}

// Each line that is a debug id becomes the builder's debug id. Any other line clears the debug id.
// Returns 1 if the last line is a debug id, else 0.
fn set_debug_ids(alloc: Global, bytes: &[u8]) -> Result<usize> {
    let mut builder = SourceMapBuilder::new(alloc, None)?;
    for line in str::from_utf8(bytes)?.lines() {
        builder.set_debug_id(DebugId::parse(line));
    }
    let map = builder.into_sourcemap()?;
    Ok(usize::from(map.get_debug_id().is_some()))
}

// Adds the number on each line to the ignore list. Returns the length of the list.
fn ignore(alloc: Global, bytes: &[u8]) -> Result<usize> {
    let mut builder = SourceMapBuilder::new(alloc, None)?;
    for line in str::from_utf8(bytes)?.lines() {
        builder.add_to_ignore_list(number_in(line))?;
    }
    let map = builder.into_sourcemap()?;
    Ok(map.ignore_list().count())
}

// Adds each different line as a source, then calls `load_local_source_contents`. Sources are
// resolved against the current folder. Returns the byte count of all contents.
fn load<R: Files + Env + AllocGlobal>(rt: &R, alloc: Global, bytes: &[u8]) -> Result<usize> {
    let mut builder = builder_of_lines(alloc, str::from_utf8(bytes)?)?;
    let folder = env::current_dir(rt)?.into_string();
    builder.load_local_source_contents(rt, folder.as_str(), None)?;
    Ok(contents_size(&builder.into_sourcemap()?))
}

// Adds each different line after the first as a source. Splits the first line at each space into
// prefixes, and calls `strip_prefixes` with these prefixes. Input without `\n` is treated as empty.
// Returns the byte count of all sources after this call.
fn strip(alloc: Global, bytes: &[u8]) -> Result<usize> {
    let (line, text) = split_first_line(bytes)?;
    let prefixes: Vec<&str> = line.split(' ').collect(alloc)?;
    let mut builder = builder_of_lines(alloc, text)?;
    builder.strip_prefixes(prefixes.as_slice())?;
    Ok(source_size(&builder.into_sourcemap()?))
}
