//! Setters of regular maps. The map is on the first line of the input, and the new values are after
//! that line.

use crate::call::Setter;
use crate::lines::{contents_size, number_in, source_size, split_first_line};
use sourcemap::{Result, SourceMap};
use std::alloc::Global;

/// Decodes the map on the first line of `bytes`, and changes the map with the values on the other
/// lines, as `Setter` says. Returns a byte count of the changed map: of all sources (`Root`,
/// `Sources`), of all contents (`Contents`), or of the file name (`File`). `Ignore` returns the
/// length of the ignore list.
pub fn size_of(alloc: Global, setter: Setter, bytes: &[u8]) -> Result<usize> {
    let (line, text) = split_first_line(bytes)?;
    let map = SourceMap::from_slice(alloc, line.as_bytes())?;
    match setter {
        Setter::Root => set_root(map, text),
        Setter::Sources => set_sources(map, text),
        Setter::Contents => set_contents(map, text),
        Setter::File => set_file(map, text),
        Setter::Ignore => ignore(map, text),
    }
}

fn set_source(map: &mut SourceMap, id: u32, source: &str) -> Result<()> {
    if id < map.get_source_count() {
        map.set_source(id, source)?;
    }
    Ok(())
}

fn set_source_contents(map: &mut SourceMap, id: u32, contents: &str) -> Result<()> {
    if id < map.get_source_count() {
        map.set_source_contents(id, Some(contents))?;
    }
    Ok(())
}

// Sets `text` as `sourceRoot`. Returns the byte count of all sources.
fn set_root(mut map: SourceMap, text: &str) -> Result<usize> {
    map.set_source_root(Some(text))?;
    Ok(source_size(&map))
}

// Sets the sources, in order, to the lines of `text`. Lines beyond the number of sources are
// ignored. Returns the byte count of all sources.
fn set_sources(mut map: SourceMap, text: &str) -> Result<usize> {
    for (id, line) in (0..u32::MAX).zip(text.lines()) {
        set_source(&mut map, id, line)?;
    }
    Ok(source_size(&map))
}

// Sets the contents of the sources, in order, to the lines of `text`. Lines beyond the number of
// sources are ignored. Returns the byte count of all contents.
fn set_contents(mut map: SourceMap, text: &str) -> Result<usize> {
    for (id, line) in (0..u32::MAX).zip(text.lines()) {
        set_source_contents(&mut map, id, line)?;
    }
    Ok(contents_size(&map))
}

// Sets the file name to each line of `text` in turn. Returns the byte count of the last file name,
// 0 if there is no file name.
fn set_file(mut map: SourceMap, text: &str) -> Result<usize> {
    for line in text.lines() {
        map.set_file(Some(line))?;
    }
    Ok(map.get_file().map_or(0, |file| file.len()))
}

// Adds the number on each line of `text` to the ignore list. Returns the length of the list.
fn ignore(mut map: SourceMap, text: &str) -> Result<usize> {
    for line in text.lines() {
        map.add_to_ignore_list(number_in(line))?;
    }
    Ok(map.ignore_list().count())
}
