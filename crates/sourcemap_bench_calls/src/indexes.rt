//! Makes, flattens, rewrites and changes index maps. `levels` can nest index maps deeper than the
//! decoder allows.

use crate::call::IndexCall;
use crate::lines::{number_in, split_first_line};
use crate::maps::{debug_size, equals_copy, equals_read_back};
use sourcemap::{
    DecodedMap, Result, RewriteOptions, SourceMapIndex, SourceMapSection, decode_slice,
};
use std::alloc::Global;
use std::rt::Files;
use std::str;

const INNER: &[u8] = b"{\"version\":3,\"sources\":[\"a.js\"],\"names\":[],\"mappings\":\"AAAA\"}";

/// Makes a call on an index map, with `bytes` as the input of the call. `SetFile` and `SetUrls`
/// return a byte count. Each other call returns another count, for example of tokens or sections.
pub fn size_of<F: Files>(rt: &F, alloc: Global, call: IndexCall, bytes: &[u8]) -> Result<usize> {
    match call {
        IndexCall::Nest => count_nested_tokens(alloc, bytes),
        IndexCall::FlattenAndRewrite => flatten_and_rewrite(rt, alloc, bytes),
        IndexCall::Sections => make_sections(alloc, bytes),
        IndexCall::SetFile => set_file(alloc, bytes),
        IndexCall::AdjustRows => adjust_rows(alloc, bytes),
        IndexCall::SetUrls => set_urls(alloc, bytes),
        IndexCall::SetMaps => set_maps(alloc, bytes),
    }
}

// An index map with one section, which starts at 0:0 and contains `map`.
fn index_over(alloc: Global, map: DecodedMap) -> Result<SourceMapIndex> {
    let section = SourceMapSection::new(alloc, (0, 0), None, Some(map))?;
    let mut sections = Vec::new(alloc);
    sections.push(section)?;
    Ok(SourceMapIndex::new(alloc, None, sections))
}

// Makes `depth` nested index maps, or one index map if `depth` is 0. Returns the outermost index
// map. The innermost index map holds a regular map.
fn levels(alloc: Global, depth: u32) -> Result<SourceMapIndex> {
    let inner = decode_slice(alloc, INNER)?;
    let mut index = index_over(alloc, inner)?;
    for _ in 1..depth {
        index = index_over(alloc, DecodedMap::Index(index))?;
    }
    Ok(index)
}

// Flattens an index map, and returns the number of tokens. Returns 0 for a map of another kind.
fn count_flat_tokens(map: &DecodedMap) -> Result<usize> {
    match map {
        DecodedMap::Index(index) => Ok(index.flatten()?.get_token_count() as usize),
        _ => Ok(0),
    }
}

// Makes nested index maps, as many as the number in `bytes` says. Makes one index map if the number
// is 0, or if the trimmed text is not a number below 2^32. Then makes four checks on the outermost
// map: the lookup of 0:0 finds a token, `Debug` prints the map, a copy equals the map, and the
// map's JSON value is read back as an equal map. Flattens the outermost map. Returns the number of
// tokens of the flattened map plus the number of checks that succeed.
fn count_nested_tokens(alloc: Global, bytes: &[u8]) -> Result<usize> {
    let depth = str::from_utf8(bytes)?.trim().parse().unwrap_or(1);
    let map = DecodedMap::Index(levels(alloc, depth)?);
    let is_found = map.lookup_token(0, 0).is_some();
    let is_printed = debug_size(alloc, &map)? > 0;
    let extra = usize::from(is_found) + usize::from(is_printed);
    let equal = usize::from(equals_copy(&map)?) + usize::from(equals_read_back(alloc, &map)?);
    Ok(count_flat_tokens(&map)?.wrapping_add(extra + equal))
}

// Flattens and rewrites an index map. Returns the number of tokens plus the number of sources, both
// of the rewritten map.
fn flatten_and_rewrite<F: Files>(rt: &F, alloc: Global, bytes: &[u8]) -> Result<usize> {
    let index = SourceMapIndex::from_slice(alloc, bytes)?;
    let map = index.flatten_and_rewrite(rt, &RewriteOptions::default())?;
    let tokens = map.get_token_count() as usize;
    Ok(tokens.wrapping_add(map.get_source_count() as usize))
}

// Makes an index map with a section for each line. Returns the number of sections.
fn make_sections(alloc: Global, bytes: &[u8]) -> Result<usize> {
    let mut sections = Vec::new(alloc);
    for line in str::from_utf8(bytes)?.lines() {
        let url = String::from_str(alloc, line)?;
        sections.push(SourceMapSection::new(alloc, (number_in(line), 0), Some(url), None)?)?;
    }
    let index = SourceMapIndex::new(alloc, None, sections);
    Ok(index.get_section_count() as usize)
}

// The index map on the first line, and the text after it. The first line must end with `\n`.
fn index_and_text(alloc: Global, bytes: &[u8]) -> Result<(SourceMapIndex, &str)> {
    let (line, text) = split_first_line(bytes)?;
    let index = SourceMapIndex::from_slice(alloc, line.as_bytes())?;
    Ok((index, text))
}

// Sets the file name of the index map to each line after the first, in turn. Returns the byte count
// of the resulting file name, 0 if there is no file name.
fn set_file(alloc: Global, bytes: &[u8]) -> Result<usize> {
    let (mut index, text) = index_and_text(alloc, bytes)?;
    for line in text.lines() {
        index.set_file(Some(line))?;
    }
    Ok(index.get_file().map_or(0, |file| file.len()))
}

// Decodes the index map on the first line of `bytes`. `number_in` parses each line after the first
// as a number n. For each n, in order, tries to move all sections down by n generated lines. If a
// section would then start after generated line 4294967295, the move fails and changes nothing.
// Returns how many moves succeed. Returns `Utf8` if `bytes` are not UTF-8. The other errors come
// from `SourceMapIndex::from_slice`.
fn adjust_rows(alloc: Global, bytes: &[u8]) -> Result<usize> {
    let (mut index, text) = index_and_text(alloc, bytes)?;
    let mut count = 0usize;
    for line in text.lines() {
        let is_moved = index.adjust_sections_offset_rows(number_in(line));
        count = count.wrapping_add(usize::from(is_moved));
    }
    Ok(count)
}

fn set_url(index: &mut SourceMapIndex, id: u32, url: &str) -> Result<()> {
    match index.get_section_mut(id) {
        Some(section) => section.set_url(Some(url)),
        None => Ok(()),
    }
}

// Sets the URLs of the sections, in order, to the lines after the first. Lines beyond the number of
// sections are ignored. Returns the byte count of all URLs.
fn set_urls(alloc: Global, bytes: &[u8]) -> Result<usize> {
    let (mut index, text) = index_and_text(alloc, bytes)?;
    for (id, line) in (0..u32::MAX).zip(text.lines()) {
        set_url(&mut index, id, line)?;
    }
    Ok(url_size(&index))
}

fn url_size(index: &SourceMapIndex) -> usize {
    let mut size = 0usize;
    for section in index.sections() {
        size = size.wrapping_add(section.get_url().map_or(0, |url| url.len()));
    }
    size
}

fn set_map(alloc: Global, index: &mut SourceMapIndex, id: u32, line: &str) -> Result<()> {
    match index.get_section_mut(id) {
        Some(section) => section.set_sourcemap(Some(decode_slice(alloc, line.as_bytes())?)),
        None => Ok(()),
    }
}

// Sets the maps of the sections, in order, to the maps on the lines after the first. Lines beyond
// the number of sections are ignored. Returns how many sections then have a map.
fn set_maps(alloc: Global, bytes: &[u8]) -> Result<usize> {
    let (mut index, text) = index_and_text(alloc, bytes)?;
    for (id, line) in (0..u32::MAX).zip(text.lines()) {
        set_map(alloc, &mut index, id, line)?;
    }
    Ok(count_maps(&index))
}

fn count_maps(index: &SourceMapIndex) -> usize {
    let mut count = 0usize;
    for section in index.sections() {
        count = count.wrapping_add(usize::from(section.get_sourcemap().is_some()));
    }
    count
}
