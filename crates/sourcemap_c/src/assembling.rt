//! Calls that collect sections and make an index map from them.
ghost use Rattle.std.specs.Prelude.{◌≡◌, ◌≢◌, ◌⊎◌, ◌++◌, ◌∷◌, [], IfSome, IsSomeAnd, MatchResult, None, Some, is_some, map as list_map, option_map, string_bytes};
ghost use Rattle.std.specs.Option.{option_copied};
ghost use Rattle.sourcemap_errors.specs.Answer.{Changes};
ghost use Rattle.sourcemap_errors.specs.declared.errors.Error.TheVariants.{OutOfMemory};
ghost use Rattle.sourcemap_index.specs.Family.{map_tree, section_value};
ghost use Rattle.sourcemap_index.specs.Section.{section_made};
ghost use Rattle.sourcemap_c_handles.specs.Handles.{held_in};
ghost use Rattle.sourcemap_c.specs.Assembling.{AreAsBefore, Empties, IsNoPathIf, OrNoPath, if_given, index_of, line_of, list_in, map_due, section_due, with_section};
ghost use Rattle.sourcemap_c.specs.Codes.{Answers, Does, IsNoTextIf, NoError, OfLibrary, OfLibraryOrKind, OrNoText, UnlessMemory, text_if};
ghost use Rattle.sourcemap_c.specs.Kinds.{tree_in};

use crate::codes::text_if;
use crate::kinds::{map_in, put_map};
use crate::offsets::NONE;
use crate::replacing::texts_in;
use sourcemap::{DecodedMap, Result, SourceMapIndex, SourceMapSection};
use sourcemap_c_handles::errors::{ErrorReport, Failure, Outcome, finish};
use sourcemap_c_handles::{Handle, Held};
use std::alloc::Global;

// The parts of an index map besides its sections and its debug id.
#[derive(Drop)]
struct IndexParts {
    file: Option<String>,
    offsets: Option<Vec<Option<u32>>>,
    paths: Option<Vec<String>>,
}

/// Fills the handle with an empty list of sections.
#[unsafe(no_mangle)]
pub extern "C" fn sm_sections_new(
    alloc: Global,
    sections: &mut Handle,
    error: &mut ErrorReport,
) -> u32
    ensures { Answers result error.old error.new (list_in (held_in sections.new) ≡ Some []) (OfLibrary NoError)
        (held_in sections.new ≡ held_in sections.old) }
{
    finish(alloc, put_none(alloc, sections), error)
}

fn put_none(alloc: Global, sections: &mut Handle) -> Outcome<()>
    ensures { Does result (list_in (held_in sections.new) ≡ Some []) (OfLibrary NoError)
        (held_in sections.new ≡ held_in sections.old) }
{
    sections.fill(alloc, Held::Sections(Vec::new(alloc)))?;
    Ok(())
}

/// Adds a section with a copy of a map, the URL of a map, both or neither.
#[unsafe(no_mangle)]
pub extern "C" fn sm_sections_add(
    alloc: Global,
    sections: &mut Handle,
    line: u32,
    column: u32,
    has_url: bool,
    url: &[u8],
    has_map: bool,
    map: &mut Handle,
    error: &mut ErrorReport,
) -> u32
    ensures added { let section = section_due (line, column) (text_if has_url url.now) has_map
        (tree_in (held_in map.old)) in
        let due = with_section (list_in (held_in sections.old)) section in
        Answers result error.old error.new ((due ≢ None) × (list_in (held_in sections.new) ≡ due))
        (OrNoText has_url url.now (OfLibraryOrKind NoError (due ≡ None)))
        (AreAsBefore (held_in sections.old) (held_in sections.new)) }
    ensures kept { held_in map.new ≡ held_in map.old }
{
    finish(
        alloc,
        add_section(alloc, sections, (line, column), has_url, url, has_map, map),
        error,
    )
}

fn add_section(
    alloc: Global,
    sections: &mut Handle,
    start: (u32, u32),
    has_url: bool,
    url: &[u8],
    has_map: bool,
    map: &mut Handle,
) -> Outcome<()>
    ensures added { let section = section_due start (text_if has_url url.now) has_map
        (tree_in (held_in map.old)) in
        let due = with_section (list_in (held_in sections.old)) section in
        Does result ((due ≢ None) × (list_in (held_in sections.new) ≡ due))
        (OrNoText has_url url.now (OfLibraryOrKind NoError (due ≡ None)))
        (AreAsBefore (held_in sections.old) (held_in sections.new)) }
    ensures kept { held_in map.new ≡ held_in map.old }
{
    let section = section_of(alloc, start, has_url, url, has_map, map)?;
    push_in(alloc, sections, section)
}

fn section_of(
    alloc: Global,
    start: (u32, u32),
    has_url: bool,
    url: &[u8],
    has_map: bool,
    map: &mut Handle,
) -> Outcome<SourceMapSection>
    ensures made { let due = section_due start (text_if has_url url.now) has_map (tree_in (held_in map.old)) in
        MatchResult result (λ section. due ≡ Some (section_value section)) (λ failure. UnlessMemory failure
        (OrNoText has_url url.now (OfLibraryOrKind NoError (due ≡ None)) failure)) }
    ensures kept { held_in map.new ≡ held_in map.old }
{
    let url = text_if(has_url, url)?;
    let copy = copy_if(has_map, map)?;
    Ok(section_made(alloc, start, url, copy)?)
}

fn copy_if(given: bool, map: &mut Handle) -> Outcome<Option<DecodedMap>>
    ensures copied { let due = map_due given (tree_in (held_in map.old)) in
        MatchResult result (λ copy. due ≡ Some (option_map map_tree copy))
        (λ failure. UnlessMemory failure (OfLibraryOrKind NoError (due ≡ None) failure)) }
    ensures kept { held_in map.new ≡ held_in map.old }
{
    if !given {
        return Ok(None);
    }
    match map_in(map) {
        Some(map) => Ok(Some(map.clone()?)),
        None => Err(Failure::WrongKind),
    }
}

fn section_made(
    alloc: Global,
    start: (u32, u32),
    url: Option<&str>,
    map: Option<DecodedMap>,
) -> Result<SourceMapSection>
    ensures { MatchResult result (λ section. section_value section
        ≡ section_made start (option_copied url.entry) (option_map map_tree map)) (λ e. e ≡ OutOfMemory) }
{
    let mut section = SourceMapSection::new(alloc, start, None, map)?;
    section.set_url(url)?;
    Ok(section)
}

fn push_in(alloc: Global, handle: &mut Handle, section: SourceMapSection) -> Outcome<()>
    ensures { let due = with_section (list_in (held_in handle.old)) (Some (section_value section)) in
        Does result ((due ≢ None) × (list_in (held_in handle.new) ≡ due)) (OfLibraryOrKind NoError (due ≡ None))
        (AreAsBefore (held_in handle.old) (held_in handle.new)) }
{
    match handle.take(alloc) {
        Some(mut held) => {
            let outcome = push_to(&mut held, section);
            handle.put(held);
            outcome
        }
        None => Err(Failure::WrongKind),
    }
}

fn push_to(held: &mut Held, section: SourceMapSection) -> Outcome<()>
    ensures { let due = with_section (list_in (Some held.old)) (Some (section_value section)) in
        Does result ((due ≢ None) × (list_in (Some held.new) ≡ due)) (OfLibraryOrKind NoError (due ≡ None))
        (AreAsBefore (Some held.old) (Some held.new)) }
{
    match held {
        Held::Sections(sections) => Ok(push(sections, section)?),
        _ => Err(Failure::WrongKind),
    }
}

fn push(sections: &mut Vec<SourceMapSection>, section: SourceMapSection) -> Result<()>
    ensures { Changes result (list_map section_value sections.old.items)
        (list_map section_value sections.new.items)
        (list_map section_value sections.old.items ++ section_value section ∷ []) }
{
    sections.push(section)?;
    Ok(())
}

/// Fills `map` with the index map of the sections in `sections`, and empties `sections`.
#[unsafe(no_mangle)]
pub extern "C" fn sm_sections_finish(
    alloc: Global,
    sections: &mut Handle,
    map: &mut Handle,
    has_file: bool,
    file: &[u8],
    has_offsets: bool,
    offsets: &[u32],
    has_paths: bool,
    paths: &[&[u8]],
    error: &mut ErrorReport,
) -> u32
    ensures made { let texts = list_map (λ path. path.now) paths.now in
        let due = index_of (text_if has_file file.now)
        (if_given has_offsets (list_map line_of offsets.now)) (if_given has_paths texts) in
        Answers result error.old error.new
        (IsSomeAnd (list_in (held_in sections.old)) (λ ss. tree_in (held_in map.new) ≡ Some (due ss)))
        (OrNoText has_file file.now (OrNoPath has_paths texts
        (OfLibraryOrKind NoError (list_in (held_in sections.old) ≡ None))))
        (held_in map.new ≡ held_in map.old) }
    ensures emptied { result ≡ 0 → held_in sections.new ≡ None }
    ensures refused { result ≢ 0 → (held_in sections.new ≡ held_in sections.old)
        ⊎ ((result ≡ 20) × (held_in sections.new ≡ None)) }
    ensures other { list_in (held_in sections.old) ≡ None → held_in sections.new ≡ held_in sections.old }
{
    let outcome = finish_sections(
        alloc,
        sections,
        map,
        has_file,
        file,
        has_offsets,
        offsets,
        has_paths,
        paths,
    );
    finish(alloc, outcome, error)
}

fn finish_sections(
    alloc: Global,
    sections: &mut Handle,
    map: &mut Handle,
    has_file: bool,
    file: &[u8],
    has_offsets: bool,
    offsets: &[u32],
    has_paths: bool,
    paths: &[&[u8]],
) -> Outcome<()>
    ensures made { let texts = list_map (λ path. path.now) paths.now in
        let due = index_of (text_if has_file file.now)
        (if_given has_offsets (list_map line_of offsets.now)) (if_given has_paths texts) in
        Does result
        (IsSomeAnd (list_in (held_in sections.old)) (λ ss. tree_in (held_in map.new) ≡ Some (due ss)))
        (OrNoText has_file file.now (OrNoPath has_paths texts
        (OfLibraryOrKind NoError (list_in (held_in sections.old) ≡ None))))
        (held_in map.new ≡ held_in map.old) }
    ensures emptied { Empties result (held_in sections.old) (held_in sections.new) }
    ensures other { list_in (held_in sections.old) ≡ None → held_in sections.new ≡ held_in sections.old }
{
    let parts = parts_of(
        alloc,
        has_file,
        file,
        has_offsets,
        offsets,
        has_paths,
        paths,
    )?;
    finish_with(alloc, sections, map, parts)
}

fn parts_of(
    alloc: Global,
    has_file: bool,
    file: &[u8],
    has_offsets: bool,
    offsets: &[u32],
    has_paths: bool,
    paths: &[&[u8]],
) -> Outcome<IndexParts>
    ensures { let texts = list_map (λ path. path.now) paths.now in
        MatchResult result (λ parts. (option_map string_bytes parts.file ≡ text_if has_file file.now)
        × (option_map (λ v. v.items) parts.offsets ≡ if_given has_offsets (list_map line_of offsets.now))
        × (option_map (λ v. list_map string_bytes v.items) parts.paths ≡ if_given has_paths texts))
        (λ failure. UnlessMemory failure (OrNoText has_file file.now (IsNoPathIf has_paths texts) failure)) }
{
    let paths = paths_if(alloc, has_paths, paths)?;
    let file = string_if(alloc, has_file, file)?;
    let offsets = offsets_if(alloc, has_offsets, offsets)?;
    Ok(IndexParts {
        file,
        offsets,
        paths,
    })
}

fn string_if(alloc: Global, given: bool, text: &[u8]) -> Outcome<Option<String>>
    ensures { MatchResult result (λ copy. option_map string_bytes copy ≡ text_if given text.now)
        (λ failure. UnlessMemory failure (IsNoTextIf given text.now failure)) }
{
    match text_if(given, text)? {
        Some(text) => Ok(Some(String::from_str(alloc, text)?)),
        None => Ok(None),
    }
}

fn offsets_if(alloc: Global, given: bool, offsets: &[u32]) -> Result<Option<Vec<Option<u32>>>>
    ensures { MatchResult result
        (λ lines. option_map (λ v. v.items) lines ≡ if_given given (list_map line_of offsets.now))
        (λ e. e ≡ OutOfMemory) }
{
    if !given {
        return Ok(None);
    }
    let mut lines = Vec::with_capacity(alloc, offsets.len())?;
    for offset in offsets {
        lines.push(line_of(*offset))?;
    }
    Ok(Some(lines))
}

fn line_of(offset: u32) -> Option<u32>
    ensures { result ≡ line_of offset }
{
    if offset == NONE { None } else { Some(offset) }
}

fn paths_if(alloc: Global, given: bool, paths: &[&[u8]]) -> Outcome<Option<Vec<String>>>
    ensures { let texts = list_map (λ path. path.now) paths.now in
        MatchResult result
        (λ copies. option_map (λ v. list_map string_bytes v.items) copies ≡ if_given given texts)
        (λ failure. UnlessMemory failure (IsNoPathIf given texts failure)) }
{
    if !given {
        return Ok(None);
    }
    let texts = texts_in(alloc, paths)?;
    Ok(Some(copies(alloc, texts.as_slice())?))
}

fn copies(alloc: Global, texts: &[&str]) -> Result<Vec<String>>
    ensures { MatchResult result
        (λ copies. list_map string_bytes copies.items ≡ list_map (λ text. text.now) texts.now)
        (λ e. e ≡ OutOfMemory) }
{
    let mut copies = Vec::with_capacity(alloc, texts.len())?;
    for text in texts {
        copies.push(String::from_str(alloc, text)?)?;
    }
    Ok(copies)
}

fn finish_with(
    alloc: Global,
    handle: &mut Handle,
    map: &mut Handle,
    parts: IndexParts,
) -> Outcome<()>
    ensures made { let due = index_of (option_map string_bytes parts.file) (option_map (λ v. v.items) parts.offsets)
        (option_map (λ v. list_map string_bytes v.items) parts.paths) in
        Does result (IsSomeAnd (list_in (held_in handle.old)) (λ ss. tree_in (held_in map.new) ≡ Some (due ss)))
        (OfLibraryOrKind NoError (list_in (held_in handle.old) ≡ None)) (held_in map.new ≡ held_in map.old) }
    ensures emptied { Empties result (held_in handle.old) (held_in handle.new) }
    ensures other { list_in (held_in handle.old) ≡ None → held_in handle.new ≡ held_in handle.old }
{
    match take_sections(alloc, handle) {
        Some(sections) => put_index(alloc, map, parts, sections),
        None => Err(Failure::WrongKind),
    }
}

fn put_index(
    alloc: Global,
    map: &mut Handle,
    parts: IndexParts,
    sections: Vec<SourceMapSection>,
) -> Outcome<()>
    ensures { let due = index_of (option_map string_bytes parts.file) (option_map (λ v. v.items) parts.offsets)
        (option_map (λ v. list_map string_bytes v.items) parts.paths) in
        Does result (tree_in (held_in map.new) ≡ Some (due (list_map section_value sections.items)))
        (OfLibrary NoError) (held_in map.new ≡ held_in map.old) }
{
    let IndexParts {
        file,
        offsets,
        paths,
    } = parts;
    let index = SourceMapIndex::new_ram_bundle_compatible(alloc, file, sections, offsets, paths);
    put_map(alloc, map, DecodedMap::Index(index))
}

fn take_sections(alloc: Global, handle: &mut Handle) -> Option<Vec<SourceMapSection>>
    ensures value { option_map (λ ss. list_map section_value ss.items) result ≡ list_in (held_in handle.old) }
    ensures emptied { IfSome (list_in (held_in handle.old)) (λ _. held_in handle.new ≡ None) }
    ensures other { list_in (held_in handle.old) ≡ None → held_in handle.new ≡ held_in handle.old }
{
    if !holds_sections(handle) {
        return None;
    }
    match Box::into_inner(handle.take(alloc)?) {
        Held::Sections(sections) => Some(sections),
        _ => None,
    }
}

fn holds_sections(handle: &mut Handle) -> bool
    ensures sections { result ≡ is_some (list_in (held_in handle.old)) }
    ensures kept { held_in handle.new ≡ held_in handle.old }
{
    matches!(handle.get(), Some(Held::Sections(_)))
}
