//! Getters of maps.
ghost use Rattle.std.specs.Prelude.{◌≡◌, ◌≤◌, ◌-◌, ℕ, IfSome, None, Some, length, min, option_map, slice_get, unwrap_or};
ghost use Rattle.std.specs.Borrow.{sem};
ghost use Rattle.std.specs.Option.{option_copied};
ghost use Rattle.sourcemap_c_handles.specs.Handles.{EndsAsBefore, held_in};
ghost use Rattle.sourcemap_c_handles.specs.Layout.{map_token};
ghost use Rattle.sourcemap_index.specs.DecodedMap.{debug_id_of};
ghost use Rattle.sourcemap_index.specs.Family.{index_value, map_tree};
ghost use Rattle.sourcemap_c.specs.Getters.{AreFrom, contents_in, counts_of, counts_of_map, counts_of_sections, file_of, leaf_in, name_in, root_of, source_in};
ghost use Rattle.sourcemap_c.specs.Codes.{ReturnsValue};
ghost use Rattle.sourcemap_c.specs.Kinds.{tree_in, tree_of};

use crate::codes::{ABSENT, OK, WRONG_KIND, put_text};
use crate::kinds::map_in;
use sourcemap::{DecodedMap, RawToken, SourceMap, SourceMapIndex};
use sourcemap_c_handles::Handle;
use sourcemap_c_handles::layout::{Counts, IdBytes, MapToken};

/// Writes how many tokens, sources, names, ignored ids and sections the map has.
#[unsafe(no_mangle)]
pub extern "C" fn sm_count(map: &mut Handle, counts: &mut Counts) -> u32
    ensures counts { ReturnsValue (option_map (λ t. Some (counts_of t)) (tree_in (held_in map.old)))
        result counts.old counts.new }
    ensures kept { held_in map.new ≡ held_in map.old }
{
    match map_in(map) {
        Some(map) => {
            *counts = counts_of(map);
            OK
        }
        None => WRONG_KIND,
    }
}

fn counts_of(map: &DecodedMap) -> Counts
    ensures { result ≡ counts_of (map_tree map.now) }
{
    match map {
        DecodedMap::Regular(map) => counts_of_regular(map),
        DecodedMap::Hermes(map) => counts_of_regular(map),
        DecodedMap::Index(index) => counts_of_index(index),
    }
}

fn counts_of_regular(map: &SourceMap) -> Counts
    ensures { result ≡ counts_of_map map.now }
{
    let ignored = map.lists().ignored.len();
    Counts {
        tokens: map.get_token_count(),
        sources: map.get_source_count(),
        names: map.get_name_count(),
        ignored: u32::try_from(ignored).unwrap_or(u32::MAX),
        sections: 0,
    }
}

fn counts_of_index(index: &SourceMapIndex) -> Counts
    ensures { result ≡ counts_of_sections (length (index_value index.now).sections) }
{
    Counts {
        tokens: 0,
        sources: 0,
        names: 0,
        ignored: 0,
        sections: index.get_section_count(),
    }
}

/// Borrows the name of the generated file.
#[unsafe(no_mangle)]
pub extern "C" fn sm_file<'a>(map: &'a mut Handle, text: &mut &'a [u8]) -> u32
    ensures* after { sem 𝓛 (EndsAsBefore map.entry) }
    ensures value { ReturnsValue (option_map file_of (tree_in (held_in map.old)))
        result text.old.now text.new.now }
{
    put_file(map_in(map), text)
}

fn put_file<'a>(map: Option<&'a DecodedMap>, text: &mut &'a [u8]) -> u32
    ensures { ReturnsValue (option_map file_of (tree_of map.entry)) result text.old.now text.new.now }
{
    match map {
        Some(map) => put_text(file_of(map), text),
        None => WRONG_KIND,
    }
}

fn file_of(map: &DecodedMap) -> Option<&str>
    ensures { option_copied result ≡ file_of (map_tree map.now) }
{
    match map {
        DecodedMap::Regular(map) => map.get_file(),
        DecodedMap::Hermes(map) => map.get_file(),
        DecodedMap::Index(index) => index.get_file(),
    }
}

/// For a regular map, returns the map. For a Hermes map, returns the regular map in it. For an
/// index map, returns `None`.
pub(crate) fn leaf_in(map: &DecodedMap) -> Option<&SourceMap>
    ensures { option_copied result ≡ leaf_in (map_tree map.now) }
{
    match map {
        DecodedMap::Regular(map) => Some(map),
        DecodedMap::Hermes(map) => Some(&**map),
        DecodedMap::Index(_) => None,
    }
}

/// Borrows the `sourceRoot`.
#[unsafe(no_mangle)]
pub extern "C" fn sm_source_root<'a>(map: &'a mut Handle, text: &mut &'a [u8]) -> u32
    ensures* after { sem 𝓛 (EndsAsBefore map.entry) }
    ensures value { ReturnsValue (option_map root_of (tree_in (held_in map.old)))
        result text.old.now text.new.now }
{
    put_source_root(map_in(map), text)
}

fn put_source_root<'a>(map: Option<&'a DecodedMap>, text: &mut &'a [u8]) -> u32
    ensures { ReturnsValue (option_map root_of (tree_of map.entry)) result text.old.now text.new.now }
{
    match map {
        Some(map) => put_text(root_of(map), text),
        None => WRONG_KIND,
    }
}

fn root_of(map: &DecodedMap) -> Option<&str>
    ensures { option_copied result ≡ root_of (map_tree map.now) }
{
    leaf_in(map)?.get_source_root()
}

/// Writes the debug id.
#[unsafe(no_mangle)]
pub extern "C" fn sm_get_debug_id(map: &mut Handle, id: &mut IdBytes) -> u32
    ensures id { ReturnsValue (option_map debug_id_of (tree_in (held_in map.old)))
        result id.old.bytes id.new.bytes }
    ensures kept { held_in map.new ≡ held_in map.old }
{
    match map_in(map) {
        Some(map) => match map.debug_id() {
            Some(found) => {
                *id = IdBytes::of_id(found);
                OK
            }
            None => ABSENT,
        },
        None => WRONG_KIND,
    }
}

/// Borrows the source with this id, resolved against `sourceRoot`.
#[unsafe(no_mangle)]
pub extern "C" fn sm_source<'a>(map: &'a mut Handle, id: u32, text: &mut &'a [u8]) -> u32
    ensures* after { sem 𝓛 (EndsAsBefore map.entry) }
    ensures value { ReturnsValue (option_map (source_in id) (tree_in (held_in map.old)))
        result text.old.now text.new.now }
{
    put_source(map_in(map), id, text)
}

fn put_source<'a>(map: Option<&'a DecodedMap>, id: u32, text: &mut &'a [u8]) -> u32
    ensures { ReturnsValue (option_map (source_in id) (tree_of map.entry)) result text.old.now text.new.now }
{
    match map {
        Some(map) => put_text(source_in(map, id), text),
        None => WRONG_KIND,
    }
}

fn source_in(map: &DecodedMap, id: u32) -> Option<&str>
    ensures { option_copied result ≡ source_in id (map_tree map.now) }
{
    leaf_in(map)?.get_source(id)
}

/// Borrows the name with this id.
#[unsafe(no_mangle)]
pub extern "C" fn sm_name<'a>(map: &'a mut Handle, id: u32, text: &mut &'a [u8]) -> u32
    ensures* after { sem 𝓛 (EndsAsBefore map.entry) }
    ensures value { ReturnsValue (option_map (name_in id) (tree_in (held_in map.old)))
        result text.old.now text.new.now }
{
    put_name(map_in(map), id, text)
}

fn put_name<'a>(map: Option<&'a DecodedMap>, id: u32, text: &mut &'a [u8]) -> u32
    ensures { ReturnsValue (option_map (name_in id) (tree_of map.entry)) result text.old.now text.new.now }
{
    match map {
        Some(map) => put_text(name_in(map, id), text),
        None => WRONG_KIND,
    }
}

fn name_in(map: &DecodedMap, id: u32) -> Option<&str>
    ensures { option_copied result ≡ name_in id (map_tree map.now) }
{
    leaf_in(map)?.get_name(id)
}

/// Borrows the contents of the source with this id.
#[unsafe(no_mangle)]
pub extern "C" fn sm_contents<'a>(map: &'a mut Handle, id: u32, text: &mut &'a [u8]) -> u32
    ensures* after { sem 𝓛 (EndsAsBefore map.entry) }
    ensures value { ReturnsValue (option_map (contents_in id) (tree_in (held_in map.old)))
        result text.old.now text.new.now }
{
    put_contents(map_in(map), id, text)
}

fn put_contents<'a>(map: Option<&'a DecodedMap>, id: u32, text: &mut &'a [u8]) -> u32
    ensures { ReturnsValue (option_map (contents_in id) (tree_of map.entry)) result text.old.now text.new.now }
{
    match map {
        Some(map) => put_text(contents_in(map, id), text),
        None => WRONG_KIND,
    }
}

fn contents_in(map: &DecodedMap, id: u32) -> Option<&str>
    ensures { option_copied result ≡ contents_in id (map_tree map.now) }
{
    leaf_in(map)?.get_source_contents(id)
}

/// Writes the tokens from index `first` on, as many as fit. Returns the number of tokens written,
/// or 0 if the handle holds an index map or no map.
#[unsafe(no_mangle)]
pub extern "C" fn sm_tokens(map: &mut Handle, first: u32, tokens: &mut [MapToken]) -> usize
    ensures count { result ≡ unwrap_or (option_map (λ t. unwrap_or (option_map
        (λ m. min (length tokens.old) (length m.tokens - first)) (leaf_in t)) 0)
        (tree_in (held_in map.old))) 0 }
    ensures each { IfSome (tree_in (held_in map.old)) (λ t. IfSome (leaf_in t)
        (λ m. AreFrom map_token first m.tokens tokens.new result)) }
    ensures rest { (i : ℕ) → result ≤ i → slice_get tokens.new i ≡ slice_get tokens.old i }
    ensures kept { held_in map.new ≡ held_in map.old }
{
    match map_in(map) {
        Some(map) => put_tokens(map, first as usize, tokens),
        None => 0,
    }
}

fn put_tokens(map: &DecodedMap, first: usize, tokens: &mut [MapToken]) -> usize
    ensures count { result ≡ unwrap_or (option_map
        (λ m. min (length tokens.old) (length m.tokens - first)) (leaf_in (map_tree map.now))) 0 }
    ensures each { IfSome (leaf_in (map_tree map.now))
        (λ m. AreFrom map_token first m.tokens tokens.new result) }
    ensures rest { (i : ℕ) → result ≤ i → slice_get tokens.new i ≡ slice_get tokens.old i }
{
    match leaf_in(map) {
        Some(map) => put_raw(map.lists().tokens, first, tokens),
        None => 0,
    }
}

fn put_raw(raw: &[RawToken], first: usize, tokens: &mut [MapToken]) -> usize
    ensures count { result ≡ min (length tokens.old) (length raw.now - first) }
    ensures each { AreFrom map_token first raw.now tokens.new result }
    ensures rest { (i : ℕ) → result ≤ i → slice_get tokens.new i ≡ slice_get tokens.old i }
{
    let count = raw.len().saturating_sub(first).min(tokens.len());
    for i in 0..count {
        tokens[i] = MapToken::of_raw(raw[first + i]);
    }
    count
}
