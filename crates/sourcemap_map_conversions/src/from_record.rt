//! Reads a JSON record as the parts of a regular map.
ghost use Rattle.std.specs.Prelude.{◌≡◌, ◌≤◌, Ok, Result, List, IfOk, IsTrue, ◌↔◌, length, map, option_map};
ghost use Rattle.std.specs.Prelude.{string_bytes, vec_len};
ghost use Rattle.serde_json.specs.View.{view, number_view};
ghost use Rattle.sourcemap_errors.specs.Answer.{IsAnswer, Gives};
ghost use Rattle.sourcemap_tokens.specs.Tokens.{AllWithin, AreInOrder};
ghost use Rattle.sourcemap_mappings.specs.Read.{MappingsAnswer};
ghost use Rattle.sourcemap_records.specs.Jsontypes.{tree, flat, text_view};
ghost use Rattle.sourcemap_texts.specs.Texts.{texts_of};
ghost use Rattle.sourcemap_map_conversions.specs.Parts.{parts_view};
ghost use Rattle.sourcemap_map_conversions.specs.FromRecord.{PartsAnswer, rising, name_read, number_read, file_read};
ghost use Rattle.sourcemap_map_conversions.specs.FromRecord.{source_read};
ghost use Rattle.sourcemap_map_conversions.specs.FromRecordSteps.{ArePartsIn, HaveFewItems, metadata_read};
ghost use Rattle.sourcemap_map_conversions.specs.FromRecordSteps.{sources_read, parts_read};

use crate::parts::Parts;
use serde_json::{Number, Value};
use sourcemap_errors::errors::{Error, Result};
use sourcemap_headers::debug_id::DebugId;
use sourcemap_line_index::token_list::TokenList;
use sourcemap_map_parts::contents::Contents;
use sourcemap_map_parts::metadata::MapMetadata;
use sourcemap_map_parts::sources::Sources;
use sourcemap_mappings::read::parse_token_list;
use sourcemap_records::jsontypes::RawSourceMap;
use std::alloc::Global;
use std::collections::BTreeSet;

// The maximum number of sources, names or contents.
const ID_LIMIT: usize = 4294967295;

// A missing text is empty.
#[derive(Drop)]
struct RecordTexts {
    mappings: String,
    ranges: String,
}

#[derive(Drop)]
struct RecordMetadata {
    file: Option<Value>,
    ids: Vec<u32>,
    debug_id: Option<DebugId>,
}

// A missing list is empty.
#[derive(Drop)]
struct RecordLists {
    names: Vec<Value>,
    root: Option<String>,
    sources: Vec<Option<String>>,
    contents: Vec<Option<String>>,
}

// A regular map is read from these fields of a JSON record. The other fields of the record are
// ignored.
#[derive(Drop)]
struct RecordParts {
    texts: RecordTexts,
    metadata: RecordMetadata,
    lists: RecordLists,
}

/// Returns the parts of the regular map in a record. `version`, `sections` and the keys that start
/// with `x_` are ignored. Returns `IncompatibleSourceMap` if one of the lists `sources`, `names`
/// and `sourcesContent` has more than 4294967295 items. Otherwise returns the first error of
/// `mappings` or `rangeMappings`, if there is one. The only other error is `OutOfMemory`.
/// `mappings` and `rangeMappings` are dropped before names and sources are converted.
pub fn parts_of_record(alloc: Global, rsm: RawSourceMap) -> Result<Parts>
    ensures answer { IsAnswer parts_view (PartsAnswer (flat (tree rsm))) result }
    ensures few_names { IfOk result (λ parts. vec_len parts.names ≤ 4294967295) }
    ensures within { IfOk result (λ parts.
        AllWithin (length parts.sources.texts) (vec_len parts.names) parts.tokens) }
{
    let RecordParts {
        texts,
        metadata,
        lists,
    } = record_parts(alloc, rsm);
    if !have_few_items(&lists) {
        return Err(Error::IncompatibleSourceMap);
    }
    let sources = lists.sources.len() as u32;
    let names = lists.names.len() as u32;
    // prover: `match` instead of `?`
    match token_list(alloc, texts, sources, names) {
        Err(error) => Err(error),
        Ok(tokens) => parts_with(alloc, metadata, lists, tokens),
    }
}

fn record_parts(alloc: Global, rsm: RawSourceMap) -> RecordParts
    ensures { ArePartsIn (flat (tree rsm)) result }
{
    RecordParts {
        texts: RecordTexts {
            mappings: rsm.mappings.unwrap_or(String::new(alloc)),
            ranges: rsm.range_mappings.unwrap_or(String::new(alloc)),
        },
        metadata: RecordMetadata {
            file: rsm.file,
            ids: rsm.ignore_list.unwrap_or(Vec::new(alloc)),
            debug_id: rsm.debug_id,
        },
        lists: RecordLists {
            names: rsm.names.unwrap_or(Vec::new(alloc)),
            root: rsm.source_root,
            sources: rsm.sources.unwrap_or(Vec::new(alloc)),
            contents: rsm.sources_content.unwrap_or(Vec::new(alloc)),
        },
    }
}

fn have_few_items(lists: &RecordLists) -> bool
    ensures { IsTrue result ↔ HaveFewItems lists.now }
{
    let names = lists.names.len() <= ID_LIMIT;
    let sources = lists.sources.len() <= ID_LIMIT;
    let contents = lists.contents.len() <= ID_LIMIT;
    // prover: `&` leaves one goal
    names & sources & contents
}

fn token_list(alloc: Global, texts: RecordTexts, sources: u32, names: u32) -> Result<TokenList>
    ensures answer { IsAnswer (λ list. list)
        (MappingsAnswer (string_bytes texts.mappings) (string_bytes texts.ranges)
        (record { sources = sources; names = names })) result }
    ensures within { IfOk result (AllWithin sources names) }
{
    let mappings = texts.mappings.as_str();
    let ranges = texts.ranges.as_str();
    parse_token_list(alloc, mappings, ranges, sources, names)
}

fn parts_with(
    alloc: Global,
    metadata: RecordMetadata,
    lists: RecordLists,
    tokens: TokenList,
) -> Result<Parts>
    requires { HaveFewItems lists }
    ensures { Gives parts_view result (Ok (parts_read metadata lists tokens)) }
{
    let RecordLists {
        names,
        root,
        sources,
        contents,
    } = lists;
    let contents = Contents::of_texts(alloc, contents)?;
    let names = all_names(alloc, names)?;
    let sources = all_sources(alloc, sources)?;
    let sources = Sources::with_root(alloc, sources, root)?;
    let metadata = metadata_of(alloc, metadata)?;
    Ok(Parts {
        metadata,
        tokens,
        names,
        sources,
        contents,
    })
}

fn metadata_of(alloc: Global, metadata: RecordMetadata) -> Result<MapMetadata>
    ensures { Gives (λ h. h) result (Ok (metadata_read metadata)) }
{
    let RecordMetadata {
        file,
        ids,
        debug_id,
    } = metadata;
    let ignored = all_ids(alloc, ids.as_slice())?;
    let file = file_in(alloc, file)?;
    Ok(MapMetadata::with(file, ignored, debug_id))
}

// The decimal digits of a number that is stored as `u64` or `i64`. A negative number has its sign
// before the digits. A floating-point number gives an empty text. The only error is `OutOfMemory`.
fn number_text(alloc: Global, number: Number) -> Result<String>
    ensures { Gives string_bytes result (Ok (number_read (number_view number))) }
{
    if let Some(whole) = number.as_u64() {
        return Ok(format!(in alloc; "{whole}")?);
    }
    if let Some(whole) = number.as_i64() {
        return Ok(format!(in alloc; "{whole}")?);
    }
    Ok(String::new(alloc))
}

// The text of a name: the text of a string, or `number_text` of a number. Empty for any other
// value. The only error is `OutOfMemory`.
fn name_text(alloc: Global, name: Value) -> Result<String>
    ensures { Gives string_bytes result (Ok (name_read (view name))) }
{
    match name {
        Value::String(text) => Ok(text),
        Value::Number(number) => number_text(alloc, number),
        _ => Ok(String::new(alloc)),
    }
}

fn all_names(alloc: Global, mut names: Vec<Value>) -> Result<Vec<String>>
    ensures { Gives texts_of result (Ok (map name_read (map view names.items))) }
{
    let mut texts = Vec::with_capacity(alloc, names.len())?;
    // Values are removed from the end of the list. `shrink_by_quarters` can then free unused memory
    // of the list while the loop still converts names.
    names.reverse();
    while let Some(name) = names.pop() {
        texts.push(name_text(alloc, name)?)?;
        shrink_by_quarters(&mut names);
    }
    Ok(texts)
}

// Frees the unused capacity if the length is a multiple of 4096 and at most about three quarters of
// the capacity.
fn shrink_by_quarters(names: &mut Vec<Value>)
    ensures items { names.new.items ≡ names.old.items }
    ensures len { vec_len names.new ≡ vec_len names.old }
{
    let len = names.len();
    if len % 4096 != 0 {
        return;
    }
    if len <= names.capacity() / 4 * 3 {
        names.shrink_to_fit();
    }
}

fn all_sources(alloc: Global, sources: Vec<Option<String>>) -> Result<Vec<String>>
    ensures { Gives texts_of result (Ok (map source_read (map text_view sources.items))) }
{
    let mut texts = Vec::with_capacity(alloc, sources.len())?;
    for source in sources {
        texts.push(source.unwrap_or(String::new(alloc)))?;
    }
    Ok(texts)
}

/// The file name in a record: `<invalid>` if the value is not a string, `None` if there is no
/// value. The only error is `OutOfMemory`.
pub fn file_in(alloc: Global, file: Option<Value>) -> Result<Option<String>>
    ensures { Gives text_view result (Ok (option_map file_read (option_map view file))) }
{
    match file {
        None => Ok(None),
        Some(Value::String(text)) => Ok(Some(text)),
        Some(_) => Ok(Some(String::from_str(alloc, "<invalid>")?)),
    }
}

fn all_ids(alloc: Global, ids: &[u32]) -> Result<BTreeSet<u32>>
    ensures { Gives (λ set. set.keys) result (Ok (rising ids.now)) }
{
    let mut set = BTreeSet::new(alloc);
    for id in ids {
        set.insert(*id)?;
    }
    Ok(set)
}
