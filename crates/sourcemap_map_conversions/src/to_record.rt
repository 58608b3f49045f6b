//! Writes the parts of a map as a JSON record.
ghost use Rattle.std.specs.Prelude.{◌≡◌, ◌≤◌, ◌^◌, Ok, Some, IfOk, IfErr, IfSome, is_some, length, map, option_map};
ghost use Rattle.std.specs.Prelude.{string_bytes, vec_len};
ghost use Rattle.std.specs.Ordering.{nat_cmp};
ghost use Rattle.std.specs.List.Sorted.{IsStrictlySortedBy};
ghost use Rattle.std.specs.List.{list_any, AllByRecursion};
ghost use Rattle.serde_json.specs.Data.{string};
ghost use Rattle.serde_json.specs.View.{view};
ghost use Rattle.sourcemap_errors.specs.Answer.{IsAnswer, Gives};
ghost use Rattle.sourcemap_errors.specs.declared.errors.Error.TheVariants.{OutOfMemory};
ghost use Rattle.sourcemap_headers.specs.DebugId.{IsId};
ghost use Rattle.sourcemap_tokens.specs.Tokens.{AreInOrder};
ghost use Rattle.sourcemap_records.specs.Jsontypes.{tree, plain, IsFine, FitsU32, text_view};
ghost use Rattle.sourcemap_texts.specs.Texts.{texts_of, contents_in};
ghost use Rattle.sourcemap_map_parts.specs.Contents.{fitted};
ghost use Rattle.sourcemap_map_conversions.specs.Parts.{parts_view};
ghost use Rattle.sourcemap_map_conversions.specs.ToRecord.{RecordAnswer, record_with, written_ids};
ghost use Rattle.sourcemap_map_conversions.specs.ToRecordSteps.{AreWritten, AreListsOf, others_view, record_of_parts};
ghost use Rattle.sourcemap_map_conversions.specs.ToRecordSteps.{some_contents};

use crate::parts::Parts;
use serde_json::Value;
use sourcemap_errors::errors::Result;
use sourcemap_headers::debug_id::DebugId;
use sourcemap_line_index::token_list::TokenList;
use sourcemap_map_parts::contents::Contents;
use sourcemap_map_parts::fitting::fit;
use sourcemap_map_parts::metadata::MapMetadata;
use sourcemap_map_parts::sources::Sources;
use sourcemap_map_parts::text_lists::copy_texts;
use sourcemap_mappings::write::{write_mappings, write_range_mappings};
use sourcemap_records::jsontypes::RawSourceMap;
use sourcemap_texts::copies::copy_text;
use sourcemap_tokens::tokens::RawToken;
use std::alloc::Global;
use std::collections::BTreeSet;

#[derive(Drop)]
struct TokenTexts {
    mappings: String,
    ranges: Option<String>,
}

// All parts but the tokens.
#[derive(Drop)]
struct OtherParts {
    metadata: MapMetadata,
    names: Vec<String>,
    root: Option<String>,
    sources: Vec<String>,
    contents: Vec<Option<String>>,
}

#[derive(Drop)]
struct FileAndRoot {
    file: Option<String>,
    root: Option<String>,
}

// The items of the lists `names`, `sources`, `sourcesContent` and `ignoreList` in a record. The
// record has no `sourcesContent` if no source has contents, and no `ignoreList` if `ids` is empty.
#[derive(Drop)]
struct WrittenLists {
    names: Vec<Value>,
    sources: Vec<Option<String>>,
    contents: Vec<Option<String>>,
    ids: Vec<u32>,
}

/// Returns the record of these parts. It always has `version` 3, `names`, `mappings` and `sources`.
/// The sources are not resolved against the root. The record has `file`, `sourceRoot` and a debug
/// id if the map has them. It has `rangeMappings` if a token is a range token, and `ignoreList` if
/// this list is not empty. It has `sourcesContent`, with one item for each source, if a source has
/// contents. Texts are copied. The only error is `OutOfMemory`. Requires at most 4294967295 names.
pub fn record_of(
    alloc: Global,
    metadata: &MapMetadata,
    tokens: &TokenList,
    names: &[String],
    sources: &Sources,
    contents: &Contents,
) -> Result<RawSourceMap>
    requires { length names.now ≤ 4294967295 }
    ensures answer { IsAnswer tree (RecordAnswer (record {
      metadata = metadata.now;
      tokens = tokens.now;
      names = map string_bytes names.now;
      sources = sources.now;
      contents = contents.now;
    })) result }
    ensures rising { IsStrictlySortedBy nat_cmp metadata.now.ignored }
{
    // prover: ids are sorted
    let _ = metadata.ignore_list();
    let texts = token_texts(alloc, tokens.as_slice(), names.len() as u32)?;
    let others = OtherParts {
        metadata: metadata.clone(alloc)?,
        names: copy_texts(alloc, names)?,
        root: copy_text(alloc, sources.root())?,
        sources: copy_texts(alloc, sources.unresolved())?,
        contents: contents.texts()?,
    };
    record_of_texts(alloc, texts, others)
}

/// The same as `record_of`, but texts are moved into the record, and tokens are dropped once they
/// are encoded. The only error is `OutOfMemory`.
pub fn into_record(alloc: Global, parts: Parts) -> Result<RawSourceMap>
    requires { vec_len parts.names ≤ 4294967295 }
    ensures { IsAnswer tree (RecordAnswer (parts_view parts)) result }
{
    let Parts {
        metadata,
        tokens,
        names,
        sources,
        contents,
    } = parts;
    let contents = contents.into_texts()?;
    let (root, sources) = sources.into_unresolved();
    let others = OtherParts {
        metadata,
        names,
        root,
        sources,
        contents,
    };
    record_of_tokens(alloc, tokens, others)
}

// Drops the tokens once they are encoded.
fn record_of_tokens(alloc: Global, tokens: TokenList, others: OtherParts) -> Result<RawSourceMap>
    requires { vec_len others.names ≤ 4294967295 }
    ensures { IsAnswer tree (RecordAnswer (record (others_view others) { tokens = tokens })) result }
{
    let texts = into_token_texts(alloc, tokens, others.names.len() as u32)?;
    record_of_texts(alloc, texts, others)
}

fn token_texts(alloc: Global, tokens: &[RawToken], names: u32) -> Result<TokenTexts>
    requires { AreInOrder tokens.now }
    ensures texts { IfOk result (AreWritten names tokens.now) }
    ensures memory { IfErr result (λ e. e ≡ OutOfMemory) }
{
    let mappings = write_mappings(alloc, tokens, names)?;
    let ranges = write_range_mappings(alloc, tokens)?;
    Ok(TokenTexts { mappings, ranges })
}

fn into_token_texts(alloc: Global, tokens: TokenList, names: u32) -> Result<TokenTexts>
    ensures texts { IfOk result (AreWritten names tokens) }
    ensures memory { IfErr result (λ e. e ≡ OutOfMemory) }
{
    token_texts(alloc, tokens.as_slice(), names)
}

fn record_of_texts(alloc: Global, texts: TokenTexts, others: OtherParts) -> Result<RawSourceMap>
    ensures value { Gives tree result
        (Ok (plain (record_with (others_view others)
        (string_bytes texts.mappings) (text_view texts.ranges)))) }
    ensures fine { IfOk result (λ r. IsFine (tree r)) }
{
    let OtherParts {
        metadata,
        names,
        root,
        sources,
        contents,
    } = others;
    let (file, ignored, debug_id) = metadata.into_parts();
    let lists = lists_of(alloc, names, sources, contents, &ignored)?;
    let file_and_root = FileAndRoot { file, root };
    Ok(as_record(texts, file_and_root, lists, checked_id(debug_id)))
}

fn lists_of(
    alloc: Global,
    names: Vec<String>,
    sources: Vec<String>,
    contents: Vec<Option<String>>,
    ignored: &BTreeSet<u32>,
) -> Result<WrittenLists>
    ensures lists { IfOk result
        (AreListsOf (texts_of names) (texts_of sources) (contents_in contents) ignored.now.keys) }
    ensures memory { IfErr result (λ e. e ≡ OutOfMemory) }
{
    let contents = content_texts(contents, sources.len())?;
    let names = name_values(alloc, names)?;
    let sources = source_texts(alloc, sources)?;
    let ids = id_list(alloc, ignored)?;
    Ok(WrittenLists {
        names,
        sources,
        contents,
        ids,
    })
}

fn name_values(alloc: Global, names: Vec<String>) -> Result<Vec<Value>>
    ensures { Gives (λ v. map view v.items) result (Ok (map string (texts_of names))) }
{
    let mut values = Vec::with_capacity(alloc, names.len())?;
    for name in names {
        values.push(Value::String(name))?;
    }
    Ok(values)
}

fn source_texts(alloc: Global, sources: Vec<String>) -> Result<Vec<Option<String>>>
    ensures { Gives contents_in result (Ok (map Some (texts_of sources))) }
{
    let mut texts = Vec::with_capacity(alloc, sources.len())?;
    for source in sources {
        texts.push(Some(source))?;
    }
    Ok(texts)
}

// Returns the contents with one item for each of the `count` sources. A longer list is truncated.
// A shorter list is filled up with `None`. The only error is `OutOfMemory`.
fn content_texts(mut contents: Vec<Option<String>>, count: usize) -> Result<Vec<Option<String>>>
    ensures { Gives contents_in result (Ok (fitted count (contents_in contents))) }
{
    fit(&mut contents, count)?;
    Ok(contents)
}

fn id_list(alloc: Global, ids: &BTreeSet<u32>) -> Result<Vec<u32>>
    ensures { Gives (λ v. v.items) result (Ok ids.now.keys) }
{
    Ok(ids.iter().copied().collect(alloc)?)
}

fn has_some(contents: &[Option<String>]) -> bool
    ensures { result ≡ list_any is_some contents.now }
{
    contents.iter().any(|text| text.is_some())
}

fn contents_if_some(contents: Vec<Option<String>>) -> Option<Vec<Option<String>>>
    ensures { option_map (λ v. map text_view v.items) result
        ≡ some_contents (map text_view contents.items) }
{
    if has_some(contents.as_slice()) {
        Some(contents)
    } else {
        None
    }
}

fn ids_if_some(ids: Vec<u32>) -> Option<Vec<u32>>
    ensures value { option_map (λ v. v.items) result ≡ written_ids ids.items }
    ensures small { IfSome result (λ v. AllByRecursion FitsU32 v.items) }
{
    if ids.is_empty() { None } else { Some(ids) }
}

/// Returns the id unchanged. A caller learns from the clause `bytes` that the id has sixteen bytes.
pub fn checked_id(id: Option<DebugId>) -> Option<DebugId>
    ensures value { result ≡ id }
    ensures bytes { IfSome result IsId }
{
    match id {
        None => None,
        Some(id) => Some(DebugId::from_uuid(id.uuid())),
    }
}

fn as_record(
    texts: TokenTexts,
    file_and_root: FileAndRoot,
    lists: WrittenLists,
    debug_id: Option<DebugId>,
) -> RawSourceMap
    ensures value { tree result ≡ plain (record_of_parts texts file_and_root lists debug_id) }
    ensures fine { IfSome debug_id IsId → IsFine (tree result) }
{
    let TokenTexts { mappings, ranges } = texts;
    let FileAndRoot { file, root } = file_and_root;
    let WrittenLists {
        names,
        sources,
        contents,
        ids,
    } = lists;
    RawSourceMap {
        version: Some(3),
        file: file.map(Value::String),
        sources: Some(sources),
        source_root: root,
        sources_content: contents_if_some(contents),
        sections: None,
        names: Some(names),
        range_mappings: ranges,
        mappings: Some(mappings),
        ignore_list: ids_if_some(ids),
        x_facebook_offsets: None,
        x_metro_module_paths: None,
        x_facebook_sources: None,
        debug_id,
    }
}
