//! Writes the parts of a regular map as compact JSON, in pieces.
ghost use Rattle.std.specs.Prelude.{◌≡◌, ◌≤◌, ◌||◌, ℕ, List, None, true, false, map, is_some, length, OnOk, IfOk};
ghost use Rattle.std.specs.Prelude.{IfErr, IfSome, string_bytes};
ghost use Rattle.std.specs.Option.{option_copied};
ghost use Rattle.std.specs.List.{AllByRecursion, list_any};
ghost use Rattle.std.specs.Io.KnownBytes.{Appends};
ghost use Rattle.serde_json.specs.Data.{string};
ghost use Rattle.serde_json.specs.Written.{compact_text};
ghost use Rattle.sourcemap_errors.specs.Answer.{UnlessMemory};
ghost use Rattle.sourcemap_headers.specs.DebugId.{IsId};
ghost use Rattle.sourcemap_map_parts.specs.Contents.{fitted};
ghost use Rattle.sourcemap_json_write.specs.Writing.{IsPlainValue};
ghost use Rattle.sourcemap_records.specs.Field.{written_list, written_or_null};
ghost use Rattle.sourcemap_records.specs.Jsontypes.{FitsU32};
ghost use Rattle.sourcemap_map_conversions.specs.ToRecord.{RecordAnswer};
ghost use Rattle.sourcemap_map_encode.specs.Buffered.{Grows, GrowsBy};
ghost use Rattle.sourcemap_map_encode.specs.Encoded.{IsEncoded, IsIo};
ghost use Rattle.sourcemap_map_encode.specs.Members.{part, parts_text, later_after, IsPlainEntry, debug_id_entry};
ghost use Rattle.sourcemap_map_encode.specs.Members.{ids_entry, names_entry, contents_entry, version_entry};
ghost use Rattle.sourcemap_map_encode.specs.Members.{leading_entries, source_entries, HasSoundLeadingMembers};
ghost use Rattle.sourcemap_map_encode.specs.Members.{IsMappingsPart, IsRangesPart, IsTokensText};

use crate::buffered::{PIECE, flush, put};
use crate::members::{put_key, put_text_if};
use crate::ranges::put_ranges;
use crate::segments::{Mappings, put_mappings};
use crate::texts::{put_comma, put_number, put_numbers, put_text, put_texts};
use sourcemap_errors::errors::Result;
use sourcemap_headers::debug_id::DebugId;
use sourcemap_line_index::token_list::TokenList;
use sourcemap_map_parts::contents::Contents;
use sourcemap_map_parts::metadata::MapMetadata;
use sourcemap_map_parts::sources::Sources;
use sourcemap_mappings::write::has_range;
use sourcemap_source_views::sourceview::SourceView;
use std::alloc::Global;
use std::io::Write;

/// Writes the parts of a map as compact JSON, the same bytes as the record of `record_of` has, to a
/// borrowed writer.
///
/// The text is written in pieces of less than 32 KB, with two exceptions. If the JSON text of a
/// string in the map has 16 KB or more, the text of this string is a piece of its own. The range
/// bits of a line are never split, so a piece may have all range bits of a line in addition to less
/// than 32 KB of other text. So the whole text of the map is in memory at once only if the text of
/// the map is short. The errors are `OutOfMemory`, and `Io` if a write fails for another reason.
/// After an error the writer may hold any part of the text. Requires at most 4294967295 names.
pub fn write_parts<W: Write>(
    alloc: Global,
    metadata: &MapMetadata,
    tokens: &TokenList,
    names: &[String],
    sources: &Sources,
    contents: &Contents,
    writer: &mut W,
    how: Mappings,
) -> Result<()>
    requires { length names.now ≤ 4294967295 }
    ensures written { OnOk result ((text : List ℕ) × IsEncoded (RecordAnswer (record {
      metadata = metadata.now;
      tokens = tokens.now;
      names = map string_bytes names.now;
      sources = sources.now;
      contents = contents.now;
    })) text × Appends (W.contents writer.old) (W.contents writer.new) text) }
    ensures error { IfErr result (λ e. UnlessMemory e (IsIo e)) }
{
    let mut buffer = String::with_capacity(alloc, PIECE)?;
    put(writer, &mut buffer, "{")?;
    let later = put_leading_members(alloc, writer, &mut buffer, metadata)?;
    put_tokens(alloc, writer, &mut buffer, later, tokens, names, how)?;
    put_sources(alloc, writer, &mut buffer, sources, contents)?;
    put_version(alloc, writer, &mut buffer)?;
    put(writer, &mut buffer, "}")?;
    flush(writer, &mut buffer)
}

// Writes the members before `mappings`. Returns whether there is such a member.
fn put_leading_members<W: Write>(
    alloc: Global,
    writer: &mut W,
    buffer: &mut String,
    metadata: &MapMetadata,
) -> Result<bool>
    ensures text { OnOk result (Grows (W.contents writer.old) (string_bytes buffer.old)
        (W.contents writer.new) (string_bytes buffer.new)
        (parts_text false (leading_entries metadata.now))) }
    ensures later { IfOk result (λ later.
        later ≡ later_after false (leading_entries metadata.now)) }
    ensures is_plain { OnOk result (AllByRecursion IsPlainEntry (leading_entries metadata.now)) }
    ensures sound { OnOk result (HasSoundLeadingMembers metadata.now) }
    ensures error { IfErr result (λ e. UnlessMemory e (IsIo e)) }
{
    let later = put_debug_id(alloc, writer, buffer, metadata.debug_id())?;
    let later = put_text_if(alloc, writer, buffer, later, "file", metadata.file())?;
    let ids = ids_of(alloc, metadata)?;
    put_ids(alloc, writer, buffer, later, ids.as_slice())
}

fn ids_of(alloc: Global, metadata: &MapMetadata) -> Result<Vec<u32>>
    ensures items { IfOk result (λ ids. ids.items ≡ metadata.now.ignored) }
    ensures error { IfErr result (λ e. UnlessMemory e (IsIo e)) }
{
    Ok(metadata.ignore_list().iter().copied().collect(alloc)?)
}

fn put_debug_id<W: Write>(
    alloc: Global,
    writer: &mut W,
    buffer: &mut String,
    id: Option<DebugId>,
) -> Result<bool>
    ensures text { OnOk result (Grows (W.contents writer.old) (string_bytes buffer.old)
        (W.contents writer.new) (string_bytes buffer.new) (part false (debug_id_entry id))) }
    ensures later { IfOk result (λ later. later ≡ is_some id) }
    ensures is_plain { OnOk result (IsPlainEntry (debug_id_entry id)) }
    ensures sound { OnOk result (IfSome id IsId) }
    ensures error { IfErr result (λ e. UnlessMemory e (IsIo e)) }
{
    let Some(id) = id else {
        return Ok(false);
    };
    // prover: an id has 16 bytes
    let _ = id.uuid();
    let text = id.to_string(alloc)?;
    put_text_if(alloc, writer, buffer, false, "debugId", Some(text.as_str()))
}

fn put_ids<W: Write>(
    alloc: Global,
    writer: &mut W,
    buffer: &mut String,
    later: bool,
    ids: &[u32],
) -> Result<bool>
    ensures text { OnOk result (Grows (W.contents writer.old) (string_bytes buffer.old)
        (W.contents writer.new) (string_bytes buffer.new) (part later (ids_entry ids.now))) }
    ensures later { IfOk result (λ next. next ≡ (later || is_some (ids_entry ids.now).1)) }
    ensures is_plain { OnOk result (IsPlainEntry (ids_entry ids.now)) }
    ensures small { OnOk result (AllByRecursion FitsU32 ids.now) }
    ensures error { IfErr result (λ e. UnlessMemory e (IsIo e)) }
{
    if ids.is_empty() {
        return Ok(later);
    }
    put_key(alloc, writer, buffer, later, "ignoreList")?;
    put_numbers(alloc, writer, buffer, ids)?;
    Ok(true)
}

// Writes `mappings` and `names`. If there are range tokens, also writes `rangeMappings`. Members are
// sorted by the bytes of their keys.
fn put_tokens<W: Write>(
    alloc: Global,
    writer: &mut W,
    buffer: &mut String,
    later: bool,
    tokens: &TokenList,
    names: &[String],
    how: Mappings,
) -> Result<()>
    requires { length names.now ≤ 4294967295 }
    ensures text { OnOk result (GrowsBy
        (IsTokensText later (map string_bytes names.now) tokens.now)
        (W.contents writer.old) (string_bytes buffer.old)
        (W.contents writer.new) (string_bytes buffer.new)) }
    ensures error { IfErr result (λ e. UnlessMemory e (IsIo e)) }
{
    put_mappings_member(alloc, writer, buffer, later, tokens, name_count(names), how)?;
    put_names(alloc, writer, buffer, names)?;
    put_range_bits(alloc, writer, buffer, tokens)
}

fn name_count(names: &[String]) -> u32
    requires { length names.now ≤ 4294967295 }
    ensures { result ≡ length (map string_bytes names.now) }
{
    names.len() as u32
}

// Writes `mappings`. `names` is the number of names.
fn put_mappings_member<W: Write>(
    alloc: Global,
    writer: &mut W,
    buffer: &mut String,
    later: bool,
    tokens: &TokenList,
    names: u32,
    how: Mappings,
) -> Result<()>
    ensures text { OnOk result (GrowsBy (IsMappingsPart later names tokens.now)
        (W.contents writer.old) (string_bytes buffer.old)
        (W.contents writer.new) (string_bytes buffer.new)) }
    ensures error { IfErr result (λ e. UnlessMemory e (IsIo e)) }
{
    put_key(alloc, writer, buffer, later, "mappings")?;
    put(writer, buffer, "\"")?;
    put_mappings(alloc, writer, buffer, tokens.as_slice(), names, how)?;
    put(writer, buffer, "\"")
}

fn put_names<W: Write>(
    alloc: Global,
    writer: &mut W,
    buffer: &mut String,
    names: &[String],
) -> Result<()>
    ensures text { OnOk result (Grows (W.contents writer.old) (string_bytes buffer.old)
        (W.contents writer.new) (string_bytes buffer.new)
        (part true (names_entry (map string_bytes names.now)))) }
    ensures is_plain { OnOk result (IsPlainEntry (names_entry (map string_bytes names.now))) }
    ensures error { IfErr result (λ e. UnlessMemory e (IsIo e)) }
{
    put_key(alloc, writer, buffer, true, "names")?;
    put_texts(alloc, writer, buffer, names)
}

fn put_range_bits<W: Write>(
    alloc: Global,
    writer: &mut W,
    buffer: &mut String,
    tokens: &TokenList,
) -> Result<()>
    ensures text { OnOk result (GrowsBy (IsRangesPart tokens.now)
        (W.contents writer.old) (string_bytes buffer.old)
        (W.contents writer.new) (string_bytes buffer.new)) }
    ensures error { IfErr result (λ e. UnlessMemory e (IsIo e)) }
{
    let tokens = tokens.as_slice();
    if !has_range(tokens) {
        return Ok(());
    }
    put_key(alloc, writer, buffer, true, "rangeMappings")?;
    put(writer, buffer, "\"")?;
    put_ranges(alloc, writer, buffer, tokens)?;
    put(writer, buffer, "\"")
}

fn put_sources<W: Write>(
    alloc: Global,
    writer: &mut W,
    buffer: &mut String,
    sources: &Sources,
    contents: &Contents,
) -> Result<()>
    ensures text { OnOk result (Grows (W.contents writer.old) (string_bytes buffer.old)
        (W.contents writer.new) (string_bytes buffer.new)
        (parts_text true (source_entries sources.now contents.now))) }
    ensures is_plain { OnOk result
        (AllByRecursion IsPlainEntry (source_entries sources.now contents.now)) }
    ensures error { IfErr result (λ e. UnlessMemory e (IsIo e)) }
{
    put_text_if(alloc, writer, buffer, true, "sourceRoot", sources.root())?;
    put_key(alloc, writer, buffer, true, "sources")?;
    put_unresolved_sources(alloc, writer, buffer, sources)?;
    put_contents(alloc, writer, buffer, sources.len(), contents)
}

fn put_unresolved_sources<W: Write>(
    alloc: Global,
    writer: &mut W,
    buffer: &mut String,
    sources: &Sources,
) -> Result<()>
    ensures text { OnOk result (Grows (W.contents writer.old) (string_bytes buffer.old)
        (W.contents writer.new) (string_bytes buffer.new)
        (compact_text (written_list string sources.now.texts))) }
    ensures is_plain { OnOk result (IsPlainValue (written_list string sources.now.texts)) }
    ensures error { IfErr result (λ e. UnlessMemory e (IsIo e)) }
{
    put_texts(alloc, writer, buffer, sources.unresolved())
}

// Whether one of the first `count` sources has contents.
fn has_contents(count: u32, contents: &Contents) -> bool
    ensures { result ≡ list_any is_some (fitted count contents.now) }
{
    for id in 0..count {
        if contents.get(id).is_some() {
            return true;
        }
    }
    false
}

// If one of the `count` sources has contents, writes `sourcesContent`, with one item for each
// source.
fn put_contents<W: Write>(
    alloc: Global,
    writer: &mut W,
    buffer: &mut String,
    count: u32,
    contents: &Contents,
) -> Result<()>
    ensures text { OnOk result (Grows (W.contents writer.old) (string_bytes buffer.old)
        (W.contents writer.new) (string_bytes buffer.new)
        (part true (contents_entry count contents.now))) }
    ensures is_plain { OnOk result (IsPlainEntry (contents_entry count contents.now)) }
    ensures error { IfErr result (λ e. UnlessMemory e (IsIo e)) }
{
    if !has_contents(count, contents) {
        return Ok(());
    }
    put_key(alloc, writer, buffer, true, "sourcesContent")?;
    put_content_list(alloc, writer, buffer, count, contents)
}

fn put_content_list<W: Write>(
    alloc: Global,
    writer: &mut W,
    buffer: &mut String,
    count: u32,
    contents: &Contents,
) -> Result<()>
    ensures text { OnOk result (Grows (W.contents writer.old) (string_bytes buffer.old)
        (W.contents writer.new) (string_bytes buffer.new)
        (compact_text (written_list (written_or_null string) (fitted count contents.now)))) }
    ensures is_plain { OnOk result
        (IsPlainValue (written_list (written_or_null string) (fitted count contents.now))) }
    ensures error { IfErr result (λ e. UnlessMemory e (IsIo e)) }
{
    put(writer, buffer, "[")?;
    let mut later = false;
    for id in 0..count {
        put_comma(buffer, later)?;
        put_content(alloc, writer, buffer, contents.get(id))?;
        later = true;
    }
    put(writer, buffer, "]")
}

fn put_content<W: Write>(
    alloc: Global,
    writer: &mut W,
    buffer: &mut String,
    view: Option<&SourceView>,
) -> Result<()>
    ensures text { OnOk result (Grows (W.contents writer.old) (string_bytes buffer.old)
        (W.contents writer.new) (string_bytes buffer.new)
        (compact_text (written_or_null string (option_copied view.entry)))) }
    ensures is_plain { OnOk result
        (IsPlainValue (written_or_null string (option_copied view.entry))) }
    ensures error { IfErr result (λ e. UnlessMemory e (IsIo e)) }
{
    match view {
        Some(view) => put_text(alloc, writer, buffer, view.source()),
        None => put(writer, buffer, "null"),
    }
}

fn put_version<W: Write>(alloc: Global, writer: &mut W, buffer: &mut String) -> Result<()>
    ensures text { OnOk result (Grows (W.contents writer.old) (string_bytes buffer.old)
        (W.contents writer.new) (string_bytes buffer.new) (part true version_entry)) }
    ensures is_plain { OnOk result (IsPlainEntry version_entry) }
    ensures error { IfErr result (λ e. UnlessMemory e (IsIo e)) }
{
    put_key(alloc, writer, buffer, true, "version")?;
    put_number(alloc, writer, buffer, 3)
}
