//! The report of a check as a JSON object. No text in it has a byte that JSON escapes.
ghost use Rattle.std.specs.Prelude.{◌≡◌, ◌++◌, IsOkUnless, MatchResult, OnOk, decimal, flat_map, codes, string_bytes};
ghost use Rattle.sourcemap_errors.specs.declared.errors.Error.TheVariants.{OutOfMemory};
ghost use Rattle.sourcemap_check_print.specs.Json.{code_json, counts_json, end_json, entry_json, json_text, position_json, separated};
ghost use Rattle.sourcemap_check_print.specs.declared.entries.Position.TheVariants.{Shift};

use crate::entries::{Entry, Position, code_of, position_of, sentence_of, severity_of};
use crate::findings::Counts;
use crate::places::{push, push_key, push_number, push_signed, sections_of};
use sourcemap_check::tree::MapPlace;
use sourcemap_errors::errors::Result;
use std::alloc::Global;

fn push_sections(text: &mut String, sections: &[usize]) -> Result<()>
    ensures text { OnOk result (string_bytes text.new
        ≡ string_bytes text.old ++ separated decimal sections.now) }
    ensures memory { IsOkUnless result OutOfMemory }
{
    match sections.split_first() {
        Some((first, later)) => {
            write!(text, "{first}")?;
            push_later_sections(text, later)?;
            Ok(())
        }
        None => Ok(()),
    }
}

fn push_later_sections(text: &mut String, sections: &[usize]) -> Result<()>
    ensures text { OnOk result (string_bytes text.new
        ≡ string_bytes text.old ++ flat_map (λ section. codes "," ++ decimal section) sections.now) }
    ensures memory { IsOkUnless result OutOfMemory }
{
    for section in sections {
        write!(text, ",{section}")?;
    }
    Ok(())
}

fn push_position(text: &mut String, position: Position) -> Result<()>
    ensures text { OnOk result (string_bytes text.new
        ≡ string_bytes text.old ++ position_json position) }
    ensures memory { IsOkUnless result OutOfMemory }
{
    match position {
        Position::Nowhere => push(text, "null"),
        Position::Segment(line, index) => {
            write!(text, "{{\"index\":{index},\"line\":{line}}}")?;
            Ok(())
        }
        Position::Token(line, column) => {
            write!(text, "{{\"column\":{column},\"line\":{line}}}")?;
            Ok(())
        }
        Position::Shift(lines, columns) => push_shift(text, lines, columns),
    }
}

fn push_shift(text: &mut String, lines: i32, columns: i32) -> Result<()>
    ensures text { OnOk result (string_bytes text.new
        ≡ string_bytes text.old ++ position_json (Shift lines columns)) }
    ensures memory { IsOkUnless result OutOfMemory }
{
    push(text, "{\"columns\":")?;
    push_signed(text, columns)?;
    push(text, ",\"lines\":")?;
    push_signed(text, lines)?;
    push(text, "}")?;
    Ok(())
}

fn push_end(text: &mut String, entry: &Entry) -> Result<()>
    ensures text { OnOk result (string_bytes text.new ≡ string_bytes text.old ++ end_json entry.now) }
    ensures memory { IsOkUnless result OutOfMemory }
{
    push(text, "],\"sentence\":\"")?;
    push(text, sentence_of(entry))?;
    push(text, "\",\"severity\":\"")?;
    push(text, severity_of(entry))?;
    push(text, "\"}")?;
    Ok(())
}

fn push_code(text: &mut String, entry: &Entry) -> Result<()>
    ensures text { OnOk result (string_bytes text.new ≡ string_bytes text.old ++ code_json entry.now) }
    ensures memory { IsOkUnless result OutOfMemory }
{
    let code = code_of(entry);
    push(text, "{\"code\":\"SM")?;
    push_number(text, code as u64)?;
    push(text, "\",\"key\":\"")?;
    Ok(())
}

fn push_entry(alloc: Global, text: &mut String, maps: &[MapPlace], entry: &Entry) -> Result<()>
    ensures text { OnOk result (string_bytes text.new
        ≡ string_bytes text.old ++ entry_json maps.now entry.now) }
    ensures memory { IsOkUnless result OutOfMemory }
{
    let sections = sections_of(alloc, maps, entry)?;
    push_code(text, entry)?;
    push_key(text, entry)?;
    push(text, "\",\"position\":")?;
    push_position(text, position_of(entry))?;
    push(text, ",\"sections\":[")?;
    push_sections(text, sections.as_slice())?;
    push_end(text, entry)?;
    Ok(())
}

fn push_later_entry(
    alloc: Global,
    text: &mut String,
    maps: &[MapPlace],
    entry: &Entry,
) -> Result<()>
    ensures text { OnOk result (string_bytes text.new ≡ string_bytes text.old
        ++ (codes "," ++ entry_json maps.now entry.now)) }
    ensures memory { IsOkUnless result OutOfMemory }
{
    push(text, ",")?;
    push_entry(alloc, text, maps, entry)?;
    Ok(())
}

fn push_later_entries(
    alloc: Global,
    text: &mut String,
    maps: &[MapPlace],
    entries: &[Entry],
) -> Result<()>
    ensures text { OnOk result (string_bytes text.new ≡ string_bytes text.old
        ++ flat_map (λ entry. codes "," ++ entry_json maps.now entry) entries.now) }
    ensures memory { IsOkUnless result OutOfMemory }
{
    for entry in entries {
        push_later_entry(alloc, text, maps, entry)?;
    }
    Ok(())
}

fn push_entries(
    alloc: Global,
    text: &mut String,
    maps: &[MapPlace],
    entries: &[Entry],
) -> Result<()>
    ensures text { OnOk result (string_bytes text.new ≡ string_bytes text.old
        ++ separated (entry_json maps.now) entries.now) }
    ensures memory { IsOkUnless result OutOfMemory }
{
    match entries.split_first() {
        Some((first, later)) => {
            push_entry(alloc, text, maps, first)?;
            push_later_entries(alloc, text, maps, later)?;
            Ok(())
        }
        None => Ok(()),
    }
}

fn push_counts(text: &mut String, counts: Counts, shown: usize) -> Result<()>
    ensures text { OnOk result (string_bytes text.new
        ≡ string_bytes text.old ++ counts_json counts shown) }
    ensures memory { IsOkUnless result OutOfMemory }
{
    push(text, "{\"counts\":{\"invalid\":")?;
    push_number(text, counts.invalid)?;
    push(text, ",\"shown\":")?;
    push_number(text, shown as u64)?;
    push(text, ",\"suspicious\":")?;
    push_number(text, counts.suspicious)?;
    push(text, "},\"findings\":[")?;
    Ok(())
}

/// Returns the JSON text of a report, compact and with sorted keys, and a newline. The only error
/// is `OutOfMemory`.
pub(crate) fn json_text(
    alloc: Global,
    maps: &[MapPlace],
    entries: &[Entry],
    counts: Counts,
) -> Result<String>
    ensures { MatchResult result
        (λ text. string_bytes text ≡ json_text maps.now entries.now counts)
        (λ e. e ≡ OutOfMemory) }
{
    let mut text = String::new(alloc);
    push_counts(&mut text, counts, entries.len())?;
    push_entries(alloc, &mut text, maps, entries)?;
    push(&mut text, "]}\n")?;
    Ok(text)
}
