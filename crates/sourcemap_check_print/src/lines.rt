//! A line for each entry, as compilers print them.
ghost use Rattle.std.specs.Prelude.{◌≡◌, ◌++◌, IsOkUnless, MatchResult, OnOk, flat_map, string_bytes};
ghost use Rattle.sourcemap_errors.specs.declared.errors.Error.TheVariants.{OutOfMemory};
ghost use Rattle.sourcemap_check_print.specs.Lines.{counts_line, end_text, entry_line, lines_text, path_text, position_text};

use crate::entries::{Entry, Position, code_of, position_of, sentence_of};
use crate::findings::Counts;
use crate::places::{push, push_key, sections_of};
use sourcemap_check::tree::MapPlace;
use sourcemap_errors::errors::Result;
use std::alloc::Global;

fn push_path(text: &mut String, sections: &[usize]) -> Result<()>
    ensures text { OnOk result (string_bytes text.new
        ≡ string_bytes text.old ++ path_text sections.now) }
    ensures memory { IsOkUnless result OutOfMemory }
{
    for section in sections {
        write!(text, "sections[{section}].map.")?;
    }
    Ok(())
}

fn push_position(text: &mut String, position: Position) -> Result<()>
    ensures text { OnOk result (string_bytes text.new
        ≡ string_bytes text.old ++ position_text position) }
    ensures memory { IsOkUnless result OutOfMemory }
{
    match position {
        Position::Nowhere => Ok(()),
        Position::Segment(line, index) => {
            write!(text, " {line}:{index}")?;
            Ok(())
        }
        Position::Token(line, column) => {
            write!(text, " at {line}:{column}")?;
            Ok(())
        }
        Position::Shift(lines, columns) => {
            write!(text, " by {lines}:{columns}")?;
            Ok(())
        }
    }
}

fn push_end(text: &mut String, entry: &Entry) -> Result<()>
    ensures text { OnOk result (string_bytes text.new ≡ string_bytes text.old ++ end_text entry.now) }
    ensures memory { IsOkUnless result OutOfMemory }
{
    let code = code_of(entry);
    let sentence = sentence_of(entry);
    write!(text, ": SM{code} {sentence}\n")?;
    Ok(())
}

fn push_line(alloc: Global, text: &mut String, maps: &[MapPlace], entry: &Entry) -> Result<()>
    ensures text { OnOk result (string_bytes text.new
        ≡ string_bytes text.old ++ entry_line maps.now entry.now) }
    ensures memory { IsOkUnless result OutOfMemory }
{
    let sections = sections_of(alloc, maps, entry)?;
    push(text, "MAP:")?;
    push_path(text, sections.as_slice())?;
    push_key(text, entry)?;
    push_position(text, position_of(entry))?;
    push_end(text, entry)?;
    Ok(())
}

fn push_lines(alloc: Global, text: &mut String, maps: &[MapPlace], entries: &[Entry]) -> Result<()>
    ensures text { OnOk result (string_bytes text.new ≡ string_bytes text.old
        ++ flat_map (entry_line maps.now) entries.now) }
    ensures memory { IsOkUnless result OutOfMemory }
{
    for entry in entries {
        push_line(alloc, text, maps, entry)?;
    }
    Ok(())
}

/// Returns a line for each entry, and a last line with counts. The only error is `OutOfMemory`.
pub(crate) fn lines_text(
    alloc: Global,
    maps: &[MapPlace],
    entries: &[Entry],
    counts: Counts,
) -> Result<String>
    ensures { MatchResult result
        (λ text. string_bytes text ≡ lines_text maps.now entries.now counts)
        (λ e. e ≡ OutOfMemory) }
{
    let mut text = String::new(alloc);
    push_lines(alloc, &mut text, maps, entries)?;
    let Counts {
        invalid,
        suspicious,
    } = counts;
    let shown = entries.len();
    write!(
        text,
        "{invalid} invalid, {suspicious} suspicious, {shown} shown\n"
    )?;
    Ok(text)
}
