//! Where a finding is: the sections that lead to its map, its key, and its segment.
ghost use Rattle.std.specs.Prelude.{◌≡◌, ◌++◌, IsOkUnless, MatchResult, OnOk, decimal, string_bytes};
ghost use Rattle.std.specs.Fmt.{signed_decimal};
ghost use Rattle.sourcemap_errors.specs.declared.errors.Error.TheVariants.{OutOfMemory};
ghost use Rattle.sourcemap_check_print.specs.Suspicions.{indexed_key};
ghost use Rattle.sourcemap_check_print.specs.Places.{key_text, map_of, rule_key, section_key_text, sections_of, sections_to};

use crate::entries::Entry;
use crate::suspicions::push_suspect_key;
use crate::words::{map_key, section_key};
use sourcemap_check::tree::MapPlace;
use sourcemap_check_report::report::Finding;
use sourcemap_check_report::rules::Rule;
use sourcemap_errors::errors::Result;
use std::alloc::Global;

// Appends the sections that lead to a map, the outermost first, at most `left`.
fn push_sections(
    sections: &mut Vec<usize>,
    maps: &[MapPlace],
    map: usize,
    left: usize,
) -> Result<()>
    ensures sections { OnOk result (sections.new.items
        ≡ sections.old.items ++ sections_to left maps.now map) }
    ensures memory { IsOkUnless result OutOfMemory }
{
    if left == 0 {
        return Ok(());
    }
    if map == 0 {
        return Ok(());
    }
    let Some(place) = maps.get(map) else {
        return Ok(());
    };
    push_sections(sections, maps, place.map, left - 1)?;
    sections.push(place.section)?;
    Ok(())
}

fn map_of(entry: &Entry) -> usize
    ensures { result ≡ map_of entry.now }
{
    match entry {
        Entry::Invalid(finding) => finding.map,
        Entry::Doubtful(_) | Entry::Off(_) => 0,
    }
}

/// Returns the sections that lead to the map of an entry, the outermost first. The only error is `OutOfMemory`.
pub fn sections_of(alloc: Global, maps: &[MapPlace], entry: &Entry) -> Result<Vec<usize>>
    ensures { MatchResult result (λ sections. sections.items ≡ sections_of maps.now (map_of entry.now))
        (λ e. e ≡ OutOfMemory) }
{
    let mut sections = Vec::new(alloc);
    push_sections(&mut sections, maps, map_of(entry), maps.len())?;
    Ok(sections)
}

/// Appends the key that an entry is on. The only error is `OutOfMemory`.
pub fn push_key(text: &mut String, entry: &Entry) -> Result<()>
    ensures text { OnOk result (string_bytes text.new ≡ string_bytes text.old ++ key_text entry.now) }
    ensures memory { IsOkUnless result OutOfMemory }
{
    match entry {
        Entry::Invalid(finding) => push_rule_key(text, finding),
        Entry::Doubtful(suspect) => push_suspect_key(text, suspect),
        Entry::Off(_) => push(text, "mappings"),
    }
}

fn push_rule_key(text: &mut String, finding: &Finding) -> Result<()>
    ensures text { OnOk result (string_bytes text.new
        ≡ string_bytes text.old ++ rule_key finding.now.rule finding.now.index) }
    ensures memory { IsOkUnless result OutOfMemory }
{
    match finding.rule {
        Rule::NotJson => Ok(()),
        Rule::NotObject => Ok(()),
        Rule::Map(rule) => push(text, map_key(rule)),
        Rule::OutOfOrder => push_section_key(text, finding.index, ".offset"),
        Rule::Overlap => push_section_key(text, finding.index, ".offset"),
        Rule::Section(rule) => push_section_key(text, finding.index, section_key(rule)),
        Rule::Segment(_) => push(text, "mappings"),
    }
}

/// Appends a text. The only error is `OutOfMemory`.
pub(crate) fn push(text: &mut String, part: &str) -> Result<()>
    ensures text { OnOk result (string_bytes text.new ≡ string_bytes text.old ++ part.now) }
    ensures memory { IsOkUnless result OutOfMemory }
{
    text.push_str(part)?;
    Ok(())
}

/// Appends a number in decimal. The only error is `OutOfMemory`.
pub(crate) fn push_number(text: &mut String, number: u64) -> Result<()>
    ensures text { OnOk result (string_bytes text.new ≡ string_bytes text.old ++ decimal number) }
    ensures memory { IsOkUnless result OutOfMemory }
{
    write!(text, "{number}")?;
    Ok(())
}

/// Appends a number with its sign in decimal. The only error is `OutOfMemory`.
pub(crate) fn push_signed(text: &mut String, number: i32) -> Result<()>
    ensures text { OnOk result (string_bytes text.new
        ≡ string_bytes text.old ++ signed_decimal number) }
    ensures memory { IsOkUnless result OutOfMemory }
{
    write!(text, "{number}")?;
    Ok(())
}

/// Appends a key and an index. The only error is `OutOfMemory`.
pub(crate) fn push_indexed(text: &mut String, key: &str, index: usize) -> Result<()>
    ensures text { OnOk result (string_bytes text.new
        ≡ string_bytes text.old ++ indexed_key key.now index) }
    ensures memory { IsOkUnless result OutOfMemory }
{
    write!(text, "{key}[{index}]")?;
    Ok(())
}

fn push_section_key(text: &mut String, index: usize, key: &str) -> Result<()>
    ensures text { OnOk result (string_bytes text.new
        ≡ string_bytes text.old ++ section_key_text index key.now) }
    ensures memory { IsOkUnless result OutOfMemory }
{
    write!(text, "sections[{index}]{key}")?;
    Ok(())
}
