//! The starts of the functions of a source, decoded from its scope mappings.
ghost use Rattle.std.specs.Prelude.{◌≡◌, ℕ, ℤ, List, [], ◌∷◌, ◌++◌, Some, None, Any, Option, IfOk, IfErr, option_map};
ghost use Rattle.sourcemap_errors.specs.Answer.{UnlessMemory};
ghost use Rattle.sourcemap_errors.specs.declared.errors.Error.TheVariants.{OutOfMemory};
ghost use Rattle.sourcemap_vlq.specs.Vlq.{Reads};
ghost use Rattle.sourcemap_mappings.specs.Segment.{Segment, parts_of};
ghost use Rattle.sourcemap_mappings.specs.SegmentSteps.{AreSteps};
ghost use Rattle.sourcemap_hermes_scopes.specs.Offsets.{IsUnreadable, StandsFor};
ghost use Rattle.sourcemap_hermes_scopes.specs.declared.offsets.HermesScopeOffset.{HermesScopeOffset};
ghost use Rattle.sourcemap_hermes_scopes.specs.OffsetsSteps.{IsLastOffset, AddsOffsets};

use sourcemap_errors::errors::{Error, Result};
use sourcemap_mappings::read::split_line;
use sourcemap_mappings::segment::{Numbers, any_part};
use std::alloc::Global;

/// Where a function of a source starts, and the index of its name in the source's scopes.
#[derive(Clone, Copy, Debug, PartialEq, Eq)]
pub struct HermesScopeOffset {
    // Line in the source, from 1.
    pub(crate) line: u32,
    // Column in the source, from 0, in UTF-16 units.
    pub(crate) column: u32,
    pub(crate) name_index: u32,
}

// The line, column and name index that the first segment of a source's mappings is relative to.
const START: HermesScopeOffset = HermesScopeOffset {
    line: 1,
    column: 0,
    name_index: 0,
};

// Returns the offset of a segment. Adds the first number of the segment to the column of `last`,
// the second to the name index and the third to the line, each modulo 2^32. A missing number is 0.
// `last` is the offset of the previous segment, or `START` if there is none. At the start of each
// line, `add_parts` sets the column of `last` to 0.
#[inline]
fn next_offset(last: HermesScopeOffset, read: &Numbers) -> HermesScopeOffset
    ensures { (before here : List Segment) (s : Segment) → IsLastOffset before here last
        → AreSteps s.numbers read.now → IsLastOffset before (here ++ s ∷ []) result }
{
    HermesScopeOffset {
        line: last.line.wrapping_add(read.steps[2]),
        column: last.column.wrapping_add(read.steps[0]),
        name_index: last.name_index.wrapping_add(read.steps[1]),
    }
}

// Appends the offset of a part with the numbers `read`, and returns this offset. If the part is
// empty, appends nothing and returns `last`.
#[inline]
fn add_part(
    offsets: &mut Vec<HermesScopeOffset>,
    read: &Numbers,
    last: HermesScopeOffset,
) -> Result<HermesScopeOffset>
    ensures added { (before here : List Segment) (part : List ℕ) (numbers : List ℤ)
        → IsLastOffset before here last → Reads part numbers → AreSteps numbers read.now
        → IfOk result (AddsOffsets before here (part ∷ []) offsets.old.items offsets.new.items) }
    ensures memory { IfErr result (λ e. e ≡ OutOfMemory) }
{
    if read.count == 0 {
        return Ok(last);
    }
    let next = next_offset(last, read);
    offsets.push(next)?;
    Ok(next)
}

// Appends the offsets of a line's segments. The first segment is relative to `last` with column 0.
// Returns the offset of the last segment, or `last` with column 0 if the line has no segments.
fn add_parts(
    offsets: &mut Vec<HermesScopeOffset>,
    text: &[u8],
    last: HermesScopeOffset,
) -> Result<HermesScopeOffset>
    ensures added { (before : List Segment) → IsLastOffset before [] (record last { column = 0 })
        → IfOk result
        (AddsOffsets before [] (parts_of text.now) offsets.old.items offsets.new.items) }
    ensures error { IfErr result (λ e. UnlessMemory e (Any IsUnreadable (parts_of text.now))) }
{
    let mut last = HermesScopeOffset { column: 0, ..last };
    let mut rest = text;
    loop {
        let (read, later) = any_part(rest)?;
        last = add_part(offsets, &read, last)?;
        let Some(later) = later else {
            return Ok(last);
        };
        rest = later;
    }
}

// Decodes scope mappings. Errors are those of an invalid segment, and `OutOfMemory`.
pub(crate) fn read_offsets(alloc: Global, text: &str) -> Result<Vec<HermesScopeOffset>>
    ensures read { IfOk result (λ offsets. StandsFor text.now (Some offsets.items)) }
    ensures error { IfErr result (λ e. UnlessMemory e (StandsFor text.now None)) }
{
    let mut offsets = Vec::with_capacity(alloc, text.len() / 4 + 1)?;
    let mut last = START;
    let mut lines = Some(text);
    while let Some(text) = lines {
        let (line, later) = split_line(text);
        last = add_parts(&mut offsets, line.as_bytes(), last)?;
        lines = later;
    }
    Ok(offsets)
}

/// A law: a text encodes at most one list of offsets, and it encodes no list if a segment is
/// invalid.
pub fn scope_mappings_are_determined()
    ensures { (text : List ℕ) (a b : Option (List HermesScopeOffset)) → StandsFor text a
        → StandsFor text b → a ≡ b }
{}
