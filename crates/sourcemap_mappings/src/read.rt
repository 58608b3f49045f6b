//! Decodes `mappings` and `rangeMappings`. `;` separates lines, `,` separates segments.
ghost use Rattle.std.specs.Prelude.{◌≡◌, ℕ, ◌+◌, ◌<◌, ◌≤◌, ◌==◌, ℤ, List, [], ◌∷◌, ◌++◌, length, min, Result};
ghost use Rattle.std.specs.Prelude.{if◌then◌else◌, IsTrue, IfOk, IfErr, OnOk};
ghost use Rattle.std.specs.Option.{option_map_or};
ghost use Rattle.sourcemap_errors.specs.Answer.{IsAnswer, Gives, UnlessMemory};
ghost use Rattle.sourcemap_errors.specs.declared.errors.Error.{Error};
ghost use Rattle.sourcemap_errors.specs.declared.errors.Error.TheVariants.{OutOfMemory};
ghost use Rattle.sourcemap_tokens.specs.declared.tokens.RawToken.{RawToken};
ghost use Rattle.sourcemap_tokens.specs.Tokens.{AreInOrder, AllWithin, in_order};
ghost use Rattle.sourcemap_line_index.specs.LineIndex.{IsTableOf};
ghost use Rattle.sourcemap_mappings.specs.Segment.{Counts, Segment, parts_of};
ghost use Rattle.sourcemap_mappings.specs.SegmentSteps.{AreTextSums, AreSums, IsSegmentRead, counts_of};
ghost use Rattle.sourcemap_mappings.specs.Read.{Line, tokens_of_lines, PartsError, LineError, LinesRead, LinesError};
ghost use Rattle.sourcemap_mappings.specs.Read.{with_range_bits, line_texts, MappingsAnswer, lines_of};
ghost use Rattle.sourcemap_mappings.specs.ReadSteps.{AddsLine, AddsOnLine, AddsParts, AddsRow, AreInOrderTo, RiseFrom};
ghost use Rattle.sourcemap_mappings.specs.ReadSteps.{TakesPart, lines_left};

use crate::segment::{
    Limits, PartPosition, Sums, add_steps, any_part, check_segment, token_at, usual_part,
};
use sourcemap_errors::errors::{Error, Result};
use sourcemap_line_index::line_index::LineIndex;
use sourcemap_line_index::token_list::TokenList;
use sourcemap_tokens::tokens::RawToken;
use sourcemap_vlq::bits::test_digits;
use std::alloc::Global;

// The maximum initial capacity, in tokens. It is high, so that few lists have to grow. If a long
// list grows, the allocator may move it, and then its pages are touched twice.
const FIRST_TOKENS: usize = 1 << 23;

// Only lists up to this length, in tokens, are shrunk. A longer list keeps its unused end, whose
// pages were never touched. If longer lists were shrunk, the allocator would request new pages from
// the system each time that a map is decoded.
const SMALL_LIST: usize = 4096;

// The sums before the first segment.
const START: Sums = Sums {
    rises: true,
    column: 0,
    source: 0,
    line: 0,
    source_column: 0,
    name: 0,
};

/// Splits off the first line of a text. Returns the line without its `;`, and the rest of the text
/// after the `;`. The rest is `None` if the text has no `;`.
#[inline]
pub fn split_line(text: &str) -> (&str, Option<&str>)
    ensures split { lines_of text.now ≡ result.0.now ∷ lines_left result.1 }
    ensures shorter { option_map_or (λ rest. length rest.now + 1) result.1 0 ≤ length text.now }
{
    match text.split_once(';') {
        Some((line, tail)) => (line, Some(tail)),
        None => (text, None),
    }
}

// Checks a segment with `count` numbers, and appends its token. The segment is already included in
// `sums`.
#[inline(always)]
fn add_token(
    tokens: &mut Vec<RawToken>,
    bits: &[u8],
    position: PartPosition,
    count: u32,
    sums: Sums,
    limits: Limits,
) -> Result<()>
    ensures added { (before here : List Segment) (part : List ℕ) (numbers : List ℤ)
        → IsSegmentRead position.index before here part numbers count sums
        → OnOk result (AddsParts (counts_of limits) position bits.now before here (part ∷ [])
        tokens.old.items tokens.new.items sums) }
    ensures error { (before here : List Segment) (part : List ℕ) (numbers : List ℤ)
        → IsSegmentRead position.index before here part numbers count sums
        → IfErr result (λ e. UnlessMemory e
        (PartsError (counts_of limits) position.index (before ++ here) (part ∷ []) e)) }
    ensures order { (earlier : Sums) → AreInOrderTo position.line earlier tokens.old.items
        → RiseFrom earlier sums → OnOk result (AreInOrderTo position.line sums tokens.new.items) }
    ensures on_line { OnOk result (AddsOnLine position.line tokens.old.items tokens.new.items) }
{
    check_segment(count, sums, limits)?;
    tokens.push(token_at(position, bits, count, sums))?;
    Ok(())
}

// Decodes the next part of a line. `text` is the rest of the line. Appends the token of the part,
// unless the part is empty. Returns the sums after the part, and the text after the `,` that ends
// the part, or `None` if the part is the last of the line.
#[cold]
#[inline(never)]
fn add_any_part<'a>(
    tokens: &mut Vec<RawToken>,
    text: &'a [u8],
    bits: &[u8],
    position: PartPosition,
    sums: Sums,
    limits: Limits,
) -> Result<(Sums, Option<&'a [u8]>)>
    ensures taken { IfOk result (λ taken. TakesPart (counts_of limits) position bits.now text.now
        sums taken.0 tokens.old.items tokens.new.items taken.1) }
    ensures error { (before here : List Segment) → AreSums before here sums
        → IfErr result (λ e. UnlessMemory e
        (PartsError (counts_of limits) position.index (before ++ here) (parts_of text.now) e)) }
{
    let (read, later) = any_part(text)?;
    if read.count == 0 {
        return Ok((sums, later));
    }
    let after = add_steps(sums, &read);
    add_token(tokens, bits, position, read.count, after, limits)?;
    Ok((after, later))
}

// Appends the tokens of a line that is not empty. Returns the sums after the line.
fn add_parts(
    tokens: &mut Vec<RawToken>,
    text: &[u8],
    bits: &[u8],
    line: u32,
    sums: Sums,
    limits: Limits,
) -> Result<Sums>
    ensures added { (before : List Segment) → AreTextSums before sums
        → IfOk result (AddsParts (counts_of limits) (record { line = line; index = 0 }) bits.now
        before [] (parts_of text.now) tokens.old.items tokens.new.items) }
    ensures error { (before : List Segment) → AreTextSums before sums
        → IfErr result (λ e. UnlessMemory e
        (PartsError (counts_of limits) 0 before (parts_of text.now) e)) }
    ensures order { AreInOrderTo line (record sums { column = 0 }) tokens.old.items
        → IfOk result (λ after. AreInOrderTo line after tokens.new.items) }
    ensures on_line { OnOk result (AddsOnLine line tokens.old.items tokens.new.items) }
{
    let mut sums = Sums { column: 0, ..sums };
    let mut rest = text;
    let mut index = 0;
    loop {
        let position = PartPosition { line, index };
        // the match is not a function of its own: such a function would return the sums in a
        // `Result`, and the compiler would unpack this `Result` at each token
        let taken = match usual_part(rest) {
            Some((read, later)) => {
                let after = add_steps(sums, &read);
                add_token(tokens, bits, position, read.count, after, limits)?;
                (after, later)
            }
            None => {
                // a copy for the call: borrowed sums could not stay in registers
                let earlier = Sums { ..sums };
                add_any_part(tokens, rest, bits, position, earlier, limits)?
            }
        };
        // copied field by field, without the padding
        sums = Sums { ..taken.0 };
        let Some(later) = taken.1 else {
            return Ok(sums);
        };
        rest = later;
        index += 1;
    }
}

// Appends the tokens of line `number`, counted from 0, with the range bits `bits`. Returns the sums
// after the line.
fn add_line(
    tokens: &mut Vec<RawToken>,
    text: &[u8],
    bits: &[u8],
    number: usize,
    sums: Sums,
    limits: Limits,
) -> Result<Sums>
    ensures added { (before : List Segment) → AreTextSums before sums
        → IfOk result (AddsLine (counts_of limits) number before (text.now, bits.now)
        tokens.old.items tokens.new.items) }
    ensures error { (before : List Segment) → AreTextSums before sums
        → IfErr result (λ e. UnlessMemory e
        (LineError (counts_of limits) number before (text.now, bits.now) e)) }
    ensures order { AreInOrderTo number (record sums { column = 0 }) tokens.old.items
        → IfOk result (λ after. AreInOrderTo (number + 1)
        (record after { column = 0 }) tokens.new.items) }
    ensures on_line { OnOk result (AddsOnLine number tokens.old.items tokens.new.items) }
{
    if text.is_empty() {
        return Ok(sums);
    }
    let Ok(line) = u32::try_from(number) else {
        return Err(Error::IncompatibleSourceMap);
    };
    test_digits(bits)?;
    add_parts(tokens, text, bits, line, sums, limits)
}

// Splits off the next line of range bits, as `split_line` does. If `ranges` is `None`, no line is
// left: returns an empty line and `None`.
#[inline]
fn next_bits(ranges: Option<&str>) -> (&str, Option<&str>)
    ensures { (line : List ℕ) (lines : List (List ℕ))
        → with_range_bits (line ∷ lines) (lines_left ranges.entry)
        ≡ (line, result.0.now) ∷ with_range_bits lines (lines_left result.1) }
{
    match ranges {
        Some(text) => split_line(text),
        None => ("", None),
    }
}

// The tokens in the order of the text. If they are sorted (`rises`), `table` is their line table.
#[derive(Drop)]
struct ReadLines {
    tokens: Vec<RawToken>,
    table: LineIndex,
    rises: bool,
}

// Adds the row of a line to the table. The tokens of the line are those from index `first` on. If
// there are no such tokens, the table is unchanged.
fn add_row(table: &mut LineIndex, tokens: &[RawToken], first: usize) -> Result<()>
    ensures row { OnOk result (AddsRow table.old table.new tokens.now first) }
    ensures memory { IfErr result (λ e. e ≡ OutOfMemory) }
{
    if first < tokens.len() {
        table.push(tokens[first].dst_line, first)?;
    }
    Ok(())
}

fn read_lines(alloc: Global, mappings: &str, ranges: &str, limits: Limits) -> Result<ReadLines>
    ensures read { IfOk result (λ read. (decoded_lines : List Line)
        × LinesRead (counts_of limits) 0 [] (line_texts mappings.now ranges.now) decoded_lines
        × (read.tokens.items ≡ tokens_of_lines 0 [] decoded_lines)) }
    ensures error { IfErr result (λ e. UnlessMemory e
        (LinesError (counts_of limits) 0 [] (line_texts mappings.now ranges.now) e)) }
    ensures table { IfOk result (λ read. IsTrue read.rises
        → IsTableOf read.tokens.items read.table) }
{
    let mut tokens = Vec::with_capacity(alloc, (mappings.len() / 5 + 1).min(FIRST_TOKENS))?;
    let mut table = LineIndex::of_none(alloc);
    let mut sums = START;
    let mut lines = Some(mappings);
    let mut ranges = Some(ranges);
    let mut number = 0;
    while let Some(text) = lines {
        let (line, later) = split_line(text);
        let (bits, later_bits) = next_bits(ranges);
        let first = tokens.len();
        sums = add_line(
            &mut tokens,
            line.as_bytes(),
            bits.as_bytes(),
            number,
            sums,
            limits,
        )?;
        add_row(&mut table, tokens.as_slice(), first)?;
        lines = later;
        ranges = later_bits;
        number += 1;
    }
    Ok(ReadLines {
        tokens,
        table,
        rises: sums.rises,
    })
}

// Shrinks the capacity of a list with at most `SMALL_LIST` tokens. The initial capacity in
// `read_lines` is `mappings.len() / 5 + 1` tokens, but at most `FIRST_TOKENS`. This is usually more
// than needed.
fn shrink_small(tokens: &mut Vec<RawToken>)
    ensures { tokens.new.items ≡ tokens.old.items }
{
    if tokens.len() <= SMALL_LIST {
        tokens.shrink_to_fit();
    }
}

fn token_list_of(mut read: ReadLines) -> Result<TokenList>
    requires { IsTrue read.rises → IsTableOf read.tokens.items read.table }
    ensures sorted { IfOk result (λ list. list ≡ in_order read.tokens.items) }
    ensures memory { IfErr result (λ e. e ≡ OutOfMemory) }
{
    shrink_small(&mut read.tokens);
    if read.rises {
        return TokenList::with_table(read.tokens, read.table);
    }
    TokenList::from_unsorted(read.tokens)
}

/// Decodes the `mappings` and `rangeMappings` of a map with `sources` sources and `names` names.
/// Returns the tokens, stably sorted by generated position, with their line table. If the text
/// already has the tokens in sorted order, the table is built while decoding.
///
/// Decodes the lines in order, and returns the first error. Ignores range bits after the last line.
/// An empty line has no error. The errors of any other line are, in this order:
/// `IncompatibleSourceMap` if the line number, counted from 0, is above 4294967295; `InvalidBase64`
/// if the line's range bits contain a byte that is not a digit; the error of the line's first
/// invalid segment. The error of a segment is the first error of its digits: `InvalidBase64`,
/// `VlqOverflow` or `VlqLeftover`. If the digits are valid, the error is the first of these that
/// applies: `BadSegmentSize`, `BadSourceReference`, `BadNameReference`. The only other error is
/// `OutOfMemory`.
pub fn parse_token_list(
    alloc: Global,
    mappings: &str,
    ranges: &str,
    sources: u32,
    names: u32,
) -> Result<TokenList>
    ensures answer { IsAnswer (λ list. list)
        (MappingsAnswer mappings.now ranges.now
        (record { sources = sources; names = names })) result }
    ensures only { (due : Result (List RawToken) Error)
        → MappingsAnswer mappings.now ranges.now (record { sources = sources; names = names }) due
        → Gives (λ list. list) result due }
    ensures within { IfOk result (AllWithin sources names) }
{
    let limits = Limits { sources, names };
    let read = read_lines(alloc, mappings, ranges, limits)?;
    token_list_of(read)
}

/// As `parse_token_list`, but returns the tokens without the line table. The errors are the same.
pub fn parse_mappings(
    alloc: Global,
    mappings: &str,
    ranges: &str,
    sources: u32,
    names: u32,
) -> Result<Vec<RawToken>>
    ensures answer { IsAnswer (λ v. v.items)
        (MappingsAnswer mappings.now ranges.now
        (record { sources = sources; names = names })) result }
    ensures only { (due : Result (List RawToken) Error)
        → MappingsAnswer mappings.now ranges.now (record { sources = sources; names = names }) due
        → Gives (λ v. v.items) result due }
    ensures in_order { IfOk result (λ v. AreInOrder v.items) }
    ensures within { IfOk result (λ v. AllWithin sources names v.items) }
{
    let list = parse_token_list(alloc, mappings, ranges, sources, names)?;
    Ok(list.into_vec())
}

/// A law: for given counts of sources and names, `mappings` and `rangeMappings` have at most one
/// answer. An answer is either a list of tokens or an error.
pub fn mappings_determine_one_answer()
    ensures { (mappings ranges : List ℕ) (counts : Counts) (a b : Result (List RawToken) Error)
        → MappingsAnswer mappings ranges counts a → MappingsAnswer mappings ranges counts b
        → a ≡ b }
{}
