//! Decodes one segment of a line: its numbers, its token, and its errors.
ghost use Rattle.std.specs.Prelude.{◌≡◌, ◌+◌, ◌<◌, ◌≤◌, ◌==◌, ℤ, List, [], ◌∷◌, ◌++◌, length, nat_lt, min, Result};
ghost use Rattle.std.specs.Prelude.{◌||◌, if◌then◌else◌, IsTrue, MatchResult, IfOk, IfErr, IfSome, unsigned_abs, pos};
ghost use Rattle.std.specs.Prelude.{◌^◌};
ghost use Rattle.std.specs.Int.{int_rem_euclid};
ghost use Rattle.sourcemap_errors.specs.declared.errors.Error.{Error};
ghost use Rattle.sourcemap_tokens.specs.declared.tokens.RawToken.{RawToken};
ghost use Rattle.sourcemap_tokens.specs.Tokens.{no_id, destination};
ghost use Rattle.sourcemap_mappings.specs.Segment.{Segment, token_of, segment_error};
ghost use Rattle.sourcemap_mappings.specs.SegmentSteps.{AreSteps, HasFirstPart, EndsPart, BeginsWithStep, HasPartError};
ghost use Rattle.sourcemap_mappings.specs.SegmentSteps.{error_in_part, AreSums, counts_of};

use sourcemap_errors::errors::{Error, Result};
use sourcemap_tokens::tokens::{NO_ID, RawToken};
use sourcemap_vlq::bits::has_bit;
use sourcemap_vlq::vlq::next_number;

// How many sources and how many names the map has.
#[derive(Clone, Copy)]
pub(crate) struct Limits {
    pub(crate) sources: u32,
    pub(crate) names: u32,
}

// The generated line of a part, and the index of the part in its line, both 0-based. A part is the
// text up to a `,` or the end of the line. Empty parts count too.
#[derive(Clone, Copy)]
pub(crate) struct PartPosition {
    pub(crate) line: u32,
    pub(crate) index: usize,
}

// The sums of the numbers decoded so far, one for each kind, modulo 2^32. The sum of columns starts
// anew on each line. `rises`: no column was less than the column before it on its line, so the
// tokens so far are sorted.
#[derive(Clone, Copy)]
pub(crate) struct Sums {
    pub(crate) rises: bool,
    pub(crate) column: u32,
    pub(crate) source: u32,
    pub(crate) line: u32,
    pub(crate) source_column: u32,
    pub(crate) name: u32,
}

/// The decoded numbers of a segment.
#[derive(Clone, Copy)]
pub struct Numbers {
    /// How many numbers the segment has, or 4294967295 if there are more.
    pub count: u32,
    /// The first five numbers modulo 2^32, with 0 for each missing number.
    pub steps: [u32; 5],
}

#[inline]
fn step_of(number: i64) -> u32
    ensures { result ≡ unsigned_abs (int_rem_euclid number (pos (2 ^ 32))) }
{
    number.rem_euclid(1 << 32) as u32
}

#[inline]
fn add_number(read: &mut Numbers, number: i64)
    ensures { (numbers : List ℤ) → AreSteps numbers read.old
        → AreSteps (numbers ++ number ∷ []) read.new }
{
    let count = read.count;
    if count < 5 {
        read.steps[count as usize] = step_of(number);
    }
    read.count = count.saturating_add(1);
}

// `next_number` gets the rest of the line, not only the segment. If a `,` ends the segment within a
// number, `next_number` returns `InvalidBase64(',')`. The segment's error is then `VlqLeftover`.
#[inline]
fn error_in_part(error: Error) -> Error
    ensures { result ≡ error_in_part error }
{
    match error {
        Error::InvalidBase64(',') => Error::VlqLeftover,
        error => error,
    }
}

// Returns `Some(Some(tail))` if `rest` begins with a `,`, where `tail` is the text after it.
// Returns `Some(None)` if `rest` is empty, that is, at the end of the line. Otherwise returns
// `None`: the segment goes on.
#[inline(always)]
fn part_end(rest: &[u8]) -> Option<Option<&[u8]>>
    ensures { IfSome result (EndsPart rest.now) }
{
    match rest {
        [] => Some(None),
        [b',', tail @ ..] => Some(Some(tail)),
        _ => None,
    }
}

#[inline(always)]
fn next_step(rest: &[u8]) -> Option<(u32, &[u8])>
    ensures { IfSome result (λ read. BeginsWithStep rest.now read.0 read.1.now) }
{
    match next_number(rest) {
        Ok((number, tail)) => Some((step_of(number), tail)),
        Err(_) => None,
    }
}

// The fast path of `any_part`, for a segment of one, four or five numbers. Returns the same numbers
// and the same text after the `,`. Returns `None` if a number is invalid, or if the segment has
// another count of numbers. There is no loop: each of the five numbers has its own copy of the
// decoding code. The numbers at one index tend to have the same length in all segments. So the
// branches of each copy are easy to predict.
#[inline(always)]
pub(crate) fn usual_part(line: &[u8]) -> Option<(Numbers, Option<&[u8]>)>
    ensures read { IfSome result (λ read. HasFirstPart line.now read.0 read.1) }
    ensures some { IfSome result (λ read. 0 < read.0.count) }
{
    let (column, rest) = next_step(line)?;
    if let Some(tail) = part_end(rest) {
        let steps = [column, 0, 0, 0, 0];
        return Some((Numbers { count: 1, steps }, tail));
    }
    let (source, rest) = next_step(rest)?;
    let (row, rest) = next_step(rest)?;
    let (source_column, rest) = next_step(rest)?;
    if let Some(tail) = part_end(rest) {
        let steps = [column, source, row, source_column, 0];
        return Some((Numbers { count: 4, steps }, tail));
    }
    let (name, rest) = next_step(rest)?;
    let tail = part_end(rest)?;
    let steps = [column, source, row, source_column, name];
    Some((Numbers { count: 5, steps }, tail))
}

/// Decodes all numbers of the first segment of a line. Returns two values. The first has the count
/// of the numbers, and the first five numbers modulo 2^32 (see `Numbers`). The second is the text
/// after the `,` that ends the segment, or `None` if the segment is the last of the line. An empty
/// segment has no numbers. The error is the first error of the segment's digits: `InvalidBase64`,
/// `VlqOverflow` or `VlqLeftover`.
#[cold]
#[inline(never)]
pub fn any_part(line: &[u8]) -> Result<(Numbers, Option<&[u8]>)>
    ensures read { IfOk result (λ read. HasFirstPart line.now read.0 read.1) }
    ensures error { IfErr result (λ e. HasPartError line.now e) }
{
    let mut read = Numbers {
        count: 0,
        steps: [0; 5],
    };
    let mut rest = line;
    while let Some((first, tail)) = rest.split_first() {
        if *first == b',' {
            return Ok((read, Some(tail)));
        }
        match next_number(rest) {
            Ok((number, tail)) => {
                add_number(&mut read, number);
                rest = tail;
            }
            Err(error) => return Err(error_in_part(error)),
        }
    }
    Ok((read, None))
}

// The sums after a segment.
#[inline]
pub(crate) fn add_steps(sums: Sums, read: &Numbers) -> Sums
    ensures sums { (before here : List Segment) (s : Segment) → AreSums before here sums
        → AreSteps s.numbers read.now
        → AreSums before (here ++ s ∷ []) result }
    ensures rises { IsTrue result.rises → IsTrue sums.rises × (sums.column ≤ result.column) }
{
    let column = sums.column.wrapping_add(read.steps[0]);
    Sums {
        rises: sums.rises & (sums.column <= column),
        column,
        source: sums.source.wrapping_add(read.steps[1]),
        line: sums.line.wrapping_add(read.steps[2]),
        source_column: sums.source_column.wrapping_add(read.steps[3]),
        name: sums.name.wrapping_add(read.steps[4]),
    }
}

#[inline]
fn is_size(count: u32) -> bool
    ensures { result ≡ (((count == 1) || (count == 4)) || (count == 5)) }
{
    count == 1 || count == 4 || count == 5
}

// Checks a segment with `count` numbers: first the count, then the source id, then the name id. The
// segment is already included in `sums`.
#[inline]
pub(crate) fn check_segment(count: u32, sums: Sums, limits: Limits) -> Result<()>
    ensures { (before here : List Segment) (s : Segment) → AreSums before here sums
        → count ≡ min (length s.numbers) 4294967295
        → MatchResult result (λ _. segment_error (counts_of limits) (before ++ here) s ≡ None)
        (λ e. segment_error (counts_of limits) (before ++ here) s ≡ Some e) }
{
    if !is_size(count) {
        return Err(Error::BadSegmentSize(count));
    }
    if count > 1 && sums.source >= limits.sources {
        return Err(Error::BadSourceReference(sums.source));
    }
    if count > 4 && sums.name >= limits.names {
        return Err(Error::BadNameReference(sums.name));
    }
    Ok(())
}

// The sum, or `NO_ID` if the segment has no number with this index.
#[inline]
fn field(count: u32, index: u32, sum: u32) -> u32
    ensures { result ≡ (if nat_lt index count then sum else no_id) }
{
    if index < count { sum } else { NO_ID }
}

// The token of the segment at `position`. `count` is how many numbers the segment has, or
// 4294967295 if there are more. `sums` already include the segment. `bits` are the range bits of
// the segment's line.
#[inline]
pub(crate) fn token_at(position: PartPosition, bits: &[u8], count: u32, sums: Sums) -> RawToken
    ensures token { (before here : List Segment) (s : Segment) → AreSums before here sums
        → count ≡ min (length s.numbers) 4294967295
        → s.index ≡ position.index
        → result ≡ token_of position.line bits.now here (before ++ here) s }
    ensures destination { destination result ≡ (position.line, sums.column) }
{
    RawToken {
        dst_line: position.line,
        dst_col: sums.column,
        src_line: field(count, 2, sums.line),
        src_col: field(count, 3, sums.source_column),
        src_id: field(count, 1, sums.source),
        name_id: field(count, 4, sums.name),
        is_range: has_bit(bits, position.index),
    }
}
