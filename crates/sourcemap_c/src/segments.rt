//! Segments of mappings, as numbers and as texts.
ghost use Rattle.std.specs.Prelude.{◌≡◌, Err};
ghost use Rattle.sourcemap_errors.specs.Answer.{IsAnswer};
ghost use Rattle.sourcemap_vlq.specs.Vlq.{SpellingAnswers};
ghost use Rattle.sourcemap_c_handles.specs.Handles.{held_in};
ghost use Rattle.sourcemap_c.specs.Codes.{Answers, Does, OfLibrary};
ghost use Rattle.sourcemap_c.specs.Kinds.{bytes_in};
ghost use Rattle.sourcemap_c.specs.Segments.{HoldsSegment, ParsingAnswers, WritesNumbers, overwritten};

use crate::codes::text_in;
use crate::kinds::put_bytes;
use sourcemap::Result;
use sourcemap::vlq::{generate_vlq_segment, parse_vlq_segment};
use sourcemap_c_handles::Handle;
use sourcemap_c_handles::errors::{ErrorReport, Outcome, finish};
use std::alloc::Global;

/// Writes the numbers of a segment to `numbers`, as many as fit. Writes to `count` how many numbers
/// the segment has.
#[unsafe(no_mangle)]
pub extern "C" fn sm_parse_segment(
    alloc: Global,
    segment: &[u8],
    numbers: &mut [i64],
    count: &mut usize,
    error: &mut ErrorReport,
) -> u32
    ensures { Answers result error.old error.new (WritesNumbers segment.now numbers.old numbers.new count.new)
        (OfLibrary (λ e. ParsingAnswers segment.now (Err e)))
        ((numbers.new ≡ numbers.old) × (count.new ≡ count.old)) }
{
    finish(alloc, parse(alloc, segment, numbers, count), error)
}

fn parse(alloc: Global, segment: &[u8], numbers: &mut [i64], count: &mut usize) -> Outcome<()>
    ensures { Does result (WritesNumbers segment.now numbers.old numbers.new count.new)
        (OfLibrary (λ e. ParsingAnswers segment.now (Err e)))
        ((numbers.new ≡ numbers.old) × (count.new ≡ count.old)) }
{
    let parsed = parse_bytes(alloc, segment)?;
    overwrite(numbers, parsed.as_slice());
    *count = parsed.len();
    Ok(())
}

fn parse_bytes(alloc: Global, segment: &[u8]) -> Result<Vec<i64>>
    ensures { IsAnswer (λ numbers. numbers.items) (ParsingAnswers segment.now) result }
{
    parse_vlq_segment(alloc, text_in(segment)?)
}

/// Writes numbers to an array, as many as fit.
pub(crate) fn overwrite<T: Copy>(numbers: &mut [T], parsed: &[T])
    ensures { numbers.new ≡ overwritten parsed.now numbers.old }
{
    let fitting = parsed.len().min(numbers.len());
    numbers[..fitting].copy_from_slice(&parsed[..fitting]);
}

/// Encodes the numbers in Base64 VLQ as one segment, and fills `text` with the segment.
#[unsafe(no_mangle)]
pub extern "C" fn sm_write_segment(
    alloc: Global,
    numbers: &[i64],
    text: &mut Handle,
    error: &mut ErrorReport,
) -> u32
    ensures { Answers result error.old error.new (HoldsSegment numbers.now (bytes_in (held_in text.new)))
        (OfLibrary (λ e. SpellingAnswers numbers.now (Err e))) (held_in text.new ≡ held_in text.old) }
{
    finish(alloc, write(alloc, numbers, text), error)
}

fn write(alloc: Global, numbers: &[i64], text: &mut Handle) -> Outcome<()>
    ensures { Does result (HoldsSegment numbers.now (bytes_in (held_in text.new)))
        (OfLibrary (λ e. SpellingAnswers numbers.now (Err e))) (held_in text.new ≡ held_in text.old) }
{
    let segment = generate_vlq_segment(alloc, numbers)?;
    put_bytes(alloc, text, segment.into_bytes())
}
