//! The format of the text `rangeMappings`.
ghost use Rattle.std.specs.Prelude.{◌≡◌, ℕ, ◌<◌, ◌==◌, ◌∷◌, not, List, IfOk, IfErr, length, min, sum, count_by};
ghost use Rattle.std.specs.List.{slice_split};
ghost use Rattle.sourcemap_errors.specs.declared.errors.Error.TheVariants.{OutOfMemory};
ghost use Rattle.sourcemap_check_segments.specs.Segments.{comma, is_cut, raws_of, semicolon, segments_of};
ghost use Rattle.sourcemap_check_order.specs.Ranges.{AreDistances, digit_fits, fits_bits, fits_numbers, line_fits, lines_fit};
ghost use Rattle.sourcemap_check_order.specs.Ranges.{range_doubt, segment_counts};

use crate::order::continues;
use sourcemap_errors::errors::Result;
use sourcemap_vlq::bits::test_digits;
use sourcemap_vlq::vlq::value_of_digit;
use std::alloc::Global;

/// Why a text `rangeMappings` looks wrong.
#[derive(Clone, Copy, Debug, PartialEq, Eq)]
pub enum RangeDoubt {
    /// It does not fit `mappings` in the format that this library reads, bits. It does in the format
    /// of a newer proposal, numbers.
    OtherFormat,
    /// It fits `mappings` in neither format.
    NoFormat,
}

// The digits of so few bits have values below this.
const LIMITS: [u8; 7] = [1, 2, 4, 8, 16, 32, 64];

// How a line of the text says which segments are range mappings.
#[derive(Clone, Copy)]
enum Format {
    // By a bit for each segment.
    Bits,
    // By the distances between them.
    Numbers,
}

// The numbers at the end of a line: the first one, and the sum of the later ones. Both stop at
// 18446744073709551615.
#[derive(Clone, Copy)]
pub(crate) struct Distances {
    pub(crate) has_number: bool,
    pub(crate) first: u64,
    pub(crate) later: u64,
}

fn digit_fits(byte: u8, left: usize) -> bool
    ensures { result ≡ digit_fits left byte }
{
    match value_of_digit(byte) {
        Some(value) => value < LIMITS[left.min(6)],
        None => false,
    }
}

fn bits_fit(line: &[u8], count: usize) -> bool
    ensures { result ≡ fits_bits count line.now }
{
    let mut left = count;
    let mut fits = true;
    for byte in line {
        fits = fits & digit_fits(*byte, left);
        left = left.saturating_sub(6);
    }
    fits
}

fn capped(number: u128) -> u64
    ensures { result ≡ min number 18446744073709551615 }
{
    if number < 18446744073709551615 {
        number as u64
    } else {
        18446744073709551615
    }
}

// The same with one more byte at the front.
fn with_byte(read: Distances, byte: u8) -> Distances
    ensures { (bytes : List ℕ) → AreDistances bytes read → AreDistances (byte ∷ bytes) result }
{
    let value = value_of_digit(byte).unwrap_or(0);
    let low = value % 32;
    if value < 32 {
        return Distances {
            has_number: true,
            first: u64::from(low),
            later: read.later.saturating_add(read.first),
        };
    }
    if !read.has_number {
        return read;
    }
    Distances {
        first: capped(u128::from(low) + 32 * u128::from(read.first)),
        ..read
    }
}

// The sum of the numbers of a line. It stops at 18446744073709551615.
fn sum_of(line: &[u8]) -> u64
    ensures { result ≡ min (sum (raws_of line.now)) 18446744073709551615 }
{
    let mut read = Distances {
        has_number: false,
        first: 0,
        later: 0,
    };
    let mut front = line;
    while let Some((byte, earlier)) = front.split_last() {
        read = with_byte(read, *byte);
        front = earlier;
    }
    read.first.saturating_add(read.later)
}

fn is_cut(line: &[u8]) -> bool
    ensures { result ≡ is_cut line.now }
{
    match line.split_last() {
        Some((byte, _)) => continues(*byte),
        None => false,
    }
}

fn numbers_fit(line: &[u8], count: usize) -> bool
    ensures { result ≡ fits_numbers count line.now }
{
    let is_whole = test_digits(line).is_ok() & !is_cut(line);
    let is_within = line.is_empty() | (sum_of(line) < count as u64);
    // prover: `&` leaves one goal
    is_whole & is_within
}

fn line_fits(format: Format, line: &[u8], count: usize) -> bool
    ensures { result ≡ line_fits format count line.now }
{
    match format {
        Format::Bits => bits_fit(line, count),
        Format::Numbers => numbers_fit(line, count),
    }
}

// Whether each line of a text fits. `counts` has the number of segments of each line of `mappings`.
fn text_fits(format: Format, counts: &[usize], text: &str) -> bool
    ensures { result ≡ lines_fit format counts.now 0 (slice_split (λ b. b == semicolon) text.now) }
{
    let mut number = 0;
    let mut fits = true;
    for line in text.split(';') {
        let count = counts.get(number).copied().unwrap_or(0);
        fits = fits & line_fits(format, line.as_bytes(), count);
        number += 1;
    }
    fits
}

fn comma_count(bytes: &[u8]) -> usize
    ensures { result ≡ count_by (λ b. b == comma) bytes.now }
{
    bytes.iter().filter(|byte| **byte == b',').count()
}

fn segment_count(line: &str) -> usize
    ensures { result ≡ length (segments_of line.now) }
{
    if line.is_empty() {
        return 0;
    }
    comma_count(line.as_bytes()) + 1
}

// The number of segments of each line of the text `mappings`.
fn segment_counts(alloc: Global, mappings: &str) -> Result<Vec<usize>>
    ensures counts { IfOk result (λ counts. counts.items ≡ segment_counts mappings.now) }
    ensures memory { IfErr result (λ e. e ≡ OutOfMemory) }
{
    let mut counts = Vec::new(alloc);
    for line in mappings.split(';') {
        counts.push(segment_count(line))?;
    }
    Ok(counts)
}

/// What looks wrong about the text `rangeMappings` beside the text `mappings`. In the format that
/// this library reads each line has a bit for each segment of the same line of `mappings`. In that of
/// a newer proposal it has a number for each range mapping: its distance, in segments, from the
/// range mapping before it on the line; that of the first one is its index. The text fits if it
/// names no segment that there is not. The only error is `OutOfMemory`.
pub fn doubtful_ranges(alloc: Global, mappings: &str, ranges: &str) -> Result<Option<RangeDoubt>>
    ensures doubt { IfOk result (λ doubt. doubt ≡ range_doubt mappings.now ranges.now) }
    ensures memory { IfErr result (λ e. e ≡ OutOfMemory) }
{
    let counts = segment_counts(alloc, mappings)?;
    if text_fits(Format::Bits, counts.as_slice(), ranges) {
        return Ok(None);
    }
    if text_fits(Format::Numbers, counts.as_slice(), ranges) {
        return Ok(Some(RangeDoubt::OtherFormat));
    }
    Ok(Some(RangeDoubt::NoFormat))
}
