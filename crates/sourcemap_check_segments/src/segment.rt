//! Reads one segment.
ghost use Rattle.std.specs.Prelude.{◌≡◌, ℕ, ◌<◌, ◌≤◌, ◌∷◌, ◌==◌, ◌||◌, List, Bool};
ghost use Rattle.std.specs.Prelude.{if◌then◌else◌, pos};
ghost use Rattle.std.specs.List.{list_any};
ghost use Rattle.sourcemap_check_segments.specs.Segments.{continues, before_raws, raws_of, value_of, is_count, is_large};
ghost use Rattle.sourcemap_check_segments.specs.Segments.{is_cut};
ghost use Rattle.sourcemap_check_segments.specs.Steps.{Describes, DescribesBytes, IsSegment};

use sourcemap_vlq::vlq::value_of_digit;

// Raw values of 2^32 or more are those of numbers that do not fit 32 bits.
const LARGE: u64 = 1 << 32;

// The numbers at the end of a segment.
#[derive(Clone, Copy)]
pub(crate) struct Raws {
    // Whether a byte is no digit.
    pub(crate) foreign: bool,
    // How many numbers there are, or 6 if there are more.
    pub(crate) count: usize,
    // Whether a number after the first does not fit 32 bits.
    pub(crate) large_later: bool,
    // The first five raw values, 2^32 for each larger one, 0 for each missing one.
    pub(crate) five: [u64; 5],
}

// A segment. The last five fields are its numbers, 0 for each missing one, and all 0 if the segment
// is not sound.
#[derive(Clone, Copy)]
pub(crate) struct Segment {
    // Whether a byte is no digit.
    pub(crate) foreign: bool,
    // Whether the segment ends within a number.
    pub(crate) cut: bool,
    // How many numbers there are, or 6 if there are more.
    pub(crate) count: usize,
    // Whether a number does not fit 32 bits.
    pub(crate) large: bool,
    // Whether the segment consists of 1, 4 or 5 numbers of 32 bits.
    pub(crate) sound: bool,
    pub(crate) column: i64,
    pub(crate) source: i64,
    pub(crate) line: i64,
    pub(crate) source_column: i64,
    pub(crate) name: i64,
}

// The same with one more number, at the front.
fn with_number(later: &Raws, raw: u64) -> Raws
    requires { raw < 32 }
    ensures numbers { (raws : List ℕ) → Describes raws later.now → Describes (raw ∷ raws) result }
    ensures foreign { result.foreign ≡ later.now.foreign }
{
    let five = later.five;
    Raws {
        foreign: later.foreign,
        count: later.count.min(5) + 1,
        large_later: later.large_later | (five[0] >= LARGE),
        five: [raw, five[0], five[1], five[2], five[3]],
    }
}

// The same with one more digit of the first number, at the front. Without a number the digit is
// none of a number.
fn with_digit(later: &Raws, low: u64) -> Raws
    requires { low < 32 }
    ensures numbers { (raws : List ℕ) → Describes raws later.now
        → Describes (before_raws low raws) result }
    ensures foreign { result.foreign ≡ later.now.foreign }
{
    if later.count == 0 {
        return *later;
    }
    let five = later.five;
    let first = (low + 32 * five[0].min(LARGE)).min(LARGE);
    Raws {
        foreign: later.foreign,
        count: later.count,
        large_later: later.large_later,
        five: [first, five[1], five[2], five[3], five[4]],
    }
}

// A byte that is no digit counts as a number of its own.
fn with_byte(later: Raws, byte: u8) -> Raws
    ensures { (bytes : List ℕ) → DescribesBytes bytes later → DescribesBytes (byte ∷ bytes) result }
{
    let Some(digit) = value_of_digit(byte) else {
        return with_number(
            &Raws {
                foreign: true,
                ..later
            },
            0,
        );
    };
    if digit >= 32 {
        with_digit(&later, u64::from(digit % 32))
    } else {
        with_number(&later, u64::from(digit))
    }
}

fn read_raws(segment: &[u8]) -> Raws
    ensures { DescribesBytes segment.now result }
{
    let mut read = Raws {
        foreign: false,
        count: 0,
        large_later: false,
        five: [0; 5],
    };
    let mut front = segment;
    while let Some((byte, earlier)) = front.split_last() {
        read = with_byte(read, *byte);
        front = earlier;
    }
    read
}

// Whether the last byte is a digit with the continuation bit.
fn ends_within(segment: &[u8]) -> bool
    ensures { result ≡ is_cut segment.now }
{
    match segment.split_last() {
        Some((byte, _)) => has_continuation(*byte),
        None => false,
    }
}

fn has_continuation(byte: u8) -> bool
    ensures { result ≡ continues byte }
{
    match value_of_digit(byte) {
        Some(digit) => digit >= 32,
        None => false,
    }
}

#[inline]
pub(crate) fn may_have(count: usize) -> bool
    ensures { result ≡ is_count count }
{
    count == 1 || count == 4 || count == 5
}

// The number of a raw value. Its lowest bit is the sign.
fn value_of(raw: u64) -> i64
    ensures { raw ≤ 4294967296 → result ≡ value_of raw }
{
    if raw == 1 {
        return -2147483648;
    }
    let magnitude = (raw / 2) as i64;
    if raw % 2 == 0 { magnitude } else { -magnitude }
}

// The number of a raw value, or 0 if its segment is not sound.
fn value_if(sound: bool, raw: u64) -> i64
    ensures { raw ≤ 4294967296 → result ≡ (if sound then value_of raw else pos 0) }
{
    if sound { value_of(raw) } else { 0 }
}

// Whether a number does not fit 32 bits.
fn has_large(read: &Raws) -> bool
    ensures { (raws : List ℕ) → Describes raws read.now → result ≡ list_any is_large raws }
{
    read.large_later | (read.five[0] >= LARGE)
}

pub(crate) fn read_segment(segment: &[u8]) -> Segment
    ensures { IsSegment segment.now result }
{
    let read = read_raws(segment);
    let cut = ends_within(segment);
    let large = has_large(&read);
    let sound = !read.foreign & !cut & may_have(read.count) & !large;
    let five = read.five;
    Segment {
        foreign: read.foreign,
        cut,
        count: read.count,
        large,
        sound,
        column: value_if(sound, five[0]),
        source: value_if(sound, five[1]),
        line: value_if(sound, five[2]),
        source_column: value_if(sound, five[3]),
        name: value_if(sound, five[4]),
    }
}
