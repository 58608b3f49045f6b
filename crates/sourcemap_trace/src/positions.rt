//! The lines of a list of positions, and the position that a line names. Lines and columns count
//! from `first` in the list, and from 0 in what the calls return.
ghost use Rattle.std.specs.Prelude.{◌≡◌, ◌==◌, ◌<◌, ◌≤◌, IfSome, length, option_map};
ghost use Rattle.std.specs.List.{after_first, before_first};
ghost use Rattle.sourcemap_trace.specs.Positions.{first_of, is_newline, number_of, position_of};

/// The number of the first line and of the first column. Stack traces and most editors count from
/// 1, source maps and this library from 0.
#[derive(Clone, Copy, Debug, PartialEq, Eq)]
pub enum Counting {
    /// The first line is line 0, and the first column is column 0.
    From0,
    /// The first line is line 1, and the first column is column 1.
    From1,
}

impl Counting {
    /// The number of the first line and of the first column: 0 or 1.
    pub fn first(self) -> u64
        ensures value { result ≡ first_of self }
        ensures small { result ≤ 1 }
    {
        match self {
            Counting::From0 => 0,
            Counting::From1 => 1,
        }
    }
}

fn without_first(lines: &[u8]) -> &[u8]
    ensures later { result.now ≡ after_first is_newline lines.now }
    ensures shorter { 0 < length lines.now → length result.now < length lines.now }
{
    for (index, byte) in lines.iter().enumerate() {
        if *byte == b'\n' {
            return &lines[index + 1..];
        }
    }
    &[]
}

// The number before the first byte `mark`, counted from 0, and the bytes after that byte. Without
// such a byte, all bytes belong to the number. `None` if there is no number, if it is below
// `first`, or if it is above `first + 4294967295`. The loop returns as soon as `value` exceeds this
// limit, so `value` cannot overflow.
fn number_before(bytes: &[u8], mark: u8, first: u64) -> Option<(u32, &[u8])>
    requires first { first ≤ 1 }
    ensures number { option_map (λ found. found.0) result
        ≡ number_of first (before_first (λ byte. byte == mark) bytes.now) }
    ensures after { IfSome result
        (λ found. found.1.now ≡ after_first (λ byte. byte == mark) bytes.now) }
{
    let mut value: u64 = 0;
    let mut index = 0;
    while index < bytes.len() && bytes[index] != mark {
        if !bytes[index].is_ascii_digit() {
            return None;
        }
        value = value * 10 + u64::from(bytes[index] - b'0');
        if value > first + 4_294_967_295 {
            return None;
        }
        index += 1;
    }
    if index == 0 {
        return None;
    }
    if value < first {
        return None;
    }
    Some((
        (value - first) as u32,
        &bytes[(index + 1).min(bytes.len())..],
    ))
}

// The position that the first line names, and the lines after this line. `None` if the first line
// names no position.
fn first_position(lines: &[u8], first: u64) -> Option<((u32, u32), &[u8])>
    requires first { first ≤ 1 }
    ensures position { option_map (λ found. found.0) result
        ≡ position_of first (before_first is_newline lines.now) }
    ensures later { IfSome result (λ found. found.1.now ≡ after_first is_newline lines.now) }
    ensures shorter { IfSome result (λ found. length found.1.now < length lines.now) }
{
    let (row, rest) = number_before(lines, b':', first)?;
    let (col, later) = number_before(rest, b'\n', first)?;
    Some(((row, col), later))
}

// The position that the first line names, if it names one, and the lines after this line.
pub(crate) fn next_position(lines: &[u8], counting: Counting) -> (Option<(u32, u32)>, &[u8])
    ensures position { result.0 ≡ position_of (first_of counting) (before_first is_newline lines.now) }
    ensures later { result.1.now ≡ after_first is_newline lines.now }
    ensures shorter { 0 < length lines.now → length result.1.now < length lines.now }
{
    match first_position(lines, counting.first()) {
        Some((position, later)) => (Some(position), later),
        None => (None, without_first(lines)),
    }
}
