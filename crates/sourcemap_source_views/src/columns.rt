//! Byte offsets of UTF-16 columns in a line.
ghost use Rattle.std.specs.Prelude.{◌≡◌, ◌<◌, ◌≤◌, ◌-◌, IfNone, IfSome, IsAscii, Some, length, option_map, slice_range};
ghost use Rattle.std.specs.Prelude.{take};
ghost use Rattle.std.specs.Bool.{OnTrue};
ghost use Rattle.std.specs.Str.{IsCharBoundary, chars};
ghost use Rattle.sourcemap_source_views.specs.Columns.{IsOffset, column_offset, reached_offset, slice_of, width};

/// An offset in a line, in bytes, with the number of UTF-16 units before it.
#[derive(Debug, Clone, Copy)]
pub struct LineOffset {
    pub offset: usize,
    pub units: u64,
}

/// Returns the byte offset of column `col`, and the number of UTF-16 units before this offset.
/// `col` is in UTF-16 units. A column inside a surrogate pair is moved after the pair. Returns
/// `None` if the line is too short.
pub fn reach(line: &str, col: u64) -> Option<LineOffset>
    ensures value { option_map (λ at. at.offset) result ≡ column_offset line.now col }
    ensures boundary { IfSome result (λ at. IsCharBoundary line.now at.offset) }
    ensures units { IfSome result (λ at. at.units ≡ width (chars (take at.offset line.now))) }
{
    let near = col.min(line.len() as u64) as usize;
    if line.as_bytes()[..near].is_ascii() {
        return reach_in_ascii(line, col);
    }
    reach_by_characters(line, skip_blocks(line, col), col)
}

/// Returns the offset of a column, as `reach` finds it. Returns the end of the line if the line is
/// too short.
pub fn reach_or_end(line: &str, col: u64) -> LineOffset
    ensures value { reached_offset col result.offset result.units ≡ column_offset line.now col }
    ensures offset { IsOffset line.now result.offset result.units }
{
    match reach(line, col) {
        Some(at) => at,
        None => LineOffset {
            offset: line.len(),
            units: units_in(line),
        },
    }
}

// `reach` for a line whose bytes before the column are ASCII.
fn reach_in_ascii(line: &str, col: u64) -> Option<LineOffset>
    requires { IsAscii (take col line.now) }
    ensures value { option_map (λ at. at.offset) result ≡ column_offset line.now col }
    ensures boundary { IfSome result (λ at. IsCharBoundary line.now at.offset) }
    ensures units { IfSome result (λ at. at.units ≡ width (chars (take at.offset line.now))) }
{
    if col > line.len() as u64 {
        return None;
    }
    Some(LineOffset {
        offset: col as usize,
        units: col,
    })
}

// `reach` for any line, character by character from an offset that is not after the column.
fn reach_by_characters(line: &str, from: LineOffset, col: u64) -> Option<LineOffset>
    requires offset { IsOffset line.now from.offset from.units }
    requires before { from.units ≤ col }
    ensures value { option_map (λ at. at.offset) result ≡ column_offset line.now col }
    ensures boundary { IfSome result (λ at. IsCharBoundary line.now at.offset) }
    ensures units { IfSome result (λ at. at.units ≡ width (chars (take at.offset line.now))) }
{
    let length = line.len();
    let mut units = from.units;
    let mut rest = line[from.offset..].chars();
    while units < col {
        let character = rest.next()?;
        units += character.len_utf16() as u64;
    }
    Some(LineOffset {
        offset: length - rest.as_str().len(),
        units,
    })
}

// The start of the last block that starts at or before the column. A block has 1024 to 1027 bytes,
// and the last block of the line has fewer.
fn skip_blocks(line: &str, col: u64) -> LineOffset
    ensures offset { IsOffset line.now result.offset result.units }
    ensures before { result.units ≤ col }
{
    let mut at = LineOffset {
        offset: 0,
        units: 0,
    };
    while let Some(next) = next_block(line, at, col) {
        at = next;
    }
    at
}

// The start of the next block, 1024 to 1027 bytes after `at`. `None` if fewer than 1024 bytes
// follow `at`, or if the next block starts after the column.
fn next_block(line: &str, at: LineOffset, col: u64) -> Option<LineOffset>
    requires { IsOffset line.now at.offset at.units }
    ensures offset { IfSome result (λ next. IsOffset line.now next.offset next.units) }
    ensures before { IfSome result (λ next. next.units ≤ col) }
    ensures ahead { IfSome result (λ next. at.offset < next.offset) }
    ensures inside { IfSome result (λ next. next.offset ≤ length line.now) }
{
    let end = block_end(line, at.offset)?;
    let units = at.units + units_in(&line[at.offset..end]);
    if units > col {
        return None;
    }
    Some(LineOffset { offset: end, units })
}

// The first character boundary at least 1024 bytes after an offset, `None` if fewer than 1024 bytes
// follow the offset.
fn block_end(line: &str, offset: usize) -> Option<usize>
    ensures boundary { IfSome result (λ end. IsCharBoundary line.now end) }
    ensures ahead { IfSome result (λ end. offset < end) }
{
    let first = offset.checked_add(1024)?;
    for end in first..first.saturating_add(4) {
        if line.is_char_boundary(end) {
            return Some(end);
        }
    }
    None
}

/// The length of a text in UTF-16 units.
pub fn units_in(text: &str) -> u64
    ensures value { result ≡ width (chars text.now) }
    ensures few { result ≤ length text.now }
{
    let length = text.len() as u64;
    if text.is_ascii() {
        return length;
    }
    let mut total = 0;
    for character in text.chars() {
        total += character.len_utf16() as u64;
    }
    total
}

/// Returns the part of a line from column `col` to column `col + span`. `col` and `span` are in
/// UTF-16 units. A column inside a surrogate pair is moved after the pair. Returns `None` if the
/// line is too short for either column.
pub fn slice_at(line: &str, col: u32, span: u32) -> Option<&str>
    ensures { option_map (λ part. part.now) result ≡ slice_of line.now col span }
{
    let start = reach(line, u64::from(col))?;
    let rest = &line[start.offset..];
    let end = (u64::from(col) + u64::from(span)).saturating_sub(start.units);
    let length = reach(rest, end)?.offset;
    Some(&rest[..length])
}

/// Returns the same offset as `reach_or_end`. `from` must be a character boundary of this line. If
/// `col` is not after `from`, the search runs back from `from`. If `from` is the end of the line
/// and `col` is after `from`, the result is `from`. Otherwise the search runs from the start of the
/// line.
pub fn reach_from(line: &str, from: LineOffset, col: u64) -> LineOffset
    requires { IsOffset line.now from.offset from.units }
    ensures value { reached_offset col result.offset result.units ≡ column_offset line.now col }
    ensures offset { IsOffset line.now result.offset result.units }
{
    if col <= from.units {
        return reach_back(line, from, col);
    }
    if from.offset == line.len() {
        return from;
    }
    reach_or_end(line, col)
}

/// Returns the same offset as `reach`. `from` must be a character boundary of this line, and `col`
/// must not be after `from`. The search runs back from `from`.
pub fn reach_back(line: &str, from: LineOffset, col: u64) -> LineOffset
    requires offset { IsOffset line.now from.offset from.units }
    requires ahead { col ≤ from.units }
    ensures value { Some result.offset ≡ column_offset line.now col }
    ensures offset { IsOffset line.now result.offset result.units }
{
    let distance = from.units - col;
    if is_ascii_before(line, from.offset, distance) {
        return LineOffset {
            offset: from.offset - distance as usize,
            units: col,
        };
    }
    let mut at = from;
    while let Some(before) = step_back(line, at, col) {
        at = before;
    }
    at
}

fn is_ascii_before(line: &str, offset: usize, count: u64) -> bool
    requires { offset ≤ length line.now }
    ensures { OnTrue result
        ((count ≤ offset) × IsAscii (slice_range line.now (offset - count) offset)) }
{
    if count > offset as u64 {
        return false;
    }
    line.as_bytes()[offset - count as usize..offset].is_ascii()
}

// The offset one character before `at`. `None` if this offset is before the column, or if `at` is
// the start of the line.
fn step_back(line: &str, at: LineOffset, col: u64) -> Option<LineOffset>
    requires offset { IsOffset line.now at.offset at.units }
    requires ahead { col ≤ at.units }
    ensures offset { IfSome result (λ before. IsOffset line.now before.offset before.units) }
    ensures ahead { IfSome result (λ before. (col ≤ before.units) × (before.units < at.units)) }
    ensures there { IfNone result (Some at.offset ≡ column_offset line.now col) }
{
    let character = line[..at.offset].chars().next_back()?;
    let units = at.units - character.len_utf16() as u64;
    if units < col {
        return None;
    }
    Some(LineOffset {
        offset: at.offset - character.len_utf8(),
        units,
    })
}
