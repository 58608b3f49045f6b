//! Blocks of packed tokens.
ghost use Rattle.std.specs.Prelude.{◌≡◌, ◌↔◌, ℕ, ◌≤◌, ◌<◌, ◌+◌, ◌*◌, ◌/◌, ◌%◌, ◌^◌, IsTrue, length};
ghost use Rattle.sourcemap_compiled.specs.Blocks.{base_at, field_at, packed_at, position_in, scope_field};
ghost use Rattle.sourcemap_compiled.specs.Blocks.{width_at, widths_before};
ghost use Rattle.sourcemap_compiled.specs.Numbers.{position_number, u32_at};

use crate::numbers::{bits_at, u32_at};
use sourcemap_tokens::tokens::RawToken;

// The fields of a token, in the order of their numbers in the body of a block.
const LINE: usize = 0;

const COLUMN: usize = 1;

const SOURCE: usize = 2;

const SOURCE_LINE: usize = 3;

const SOURCE_COLUMN: usize = 4;

const NAME: usize = 5;

const RANGE: usize = 6;

const SCOPE: usize = 7;

/// The number of tokens in a block. The last block may have fewer.
pub(crate) const BLOCK_SIZE: usize = 64;

// Where the widths of the fields are in a head.
const WIDTHS: usize = 24;

// No body has more bytes: eight fields of 64 numbers, each of 63 bits.
const LONGEST_BODY: usize = 8 * 8 * 63;

/// A block: the bytes of the file, where the block starts, and where its head is in the bytes.
#[derive(Clone, Copy)]
pub(crate) struct Block<'a> {
    pub(crate) bytes: &'a [u8],
    pub(crate) start: u64,
    pub(crate) head: usize,
    ghost whole: { head + 32 ≤ length bytes.now },
}

/// The numbers of a field in the body of a block: where they start, the bits of each number, and
/// whether all are known to be inside the file.
#[derive(Clone, Copy)]
struct Field<'a> {
    bytes: &'a [u8],
    start: usize,
    width: usize,
    inside: bool,
    ghost long: { 8 ≤ length bytes.now },
    ghost near: { start < 2 ^ 40 },
    ghost narrow: { width < 64 },
    ghost within: { IsTrue inside → start + 8 * width + 8 ≤ length bytes.now },
}

/// What all generated positions of a block are read from: the bases of lines and columns, and the
/// numbers of both.
#[derive(Clone, Copy)]
pub(crate) struct Positions<'a> {
    line: u32,
    column: u32,
    lines: Field<'a>,
    columns: Field<'a>,
}

/// Where a search ends: the index of a token, the position of the token ahead of it, and its own.
/// For a token on another line than the search is, these may be numbers on other lines instead.
#[derive(Clone, Copy)]
pub(crate) struct Bracket {
    pub(crate) index: usize,
    pub(crate) ahead: u64,
    pub(crate) next: u64,
}

/// What a search reads of a token: whether it is before the position, and its own position, or a
/// number on another line if it is not on the line of the search.
#[derive(Clone, Copy)]
struct Near {
    is_before: bool,
    position: u64,
}

impl<'a> Block<'a> {
    ghost use Rattle.sourcemap_compiled.specs.Stored.{IsBracket, number_in, placed_token, position_by};

    /// Returns the token at a place, whose generated position is known.
    #[inline(always)]
    pub(crate) fn token(&self, place: usize, position: u64) -> RawToken
        requires { place < 64 }
        ensures { result ≡ placed_token self.now.bytes.now self.now.start self.now.head place position }
    {
        if self.is_inside() {
            self.read_token(place, position, true)
        } else {
            let block = *self;
            RawToken {
                ..block.token_at_end(place, position)
            }
        }
    }

    // Returns a token of a block whose body may pass the end of the file.
    #[cold]
    #[inline(never)]
    fn token_at_end(self, place: usize, position: u64) -> RawToken
        requires { place < 64 }
        ensures { result ≡ placed_token self.entry.bytes.now self.entry.start self.entry.head place position }
    {
        self.read_token(place, position, false)
    }

    #[inline(always)]
    fn read_token(&self, place: usize, position: u64, inside: bool) -> RawToken
        requires place { place < 64 }
        requires inside { IsTrue inside → u32_at self.now.bytes.now self.now.head + 4040 ≤ length self.now.bytes.now }
        ensures { result ≡ placed_token self.now.bytes.now self.now.start self.now.head place position }
    {
        RawToken {
            dst_line: (position >> 32) as u32,
            dst_col: (position % (1 << 32)) as u32,
            src_line: self.value(SOURCE_LINE, place, inside),
            src_col: self.value(SOURCE_COLUMN, place, inside),
            src_id: self.value(SOURCE, place, inside),
            name_id: self.value(NAME, place, inside),
            is_range: self.packed(RANGE, place, inside) > 0,
        }
    }

    /// Returns the scope of the token at a place: 0 for none, otherwise the id plus 1.
    pub(crate) fn scope(&self, place: usize) -> u64
        requires { place < 64 }
        ensures { result ≡ packed_at self.now.bytes.now self.now.head scope_field place }
    {
        self.packed(SCOPE, place, false)
    }

    /// Returns what the generated positions of the tokens at places other than 0 are read from.
    #[inline(always)]
    pub(crate) fn positions(&self, inside: bool) -> Positions<'a>
        requires { IsTrue inside → u32_at self.now.bytes.now self.now.head + 4040 ≤ length self.now.bytes.now }
        ensures { (place : ℕ) → position_by result place
            ≡ position_in self.now.bytes.now (self.now.start / 2 ^ 32) self.now.head place }
    {
        Positions {
            line: self.line(),
            column: self.base(COLUMN),
            lines: self.field(LINE, inside),
            columns: self.field(COLUMN, inside),
        }
    }

    /// Searches the places below `size` for a token at or after a position, where the token ahead
    /// of it is before the position. Returns its place with both positions. If all tokens are
    /// before the position, returns `size`, and `after` for the position there. If the tokens are
    /// in order, the place is that of the first token at or after the position.
    #[inline(always)]
    pub(crate) fn search(&self, size: usize, position: u64, after: u64) -> Bracket
        requires few { size ≤ 64 }
        requires some { 0 < size }
        requires starts { self.now.start < position }
        ensures { IsBracket self.now.bytes.now self.now.start self.now.head size position after result }
    {
        if size == BLOCK_SIZE && self.is_inside() {
            self.search_places(size, position, after, true)
        } else {
            let block = *self;
            Bracket {
                ..block.search_at_end(size, position, after)
            }
        }
    }

    // Searches a block that has fewer tokens, or whose body may pass the end of the file. Such a
    // block is rare, and apart from it no step of a search tests for either.
    #[cold]
    #[inline(never)]
    fn search_at_end(self, size: usize, position: u64, after: u64) -> Bracket
        requires few { size ≤ 64 }
        requires some { 0 < size }
        requires starts { self.start < position }
        ensures { IsBracket self.entry.bytes.now self.entry.start self.entry.head size position after result }
    {
        self.search_places(size, position, after, false)
    }

    #[inline(always)]
    fn search_places(&self, size: usize, position: u64, after: u64, whole: bool) -> Bracket
        requires few { size ≤ 64 }
        requires some { 0 < size }
        requires starts { self.now.start < position }
        requires whole { IsTrue whole → size ≡ 64 }
        requires inside { IsTrue whole → u32_at self.now.bytes.now self.now.head + 4040 ≤ length self.now.bytes.now }
        ensures { IsBracket self.now.bytes.now self.now.start self.now.head size position after result }
    {
        let positions = self.positions(whole);
        // Two copies of the search, of which that for one line reads no lines.
        if positions.lines.width == 0 {
            self.search_positions(&positions, size, position, after, true, whole)
        } else {
            self.search_positions(&positions, size, position, after, false, whole)
        }
    }

    #[inline(always)]
    fn search_positions(
        &self,
        positions: &Positions<'_>,
        size: usize,
        position: u64,
        after: u64,
        one_line: bool,
        whole: bool,
    ) -> Bracket
        requires whole { IsTrue whole → size ≡ 64 }
        requires few { size ≤ 64 }
        requires some { 0 < size }
        requires starts { self.now.start < position }
        requires positions { (place : ℕ) → position_by positions.now place
            ≡ position_in self.now.bytes.now (self.now.start / 2 ^ 32) self.now.head place }
        ensures { IsBracket self.now.bytes.now self.now.start self.now.head size position after result }
    {
        // Of 63 places, one less than a power of 2, each middle leaves as many on both sides. So
        // the compiler knows what is left after each step, and needs no loop.
        let mut index = 1;
        let mut rest = BLOCK_SIZE - 1;
        let mut ahead = self.start;
        let mut next = after;
        while rest > 0 {
            rest /= 2;
            let middle = index + rest;
            if whole || middle < size {
                let here = positions.near(middle, position, one_line);
                if here.is_before {
                    index = middle + 1;
                    ahead = here.position;
                } else {
                    next = here.position;
                }
            }
        }
        Bracket { index, ahead, next }
    }

    // Whether the body is inside the file, however long it is.
    #[inline(always)]
    fn is_inside(&self) -> bool
        ensures { IsTrue result → u32_at self.now.bytes.now self.now.head + 4040 ≤ length self.now.bytes.now }
    {
        u32_at(self.bytes, self.head) as usize + LONGEST_BODY + 8 <= self.bytes.len()
    }

    // The line in which the block starts.
    #[inline(always)]
    fn line(&self) -> u32
        ensures { result ≡ self.now.start / 2 ^ 32 }
    {
        (self.start >> 32) as u32
    }

    #[inline(always)]
    fn value(&self, field: usize, place: usize, inside: bool) -> u32
        requires field { field < 8 }
        requires place { place < 64 }
        requires inside { IsTrue inside → u32_at self.now.bytes.now self.now.head + 4040 ≤ length self.now.bytes.now }
        ensures { result ≡ field_at self.now.bytes.now self.now.head field place }
    {
        add(self.base(field), self.packed(field, place, inside))
    }

    #[inline(always)]
    fn packed(&self, field: usize, place: usize, inside: bool) -> u64
        requires field { field < 8 }
        requires place { place < 64 }
        requires inside { IsTrue inside → u32_at self.now.bytes.now self.now.head + 4040 ≤ length self.now.bytes.now }
        ensures number { result ≡ packed_at self.now.bytes.now self.now.head field place }
        ensures small { result < 2 ^ 63 }
    {
        self.field(field, inside).number(place)
    }

    #[inline(always)]
    #[tactic(auto, unfolding(crate::specs::Blocks::packed_at))]
    fn field(&self, field: usize, inside: bool) -> Field<'a>
        requires field { field < 8 }
        requires inside { IsTrue inside → u32_at self.now.bytes.now self.now.head + 4040 ≤ length self.now.bytes.now }
        ensures { (place : ℕ) → number_in result place
            ≡ packed_at self.now.bytes.now self.now.head field place }
    {
        let width = self.width(field);
        Field {
            bytes: self.bytes,
            start: u32_at(self.bytes, self.head) as usize + 8 * self.widths_before(field),
            width,
            inside,
        }
    }

    #[inline(always)]
    fn base(&self, field: usize) -> u32
        requires { field < 8 }
        ensures { result ≡ base_at self.now.bytes.now self.now.head field }
    {
        u32_at(self.bytes, self.head + 4 * field)
    }

    #[inline(always)]
    fn width(&self, field: usize) -> usize
        requires { field < 8 }
        ensures value { result ≡ width_at self.now.bytes.now self.now.head field }
        ensures narrow { result < 64 }
    {
        usize::from(self.bytes[self.head + WIDTHS + field] % 64)
    }

    #[inline(always)]
    #[tactic(auto, using(crate::proofs::BlocksLemmas::widths_before_steps))]
    fn widths_before(&self, field: usize) -> usize
        requires { field < 8 }
        ensures sum { result ≡ widths_before self.now.bytes.now self.now.head field }
        ensures few { result ≤ 63 * field }
    {
        let mut sum = 0;
        for before in 0..field {
            sum += self.width(before);
        }
        sum
    }
}

impl Field<'_> {
    ghost use Rattle.sourcemap_compiled.specs.Stored.{number_in};

    /// Returns the number at a place. Nothing is read if the numbers have no bits.
    #[inline(always)]
    fn number(&self, place: usize) -> u64
        requires { place < 64 }
        ensures value { result ≡ number_in self.now place }
        ensures small { result < 2 ^ 63 }
    {
        if self.width == 0 { 0 } else { self.read(place) }
    }

    #[inline(always)]
    fn read(&self, place: usize) -> u64
        requires { place < 64 }
        ensures value { result ≡ number_in self.now place }
        ensures small { result < 2 ^ 63 }
    {
        bits_at(
            self.bytes,
            self.start,
            place * self.width,
            self.width,
            self.inside,
        )
    }
}

impl Positions<'_> {
    ghost use Rattle.sourcemap_compiled.specs.Stored.{IsNear, position_by};

    /// Returns the generated position of the token at a place other than 0, as one number, if it is
    /// on this line. For a token on another line a number on an earlier or later line will do, and
    /// then no column is read. If all are on one line, columns alone are read.
    #[inline(always)]
    fn near(&self, place: usize, position: u64, one_line: bool) -> Near
        requires { place < 64 }
        ensures near { IsNear (position_by self.now place) (position / 2 ^ 32) result.position }
        ensures before { IsTrue result.is_before ↔ (result.position < position) }
    {
        if one_line {
            let here = self.at(place);
            return Near {
                is_before: here < position,
                position: here,
            };
        }
        let line = (position >> 32) as u32;
        let here = add(self.line, self.lines.number(place));
        if here != line {
            return Near {
                is_before: here < line,
                position: if here < line { 0 } else { u64::MAX },
            };
        }
        let column = add(self.column, self.columns.read(place));
        Near {
            is_before: column < (position % (1 << 32)) as u32,
            position: position_number(line, column),
        }
    }

    /// Returns the generated position of the token at a place other than 0, as one number.
    #[inline(always)]
    pub(crate) fn at(&self, place: usize) -> u64
        requires { place < 64 }
        ensures { result ≡ position_by self.now place }
    {
        // The tokens of most blocks are on one line, and then no line is read. Columns differ, so
        // a test for no bits would cost more than it saves.
        let lines = self.lines.number(place) << 32;
        let column = add(self.column, self.columns.read(place));
        lines
            .wrapping_add(position_number(self.line, 0))
            .wrapping_add(u64::from(column))
    }
}

/// Returns a number plus a base, modulo 2^32.
#[inline(always)]
fn add(base: u32, number: u64) -> u32
    requires { number < 2 ^ 63 }
    ensures { result ≡ (base + number) % 2 ^ 32 }
{
    ((u64::from(base) + number) % (1 << 32)) as u32
}

/// Returns a position as one number.
#[inline(always)]
pub(crate) fn position_number(line: u32, column: u32) -> u64
    ensures { result ≡ position_number (line, column) }
{
    (u64::from(line) << 32) + u64::from(column)
}
