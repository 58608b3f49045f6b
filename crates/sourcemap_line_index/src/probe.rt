//! A probe holds the position of a lookup. Code that is generic over probes can only compare this
//! position with numbers. Each comparison is counted.
ghost use Rattle.std.specs.Prelude.{◌≡◌, ℕ, ◌+◌, if◌then◌else◌, min, nat_lt};
ghost use Rattle.std.specs.Ordering.{nat_cmp};

use std::cmp::Ordering;

/// A position to look up: a generated line and column. No method returns it. Code that is generic
/// over probes can only compare it with numbers, and each comparison is counted.
pub trait Probe {
    // The line and the column of the position.
    ghost position: { Self → ℕ × ℕ };

    // The number of comparisons so far, at most 4294967295.
    ghost comparisons: { Self → ℕ };

    /// Compares the line of the position with this line. Counts as one comparison.
    fn line(&mut self, line: u32) -> Ordering
        ensures answer { result ≡ nat_cmp (position self.old).0 line }
        ensures kept { position self.new ≡ position self.old }
        ensures counted { comparisons self.new ≡ min (comparisons self.old + 1) 4294967295 };

    /// Compares the column of the position with this column. Counts as one comparison.
    fn column(&mut self, col: u32) -> Ordering
        ensures answer { result ≡ nat_cmp (position self.old).1 col }
        ensures kept { position self.new ≡ position self.old }
        ensures counted { comparisons self.new ≡ min (comparisons self.old + 1) 4294967295 };

    /// Returns `steps` if the line of the position is after this line, else 0. Counts as one
    /// comparison.
    fn skip_by_line(&mut self, line: u32, steps: usize) -> usize
        ensures answer { result ≡ (if nat_lt line (position self.old).0 then steps else 0) }
        ensures kept { position self.new ≡ position self.old }
        ensures counted { comparisons self.new ≡ min (comparisons self.old + 1) 4294967295 }
    {
        if self.line(line).is_gt() { steps } else { 0 }
    }

    /// Returns `steps` if the column of the position is after this column, else 0. Counts as one
    /// comparison.
    fn skip_by_column(&mut self, col: u32, steps: usize) -> usize
        ensures answer { result ≡ (if nat_lt col (position self.old).1 then steps else 0) }
        ensures kept { position self.new ≡ position self.old }
        ensures counted { comparisons self.new ≡ min (comparisons self.old + 1) 4294967295 }
    {
        if self.column(col).is_gt() { steps } else { 0 }
    }

    /// The number of comparisons so far. It saturates at 4294967295.
    fn count(&self) -> u32
        ensures { result ≡ comparisons self.now };
}

/// A probe for one line and column. It is not `Debug`, since that would print the position.
#[derive(Drop)]
pub struct KeyProbe {
    line: u32,
    col: u32,
    count: u32,
}

impl KeyProbe {
    /// A probe for this line and column, both 0-based, that has made no comparison.
    pub fn new(line: u32, col: u32) -> KeyProbe
        ensures position { ⟦<KeyProbe as Probe>⟧.position result ≡ (line, col) }
        ensures fresh { ⟦<KeyProbe as Probe>⟧.comparisons result ≡ 0 }
    {
        KeyProbe {
            line,
            col,
            count: 0,
        }
    }
}

impl Probe for KeyProbe {
    ghost use Rattle.sourcemap_line_index.specs.Probe.{key_of, comparisons_of};

    ghost position = { key_of };

    ghost comparisons = { comparisons_of };

    fn line(&mut self, line: u32) -> Ordering {
        self.count = self.count.saturating_add(1);
        self.line.cmp(&line)
    }

    fn column(&mut self, col: u32) -> Ordering {
        self.count = self.count.saturating_add(1);
        self.col.cmp(&col)
    }

    fn skip_by_line(&mut self, line: u32, steps: usize) -> usize {
        self.count = self.count.saturating_add(1);
        if_less(line, self.line, steps)
    }

    fn skip_by_column(&mut self, col: u32, steps: usize) -> usize {
        self.count = self.count.saturating_add(1);
        if_less(col, self.col, steps)
    }

    fn count(&self) -> u32 {
        self.count
    }
}

// For more steps than this, `if_less` uses an `if`, which compiles to a conditional move.
const FAR: usize = 4096;

// Returns `steps` if `a < b`, else 0. A branch would be mispredicted half of the time. So the code
// uses a mask for up to `FAR` steps, and a conditional move for more.
fn if_less(a: u32, b: u32, steps: usize) -> usize
    ensures { result ≡ (if nat_lt a b then steps else 0) }
{
    if steps > FAR {
        return if a < b { steps } else { 0 };
    }
    // the high 32 bits of the difference are all 1 if `a < b`, else all 0
    let mask = u64::from(a).wrapping_sub(u64::from(b)) >> 32;
    steps & mask as usize
}
