//! Segments that go back.
ghost use Rattle.std.specs.Prelude.{◌≡◌, ℕ, ◌<◌, ◌^◌, ◌+◌, ◌++◌, ◌∷◌, [], List, IfOk, IfErr, OnOk, length, cond};
ghost use Rattle.sourcemap_errors.specs.declared.errors.Error.TheVariants.{OutOfMemory};
ghost use Rattle.sourcemap_check_segments.specs.Segments.{continues, segments_of};
ghost use Rattle.sourcemap_check_order.specs.declared.order.SegmentPlace.{SegmentPlace};
ghost use Rattle.sourcemap_check_order.specs.Order.{goes_back, line_places, places_back, AreSegmentPlaces};

use sourcemap_errors::errors::Result;
use sourcemap_vlq::vlq::value_of_digit;
use std::alloc::Global;

/// The place of a segment.
#[derive(Clone, Copy, Debug, PartialEq, Eq)]
pub struct SegmentPlace {
    /// Its line, counted from 0.
    pub line: usize,
    /// Its index among the segments of the line, counted from 0.
    pub index: usize,
}

/// The first segments with a finding, and how many there are.
#[derive(Drop)]
pub struct SegmentPlaces {
    /// The places of the first segments, in the order of the text.
    pub first: Vec<SegmentPlace>,
    /// How many segments there are. The count stops at 18446744073709551615.
    pub count: u64,
}

impl SegmentPlaces {
    // Counts a place if its segment goes back. It is kept if fewer than `most` are.
    fn add_if(&mut self, most: usize, place: SegmentPlace, is_back: bool) -> Result<()>
        ensures added { (all : List SegmentPlace) → AreSegmentPlaces most all self.old
            → OnOk result (AreSegmentPlaces most
            (all ++ cond is_back (place ∷ []) []) self.new) }
        ensures memory { IfErr result (λ e. e ≡ OutOfMemory) }
    {
        if !is_back {
            return Ok(());
        }
        if self.count < most as u64 {
            self.first.push(place)?;
        }
        self.count = self.count.saturating_add(1);
        Ok(())
    }

    // Adds the places of the segments of a line that go back.
    fn add_line(&mut self, most: usize, line: usize, text: &str) -> Result<()>
        ensures added { (all : List SegmentPlace) → AreSegmentPlaces most all self.old
            → OnOk result (AreSegmentPlaces most
            (all ++ line_places line 0 (segments_of text.now)) self.new) }
        ensures memory { IfErr result (λ e. e ≡ OutOfMemory) }
    {
        let mut index = 0;
        for segment in text.split(',') {
            // prover: `&` leaves one goal
            let is_back = (index > 0) & goes_back(segment.as_bytes());
            self.add_if(most, SegmentPlace { line, index }, is_back)?;
            index += 1;
        }
        Ok(())
    }
}

// Whether another digit of the same number follows the byte.
pub(crate) fn continues(byte: u8) -> bool
    ensures { result ≡ continues byte }
{
    match value_of_digit(byte) {
        Some(digit) => digit >= 32,
        None => false,
    }
}

// The lowest bit of the first digit is the sign of the first number. A segment of no number does not
// go back.
fn goes_back(segment: &[u8]) -> bool
    ensures { result ≡ goes_back segment.now }
{
    let Some(first) = segment.first() else {
        return false;
    };
    let is_negative = value_of_digit(*first).unwrap_or(0) % 2 == 1;
    let has_number = segment.iter().any(|byte| !continues(*byte));
    // prover: `&` leaves one goal
    is_negative & has_number
}

/// The segments of the text `mappings` whose generated column is less than that of the segment
/// before them on their line: the places of the first `most`, in the order of the text, and how many
/// there are. The only error is `OutOfMemory`.
pub fn segments_back(alloc: Global, mappings: &str, most: usize) -> Result<SegmentPlaces>
    ensures places { IfOk result (AreSegmentPlaces most (places_back mappings.now)) }
    ensures memory { IfErr result (λ e. e ≡ OutOfMemory) }
{
    let mut places = SegmentPlaces {
        first: Vec::new(alloc),
        count: 0,
    };
    let mut number = 0;
    for line in mappings.split(';') {
        places.add_line(most, number, line)?;
        number += 1;
    }
    Ok(places)
}
