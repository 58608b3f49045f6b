//! Whether the positions of a map are off by one shift throughout: after which shift most words
//! stand where the map says.
ghost use Rattle.std.specs.Prelude.{◌≡◌, ◌<◌, ◌≤◌, ◌++◌, List, Some, None, OnOk, IfOk, IfErr, option_map, length};
ghost use Rattle.std.specs.Prelude.{count_by, option_to_list, slice_get, take_while};
ghost use Rattle.std.specs.Option.{option_copied};
ghost use Rattle.sourcemap_errors.specs.declared.errors.Error.TheVariants.{OutOfMemory};
ghost use Rattle.sourcemap_check_texts.specs.Shifts.{AreBestMatches, AreFirst, LandmarkValue, generated_landmark};
ghost use Rattle.sourcemap_check_texts.specs.Shifts.{is_suspicious, is_word_byte, landmark_at, landmark_of};
ghost use Rattle.sourcemap_check_texts.specs.Shifts.{landmark_value, landmark_values, landmarks, line_after, moved};
ghost use Rattle.sourcemap_check_texts.specs.Shifts.{original_landmark, shift_of, stands, word_at, word_of};

use crate::checkpoints::START;
use crate::sources::source_text;
use crate::tokens::{first_bytes, original_line, stands_at};
use sourcemap_errors::errors::Result;
use sourcemap_map_regular::map::SourceMap;
use sourcemap_source_views::columns::reach;
use sourcemap_source_views::sourceview::SourceView;
use sourcemap_tokens::tokens::RawToken;
use std::alloc::Global;

/// How far positions are moved.
#[derive(Clone, Copy, Debug, PartialEq, Eq)]
pub struct Shift {
    /// Added to a line.
    pub lines: i32,
    /// Added to a column.
    pub columns: i32,
}

/// The shifts that are tried, as lines and columns: none, then small ones before great ones. A
/// banner is put before a text, so more are tried to later lines.
pub const SHIFTS: [(i32, i32); 41] = [
    (0, 0),
    (1, 0),
    (-1, 0),
    (0, 1),
    (0, -1),
    (2, 0),
    (-2, 0),
    (0, 2),
    (0, -2),
    (3, 0),
    (-3, 0),
    (0, 3),
    (0, -3),
    (4, 0),
    (-4, 0),
    (0, 4),
    (0, -4),
    (5, 0),
    (-5, 0),
    (0, 5),
    (0, -5),
    (6, 0),
    (-6, 0),
    (0, 6),
    (0, -6),
    (7, 0),
    (-7, 0),
    (0, 7),
    (0, -7),
    (8, 0),
    (-8, 0),
    (0, 8),
    (0, -8),
    (9, 0),
    (10, 0),
    (11, 0),
    (12, 0),
    (13, 0),
    (14, 0),
    (15, 0),
    (16, 0),
];

/// At most so many words are looked at.
pub const MOST_LANDMARKS: usize = 10000;

/// Words from this column on are not looked at.
pub const FAR_COLUMN: u32 = 4096;

/// So many bytes of a word are compared.
pub const WORD_BYTES: usize = 64;

/// How many words stand where a map says: as it is, and after the best shift.
#[derive(Clone, Copy, Debug, PartialEq, Eq)]
pub struct Matches {
    /// The first shift after which most words stand where the map says.
    pub shift: Shift,
    /// How many words were looked at.
    pub looked_at: usize,
    /// How many stand there without a shift.
    pub unshifted: usize,
    /// How many stand there after the shift.
    pub shifted: usize,
}

impl Matches {
    /// Whether the map looks shifted: after the shift at least 4 words stand where it says, more
    /// than twice as many as without, and no fewer than a quarter of all, rounded down. Then the
    /// shift is not 0.
    pub fn is_suspicious(&self) -> bool
        ensures { result ≡ is_suspicious self.now }
    {
        let enough = self.shifted >= 4;
        let better = self.shifted.saturating_sub(self.unshifted) > self.unshifted;
        let many = self.shifted >= self.looked_at / 4;
        enough & better & many
    }
}

// A word that is to stand at a position of a text.
#[derive(Clone, Copy)]
struct Landmark<'map> {
    text: &'map SourceView,
    line: u32,
    column: u32,
    word: &'map [u8],
}

impl<'map> Landmark<'map> {
    // The line of its text that the word is to stand on after a shift.
    fn line_after(&self, shift: Shift) -> Option<&'map str>
        ensures { option_map (λ line. line.now) result
            ≡ line_after (landmark_value self.now) shift }
    {
        self.text.get_line(moved(self.line, shift.lines)?)
    }

    // Whether the word stands at its position after a shift.
    fn stands(&self, shift: Shift) -> bool
        ensures { result ≡ stands (landmark_value self.now) shift }
    {
        match self.line_after(shift) {
            Some(line) => match moved(self.column, shift.columns) {
                Some(column) => stands_at(line, START, column, self.word),
                None => false,
            },
            None => false,
        }
    }
}

// A line or a column after a shift. `None` if it is below 0 or has more than 32 bits.
fn moved(number: u32, by: i32) -> Option<u32>
    ensures { result ≡ moved number by }
{
    number.checked_add_signed(by)
}

// How many landmarks stand at their positions after a shift.
fn count_matches(landmarks: &[Landmark<'_>], shift: Shift) -> usize
    ensures { result ≡ count_by (λ l. stands (landmark_value l) shift) landmarks.now }
{
    landmarks
        .iter()
        .filter(|landmark| landmark.stands(shift))
        .count()
}

fn shift_at(index: usize) -> Shift
    requires { index < 41 }
    ensures { option_map shift_of (slice_get SHIFTS index) ≡ Some result }
{
    let (lines, columns) = SHIFTS[index];
    Shift { lines, columns }
}

// The counts after another shift, if they are better.
fn better(best: Matches, shift: Shift, shifted: usize) -> Matches
    ensures taken { best.shifted < shifted → (result.shift ≡ shift) × (result.shifted ≡ shifted) }
    ensures kept { shifted ≤ best.shifted
        → (result.shift ≡ best.shift) × (result.shifted ≡ best.shifted) }
    ensures counts { (result.looked_at ≡ best.looked_at) × (result.unshifted ≡ best.unshifted) }
{
    if shifted <= best.shifted {
        return best;
    }
    Matches {
        shift,
        looked_at: best.looked_at,
        unshifted: best.unshifted,
        shifted,
    }
}

// The first shift after which most landmarks stand at their positions. `None` if there are no
// landmarks.
fn best_matches(landmarks: &[Landmark<'_>]) -> Option<Matches>
    ensures { AreBestMatches (landmark_values landmarks.now) result }
{
    if landmarks.is_empty() {
        return None;
    }
    let none = shift_at(0);
    let unshifted = count_matches(landmarks, none);
    let mut best = Matches {
        shift: none,
        looked_at: landmarks.len(),
        unshifted,
        shifted: unshifted,
    };
    for index in 1..SHIFTS.len() {
        let shift = shift_at(index);
        best = better(best, shift, count_matches(landmarks, shift));
    }
    Some(best)
}

fn is_word_byte(byte: u8) -> bool
    ensures { result ≡ is_word_byte byte }
{
    byte.is_ascii_alphanumeric() || byte == b'_' || byte == b'$'
}

fn word_length(text: &[u8]) -> usize
    ensures { result ≡ length (take_while is_word_byte text.now) }
{
    text.iter().take_while(|byte| is_word_byte(**byte)).count()
}

// The word that begins at a column of a line, empty if none does. `None` if the line is too short or
// the column too far.
fn word_at(line: &str, column: u32) -> Option<&[u8]>
    ensures { option_map (λ word. word.now) result ≡ word_at line.now column }
{
    if column >= FAR_COLUMN {
        return None;
    }
    let at = reach(line, u64::from(column))?;
    let rest = first_bytes(&line.as_bytes()[at.offset..], WORD_BYTES);
    let length = word_length(rest);
    Some(&rest[..length])
}

// The word at the original position of a token. Its name if its source has no such line.
fn word_of<'text>(
    map: &'text SourceMap,
    files: Option<&'text [Option<SourceView>]>,
    token: RawToken,
) -> Option<&'text [u8]>
    ensures { option_map (λ word. word.now) result
        ≡ word_of map.now (option_copied files.entry) token }
{
    match original_line(map, files, token) {
        Some(line) => word_at(line, token.src_col),
        None => {
            let name = map.get_name(token.name_id)?;
            Some(first_bytes(name.as_bytes(), WORD_BYTES))
        }
    }
}

// A landmark, if its word has more than one byte and its column is not too far.
fn landmark_at<'map>(
    text: &'map SourceView,
    line: u32,
    column: u32,
    word: &'map [u8],
) -> Option<Landmark<'map>>
    ensures { option_map landmark_value result ≡ landmark_at text.now line column word.now }
{
    if column >= FAR_COLUMN || word.len() < 2 {
        return None;
    }
    Some(Landmark {
        text,
        line,
        column,
        word,
    })
}

fn original_landmark<'map>(
    map: &'map SourceMap,
    files: Option<&'map [Option<SourceView>]>,
    token: RawToken,
) -> Option<Landmark<'map>>
    ensures { option_map landmark_value result
        ≡ original_landmark map.now (option_copied files.entry) token }
{
    let text = source_text(map, files, token.src_id)?;
    let name = map.get_name(token.name_id)?;
    let word = first_bytes(name.as_bytes(), WORD_BYTES);
    landmark_at(text, token.src_line, token.src_col, word)
}

fn generated_landmark<'map>(
    map: &'map SourceMap,
    files: Option<&'map [Option<SourceView>]>,
    generated: &'map SourceView,
    token: RawToken,
) -> Option<Landmark<'map>>
    ensures { option_map landmark_value result
        ≡ generated_landmark generated.now map.now (option_copied files.entry) token }
{
    let word = word_of(map, files, token)?;
    landmark_at(generated, token.dst_line, token.dst_col, word)
}

// The landmark of a token: in the generated text if it is given, otherwise in its source.
fn landmark_of<'map>(
    map: &'map SourceMap,
    files: Option<&'map [Option<SourceView>]>,
    generated: Option<&'map SourceView>,
    token: RawToken,
) -> Option<Landmark<'map>>
    ensures { option_map landmark_value result
        ≡ landmark_of (option_copied generated.entry) map.now (option_copied files.entry) token }
{
    match generated {
        Some(text) => generated_landmark(map, files, text, token),
        None => original_landmark(map, files, token),
    }
}

// Adds the landmark of a token, if it has one and fewer than 10000 were found.
#[tactic(auto, using(crate::proofs::ShiftLemmas::first_none))]
fn add_landmark<'map>(
    found: &mut Vec<Landmark<'map>>,
    map: &'map SourceMap,
    files: Option<&'map [Option<SourceView>]>,
    generated: Option<&'map SourceView>,
    token: RawToken,
) -> Result<()>
    ensures added { (all : List LandmarkValue) → AreFirst 10000 all found.old.items
        → OnOk result (AreFirst 10000 (all ++ option_to_list
        (landmark_of (option_copied generated.entry) map.now (option_copied files.entry) token))
        found.new.items) }
    ensures memory { IfErr result (λ e. e ≡ OutOfMemory) }
{
    if found.len() >= MOST_LANDMARKS {
        return Ok(());
    }
    match landmark_of(map, files, generated, token) {
        Some(landmark) => found.push(landmark)?,
        None => return Ok(()),
    }
    Ok(())
}

// The landmarks of the first tokens that have one.
fn landmarks<'map>(
    alloc: Global,
    map: &'map SourceMap,
    files: Option<&'map [Option<SourceView>]>,
    generated: Option<&'map SourceView>,
) -> Result<Vec<Landmark<'map>>>
    ensures value { IfOk result (λ found. landmark_values found.items
        ≡ landmarks (option_copied generated.entry) map.now (option_copied files.entry)) }
    ensures memory { IfErr result (λ e. e ≡ OutOfMemory) }
{
    let mut found = Vec::new(alloc);
    let mut index = 0;
    while let Some(token) = map.get_token(index) {
        let raw = token.get_raw_token();
        add_landmark(&mut found, map, files, generated, raw)?;
        index = token.get_index() + 1;
    }
    Ok(found)
}

/// By which shift of original positions the names of a map would stand in the texts of their
/// sources: in contents, or else in files, if `files` are given. A shift other than 0 is the sign of
/// texts that were changed after the map was made, as by a banner. `None` if no name can be looked
/// at. The only error is `OutOfMemory`.
pub fn original_shift<'map>(
    alloc: Global,
    map: &'map SourceMap,
    files: Option<&'map [Option<SourceView>]>,
) -> Result<Option<Matches>>
    ensures value { IfOk result
        (AreBestMatches (landmarks None map.now (option_copied files.entry))) }
    ensures memory { IfErr result (λ e. e ≡ OutOfMemory) }
{
    let landmarks = landmarks(alloc, map, files, None)?;
    Ok(best_matches(landmarks.as_slice()))
}

/// By which shift of generated positions the words at the original positions would stand in the
/// generated text. Names and words that a minifier replaced stand nowhere, so only the counts of
/// two shifts can be compared. A shift other than 0 is the sign of a generated text that was changed
/// after the map was made, as by a banner. `None` if no word can be looked at. The only error is
/// `OutOfMemory`.
pub fn generated_shift(
    alloc: Global,
    map: &SourceMap,
    files: Option<&[Option<SourceView>]>,
    generated: &SourceView,
) -> Result<Option<Matches>>
    ensures value { IfOk result
        (AreBestMatches (landmarks (Some generated.now) map.now (option_copied files.entry))) }
    ensures memory { IfErr result (λ e. e ≡ OutOfMemory) }
{
    let landmarks = landmarks(alloc, map, files, Some(generated))?;
    Ok(best_matches(landmarks.as_slice()))
}
