//! Tokens that look wrong.
ghost use Rattle.std.specs.Prelude.{◌≡◌, ◌↔◌, ◌≤◌, ◌<◌, ◌^◌, ◌+◌, ◌++◌, ◌∷◌, [], ℕ, List, Contains, Bool, true, cond};
ghost use Rattle.std.specs.Prelude.{IfOk, IfErr, OnOk, option_map, length, take};
ghost use Rattle.std.specs.Option.{option_copied};
ghost use Rattle.sourcemap_errors.specs.declared.errors.Error.TheVariants.{OutOfMemory};
ghost use Rattle.sourcemap_source_views.specs.Columns.{IsOffset};
ghost use Rattle.sourcemap_check_texts.specs.Checkpoints.{AreCheckpoints};
ghost use Rattle.sourcemap_check_texts.specs.Doubts.{are_at_one_position, have_one_original, has_two_originals, ArePlaces};
ghost use Rattle.sourcemap_check_texts.specs.Doubts.{is_past_source, is_past_line, splits_pair, stands_at, marked};
ghost use Rattle.sourcemap_check_texts.specs.Doubts.{has_other_name, original_line, looks_wrong, is_doubtful};
ghost use Rattle.sourcemap_check_texts.specs.Doubts.{looks_wrong_in_line};

use crate::checkpoints::{Checkpoint, checkpoints, start_near};
use crate::sources::source_text;
use crate::spots::find_near;
use sourcemap_errors::errors::Result;
use sourcemap_map_regular::map::SourceMap;
use sourcemap_source_views::columns::LineOffset;
use sourcemap_source_views::sourceview::SourceView;
use sourcemap_tokens::tokens::RawToken;
use std::alloc::Global;

/// Why a token looks wrong.
#[derive(Clone, Copy, Debug, PartialEq, Eq)]
pub enum Doubt {
    /// The token before it is at the same generated position, and has another original position or
    /// another name.
    TwoOriginals,
    /// The text of its source has no such line.
    PastSource,
    /// Its original line has fewer columns.
    PastLine,
    /// Its original column is in the middle of a surrogate pair.
    WithinPair,
    /// Its name does not stand at its original position.
    OtherName,
}

/// The doubts, in the order of their codes.
pub const DOUBTS: [Doubt; 5] = [
    Doubt::TwoOriginals,
    Doubt::PastSource,
    Doubt::PastLine,
    Doubt::WithinPair,
    Doubt::OtherName,
];

/// So many bytes of a name are compared.
pub const NAME_BYTES: usize = 1024;

/// The first tokens that look wrong in a way, and how many there are.
#[derive(Drop)]
pub struct Places {
    /// The indexes of the first tokens, in order of generated position.
    pub first: Vec<usize>,
    /// How many tokens there are.
    pub count: usize,
}

fn has_two_originals(before: Option<RawToken>, token: RawToken) -> bool
    ensures { result ≡ has_two_originals before token }
{
    match before {
        Some(other) => are_at_one_position(other, token) && !have_one_original(other, token),
        None => false,
    }
}

fn are_at_one_position(a: RawToken, b: RawToken) -> bool
    ensures { result ≡ are_at_one_position a b }
{
    a.dst_line == b.dst_line && a.dst_col == b.dst_col
}

fn have_one_original(a: RawToken, b: RawToken) -> bool
    ensures { result ≡ have_one_original a b }
{
    let same_source = a.src_id == b.src_id;
    let same_line = a.src_line == b.src_line;
    let same_column = a.src_col == b.src_col;
    let same_name = a.name_id == b.name_id;
    same_source & same_line & same_column & same_name
}

fn is_past_source(map: &SourceMap, files: Option<&[Option<SourceView>]>, token: RawToken) -> bool
    ensures { result ≡ is_past_source map.now (option_copied files.entry) token }
{
    match source_text(map, files, token.src_id) {
        Some(view) => view.get_line(token.src_line).is_none(),
        None => false,
    }
}

// The line of its source that the original position is on.
pub(crate) fn original_line<'text>(
    map: &'text SourceMap,
    files: Option<&'text [Option<SourceView>]>,
    token: RawToken,
) -> Option<&'text str>
    ensures { option_map (λ line. line.now) result
        ≡ original_line map.now (option_copied files.entry) token }
{
    source_text(map, files, token.src_id)?.get_line(token.src_line)
}

fn is_past_line(line: &str, from: LineOffset, column: u32) -> bool
    requires { IsOffset line.now from.offset from.units }
    ensures { result ≡ is_past_line line.now column }
{
    find_near(line, from, u64::from(column)).is_none()
}

fn splits_pair(line: &str, from: LineOffset, column: u32) -> bool
    requires { IsOffset line.now from.offset from.units }
    ensures { result ≡ splits_pair line.now column }
{
    match find_near(line, from, u64::from(column)) {
        Some(at) => at.units > u64::from(column),
        None => false,
    }
}

// Whether a text stands in a line at a column, which is looked for from an offset of the line.
pub(crate) fn stands_at(line: &str, from: LineOffset, column: u32, text: &[u8]) -> bool
    requires { IsOffset line.now from.offset from.units }
    ensures { result ≡ stands_at line.now column text.now }
{
    match find_near(line, from, u64::from(column)) {
        Some(at) => {
            let rest = &line[at.offset..];
            rest.as_bytes().starts_with(text)
        }
        None => false,
    }
}

// The first bytes of a text, at most so many.
pub(crate) fn first_bytes(text: &[u8], most: usize) -> &[u8]
    ensures { result.now ≡ take most text.now }
{
    &text[..most.min(text.len())]
}

fn has_other_name(map: &SourceMap, line: &str, from: LineOffset, token: RawToken) -> bool
    requires { IsOffset line.now from.offset from.units }
    ensures { result ≡ has_other_name map.now line.now token }
{
    match map.get_name(token.name_id) {
        Some(name) => {
            let name = first_bytes(name.as_bytes(), NAME_BYTES);
            !stands_at(line, from, token.src_col, name)
        }
        None => false,
    }
}

// Whether a token looks wrong in a way that its original line shows. Reads the line from `from`.
fn looks_wrong_in_line(
    map: &SourceMap,
    doubt: Doubt,
    line: &str,
    from: LineOffset,
    token: RawToken,
) -> bool
    requires { IsOffset line.now from.offset from.units }
    ensures { result ≡ looks_wrong_in_line doubt map.now line.now token }
{
    match doubt {
        Doubt::TwoOriginals | Doubt::PastSource => false,
        Doubt::PastLine => is_past_line(line, from, token.src_col),
        Doubt::WithinPair => splits_pair(line, from, token.src_col),
        Doubt::OtherName => has_other_name(map, line, from, token),
    }
}

// Whether a token looks wrong. `before` is the token before it.
fn looks_wrong(
    map: &SourceMap,
    files: Option<&[Option<SourceView>]>,
    checkpoints: &[Checkpoint],
    doubt: Doubt,
    before: Option<RawToken>,
    token: RawToken,
) -> bool
    requires { AreCheckpoints map.now (option_copied files) checkpoints.now }
    ensures { result ≡ looks_wrong doubt map.now (option_copied files.entry) before token }
{
    match doubt {
        Doubt::TwoOriginals => has_two_originals(before, token),
        Doubt::PastSource => is_past_source(map, files, token),
        Doubt::PastLine | Doubt::WithinPair | Doubt::OtherName => {
            match original_line(map, files, token) {
                Some(line) => {
                    let from = start_near(checkpoints, token);
                    looks_wrong_in_line(map, doubt, line, from, token)
                }
                None => false,
            }
        }
    }
}

// Counts an index if its test holds. It is kept if fewer than `most` are.
pub(crate) fn add_place(places: &mut Places, most: usize, index: usize, holds: bool) -> Result<()>
    requires few { places.old.count ≤ index }
    requires small { index + 1 < 2 ^ 64 }
    ensures added { (all : List ℕ) → ArePlaces most all places.old
        → OnOk result (ArePlaces most (all ++ cond holds (index ∷ []) []) places.new) }
    ensures few { OnOk result (places.new.count ≤ index + 1) }
    ensures memory { IfErr result (λ e. e ≡ OutOfMemory) }
{
    if !holds {
        return Ok(());
    }
    if places.count < most {
        places.first.push(index)?;
    }
    places.count += 1;
    Ok(())
}

/// The tokens that look wrong in a way: the indexes of the first `most`, in order of generated
/// position, and how many there are. If `files` are given, the text of a source without contents is
/// that of its file: there is one for each source, `None` where there is no file, or none that is a
/// text. The only error is `OutOfMemory`.
pub fn doubtful_tokens(
    alloc: Global,
    map: &SourceMap,
    files: Option<&[Option<SourceView>]>,
    doubt: Doubt,
    most: usize,
) -> Result<Places>
    ensures places { IfOk result (λ places. ArePlaces most
        (marked (is_doubtful doubt map.now (option_copied files.entry)) (length map.now.tokens))
        places) }
    ensures memory { IfErr result (λ e. e ≡ OutOfMemory) }
{
    let mut places = Places {
        first: Vec::new(alloc),
        count: 0,
    };
    let checkpoints = checkpoints(alloc, map, files)?;
    let mut before = None;
    let mut index = 0;
    while let Some(token) = map.get_token(index) {
        let raw = token.get_raw_token();
        let holds = looks_wrong(map, files, checkpoints.as_slice(), doubt, before, raw);
        add_place(&mut places, most, token.get_index(), holds)?;
        before = Some(raw);
        index += 1;
    }
    Ok(places)
}

/// A law about the lists that `doubtful_tokens` and `doubtful_positions` are the start of: they have
/// each index below the count at which the test holds, and no other. So a list that was not cut off
/// has every token that looks wrong.
pub fn all_places_are_marked()
    ensures { (test : ℕ → Bool) (count index : ℕ)
        → Contains (marked test count) index ↔ ((index < count) × (test index ≡ true)) }
{}
