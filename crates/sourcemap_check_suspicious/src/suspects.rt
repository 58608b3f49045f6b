//! What looks wrong, in the order of codes.
ghost use Rattle.std.specs.Prelude.{◌≡◌, ◌≢◌, [], None, IfOk, IfErr, MatchResult, Ok, OnOk};
ghost use Rattle.std.specs.Option.{option_copied};
ghost use Rattle.sourcemap_errors.specs.Answer.{Gives};
ghost use Rattle.sourcemap_errors.specs.declared.errors.Error.TheVariants.{OutOfMemory};
ghost use Rattle.sourcemap_check_suspicious.specs.Reading.{AreTextDoubts, text_map_value};
ghost use Rattle.sourcemap_check_suspicious.specs.declared.suspects.Suspicion.TheVariants.{Contents, Generated, Item, OtherReference, Ranges};
ghost use Rattle.sourcemap_check_suspicious.specs.Suspects.{Adds, AreSuspects, HasNone, LooksWrong, LooksWrongOf, has_other_id, has_other_reference, is_covered, is_range_doubt, suspects_of};

use crate::adding::{add_if, add_items, add_segments, add_tokens};
use crate::reading::{TextMap, read_text_map};
use crate::shifted::{Shifted, shifts_of};
use sourcemap_check_links::links::{other_id, other_reference};
use sourcemap_check_lists::contents::{ContentsDoubt, doubtful_contents};
use sourcemap_check_lists::lists::{ListDoubt, doubtful_items};
use sourcemap_check_order::ranges::RangeDoubt;
use sourcemap_check_texts::generated::{GeneratedDoubt, doubtful_positions};
use sourcemap_check_texts::tokens::{Doubt, doubtful_tokens};
use sourcemap_errors::errors::{Error, Result};
use sourcemap_map_regular::map::SourceMap;
use sourcemap_source_views::sourceview::SourceView;
use std::alloc::Global;

/// Why something looks wrong.
#[derive(Clone, Copy, Debug, PartialEq, Eq)]
pub enum Suspicion {
    /// A token.
    Token(Doubt),
    /// An item of a list.
    Item(ListDoubt),
    /// A segment that goes back.
    SegmentBack,
    /// The text `rangeMappings`.
    Ranges(RangeDoubt),
    /// The generated text names another debug id than the map has.
    OtherDebugId,
    /// The reference of the generated text ends in another file name than that of the map's file.
    OtherReference,
    /// A source beside its file.
    Contents(ContentsDoubt),
    /// A token beside the generated text.
    Generated(GeneratedDoubt),
}

/// All of them, in the order of their codes.
pub const SUSPICIONS: [Suspicion; 20] = [
    Suspicion::Token(Doubt::TwoOriginals),
    Suspicion::Token(Doubt::PastSource),
    Suspicion::Token(Doubt::PastLine),
    Suspicion::Token(Doubt::WithinPair),
    Suspicion::Token(Doubt::OtherName),
    Suspicion::Item(ListDoubt::UnusedSource),
    Suspicion::Item(ListDoubt::UnusedName),
    Suspicion::Item(ListDoubt::EqualSource),
    Suspicion::Item(ListDoubt::MissingContents),
    Suspicion::Item(ListDoubt::RootWithoutEffect),
    Suspicion::SegmentBack,
    Suspicion::Ranges(RangeDoubt::OtherFormat),
    Suspicion::Ranges(RangeDoubt::NoFormat),
    Suspicion::OtherDebugId,
    Suspicion::OtherReference,
    Suspicion::Contents(ContentsDoubt::OtherContents),
    Suspicion::Contents(ContentsDoubt::NoContents),
    Suspicion::Generated(GeneratedDoubt::PastText),
    Suspicion::Generated(GeneratedDoubt::PastLine),
    Suspicion::Generated(GeneratedDoubt::WithinPair),
];

/// What looks wrong at one place.
#[derive(Clone, Copy, Debug, PartialEq, Eq)]
pub struct Suspect {
    /// Why.
    pub suspicion: Suspicion,
    /// The generated line of a token, or the line of a segment in `mappings`; both count from 0.
    /// Otherwise 0.
    pub line: usize,
    /// The generated column of a token, the index of a segment on its line, or the index of an item
    /// of a list; all count from 0. Otherwise 0.
    pub index: usize,
}

/// The first of each kind that look wrong, and how many do.
#[derive(Drop)]
pub struct Suspects {
    /// The first ones, in the order of codes.
    pub first: Vec<Suspect>,
    /// How many there are. The count stops at 18446744073709551615.
    pub count: u64,
}

/// What looks wrong in a map.
#[derive(Drop)]
pub struct Suspicious {
    /// At places.
    pub places: Suspects,
    /// Throughout.
    pub shifts: Vec<Shifted>,
}

#[tactic(auto, using(crate::proofs::SuspectLemmas::adds_nothing))]
fn add_generated(
    alloc: Global,
    found: &mut Suspects,
    map: &SourceMap,
    generated: Option<&SourceView>,
    doubt: GeneratedDoubt,
    most: usize,
) -> Result<()>
    ensures added { (mappings ranges name files : _) → OnOk result (Adds most
        (suspects_of (Generated doubt) (text_map_value map.now mappings ranges) (option_copied generated.entry) name
        files)
        found.old found.new) }
    ensures memory { IfErr result (λ e. e ≡ OutOfMemory) }
{
    let Some(generated) = generated else {
        return Ok(());
    };
    let places = doubtful_positions(alloc, map, generated, doubt, most)?;
    add_tokens(found, map, Suspicion::Generated(doubt), &places)
}

fn is_range_doubt(doubt: RangeDoubt, found: Option<RangeDoubt>) -> bool
    ensures { result ≡ is_range_doubt doubt found }
{
    match (doubt, found) {
        (RangeDoubt::OtherFormat, Some(RangeDoubt::OtherFormat)) => true,
        (RangeDoubt::NoFormat, Some(RangeDoubt::NoFormat)) => true,
        _ => false,
    }
}

// Files say themselves which sources have neither contents nor a file.
fn is_covered(doubt: ListDoubt, files: Option<&[Option<SourceView>]>) -> bool
    ensures { result ≡ is_covered doubt (option_copied files.entry) }
{
    match (doubt, files) {
        (ListDoubt::MissingContents, Some(_)) => true,
        _ => false,
    }
}

#[tactic(auto, using(crate::proofs::SuspectLemmas::adds_nothing))]
fn add_listed(
    alloc: Global,
    found: &mut Suspects,
    map: &SourceMap,
    files: Option<&[Option<SourceView>]>,
    doubt: ListDoubt,
    most: usize,
) -> Result<()>
    ensures added { (mappings ranges generated name : _) → OnOk result (Adds most
        (suspects_of (Item doubt) (text_map_value map.now mappings ranges) generated name (option_copied files.entry))
        found.old found.new) }
    ensures memory { IfErr result (λ e. e ≡ OutOfMemory) }
{
    if is_covered(doubt, files) {
        return Ok(());
    }
    let places = doubtful_items(alloc, map, doubt, most)?;
    add_items(found, Suspicion::Item(doubt), &places)
}

#[tactic(auto, using(crate::proofs::SuspectLemmas::adds_nothing))]
fn add_contents(
    alloc: Global,
    found: &mut Suspects,
    map: &SourceMap,
    files: Option<&[Option<SourceView>]>,
    doubt: ContentsDoubt,
    most: usize,
) -> Result<()>
    ensures added { (mappings ranges generated name : _) → OnOk result (Adds most
        (suspects_of (Contents doubt) (text_map_value map.now mappings ranges) generated name
        (option_copied files.entry))
        found.old found.new) }
    ensures memory { IfErr result (λ e. e ≡ OutOfMemory) }
{
    let Some(files) = files else {
        return Ok(());
    };
    let places = doubtful_contents(alloc, map, files, doubt, most)?;
    add_items(found, Suspicion::Contents(doubt), &places)
}

fn has_other_id(map: &SourceMap, generated: Option<&SourceView>) -> bool
    ensures { result ≡ has_other_id map.now (option_copied generated.entry) }
{
    let Some(own) = map.get_debug_id() else {
        return false;
    };
    let Some(text) = generated else {
        return false;
    };
    other_id(text.source(), own).is_some()
}

fn has_other_reference(
    alloc: Global,
    generated: Option<&SourceView>,
    name: Option<&str>,
) -> Result<bool>
    ensures { Gives (λ other. other) result
        (Ok (has_other_reference (option_copied generated.entry) (option_copied name.entry))) }
{
    let Some(text) = generated else {
        return Ok(false);
    };
    let Some(own) = name else {
        return Ok(false);
    };
    let found = other_reference(alloc, text.source(), own)?;
    Ok(found.is_some())
}

fn add_reference(
    alloc: Global,
    found: &mut Suspects,
    generated: Option<&SourceView>,
    name: Option<&str>,
    most: usize,
) -> Result<()>
    ensures added { (map files : _) → OnOk result (Adds most
        (suspects_of OtherReference map (option_copied generated.entry) (option_copied name.entry)
        files) found.old found.new) }
    ensures memory { IfErr result (λ e. e ≡ OutOfMemory) }
{
    let is_other = has_other_reference(alloc, generated, name)?;
    add_if(found, Suspicion::OtherReference, is_other, most)
}

fn add_all(
    alloc: Global,
    found: &mut Suspects,
    map: &TextMap,
    generated: Option<&SourceView>,
    name: Option<&str>,
    files: Option<&[Option<SourceView>]>,
    suspicion: Suspicion,
    most: usize,
) -> Result<()>
    ensures added { (mappings ranges : _) → AreTextDoubts most mappings ranges map.now.doubts
        → OnOk result (Adds most
        (suspects_of suspicion (text_map_value map.now.map mappings ranges)
        (option_copied generated.entry) (option_copied name.entry) (option_copied files.entry))
        found.old found.new) }
    ensures memory { IfErr result (λ e. e ≡ OutOfMemory) }
{
    match suspicion {
        Suspicion::Token(doubt) => {
            let places = doubtful_tokens(alloc, &map.map, files, doubt, most)?;
            add_tokens(found, &map.map, suspicion, &places)
        }
        Suspicion::Item(doubt) => add_listed(alloc, found, &map.map, files, doubt, most),
        Suspicion::SegmentBack => add_segments(found, &map.doubts.back),
        Suspicion::Ranges(doubt) => {
            let holds = is_range_doubt(doubt, map.doubts.ranges);
            add_if(found, suspicion, holds, most)
        }
        Suspicion::OtherDebugId => {
            add_if(found, suspicion, has_other_id(&map.map, generated), most)
        }
        Suspicion::OtherReference => add_reference(alloc, found, generated, name, most),
        Suspicion::Contents(doubt) => add_contents(alloc, found, &map.map, files, doubt, most),
        Suspicion::Generated(doubt) => {
            add_generated(alloc, found, &map.map, generated, doubt, most)
        }
    }
}

/// What looks wrong in a map, and with a generated text and the files of its sources also beside
/// them: the first `most` of each kind, in the order of codes, and how many there are of all kinds.
/// `name` is that of the map's file, for the reference of the generated text. The original positions
/// in a source without contents are looked at beside its file. `map` is read with the same `most`. The
/// only error is `OutOfMemory`.
pub fn suspects_in(
    alloc: Global,
    map: &TextMap,
    generated: Option<&SourceView>,
    name: Option<&str>,
    files: Option<&[Option<SourceView>]>,
    most: usize,
) -> Result<Suspects>
    ensures suspects { (mappings ranges : _) → AreTextDoubts most mappings ranges map.now.doubts
        → IfOk result (AreSuspects most (text_map_value map.now.map mappings ranges)
        (option_copied generated.entry) (option_copied name.entry) (option_copied files.entry)) }
    ensures memory { IfErr result (λ e. e ≡ OutOfMemory) }
{
    let mut found = no_suspects(alloc);
    for suspicion in SUSPICIONS {
        add_all(
            alloc, &mut found, map, generated, name, files, suspicion, most,
        )?;
    }
    Ok(found)
}

fn no_suspects(alloc: Global) -> Suspects
    ensures first { result.first.items ≡ [] }
    ensures count { result.count ≡ 0 }
{
    Suspects {
        first: Vec::new(alloc),
        count: 0,
    }
}

/// Nothing that looks wrong.
pub fn nothing(alloc: Global) -> Suspicious
    ensures { HasNone result }
{
    Suspicious {
        places: no_suspects(alloc),
        shifts: Vec::new(alloc),
    }
}

fn look_at(
    alloc: Global,
    map: &TextMap,
    generated: Option<&SourceView>,
    name: Option<&str>,
    files: Option<&[Option<SourceView>]>,
    most: usize,
) -> Result<Suspicious>
    ensures wrong { (mappings ranges : _) → AreTextDoubts most mappings ranges map.now.doubts
        → IfOk result (LooksWrong most (text_map_value map.now.map mappings ranges)
        (option_copied generated.entry) (option_copied name.entry) (option_copied files.entry)) }
    ensures memory { IfErr result (λ e. e ≡ OutOfMemory) }
{
    let places = suspects_in(alloc, map, generated, name, files, most)?;
    let shifts = shifts_of(alloc, &map.map, generated, files)?;
    Ok(Suspicious { places, shifts })
}

// Nothing that looks wrong, after another error than want of memory.
fn nothing_after(alloc: Global, error: &Error) -> Result<Suspicious>
    ensures { MatchResult result
        (λ found. (error.now ≢ OutOfMemory) × HasNone found)
        (λ e. e ≡ OutOfMemory) }
{
    match error {
        Error::OutOfMemory => Err(Error::OutOfMemory),
        _ => Ok(nothing(alloc)),
    }
}

/// What looks wrong in the map that bytes decode to: in the map itself, beside a generated text if
/// one is given, and beside the files of its sources if they are given. `name` is that of the map's
/// file, if it is known: the reference of the generated text is to end in it. Of files there is one
/// for each source; `None` is a source without a file, or with one that is no text. The file stands
/// for contents that the map lacks. An index map is looked at as its flat map, which also has the
/// sources. Nothing looks wrong in bytes that `read_text_map` does not decode. The only error is
/// `OutOfMemory`.
pub fn suspicious_beside(
    alloc: Global,
    bytes: &[u8],
    generated: Option<&SourceView>,
    name: Option<&str>,
    files: Option<&[Option<SourceView>]>,
    most: usize,
) -> Result<Suspicious>
    ensures wrong { IfOk result
        (LooksWrongOf most bytes.now (option_copied generated.entry)
        (option_copied name.entry) (option_copied files.entry)) }
    ensures memory { IfErr result (λ e. e ≡ OutOfMemory) }
{
    match read_text_map(alloc, bytes, most) {
        Ok(map) => look_at(alloc, &map, generated, name, files, most),
        Err(error) => nothing_after(alloc, &error),
    }
}

/// As `suspicious_beside`, without a name and files.
pub fn suspicious_in_bytes(
    alloc: Global,
    bytes: &[u8],
    generated: Option<&SourceView>,
    most: usize,
) -> Result<Suspicious>
    ensures wrong { IfOk result (LooksWrongOf most bytes.now (option_copied generated.entry)
        None None) }
    ensures memory { IfErr result (λ e. e ≡ OutOfMemory) }
{
    suspicious_beside(alloc, bytes, generated, None, None, most)
}
