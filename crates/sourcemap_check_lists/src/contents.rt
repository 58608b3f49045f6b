//! Contents beside the files that they are of.
ghost use Rattle.std.specs.Prelude.{◌≡◌, IfErr, IfOk, length};
ghost use Rattle.std.specs.Option.{option_copied};
ghost use Rattle.sourcemap_errors.specs.declared.errors.Error.TheVariants.{OutOfMemory};
ghost use Rattle.sourcemap_tokens.specs.Items.{item_at};
ghost use Rattle.sourcemap_check_texts.specs.Doubts.{ArePlaces, marked};
ghost use Rattle.sourcemap_check_lists.specs.Contents.{contents_doubt, has_contents_doubt, is_doubt};
ghost use Rattle.sourcemap_check_lists.specs.Marks.{AreMarks};

use crate::marks::marked_places;
use sourcemap_check_texts::tokens::Places;
use sourcemap_errors::errors::Result;
use sourcemap_map_regular::map::SourceMap;
use sourcemap_source_views::sourceview::SourceView;
use std::alloc::Global;

/// Why the contents of a source look wrong beside its file.
#[derive(Clone, Copy, Debug, PartialEq, Eq)]
pub enum ContentsDoubt {
    /// The map has other contents for the source than the file.
    OtherContents,
    /// The map has no contents for the source, and there is no file.
    NoContents,
}

/// What looks wrong about a source. `contents` are those that the map has for it, `file` is the text
/// of its file.
pub fn contents_doubt(contents: Option<&str>, file: Option<&str>) -> Option<ContentsDoubt>
    ensures { result ≡ contents_doubt (option_copied contents.entry) (option_copied file.entry) }
{
    match (contents, file) {
        (Some(contents), Some(file)) if contents != file => Some(ContentsDoubt::OtherContents),
        (None, None) => Some(ContentsDoubt::NoContents),
        _ => None,
    }
}

fn is_doubt(doubt: ContentsDoubt, found: Option<ContentsDoubt>) -> bool
    ensures { result ≡ is_doubt doubt found }
{
    match (doubt, found) {
        (ContentsDoubt::OtherContents, Some(ContentsDoubt::OtherContents)) => true,
        (ContentsDoubt::NoContents, Some(ContentsDoubt::NoContents)) => true,
        _ => false,
    }
}

// The text of the file of the source with this id.
fn file_at(files: &[Option<SourceView>], id: u32) -> Option<&str>
    ensures { option_copied result ≡ item_at files.now id }
{
    match files.get(id as usize) {
        Some(Some(view)) => Some(view.source()),
        _ => None,
    }
}

fn has_doubt(map: &SourceMap, files: &[Option<SourceView>], doubt: ContentsDoubt, id: u32) -> bool
    ensures { result ≡ has_contents_doubt doubt map.now files.now id }
{
    let found = contents_doubt(map.get_source_contents(id), file_at(files, id));
    is_doubt(doubt, found)
}

// For each source, whether it looks wrong.
fn contents_marks(
    alloc: Global,
    map: &SourceMap,
    files: &[Option<SourceView>],
    doubt: ContentsDoubt,
) -> Result<Vec<bool>>
    ensures marks { IfOk result (AreMarks (has_contents_doubt doubt map.now files.now)
        (length map.now.sources)) }
    ensures memory { IfErr result (λ e. e ≡ OutOfMemory) }
{
    let count = map.get_source_count();
    let mut marks = Vec::with_capacity(alloc, count as usize)?;
    for id in 0..count {
        marks.push(has_doubt(map, files, doubt, id))?;
    }
    Ok(marks)
}

/// The sources that look wrong beside their files in a way: the indexes of the first `most`, and how
/// many there are. `files` has the text of the file of each source, `None` where there is no file, or
/// none that is a text. The only error is `OutOfMemory`.
pub fn doubtful_contents(
    alloc: Global,
    map: &SourceMap,
    files: &[Option<SourceView>],
    doubt: ContentsDoubt,
    most: usize,
) -> Result<Places>
    ensures places { IfOk result (ArePlaces most
        (marked (has_contents_doubt doubt map.now files.now) (length map.now.sources))) }
    ensures memory { IfErr result (λ e. e ≡ OutOfMemory) }
{
    let marks = contents_marks(alloc, map, files, doubt)?;
    // prover: `?` on its own line
    let places = marked_places(alloc, marks.as_slice(), most)?;
    Ok(places)
}
