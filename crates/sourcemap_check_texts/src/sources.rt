//! The texts of the sources of a map.
ghost use Rattle.std.specs.Prelude.{◌≡◌};
ghost use Rattle.std.specs.Option.{option_copied};
ghost use Rattle.sourcemap_check_texts.specs.Sources.{file_of, source_text};

use sourcemap_map_regular::map::SourceMap;
use sourcemap_source_views::sourceview::SourceView;

fn file_of(files: Option<&[Option<SourceView>]>, id: u32) -> Option<&SourceView>
    ensures { option_copied result ≡ file_of (option_copied files.entry) id }
{
    match files?.get(id as usize) {
        Some(Some(view)) => Some(view),
        _ => None,
    }
}

// The text of the source with this id: the contents that the map has for it, otherwise its file.
pub(crate) fn source_text<'text>(
    map: &'text SourceMap,
    files: Option<&'text [Option<SourceView>]>,
    id: u32,
) -> Option<&'text SourceView>
    ensures { option_copied result ≡ source_text map.now (option_copied files.entry) id }
{
    match map.get_source_view(id) {
        Some(contents) => Some(contents),
        None => file_of(files, id),
    }
}
