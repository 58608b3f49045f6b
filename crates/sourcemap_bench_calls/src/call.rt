//! The measured calls, and the word of the command line for each. If a call other than `relative`
//! reads the first line of the input separately, this line must end with `\n`. A line counts as 0
//! if a number is expected and the line is not a number below 2^32.

use sourcemap::Result;
use std::alloc::Global;

/// A measured call. The comment of a variant begins with the word that selects the call. The last
/// four variants are groups of calls, without a word of their own.
#[derive(Clone, Copy)]
pub enum Call {
    /// `walk`: `SourceView::rev_token_iter` from the last token of a map. The map is on the first
    /// line of the input. The view is of the text after that line.
    Walk,
    /// `view`: `SourceView::new` of a text, and all lines of the view.
    View,
    /// `slices`: `SourceView::get_line_slice` of each line.
    Slices,
    /// `locate`: `locate_sourcemap_reference_slice`.
    Locate,
    /// `locate-reader`: `locate_sourcemap_reference`.
    LocateReader,
    /// `locate-view`: `SourceView::sourcemap_reference`.
    LocateView,
    /// `resolve`: locates the reference in a slice, and resolves the reference against a fixed URL.
    Resolve,
    /// `resolve-path`: locates the reference in a slice, and resolves the reference against a fixed
    /// path.
    ResolvePath,
    /// `data-url`: `decode_data_url`.
    DataUrl,
    /// `embedded`: `SourceMapRef::get_embedded_sourcemap`.
    Embedded,
    /// `detect`: `is_sourcemap_slice`.
    Detect,
    /// `detect-reader`: `is_sourcemap`.
    DetectReader,
    /// `relative`: `make_relative_path`. The base is the first line, the target is the text after
    /// that line. Without a `\n`, both are the whole input.
    Relative,
    /// `prefix`: `find_common_prefix` of all lines.
    Prefix,
    /// `vlq`: `parse_vlq_segment`, and `generate_vlq_segment` of the parsed numbers.
    Vlq,
    /// `identifier`: `get_javascript_token`.
    Identifier,
    /// `intern`: `Interner::add` of each line.
    Intern,
    /// `bundle`: all modules of an indexed RAM bundle.
    Bundle,
    /// `bundle-path`: all modules of the RAM bundle at a path. The path leads to an indexed bundle
    /// or to the startup code of a file bundle.
    BundlePath,
    /// `scopes`: `SourceMapHermes::get_scope_for_token` of each token.
    Scopes,
    /// `bytecode-names`: `SourceMapHermes::get_original_function_name` of the generated column of
    /// each token.
    BytecodeNames,
    /// A call on a builder.
    Builder(BuilderCall),
    /// A call on an index map.
    Index(IndexCall),
    /// A call on a whole map.
    Map(MapCall),
    /// A setter of a regular map.
    Setter(Setter),
}

/// A call on a builder.
#[derive(Clone, Copy)]
pub enum BuilderCall {
    /// `builder`: `add` of a token for each line, with the line as source and as name.
    Add,
    /// `builder-raw`: `add_raw` of a token for each line. The number on the line is the generated
    /// column, the source id and the name id.
    AddRaw,
    /// `builder-tokens`: `add_token` of each token of a regular map.
    AddTokens,
    /// `builder-sources`: for each line, adds the line as a source, then calls `set_source` on that
    /// source with the same line.
    SetSources,
    /// `builder-contents`: for each line, adds the line as a source, then calls
    /// `set_source_contents` on that source with the same line.
    SetContents,
    /// `builder-file`: `set_file` of each line.
    SetFile,
    /// `builder-root`: adds each different line after the first as a source, then calls
    /// `set_source_root` with the first line.
    SetRoot,
    /// `builder-ids`: `set_debug_id` once for each line, with the debug id on the line. A line that
    /// is not a debug id clears the debug id.
    SetDebugIds,
    /// `builder-ignore`: `add_to_ignore_list` of the source id on each line.
    Ignore,
    /// `builder-load`: adds each different line as a source, then calls
    /// `load_local_source_contents`. Sources are resolved against the current folder.
    Load,
    /// `strip`: adds each different line after the first as a source, then calls `strip_prefixes`.
    /// The first line, split at each space, is the list of prefixes.
    Strip,
}

/// A call on an index map.
#[derive(Clone, Copy)]
pub enum IndexCall {
    /// `nest`: builds nested index maps, and looks up a token in the outermost map. Then that map
    /// is printed, compared with a copy, compared with the map read back from its JSON value,
    /// flattened and dropped.
    Nest,
    /// `flatten-and-rewrite`: `SourceMapIndex::flatten_and_rewrite`.
    FlattenAndRewrite,
    /// `sections`: one `SourceMapIndex::new` with a section for each line. The line is the URL of
    /// the section. If the line is a number n below 2^32, the section starts at generated line n,
    /// else at generated line 0.
    Sections,
    /// `index-file`: `SourceMapIndex::set_file` once for each line after the first, with the line
    /// as the file name. The index map is on the first line of the input.
    SetFile,
    /// `index-rows`: `adjust_sections_offset_rows` of the index map on the first line. Makes one
    /// call for each line after the first, with the number on that line.
    AdjustRows,
    /// `section-urls`: `SourceMapSection::set_url` on sections of an index map. The index map is on
    /// the first line of the input. The next lines are the URLs, one for each section, in the order
    /// of the offsets. Extra lines are ignored. Sections without a line are not changed.
    SetUrls,
    /// `section-maps`: `SourceMapSection::set_sourcemap` on sections of an index map. The index map
    /// is on the first line of the input. The next lines are the new maps, one for each section, in
    /// the order of the offsets. Extra lines are ignored. Sections without a line are not changed.
    SetMaps,
}

/// A call on a whole map.
#[derive(Clone, Copy)]
pub enum MapCall {
    /// `encode`: `encode_to`. An index map is flattened first. A Hermes map is an error.
    Encode,
    /// `encode-in-parts`: `encode_in_parts`. An index map is flattened first. A Hermes map is an
    /// error.
    EncodeInParts,
    /// `to-data-url`: `to_data_url`. An index map is flattened first. A Hermes map is an error.
    ToDataUrl,
    /// `copy`: `clone` of a map, compared with the map.
    Copy,
    /// `print`: a map as `Debug` prints it.
    Print,
    /// `value`: `DecodedMap::to_value` of a map, and `DecodedMap::from_value` of the JSON value.
    /// The map that `from_value` returns is compared with the map that was converted.
    Value,
    /// `rewrite-strip`: one `rewrite` of the regular map on the first line. The lines after the
    /// first are the prefixes to strip from sources.
    RewriteStripping,
    /// `rewrite-load`: `rewrite` of a regular map, with `load_local_source_contents`. Sources are
    /// resolved against `sourceRoot`, then against the current folder.
    RewriteLoading,
}

/// A setter of a regular map. The map is on the first line of the input.
#[derive(Clone, Copy)]
pub enum Setter {
    /// `set-root`: `set_source_root` to the text after the first line.
    Root,
    /// `set-sources`: `set_source` on the sources, in order. Each line after the first is the new
    /// text of one source. Extra lines are ignored. Sources without a line are not changed.
    Sources,
    /// `set-contents`: `set_source_contents` on the sources, in order. Each line after the first is
    /// the contents of one source. Extra lines are ignored. Sources without a line are not changed.
    Contents,
    /// `set-file`: `set_file` to each line after the first.
    File,
    /// `ignore`: `add_to_ignore_list` of the source id on each line after the first.
    Ignore,
}

static WORDS: [(&str, Call); 52] = [
    ("walk", Call::Walk),
    ("view", Call::View),
    ("slices", Call::Slices),
    ("locate", Call::Locate),
    ("locate-reader", Call::LocateReader),
    ("locate-view", Call::LocateView),
    ("resolve", Call::Resolve),
    ("resolve-path", Call::ResolvePath),
    ("data-url", Call::DataUrl),
    ("embedded", Call::Embedded),
    ("detect", Call::Detect),
    ("detect-reader", Call::DetectReader),
    ("relative", Call::Relative),
    ("prefix", Call::Prefix),
    ("vlq", Call::Vlq),
    ("identifier", Call::Identifier),
    ("intern", Call::Intern),
    ("bundle", Call::Bundle),
    ("bundle-path", Call::BundlePath),
    ("scopes", Call::Scopes),
    ("bytecode-names", Call::BytecodeNames),
    ("builder", Call::Builder(BuilderCall::Add)),
    ("builder-raw", Call::Builder(BuilderCall::AddRaw)),
    ("builder-tokens", Call::Builder(BuilderCall::AddTokens)),
    ("builder-sources", Call::Builder(BuilderCall::SetSources)),
    ("builder-contents", Call::Builder(BuilderCall::SetContents)),
    ("builder-file", Call::Builder(BuilderCall::SetFile)),
    ("builder-root", Call::Builder(BuilderCall::SetRoot)),
    ("builder-ids", Call::Builder(BuilderCall::SetDebugIds)),
    ("builder-ignore", Call::Builder(BuilderCall::Ignore)),
    ("builder-load", Call::Builder(BuilderCall::Load)),
    ("strip", Call::Builder(BuilderCall::Strip)),
    ("nest", Call::Index(IndexCall::Nest)),
    (
        "flatten-and-rewrite",
        Call::Index(IndexCall::FlattenAndRewrite),
    ),
    ("sections", Call::Index(IndexCall::Sections)),
    ("index-file", Call::Index(IndexCall::SetFile)),
    ("index-rows", Call::Index(IndexCall::AdjustRows)),
    ("section-urls", Call::Index(IndexCall::SetUrls)),
    ("section-maps", Call::Index(IndexCall::SetMaps)),
    ("encode", Call::Map(MapCall::Encode)),
    ("encode-in-parts", Call::Map(MapCall::EncodeInParts)),
    ("to-data-url", Call::Map(MapCall::ToDataUrl)),
    ("copy", Call::Map(MapCall::Copy)),
    ("print", Call::Map(MapCall::Print)),
    ("value", Call::Map(MapCall::Value)),
    ("rewrite-strip", Call::Map(MapCall::RewriteStripping)),
    ("rewrite-load", Call::Map(MapCall::RewriteLoading)),
    ("set-root", Call::Setter(Setter::Root)),
    ("set-sources", Call::Setter(Setter::Sources)),
    ("set-contents", Call::Setter(Setter::Contents)),
    ("set-file", Call::Setter(Setter::File)),
    ("ignore", Call::Setter(Setter::Ignore)),
];

/// Returns the call that the word selects. `None` if there is not exactly one word, or if the word
/// is unknown.
pub fn parse_words(words: &[String]) -> Option<Call> {
    let [given] = words else {
        return None;
    };
    for (word, call) in WORDS.iter() {
        if *word == given.as_str() {
            return Some(*call);
        }
    }
    None
}

/// The words of all calls, each after a space.
pub fn list_words(alloc: Global) -> Result<String> {
    let mut list = String::new(alloc);
    for (word, _) in WORDS.iter() {
        list.push_str(" ")?;
        list.push_str(word)?;
    }
    Ok(list)
}
