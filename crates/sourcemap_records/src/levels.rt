// Which parts of JSON objects and arrays are kept, since a record or the detection of maps reads
// them.
ghost use Rattle.std.specs.Prelude.{◌≡◌};
ghost use Rattle.sourcemap_json_read.specs.Kept.{at_key};
ghost use Rattle.sourcemap_records.specs.Levels.{inner_level};
ghost use Rattle.sourcemap_records.specs.declared.levels.RecordLevel.TheVariants.{Record, Section, Offset, Scopes, Minimal};

use sourcemap_json_read::kept::Level;

// What a value is read as. Of any other array or object no part is kept.
#[derive(Clone, Copy)]
pub(crate) enum RecordLevel {
    // Any JSON value. All of it is kept.
    Whole,
    // A text, a number or null.
    Scalar,
    // An array of scalars.
    Scalars,
    Record,
    // The sections of an index map.
    Sections,
    Section,
    // The offset of a section.
    Offset,
    // The function scopes of all sources.
    AllScopes,
    // The function scopes of a source: an array, of which all items are read.
    SourceScopes,
    Scopes,
    // A record that is only detected. The keys of `MinimalRawSourceMap` are kept.
    Minimal,
}

impl Level for RecordLevel {
    ghost inside = { inner_level };

    fn enter(self, key: &str) -> Option<RecordLevel> {
        match self {
            RecordLevel::Whole => Some(RecordLevel::Whole),
            RecordLevel::Record => in_record(key),
            RecordLevel::Section => in_section(key),
            RecordLevel::Offset => in_offset(key),
            RecordLevel::Scopes => in_scopes(key),
            RecordLevel::Minimal => in_minimal(key),
            RecordLevel::Scalar
            | RecordLevel::Scalars
            | RecordLevel::Sections
            | RecordLevel::AllScopes
            | RecordLevel::SourceScopes => None,
        }
    }

    fn enter_items(self) -> Option<RecordLevel> {
        match self {
            RecordLevel::Whole => Some(RecordLevel::Whole),
            RecordLevel::Scalars => Some(RecordLevel::Scalar),
            RecordLevel::Sections => Some(RecordLevel::Section),
            RecordLevel::AllScopes => Some(RecordLevel::SourceScopes),
            RecordLevel::SourceScopes => Some(RecordLevel::Scopes),
            RecordLevel::Scalar
            | RecordLevel::Record
            | RecordLevel::Section
            | RecordLevel::Offset
            | RecordLevel::Scopes
            | RecordLevel::Minimal => None,
        }
    }
}

fn in_record(key: &str) -> Option<RecordLevel>
    ensures { result ≡ inner_level Record (at_key key.now) }
{
    match key {
        "version" | "sourceRoot" | "rangeMappings" | "mappings" | "debugId" | "debug_id" => {
            Some(RecordLevel::Scalar)
        }
        "sources"
        | "sourcesContent"
        | "ignoreList"
        | "x_facebook_offsets"
        | "x_metro_module_paths" => { Some(RecordLevel::Scalars) }
        "file" | "names" => Some(RecordLevel::Whole),
        "sections" => Some(RecordLevel::Sections),
        "x_facebook_sources" => Some(RecordLevel::AllScopes),
        _ => None,
    }
}

fn in_section(key: &str) -> Option<RecordLevel>
    ensures { result ≡ inner_level Section (at_key key.now) }
{
    match key {
        "offset" => Some(RecordLevel::Offset),
        "url" => Some(RecordLevel::Scalar),
        "map" => Some(RecordLevel::Record),
        _ => None,
    }
}

fn in_offset(key: &str) -> Option<RecordLevel>
    ensures { result ≡ inner_level Offset (at_key key.now) }
{
    match key {
        "line" | "column" => Some(RecordLevel::Scalar),
        _ => None,
    }
}

fn in_scopes(key: &str) -> Option<RecordLevel>
    ensures { result ≡ inner_level Scopes (at_key key.now) }
{
    match key {
        "names" => Some(RecordLevel::Scalars),
        "mappings" => Some(RecordLevel::Scalar),
        _ => None,
    }
}

fn in_minimal(key: &str) -> Option<RecordLevel>
    ensures { result ≡ inner_level Minimal (at_key key.now) }
{
    match key {
        "version"
        | "file"
        | "sources"
        | "sourceRoot"
        | "sourcesContent"
        | "sections"
        | "names"
        | "mappings" => Some(RecordLevel::Scalar),
        _ => None,
    }
}
