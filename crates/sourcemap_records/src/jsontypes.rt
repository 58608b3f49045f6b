//! Source map records, key by key, read from JSON values and written as JSON values.
use crate::copy::copy_map;
use crate::field::{Field, has, number_at};
use crate::from_json::read_map;
use crate::levels::RecordLevel;
use crate::to_json::write_map;
use serde_json::Value;
use sourcemap_errors::errors::{Error, JsonFault, Result};
pub use sourcemap_headers::debug_id::DebugId;
use sourcemap_json_read::kept::kept_copy;
use std::alloc::Global;

/// The generated position at which a section of an index map starts. Lines and columns count from
/// 0, columns in UTF-16 code units.
#[derive(Clone, Copy, Debug, PartialEq)]
pub struct RawSectionOffset {
    /// The line.
    pub line: u32,
    /// The column.
    pub column: u32,
}

/// The function scopes of one source.
#[derive(Debug, PartialEq, Drop)]
pub struct FacebookScopeMapping {
    /// The names of the functions.
    pub names: Vec<String>,
    /// Where the functions start, in base64 VLQ. A segment holds a column, a name index and a line,
    /// each as the difference from the previous segment. The first segment is relative to column 0,
    /// name index 0 and line 1. Commas separate segments, and semicolons separate groups of
    /// segments. Each group starts again at column 0.
    pub mappings: String,
}

/// For each source, in order, a list of `FacebookScopeMapping`, or `None`. The functions of a
/// source come from the first item of its list. All items are read, written, copied and compared.
pub type FacebookSources = Option<Vec<Option<Vec<FacebookScopeMapping>>>>;

/// A section of an index map, as in JSON.
#[derive(Debug, PartialEq, Drop)]
#[cycle(records)]
pub struct RawSection {
    /// The generated position at which the section starts.
    pub offset: RawSectionOffset,
    /// The URL of the section's map.
    pub url: Option<String>,
    /// The section's map.
    pub map: Option<Box<RawSourceMap>>,
}

/// A source map, as in JSON. A key that is missing or null is `None`.
#[derive(Debug, PartialEq, Drop)]
#[cycle(records)]
pub struct RawSourceMap {
    /// The version of the format. Any `u32` is accepted here.
    pub version: Option<u32>,
    /// A JSON string here is the name of the generated file. Any other value is kept and written
    /// unchanged. A JSON null that a caller puts here is read back as `None`.
    pub file: Option<Value>,
    /// The sources, not yet resolved against `source_root`. A null in the list is a `None` item.
    pub sources: Option<Vec<Option<String>>>,
    /// The prefix that resolving puts before a source. A `/` follows the prefix if the prefix does
    /// not end with `/`. A source that begins with `/`, `http:` or `https:` is not changed, and an
    /// empty prefix changes no source.
    pub source_root: Option<String>,
    /// The contents of each source, in the order of the sources. The item of a source without
    /// contents is `None`.
    pub sources_content: Option<Vec<Option<String>>>,
    /// The sections of an index map.
    pub sections: Option<Vec<RawSection>>,
    /// The names, as JSON values. Values that are not strings are kept too.
    pub names: Option<Vec<Value>>,
    /// Which tokens are range tokens, in base64 digits, line by line.
    pub range_mappings: Option<String>,
    /// The mappings, in base64 VLQ: segments separated by commas, and generated lines separated by
    /// semicolons.
    pub mappings: Option<String>,
    /// The indices of the sources that a debugger ignores.
    pub ignore_list: Option<Vec<u32>>,
    /// Item `n` is the line, counted from 0, at which module `n` of the bundle starts. It is `None`
    /// if there is no module `n`.
    pub x_facebook_offsets: Option<Vec<Option<u32>>>,
    /// The path of each module of a bundle.
    pub x_metro_module_paths: Option<Vec<String>>,
    /// The function scopes of each source.
    pub x_facebook_sources: FacebookSources,
    /// The debug id that links this map to its generated file.
    pub debug_id: Option<DebugId>,
}

/// The eight keys by which a JSON object is detected as a source map: the version, and a flag for
/// each of the other seven keys. A flag says whether its key has a value other than null.
#[derive(Clone, Copy, Debug, PartialEq)]
pub struct MinimalRawSourceMap {
    /// The version of the format, or `None` if it is missing or null.
    pub version: Option<u32>,
    /// Whether `file` is present and not null.
    pub file: bool,
    /// Whether `sources` is present and not null.
    pub sources: bool,
    /// Whether `sourceRoot` is present and not null.
    pub source_root: bool,
    /// Whether `sourcesContent` is present and not null.
    pub sources_content: bool,
    /// Whether `sections` is present and not null.
    pub sections: bool,
    /// Whether `names` is present and not null.
    pub names: bool,
    /// Whether `mappings` is present and not null.
    pub mappings: bool,
}

impl MinimalRawSourceMap {
    ghost use Rattle.std.specs.Prelude.{◌≡◌};
    ghost use Rattle.serde_json.specs.View.{view};
    ghost use Rattle.sourcemap_records.specs.Field.{due};
    ghost use Rattle.sourcemap_records.specs.Jsontypes.{minimal_of};

    /// Returns the version of `value`, and which of the other keys have a value other than null.
    /// Returns `BadJson(Shape)` if `value` is not an object, or has a version that is neither null
    /// nor a `u32`. Does not allocate.
    pub fn from_value(value: &Value) -> Result<MinimalRawSourceMap>
        ensures { result ≡ due (minimal_of (view value.now)) }
    {
        if !value.is_object() {
            return Err(Error::BadJson(JsonFault::Shape));
        }
        let version = number_at(value, "version")?;
        Ok(MinimalRawSourceMap {
            version,
            file: has(value, "file"),
            sources: has(value, "sources"),
            source_root: has(value, "sourceRoot"),
            sources_content: has(value, "sourcesContent"),
            sections: has(value, "sections"),
            names: has(value, "names"),
            mappings: has(value, "mappings"),
        })
    }
}

impl FacebookScopeMapping {
    ghost use Rattle.std.specs.Prelude.{Ok};
    ghost use Rattle.sourcemap_errors.specs.Answer.{Gives};
    ghost use Rattle.sourcemap_records.specs.Jsontypes.{scopes_view};

    /// Returns a copy. The error is `OutOfMemory`.
    pub fn clone(&self) -> Result<FacebookScopeMapping>
        ensures { Gives scopes_view result (Ok (scopes_view self.now)) }
    {
        self.duplicate(*self.names.allocator())
    }
}

impl RawSourceMap {
    ghost use Rattle.std.specs.Prelude.{◌≡◌, Some, Ok, IfOk};
    ghost use Rattle.serde_json.specs.View.{view};
    ghost use Rattle.sourcemap_errors.specs.Answer.{Gives};
    ghost use Rattle.sourcemap_records.specs.Field.{due};
    ghost use Rattle.sourcemap_records.specs.Jsontypes.{tree, record_of, written, HasNoNullFile};

    /// Returns the record of a JSON value. A null key counts as missing, unknown keys are ignored,
    /// and `debugId` wins over `debug_id`. Returns `BadJson(Shape)` if the value is not an object.
    /// Returns the same error if a key has a value of the wrong type or an invalid debug id. A
    /// number must be a `u32`, except as `file` or as an item of the record's `names`: these may be
    /// any JSON value. A section without `offset`, an offset without `line` or `column`, and scopes
    /// without `names` or `mappings` give this error too. Any other error is `OutOfMemory`. Values
    /// at unknown keys are not copied.
    pub fn from_value(alloc: Global, value: &Value) -> Result<RawSourceMap>
        ensures { Gives tree result (due (record_of (view value.now))) }
    {
        let kept = kept_copy(alloc, value, RecordLevel::Record)?;
        RawSourceMap::from_owned(alloc, kept)
    }

    /// Returns what `from_value` returns, but consumes the value and moves its strings.
    pub fn from_owned(alloc: Global, value: Value) -> Result<RawSourceMap>
        ensures { Gives tree result (due (record_of (view value))) }
    {
        read_map(alloc, value)
    }

    /// Returns the record as a JSON value, with the keys in byte order. A `None` at the key
    /// `version` or `sources`, or at the key `url` or `map` of a section, is written as null. Any
    /// other key that is `None` is left out. The value reads back as this record, with one
    /// exception: a `file` that is a JSON null, in the record or in the map of a section, reads
    /// back as `None`. The error is `OutOfMemory`.
    pub fn to_value(&self, alloc: Global) -> Result<Value>
        ensures value { Gives view result (Ok (written (tree self.now))) }
        ensures reads_back { IfOk result (λ v. HasNoNullFile (tree self.now)
            → record_of (view v) ≡ Some (tree self.now)) }
    {
        copy_map(self, alloc)?.into_value(alloc)
    }

    /// Returns what `to_value` returns, but consumes the record and moves its strings.
    pub fn into_value(self, alloc: Global) -> Result<Value>
        ensures value { Gives view result (Ok (written (tree self))) }
        ensures reads_back { IfOk result (λ v. HasNoNullFile (tree self)
            → record_of (view v) ≡ Some (tree self)) }
    {
        write_map(alloc, self)
    }
}
