//! The rules of ECMA-426, and their codes.
ghost use Rattle.std.specs.Prelude.{◌≡◌, ◌<◌};
ghost use Rattle.sourcemap_check_report.specs.Numbers.{map_number, section_number, segment_number, number_of};

/// A rule on the keys of a map.
#[derive(Clone, Copy, Debug, PartialEq, Eq)]
pub enum MapRule {
    /// There is no `version`.
    VersionMissing,
    /// `version` is no number.
    VersionType,
    /// `version` is a number, but not 3.
    VersionValue,
    /// `file` is no text.
    FileType,
    /// `sourceRoot` is no text.
    SourceRootType,
    /// There is no `sources`.
    SourcesMissing,
    /// `sources` is no list of texts and nulls.
    SourcesType,
    /// `sourcesContent` is no list of texts and nulls.
    SourcesContentType,
    /// `names` is no list of texts.
    NamesType,
    /// `ignoreList` is no list of whole numbers.
    IgnoreListType,
    /// `ignoreList` has a number below 0.
    IgnoreListBelowZero,
    /// `ignoreList` has a number that is not below the number of sources.
    IgnoreListPastSources,
    /// There is no `mappings`.
    MappingsMissing,
    /// `mappings` is no text.
    MappingsType,
    /// An index map has `mappings`.
    MappingsInIndex,
    /// `sections` is no list.
    SectionsType,
}

/// The rules on the keys of a map, in the order in which findings are reported.
pub const MAP_RULES: [MapRule; 16] = [
    MapRule::VersionMissing,
    MapRule::VersionType,
    MapRule::VersionValue,
    MapRule::FileType,
    MapRule::SourceRootType,
    MapRule::SourcesMissing,
    MapRule::SourcesType,
    MapRule::SourcesContentType,
    MapRule::NamesType,
    MapRule::IgnoreListType,
    MapRule::IgnoreListBelowZero,
    MapRule::IgnoreListPastSources,
    MapRule::MappingsMissing,
    MapRule::MappingsType,
    MapRule::MappingsInIndex,
    MapRule::SectionsType,
];

/// A rule on a section of an index map.
#[derive(Clone, Copy, Debug, PartialEq, Eq)]
pub enum SectionRule {
    /// The section is no object.
    SectionType,
    /// There is no `offset`.
    OffsetMissing,
    /// `offset` is no object.
    OffsetType,
    /// The offset has no `line`.
    LineMissing,
    /// The `line` of the offset is no whole number, or below 0.
    LineType,
    /// The offset has no `column`.
    ColumnMissing,
    /// The `column` of the offset is no whole number, or below 0.
    ColumnType,
    /// There is no `map`.
    MapMissing,
    /// `map` is no object.
    MapType,
}

/// The rules on a section, in the order in which findings are reported.
pub const SECTION_RULES: [SectionRule; 9] = [
    SectionRule::SectionType,
    SectionRule::OffsetMissing,
    SectionRule::OffsetType,
    SectionRule::LineMissing,
    SectionRule::LineType,
    SectionRule::ColumnMissing,
    SectionRule::ColumnType,
    SectionRule::MapMissing,
    SectionRule::MapType,
];

/// A rule on a segment of `mappings`.
#[derive(Clone, Copy, Debug, PartialEq, Eq)]
pub enum SegmentRule {
    /// A byte is no digit of base64.
    ForeignByte,
    /// The segment ends within a number.
    CutNumber,
    /// The segment does not have 1, 4 or 5 numbers.
    FieldCount,
    /// A number does not fit 32 bits.
    LargeNumber,
    /// The generated column is below 0.
    ColumnBelowZero,
    /// The index of the source is below 0.
    SourceBelowZero,
    /// The original line is below 0.
    LineBelowZero,
    /// The original column is below 0.
    SourceColumnBelowZero,
    /// The index of the name is below 0.
    NameBelowZero,
    /// The map has no source with this index.
    SourcePastList,
    /// The map has no name with this index.
    NamePastList,
}

/// The rules on a segment, in the order in which findings are reported.
pub const SEGMENT_RULES: [SegmentRule; 11] = [
    SegmentRule::ForeignByte,
    SegmentRule::CutNumber,
    SegmentRule::FieldCount,
    SegmentRule::LargeNumber,
    SegmentRule::ColumnBelowZero,
    SegmentRule::SourceBelowZero,
    SegmentRule::LineBelowZero,
    SegmentRule::SourceColumnBelowZero,
    SegmentRule::NameBelowZero,
    SegmentRule::SourcePastList,
    SegmentRule::NamePastList,
];

/// A rule.
#[derive(Clone, Copy, Debug, PartialEq, Eq)]
pub enum Rule {
    /// The bytes are no JSON text.
    NotJson,
    /// The JSON value is no object.
    NotObject,
    /// A rule on the keys of a map.
    Map(MapRule),
    /// A section starts before the one before it.
    OutOfOrder,
    /// A section starts where the one before it starts, or before a position in it.
    Overlap,
    /// A rule on a section.
    Section(SectionRule),
    /// A rule on a segment.
    Segment(SegmentRule),
}

fn map_number(rule: MapRule) -> usize
    ensures number { result ≡ map_number rule }
    ensures small { result < 41 }
{
    match rule {
        MapRule::VersionMissing => 2,
        MapRule::VersionType => 3,
        MapRule::VersionValue => 4,
        MapRule::FileType => 5,
        MapRule::SourceRootType => 6,
        MapRule::SourcesMissing => 7,
        MapRule::SourcesType => 8,
        MapRule::SourcesContentType => 9,
        MapRule::NamesType => 10,
        MapRule::IgnoreListType => 11,
        MapRule::IgnoreListBelowZero => 12,
        MapRule::IgnoreListPastSources => 13,
        MapRule::MappingsMissing => 14,
        MapRule::MappingsType => 15,
        MapRule::MappingsInIndex => 16,
        MapRule::SectionsType => 17,
    }
}

fn section_number(rule: SectionRule) -> usize
    ensures number { result ≡ section_number rule }
    ensures small { result < 41 }
{
    match rule {
        SectionRule::SectionType => 20,
        SectionRule::OffsetMissing => 21,
        SectionRule::OffsetType => 22,
        SectionRule::LineMissing => 23,
        SectionRule::LineType => 24,
        SectionRule::ColumnMissing => 25,
        SectionRule::ColumnType => 26,
        SectionRule::MapMissing => 27,
        SectionRule::MapType => 28,
    }
}

fn segment_number(rule: SegmentRule) -> usize
    ensures number { result ≡ segment_number rule }
    ensures small { result < 41 }
{
    match rule {
        SegmentRule::ForeignByte => 30,
        SegmentRule::CutNumber => 31,
        SegmentRule::FieldCount => 32,
        SegmentRule::LargeNumber => 33,
        SegmentRule::ColumnBelowZero => 34,
        SegmentRule::SourceBelowZero => 35,
        SegmentRule::LineBelowZero => 36,
        SegmentRule::SourceColumnBelowZero => 37,
        SegmentRule::NameBelowZero => 38,
        SegmentRule::SourcePastList => 39,
        SegmentRule::NamePastList => 40,
    }
}

/// The number of a rule, from 0 to 40. Its code is `SM` and this number plus 101.
pub fn number_of(rule: Rule) -> usize
    ensures number { result ≡ number_of rule }
    ensures small { result < 41 }
{
    match rule {
        Rule::NotJson => 0,
        Rule::NotObject => 1,
        Rule::Map(rule) => map_number(rule),
        Rule::OutOfOrder => 18,
        Rule::Overlap => 19,
        Rule::Section(rule) => section_number(rule),
        Rule::Segment(rule) => segment_number(rule),
    }
}
