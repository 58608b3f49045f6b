//! The key and the sentence of each rule.
ghost use Rattle.std.specs.Prelude.{◌≡◌};
ghost use Rattle.sourcemap_check_print.specs.Words.{map_key, map_sentence, section_key, section_sentence, segment_sentence, sentence};

use sourcemap_check_report::rules::{MapRule, Rule, SectionRule, SegmentRule};

/// The key of a map that the rule is on.
pub(crate) fn map_key(rule: MapRule) -> &'static str
    ensures { result.now ≡ map_key rule }
{
    match rule {
        MapRule::VersionMissing => "version",
        MapRule::VersionType => "version",
        MapRule::VersionValue => "version",
        MapRule::FileType => "file",
        MapRule::SourceRootType => "sourceRoot",
        MapRule::SourcesMissing => "sources",
        MapRule::SourcesType => "sources",
        MapRule::SourcesContentType => "sourcesContent",
        MapRule::NamesType => "names",
        MapRule::IgnoreListType => "ignoreList",
        MapRule::IgnoreListBelowZero => "ignoreList",
        MapRule::IgnoreListPastSources => "ignoreList",
        MapRule::MappingsMissing => "mappings",
        MapRule::MappingsType => "mappings",
        MapRule::MappingsInIndex => "mappings",
        MapRule::SectionsType => "sections",
    }
}

/// The key of a section that the rule is on, behind the section itself.
pub(crate) fn section_key(rule: SectionRule) -> &'static str
    ensures { result.now ≡ section_key rule }
{
    match rule {
        SectionRule::SectionType => "",
        SectionRule::OffsetMissing => ".offset",
        SectionRule::OffsetType => ".offset",
        SectionRule::LineMissing => ".offset.line",
        SectionRule::LineType => ".offset.line",
        SectionRule::ColumnMissing => ".offset.column",
        SectionRule::ColumnType => ".offset.column",
        SectionRule::MapMissing => ".map",
        SectionRule::MapType => ".map",
    }
}

fn map_sentence(rule: MapRule) -> &'static str
    ensures { result.now ≡ map_sentence rule }
{
    match rule {
        MapRule::VersionMissing => "there is no version",
        MapRule::VersionType => "version is no number",
        MapRule::VersionValue => "version is a number, but not 3",
        MapRule::FileType => "file is no text",
        MapRule::SourceRootType => "sourceRoot is no text",
        MapRule::SourcesMissing => "there is no sources",
        MapRule::SourcesType => "sources is no list of texts and nulls",
        MapRule::SourcesContentType => "sourcesContent is no list of texts and nulls",
        MapRule::NamesType => "names is no list of texts",
        MapRule::IgnoreListType => "ignoreList is no list of whole numbers",
        MapRule::IgnoreListBelowZero => "ignoreList has a number below 0",
        MapRule::IgnoreListPastSources =>
            "ignoreList has a number that is not below the number of sources",
        MapRule::MappingsMissing => "there is no mappings",
        MapRule::MappingsType => "mappings is no text",
        MapRule::MappingsInIndex => "an index map has mappings",
        MapRule::SectionsType => "sections is no list",
    }
}

fn section_sentence(rule: SectionRule) -> &'static str
    ensures { result.now ≡ section_sentence rule }
{
    match rule {
        SectionRule::SectionType => "the section is no object",
        SectionRule::OffsetMissing => "there is no offset",
        SectionRule::OffsetType => "offset is no object",
        SectionRule::LineMissing => "the offset has no line",
        SectionRule::LineType => "the line of the offset is no whole number, or below 0",
        SectionRule::ColumnMissing => "the offset has no column",
        SectionRule::ColumnType => "the column of the offset is no whole number, or below 0",
        SectionRule::MapMissing => "there is no map",
        SectionRule::MapType => "map is no object",
    }
}

fn segment_sentence(rule: SegmentRule) -> &'static str
    ensures { result.now ≡ segment_sentence rule }
{
    match rule {
        SegmentRule::ForeignByte => "a byte is no digit of base64",
        SegmentRule::CutNumber => "the segment ends within a number",
        SegmentRule::FieldCount => "the segment does not have 1, 4 or 5 numbers",
        SegmentRule::LargeNumber => "a number does not fit 32 bits",
        SegmentRule::ColumnBelowZero => "the generated column is below 0",
        SegmentRule::SourceBelowZero => "the index of the source is below 0",
        SegmentRule::LineBelowZero => "the original line is below 0",
        SegmentRule::SourceColumnBelowZero => "the original column is below 0",
        SegmentRule::NameBelowZero => "the index of the name is below 0",
        SegmentRule::SourcePastList => "the map has no source with this index",
        SegmentRule::NamePastList => "the map has no name with this index",
    }
}

/// A sentence that says how the rule is broken.
pub(crate) fn sentence(rule: Rule) -> &'static str
    ensures { result.now ≡ sentence rule }
{
    match rule {
        Rule::NotJson => "the bytes are no JSON text",
        Rule::NotObject => "the JSON value is no object",
        Rule::Map(rule) => map_sentence(rule),
        Rule::OutOfOrder => "the section starts before the one before it",
        Rule::Overlap => "the section overlaps the one before it",
        Rule::Section(rule) => section_sentence(rule),
        Rule::Segment(rule) => segment_sentence(rule),
    }
}
