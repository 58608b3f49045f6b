//! The rules on the keys of a map.
ghost use Rattle.std.specs.Prelude.{◌≡◌, codes};
ghost use Rattle.serde_json.specs.View.{view};
ghost use Rattle.sourcemap_check_keys.specs.MapRules.{breaks, is_index};
ghost use Rattle.sourcemap_check_keys.specs.Values.{count_at, list_has};
ghost use Rattle.sourcemap_check_keys.specs.declared.values.Test.TheVariants.{AtLeast};

use crate::values::{Test, count_at, fails, has, list_fails, list_has};
use serde_json::Value;
use sourcemap_check_report::rules::MapRule;

/// Whether a map is an index map: it has `sections`.
pub fn is_index(map: &Value) -> bool
    ensures { result ≡ is_index (view map.now) }
{
    has(map, "sections")
}

/// Whether a map breaks a rule.
pub fn breaks(map: &Value, rule: MapRule) -> bool
    ensures { result ≡ breaks rule (view map.now) }
{
    match rule {
        MapRule::VersionMissing => !has(map, "version"),
        MapRule::VersionType => fails(map, "version", Test::Number),
        MapRule::VersionValue => {
            fails(map, "version", Test::Three) && !fails(map, "version", Test::Number)
        }
        MapRule::FileType => fails(map, "file", Test::Text),
        MapRule::SourceRootType => !is_index(map) && fails(map, "sourceRoot", Test::Text),
        MapRule::SourcesMissing => !is_index(map) && !has(map, "sources"),
        MapRule::SourcesType => !is_index(map) && list_fails(map, "sources", Test::TextOrNull),
        MapRule::SourcesContentType => {
            !is_index(map) && list_fails(map, "sourcesContent", Test::TextOrNull)
        }
        MapRule::NamesType => !is_index(map) && list_fails(map, "names", Test::Text),
        MapRule::IgnoreListType => !is_index(map) && list_fails(map, "ignoreList", Test::Whole),
        MapRule::IgnoreListBelowZero => {
            !is_index(map) && list_has(map, "ignoreList", Test::BelowZero)
        }
        MapRule::IgnoreListPastSources => !is_index(map) && ignores_past_sources(map),
        MapRule::MappingsMissing => !is_index(map) && !has(map, "mappings"),
        MapRule::MappingsType => !is_index(map) && fails(map, "mappings", Test::Text),
        MapRule::MappingsInIndex => is_index(map) && has(map, "mappings"),
        MapRule::SectionsType => fails(map, "sections", Test::Array),
    }
}

// Whether the ignore list has a number that is not below the number of sources.
fn ignores_past_sources(map: &Value) -> bool
    ensures { result ≡ list_has (AtLeast (count_at (codes "sources") (view map.now)))
        (codes "ignoreList") (view map.now) }
{
    let sources = count_at(map, "sources");
    list_has(map, "ignoreList", Test::AtLeast(sources))
}
