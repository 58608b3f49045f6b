//! The rules on one section of an index map.
ghost use Rattle.std.specs.Prelude.{◌≡◌, not};
ghost use Rattle.serde_json.specs.View.{view};
ghost use Rattle.sourcemap_check_keys.specs.SectionRules.{breaks, in_offset};
ghost use Rattle.sourcemap_check_keys.specs.Values.{has, fails};
ghost use Rattle.sourcemap_check_keys.specs.declared.values.Test.TheVariants.{Position};

use crate::values::{Test, fails, has, passes};
use serde_json::Value;
use sourcemap_check_report::rules::SectionRule;

/// Whether a section breaks a rule.
pub fn breaks(section: &Value, rule: SectionRule) -> bool
    ensures { result ≡ breaks rule (view section.now) }
{
    match rule {
        SectionRule::SectionType => !section.is_object(),
        SectionRule::OffsetMissing => section.is_object() && !has(section, "offset"),
        SectionRule::OffsetType => fails(section, "offset", Test::Object),
        SectionRule::LineMissing => offset_lacks(section, "line"),
        SectionRule::LineType => offset_fails(section, "line"),
        SectionRule::ColumnMissing => offset_lacks(section, "column"),
        SectionRule::ColumnType => offset_fails(section, "column"),
        SectionRule::MapMissing => section.is_object() && !has(section, "map"),
        SectionRule::MapType => fails(section, "map", Test::Object),
    }
}

// Whether the offset is an object without this key.
fn offset_lacks(section: &Value, key: &str) -> bool
    ensures { result ≡ in_offset (λ o. not (has key.now o)) (view section.now) }
{
    match section.get("offset") {
        Some(offset) => passes(offset, Test::Object) && !has(offset, key),
        None => false,
    }
}

// Whether the offset is an object in which this key has a value that is no line or column.
fn offset_fails(section: &Value, key: &str) -> bool
    ensures { result ≡ in_offset (λ o. fails Position key.now o) (view section.now) }
{
    match section.get("offset") {
        Some(offset) => passes(offset, Test::Object) && fails(offset, key, Test::Position),
        None => false,
    }
}
