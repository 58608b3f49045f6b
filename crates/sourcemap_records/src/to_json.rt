// Records as JSON values. The strings of a record are moved into the JSON value, not copied. The
// clauses `in_range` say that numbers outside of `file` and `names` are below 2^32, and that a
// debug id has 16 bytes. Without these bounds a JSON value might not read back.
ghost use Rattle.std.specs.Prelude.{◌≡◌, map, option_map, IfOk, IfErr, IfSome, OnOk};
ghost use Rattle.std.specs.List.{AllByRecursion};
ghost use Rattle.serde_json.specs.Data.{array};
ghost use Rattle.serde_json.specs.View.{view, items_of, members_view};
ghost use Rattle.sourcemap_errors.specs.declared.errors.Error.TheVariants.{OutOfMemory};
ghost use Rattle.sourcemap_records.specs.Field.{Makes, put_all, written_or_null};
ghost use Rattle.sourcemap_records.specs.Keys.{AreFileKeysInRange, AreExtraKeysInRange, file_entries, file_keys_view, content_entries, content_keys_view, extra_entries, extra_keys_view, groups_view};
ghost use Rattle.sourcemap_records.specs.Jsontypes.{AreInRange, IsInRange, IsSectionInRange, flat, written, written_fields, written_one, section, tree};

use crate::field::{put_field, put_values};
use crate::jsontypes::{RawSection, RawSourceMap};
use crate::keys::{RawContentKeys, RawExtraKeys, RawFileKeys, RawGroups, split};
use serde_json::{Map, Value};
use sourcemap_errors::errors::Result;
use std::alloc::Global;

fn put_file_keys(
    alloc: Global,
    members: &mut Map<String, Value>,
    file_keys: RawFileKeys,
) -> Result<()>
    ensures ok { OnOk result (members_view members.new.entries
        ≡ put_all (file_entries (file_keys_view file_keys)) (members_view members.old.entries)) }
    ensures in_range { OnOk result (AreFileKeysInRange (file_keys_view file_keys)) }
    ensures err { IfErr result (λ e. e ≡ OutOfMemory) }
{
    let RawFileKeys {
        version,
        file,
        sources,
        source_root,
    } = file_keys;
    put_field(alloc, members, "version", Some(version))?;
    put_field(alloc, members, "file", file)?;
    put_field(alloc, members, "sources", Some(sources))?;
    put_field(alloc, members, "sourceRoot", source_root)
}

fn put_content_keys(
    alloc: Global,
    members: &mut Map<String, Value>,
    content_keys: RawContentKeys,
) -> Result<()>
    ensures ok { OnOk result (members_view members.new.entries
        ≡ put_all (content_entries (content_keys_view content_keys)) (members_view members.old.entries)) }
    ensures err { IfErr result (λ e. e ≡ OutOfMemory) }
{
    let RawContentKeys {
        sources_content,
        names,
        range_mappings,
        mappings,
    } = content_keys;
    put_field(alloc, members, "sourcesContent", sources_content)?;
    put_values(alloc, members, "names", names)?;
    put_field(alloc, members, "rangeMappings", range_mappings)?;
    put_field(alloc, members, "mappings", mappings)
}

fn put_extra_keys(
    alloc: Global,
    members: &mut Map<String, Value>,
    extra_keys: RawExtraKeys,
) -> Result<()>
    ensures ok { OnOk result (members_view members.new.entries
        ≡ put_all (extra_entries (extra_keys_view extra_keys)) (members_view members.old.entries)) }
    ensures in_range { OnOk result (AreExtraKeysInRange (extra_keys_view extra_keys)) }
    ensures err { IfErr result (λ e. e ≡ OutOfMemory) }
{
    let RawExtraKeys {
        ignore_list,
        x_facebook_offsets,
        x_metro_module_paths,
        x_facebook_sources,
    } = extra_keys;
    put_field(alloc, members, "ignoreList", ignore_list)?;
    put_field(alloc, members, "x_facebook_offsets", x_facebook_offsets)?;
    put_field(alloc, members, "x_metro_module_paths", x_metro_module_paths)?;
    put_field(alloc, members, "x_facebook_sources", x_facebook_sources)
}

fn write_groups(alloc: Global, groups: RawGroups) -> Result<Map<String, Value>>
    ensures ok { IfOk result (λ m. members_view m.entries ≡ written_fields (groups_view groups)) }
    ensures in_range { OnOk result (AreInRange (groups_view groups)) }
    ensures err { IfErr result (λ e. e ≡ OutOfMemory) }
{
    let RawGroups {
        file_keys,
        content_keys,
        extra_keys,
        debug_id,
    } = groups;
    let mut members = Map::new(alloc);
    put_file_keys(alloc, &mut members, file_keys)?;
    put_content_keys(alloc, &mut members, content_keys)?;
    put_extra_keys(alloc, &mut members, extra_keys)?;
    put_field(alloc, &mut members, "debugId", debug_id)?;
    Ok(members)
}

// Returns the members for all keys of a record except `sections`. Drops the sections.
fn write_fields(alloc: Global, map: RawSourceMap) -> Result<Map<String, Value>>
    ensures ok { IfOk result (λ m. members_view m.entries ≡ written_fields (flat (tree map))) }
    ensures in_range { OnOk result (AreInRange (flat (tree map))) }
    ensures err { IfErr result (λ e. e ≡ OutOfMemory) }
{
    write_groups(alloc, split(map))
}

#[cycle(to_json)]
pub(crate) fn write_map(alloc: Global, mut map: RawSourceMap) -> Result<Value>
    ensures value { Makes view result (written (tree map)) }
    ensures in_range { OnOk result (IsInRange (tree map)) }
{
    let sections_value = match map.sections.take() {
        Some(sections) => Some(Value::Array(write_section_list(alloc, sections)?)),
        None => None,
    };
    let mut members = write_fields(alloc, map)?;
    put_field(alloc, &mut members, "sections", sections_value)?;
    Ok(Value::Object(members))
}

#[cycle(to_json)]
fn write_section_list(alloc: Global, sections: Vec<RawSection>) -> Result<Vec<Value>>
    ensures ok { IfOk result (λ v. map view v.items
        ≡ map written_one (map section sections.items)) }
    ensures in_range { OnOk result (AllByRecursion IsSectionInRange (map section sections.items)) }
    ensures err { IfErr result (λ e. e ≡ OutOfMemory) }
{
    let mut items = Vec::with_capacity(alloc, sections.len())?;
    for section in sections {
        items.push(write_section(alloc, section)?)?;
    }
    Ok(items)
}

#[cycle(to_json)]
fn write_section(alloc: Global, part: RawSection) -> Result<Value>
    ensures value { Makes view result (written_one (section part)) }
    ensures in_range { OnOk result (IsSectionInRange (section part)) }
{
    let RawSection { offset, url, map } = part;
    let inner = write_section_map(alloc, map)?;
    let mut members = Map::new(alloc);
    put_field(alloc, &mut members, "map", Some(inner))?;
    put_field(alloc, &mut members, "offset", Some(offset))?;
    put_field(alloc, &mut members, "url", Some(url))?;
    Ok(Value::Object(members))
}

#[cycle(to_json)]
fn write_section_map(alloc: Global, map: Option<Box<RawSourceMap>>) -> Result<Value>
    ensures value { Makes view result
        (written_or_null written (option_map (λ b. tree b.value) map)) }
    ensures in_range { OnOk result (IfSome (option_map (λ b. tree b.value) map) IsInRange) }
{
    match map {
        Some(map) => write_map(alloc, Box::into_inner(map)),
        None => Ok(Value::Null),
    }
}
