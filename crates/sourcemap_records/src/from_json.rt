// Records from JSON values. Strings are moved, not copied.
ghost use Rattle.std.specs.Prelude.{◌≡◌, ℕ, List, Some, map, option_map, codes, false, OnOk};
ghost use Rattle.std.specs.Str.{bytes_eq};
ghost use Rattle.serde_json.specs.Find.{get_member};
ghost use Rattle.serde_json.specs.View.{view, items_view, members_view};
ghost use Rattle.sourcemap_records.specs.Field.{GivesReading, with, found};
ghost use Rattle.sourcemap_records.specs.Keys.{KeepsBut, file_keys_in, file_key_names, file_keys_view, content_keys_in, content_key_names, content_keys_view, extra_keys_in, extra_keys_view, groups_view};
ghost use Rattle.sourcemap_records.specs.Jsontypes.{debug_id_in, fields_in, section_head_in, section_at, tree_with, sections_from, sections_read, sections_of, record_of, section_of, section, tree};

use crate::field::{read_optional, read_required, read_values, remove_value};
use crate::jsontypes::{RawSection, RawSourceMap};
use crate::keys::{RawContentKeys, RawExtraKeys, RawFileKeys, RawGroups, join};
use serde_json::{Map, Value};
use sourcemap_errors::errors::{Error, JsonFault, Result};
use sourcemap_headers::debug_id::DebugId;
use std::alloc::Global;

// Removes and reads `debugId` and `debug_id`. Returns the id of `debugId`. If `debugId` is missing
// or null, returns the id of `debug_id`. If both keys are missing or null, returns `None`. A value
// that is neither null nor a debug id is `BadJson(Shape)`, even if the other key has an id. Any
// other error is `OutOfMemory`.
fn read_debug_id(alloc: Global, members: &mut Map<String, Value>) -> Result<Option<DebugId>>
    ensures value { GivesReading (λ id. id) result
        (debug_id_in (members_view members.old.entries)) }
    ensures others { (other : List ℕ) → bytes_eq other (codes "debugId") ≡ false
        → bytes_eq other (codes "debug_id") ≡ false
        → get_member other (members_view members.new.entries)
        ≡ get_member other (members_view members.old.entries) }
{
    let new: Option<DebugId> = read_optional(alloc, members, "debugId")?;
    let old: Option<DebugId> = read_optional(alloc, members, "debug_id")?;
    Ok(new.or(old))
}

fn read_file_keys(alloc: Global, members: &mut Map<String, Value>) -> Result<RawFileKeys>
    ensures value { GivesReading file_keys_view result
        (file_keys_in (members_view members.old.entries)) }
    ensures others { OnOk result (KeepsBut file_key_names
        (members_view members.old.entries) (members_view members.new.entries)) }
{
    let version = read_optional(alloc, members, "version")?;
    let file = read_optional(alloc, members, "file")?;
    let sources = read_optional(alloc, members, "sources")?;
    let source_root = read_optional(alloc, members, "sourceRoot")?;
    Ok(RawFileKeys {
        version,
        file,
        sources,
        source_root,
    })
}

fn read_content_keys(alloc: Global, members: &mut Map<String, Value>) -> Result<RawContentKeys>
    ensures value { GivesReading content_keys_view result
        (content_keys_in (members_view members.old.entries)) }
    ensures others { OnOk result (KeepsBut content_key_names
        (members_view members.old.entries) (members_view members.new.entries)) }
{
    let sources_content = read_optional(alloc, members, "sourcesContent")?;
    let names = read_values(members, "names")?;
    let range_mappings = read_optional(alloc, members, "rangeMappings")?;
    let mappings = read_optional(alloc, members, "mappings")?;
    Ok(RawContentKeys {
        sources_content,
        names,
        range_mappings,
        mappings,
    })
}

fn read_extra_keys(alloc: Global, members: &mut Map<String, Value>) -> Result<RawExtraKeys>
    ensures { GivesReading extra_keys_view result (extra_keys_in (members_view members.old.entries)) }
{
    let ignore_list = read_optional(alloc, members, "ignoreList")?;
    let x_facebook_offsets = read_optional(alloc, members, "x_facebook_offsets")?;
    let x_metro_module_paths = read_optional(alloc, members, "x_metro_module_paths")?;
    let x_facebook_sources = read_optional(alloc, members, "x_facebook_sources")?;
    Ok(RawExtraKeys {
        ignore_list,
        x_facebook_offsets,
        x_metro_module_paths,
        x_facebook_sources,
    })
}

fn read_groups(alloc: Global, mut members: Map<String, Value>) -> Result<RawGroups>
    ensures { GivesReading groups_view result (fields_in (members_view members.entries)) }
{
    let debug_id = read_debug_id(alloc, &mut members)?;
    let file_keys = read_file_keys(alloc, &mut members)?;
    let content_keys = read_content_keys(alloc, &mut members)?;
    let extra_keys = read_extra_keys(alloc, &mut members)?;
    Ok(RawGroups {
        file_keys,
        content_keys,
        extra_keys,
        debug_id,
    })
}

fn read_fields(
    alloc: Global,
    members: Map<String, Value>,
    sections: Option<Vec<RawSection>>,
) -> Result<RawSourceMap>
    ensures { GivesReading tree result (with (fields_in (members_view members.entries))
        (λ fields. Some (tree_with fields
        (option_map (λ v. sections_from (map section v.items)) sections)))) }
{
    let groups = read_groups(alloc, members)?;
    Ok(join(groups, sections))
}

fn read_section_head(
    alloc: Global,
    mut members: Map<String, Value>,
    map: Option<Box<RawSourceMap>>,
) -> Result<RawSection>
    ensures { GivesReading section result (with (section_head_in (members_view members.entries))
        (λ head. Some (section_at head (option_map (λ b. tree b.value) map)))) }
{
    let offset = read_required(alloc, &mut members, "offset")?;
    let url = read_optional(alloc, &mut members, "url")?;
    Ok(RawSection { offset, url, map })
}

#[cycle(from_json)]
pub(crate) fn read_map(alloc: Global, value: Value) -> Result<RawSourceMap>
    ensures { GivesReading tree result (record_of (view value)) }
{
    match value {
        Value::Object(mut members) => {
            let sections_value = remove_value(&mut members, "sections");
            let sections = read_sections(alloc, sections_value)?;
            read_fields(alloc, members, sections)
        }
        _ => Err(Error::BadJson(JsonFault::Shape)),
    }
}

#[cycle(from_json)]
fn read_sections(alloc: Global, value: Option<Value>) -> Result<Option<Vec<RawSection>>>
    ensures { GivesReading (option_map (λ v. sections_from (map section v.items))) result
        (found sections_of (option_map view value)) }
{
    match value {
        None | Some(Value::Null) => Ok(None),
        Some(Value::Array(items)) => Ok(Some(read_section_list(alloc, items)?)),
        Some(_) => Err(Error::BadJson(JsonFault::Shape)),
    }
}

#[cycle(from_json)]
fn read_section_list(alloc: Global, items: Vec<Value>) -> Result<Vec<RawSection>>
    ensures { GivesReading (λ v. sections_from (map section v.items)) result
        (sections_read (items_view items.items)) }
{
    let mut sections = Vec::with_capacity(alloc, items.len())?;
    for item in items {
        sections.push(read_section(alloc, item)?)?;
    }
    Ok(sections)
}

#[cycle(from_json)]
fn read_section(alloc: Global, value: Value) -> Result<RawSection>
    ensures { GivesReading section result (section_of (view value)) }
{
    match value {
        Value::Object(mut members) => {
            let inner = remove_value(&mut members, "map");
            let map = read_section_map(alloc, inner)?;
            read_section_head(alloc, members, map)
        }
        _ => Err(Error::BadJson(JsonFault::Shape)),
    }
}

#[cycle(from_json)]
fn read_section_map(alloc: Global, value: Option<Value>) -> Result<Option<Box<RawSourceMap>>>
    ensures { GivesReading (option_map (λ b. tree b.value)) result
        (found record_of (option_map view value)) }
{
    match value {
        None | Some(Value::Null) => Ok(None),
        Some(value) => Ok(Some(Box::new(alloc, read_map(alloc, value)?)?)),
    }
}
