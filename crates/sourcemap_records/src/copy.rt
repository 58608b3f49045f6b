// Deep copies of records.
ghost use Rattle.std.specs.Prelude.{map, option_map};
ghost use Rattle.sourcemap_records.specs.Field.{Makes};
ghost use Rattle.sourcemap_records.specs.Keys.{file_keys_of, file_keys_view, content_keys_of, content_keys_view, extra_keys_of, extra_keys_view, groups_view};
ghost use Rattle.sourcemap_records.specs.Jsontypes.{flat, section, sections_from, tree, tree_with};

use crate::field::Field;
use crate::jsontypes::{RawSection, RawSourceMap};
use crate::keys::{RawContentKeys, RawExtraKeys, RawFileKeys, RawGroups, join};
use sourcemap_errors::errors::Result;
use std::alloc::Global;

#[cycle(copy)]
pub(crate) fn copy_map(whole: &RawSourceMap, alloc: Global) -> Result<RawSourceMap>
    ensures { Makes tree result (tree whole.now) }
{
    let sections = match &whole.sections {
        Some(sections) => Some(copy_section_list(sections, alloc)?),
        None => None,
    };
    copy_fields(whole, sections, alloc)
}

fn copy_file_keys(whole: &RawSourceMap, alloc: Global) -> Result<RawFileKeys>
    ensures { Makes file_keys_view result (file_keys_of (flat (tree whole.now))) }
{
    let file = whole.file.duplicate(alloc)?;
    let sources = whole.sources.duplicate(alloc)?;
    let source_root = whole.source_root.duplicate(alloc)?;
    Ok(RawFileKeys {
        version: whole.version,
        file,
        sources,
        source_root,
    })
}

fn copy_content_keys(whole: &RawSourceMap, alloc: Global) -> Result<RawContentKeys>
    ensures { Makes content_keys_view result (content_keys_of (flat (tree whole.now))) }
{
    let sources_content = whole.sources_content.duplicate(alloc)?;
    let names = whole.names.duplicate(alloc)?;
    let range_mappings = whole.range_mappings.duplicate(alloc)?;
    let mappings = whole.mappings.duplicate(alloc)?;
    Ok(RawContentKeys {
        sources_content,
        names,
        range_mappings,
        mappings,
    })
}

fn copy_extra_keys(whole: &RawSourceMap, alloc: Global) -> Result<RawExtraKeys>
    ensures { Makes extra_keys_view result (extra_keys_of (flat (tree whole.now))) }
{
    let ignore_list = whole.ignore_list.duplicate(alloc)?;
    let x_facebook_offsets = whole.x_facebook_offsets.duplicate(alloc)?;
    let x_metro_module_paths = whole.x_metro_module_paths.duplicate(alloc)?;
    let x_facebook_sources = whole.x_facebook_sources.duplicate(alloc)?;
    Ok(RawExtraKeys {
        ignore_list,
        x_facebook_offsets,
        x_metro_module_paths,
        x_facebook_sources,
    })
}

fn copy_groups(whole: &RawSourceMap, alloc: Global) -> Result<RawGroups>
    ensures { Makes groups_view result (flat (tree whole.now)) }
{
    let file_keys = copy_file_keys(whole, alloc)?;
    let content_keys = copy_content_keys(whole, alloc)?;
    let extra_keys = copy_extra_keys(whole, alloc)?;
    Ok(RawGroups {
        file_keys,
        content_keys,
        extra_keys,
        debug_id: whole.debug_id,
    })
}

fn copy_fields(
    whole: &RawSourceMap,
    sections: Option<Vec<RawSection>>,
    alloc: Global,
) -> Result<RawSourceMap>
    ensures { Makes tree result (tree_with (flat (tree whole.now))
        (option_map (λ v. sections_from (map section v.items)) sections)) }
{
    let groups = copy_groups(whole, alloc)?;
    Ok(join(groups, sections))
}

#[cycle(copy)]
fn copy_section_list(sections: &Vec<RawSection>, alloc: Global) -> Result<Vec<RawSection>>
    ensures { Makes (λ v. map section v.items) result (map section sections.now.items) }
{
    let mut copies = Vec::with_capacity(alloc, sections.len())?;
    for part in sections {
        copies.push(copy_section(part, alloc)?)?;
    }
    Ok(copies)
}

#[cycle(copy)]
fn copy_section(part: &RawSection, alloc: Global) -> Result<RawSection>
    ensures { Makes section result (section part.now) }
{
    let map = match &part.map {
        Some(map) => Some(Box::new(alloc, copy_map(map, alloc)?)?),
        None => None,
    };
    let url = part.url.duplicate(alloc)?;
    Ok(RawSection {
        offset: part.offset,
        url,
        map,
    })
}
