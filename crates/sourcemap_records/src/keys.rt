// The keys of a record in three groups. The sections and the debug id are in no group.
// prover: few drops at each return
ghost use Rattle.std.specs.Prelude.{◌≡◌, map, option_map};
ghost use Rattle.sourcemap_records.specs.Keys.{groups_view};
ghost use Rattle.sourcemap_records.specs.Jsontypes.{flat, section, sections_from, tree, tree_with};

use crate::jsontypes::{FacebookSources, RawSection, RawSourceMap};
use serde_json::Value;
use sourcemap_headers::debug_id::DebugId;

#[derive(Drop)]
pub(crate) struct RawFileKeys {
    pub(crate) version: Option<u32>,
    pub(crate) file: Option<Value>,
    pub(crate) sources: Option<Vec<Option<String>>>,
    pub(crate) source_root: Option<String>,
}

#[derive(Drop)]
pub(crate) struct RawContentKeys {
    pub(crate) sources_content: Option<Vec<Option<String>>>,
    pub(crate) names: Option<Vec<Value>>,
    pub(crate) range_mappings: Option<String>,
    pub(crate) mappings: Option<String>,
}

#[derive(Drop)]
pub(crate) struct RawExtraKeys {
    pub(crate) ignore_list: Option<Vec<u32>>,
    pub(crate) x_facebook_offsets: Option<Vec<Option<u32>>>,
    pub(crate) x_metro_module_paths: Option<Vec<String>>,
    pub(crate) x_facebook_sources: FacebookSources,
}

// All keys but the sections.
#[derive(Drop)]
pub(crate) struct RawGroups {
    pub(crate) file_keys: RawFileKeys,
    pub(crate) content_keys: RawContentKeys,
    pub(crate) extra_keys: RawExtraKeys,
    pub(crate) debug_id: Option<DebugId>,
}

// Splits the keys of a record into the groups and the debug id. Drops the sections.
pub(crate) fn split(map: RawSourceMap) -> RawGroups
    ensures { groups_view result ≡ flat (tree map) }
{
    let file_keys = RawFileKeys {
        version: map.version,
        file: map.file,
        sources: map.sources,
        source_root: map.source_root,
    };
    let content_keys = RawContentKeys {
        sources_content: map.sources_content,
        names: map.names,
        range_mappings: map.range_mappings,
        mappings: map.mappings,
    };
    let extra_keys = RawExtraKeys {
        ignore_list: map.ignore_list,
        x_facebook_offsets: map.x_facebook_offsets,
        x_metro_module_paths: map.x_metro_module_paths,
        x_facebook_sources: map.x_facebook_sources,
    };
    RawGroups {
        file_keys,
        content_keys,
        extra_keys,
        debug_id: map.debug_id,
    }
}

pub(crate) fn join(groups: RawGroups, sections: Option<Vec<RawSection>>) -> RawSourceMap
    ensures { tree result ≡ tree_with (groups_view groups)
        (option_map (λ v. sections_from (map section v.items)) sections) }
{
    let RawGroups {
        file_keys,
        content_keys,
        extra_keys,
        debug_id,
    } = groups;
    RawSourceMap {
        version: file_keys.version,
        file: file_keys.file,
        sources: file_keys.sources,
        source_root: file_keys.source_root,
        sources_content: content_keys.sources_content,
        sections,
        names: content_keys.names,
        range_mappings: content_keys.range_mappings,
        mappings: content_keys.mappings,
        ignore_list: extra_keys.ignore_list,
        x_facebook_offsets: extra_keys.x_facebook_offsets,
        x_metro_module_paths: extra_keys.x_metro_module_paths,
        x_facebook_sources: extra_keys.x_facebook_sources,
        debug_id,
    }
}
