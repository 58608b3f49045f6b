//! Laws: statements that follow from the definitions that contracts cite. A function that calls a
//! law can use the statement of the law in its own proof. At run time the call does nothing.

pub use sourcemap_bundle_split::laws::{module_maps_are_well_formed, module_means_what_flat_means};
pub use sourcemap_core::laws::{
    binary_digits_are_fewest, bits_are_determined, closest_tokens_stay,
    composed_tokens_stay_within, lines_make_their_text, mappings_determine_one_answer,
    moved_positions_answer_as_before, one_stable_order, reduced_answers_alike,
    relative_paths_lead_to_their_targets, segments_are_determined, unreserved_bytes_alone_are_kept,
    written_texts_are_determined,
};
pub use sourcemap_headers::data_url::data_urls_have_one_answer;
pub use sourcemap_hermes::encode::{
    restored_maps_name_functions_alike, written_maps_are_compact as hermes_maps_are_compact,
    written_maps_read_back as hermes_maps_read_back,
    written_records_are_determined as hermes_records_are_determined,
};
pub use sourcemap_hermes::rewrite::{default_rewriting_keeps_scopes, rewriting_keeps_scopes};
pub use sourcemap_hermes_scopes::offsets::scope_mappings_are_determined;
pub use sourcemap_hermes_scopes::source_scopes::{
    entries_determine_function_maps, picked_scopes_answer_alike,
};
pub use sourcemap_index::decode::{answers_are_determined, only_urls_give_invalid_data_url};
pub use sourcemap_index::laws::{
    encoded_texts_are_compact, encoded_texts_read_back, hermes_maps_are_of_a_kind,
    maps_of_forty_levels_are_shallow, read_maps_are_well_formed, regular_maps_are_of_a_kind,
    written_values_have_one_text,
};
pub use sourcemap_index_model::laws::{
    decoded_maps_are_well_formed, flat_maps_answer_alike, flat_maps_are_well_formed,
    flat_maps_say_the_flat_list, maps_are_written_once, orderly_maps_are_in_order,
    records_decode_once, same_tree_decides, well_formed_maps_are_in_order,
    written_records_read_back,
};
pub use sourcemap_map_regular::encode::written_records_are_determined;
pub use sourcemap_map_regular::rewrite::default_rewriting_is_final;
pub use sourcemap_map_regular::write::{written_maps_are_compact, written_maps_read_back};
pub use sourcemap_references::detector::readers_find_what_slices_do;
