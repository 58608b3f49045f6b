//! Laws: statements that follow from the definitions in contracts. A function calls a law to use
//! its statement in a proof. The call does nothing at run time.

pub use sourcemap_core::laws::{
    binary_digits_are_fewest, closest_tokens_stay, composed_tokens_stay_within,
    lines_make_their_text, moved_positions_answer_as_before, one_stable_order,
    reduced_answers_alike,
};
pub use sourcemap_headers::data_url::data_urls_have_one_answer;
pub use sourcemap_map_regular::encode::written_records_are_determined;
pub use sourcemap_map_regular::rewrite::default_rewriting_is_final;
pub use sourcemap_map_regular::write::{written_maps_are_compact, written_maps_read_back};
