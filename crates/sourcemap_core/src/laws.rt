//! Laws: statements that follow from the definitions in contracts. A function calls a law to use
//! its statement in a proof. The call does nothing at run time.

pub use sourcemap_compose::moved::{composed_tokens_stay_within, moved_positions_answer_as_before};
pub use sourcemap_file_urls::places::unreserved_bytes_alone_are_kept;
pub use sourcemap_file_urls::relative_paths::relative_paths_lead_to_their_targets;
pub use sourcemap_line_index::line_index::binary_digits_are_fewest;
pub use sourcemap_mappings::read::mappings_determine_one_answer;
pub use sourcemap_mappings::write::written_texts_are_determined;
pub use sourcemap_source_views::lines::lines_make_their_text;
pub use sourcemap_tokens::tokens::{closest_tokens_stay, one_stable_order, reduced_answers_alike};
pub use sourcemap_vlq::bits::bits_are_determined;
pub use sourcemap_vlq::vlq::segments_are_determined;
