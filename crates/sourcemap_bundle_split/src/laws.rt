//! Laws about the maps of modules.
ghost use Rattle.std.specs.Prelude.{◌≡◌, ◌≤◌, ℕ, List, Ok, Result, Some, length, true};
ghost use Rattle.sourcemap_errors.specs.declared.errors.Error.{Error};
ghost use Rattle.sourcemap_tokens.specs.Search.{closest_item};
ghost use Rattle.sourcemap_tokens.specs.Tokens.{destination, position_cmp};
ghost use Rattle.sourcemap_tokens.specs.declared.tokens.RawToken.{RawToken};
ghost use Rattle.sourcemap_map_regular.specs.Map.{MapValue, meaning};
ghost use Rattle.sourcemap_index_model.specs.MapTree.{IndexValue, index_tree};
ghost use Rattle.sourcemap_index_model.specs.WellFormed.{IsWellFormed};
ghost use Rattle.sourcemap_bundles.specs.Modules.{ModuleValue};
ghost use Rattle.sourcemap_bundle_split.specs.ModuleMap.{end_of, is_in, lowered_to, module_map};
ghost use Rattle.sourcemap_bundle_split.specs.Split.{HasFewTexts, HaveWellFormedMaps, SplitValue, Splits, dues_in};

use sourcemap_index_model::laws::flat_maps_are_well_formed;

/// A law: for each generated position in the text of a module, a lookup in the module's map gives
/// the same meaning as a lookup in the flat map. In the module's map, lines count from the module's
/// first line. The law requires that the token which the lookup in the flat map finds is in the
/// module's text too. It also requires that the flat map has at most 4294967295 sources and at most
/// 4294967295 names.
pub fn module_means_what_flat_means()
    ensures { (flat : MapValue) (name text : List ℕ) (line : ℕ) (p : ℕ × ℕ) (t : RawToken)
        → length flat.sources ≤ 4294967295 → length flat.names ≤ 4294967295
        → is_in line (end_of line text) p ≡ true
        → closest_item destination position_cmp flat.tokens p ≡ Some t
        → is_in line (end_of line text) (destination t) ≡ true
        → meaning (module_map flat name line (end_of line text)) (lowered_to line p) ≡ meaning flat p }
{}

/// A law: if the index map of a bundle is well-formed, the map of each module is well-formed too. So
/// a module's map that is written reads back (`written_maps_read_back`). The law is about an index
/// map `i` by which the bundle of these modules was split, as `split_ram_bundle` promises (`answer`
/// and `few`).
pub fn module_maps_are_well_formed()
    ensures { (i : IndexValue) (modules : List (Result ModuleValue Error)) (split : SplitValue)
        → Splits i modules (Ok split) → HasFewTexts split.flat → IsWellFormed (index_tree i)
        → HaveWellFormedMaps (dues_in split) }
{
    flat_maps_are_well_formed();
}
