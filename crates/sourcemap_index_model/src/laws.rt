//! Laws of maps of every kind.
ghost use Rattle.std.specs.Prelude.{◌≡◌, Result, Ok};
ghost use Rattle.std.specs.Bool.{Decides};
ghost use Rattle.std.specs.Cmp.{IsEquivalence};
ghost use Rattle.sourcemap_errors.specs.declared.errors.Error.{Error};
ghost use Rattle.sourcemap_records.specs.Jsontypes.{Tree, IsInRange};
ghost use Rattle.sourcemap_map_regular.specs.Map.{MapValue, IsWellFormed as IsWellFormedRegular};
ghost use Rattle.sourcemap_index_model.specs.Decode.{TreeDecodes};
ghost use Rattle.sourcemap_index_model.specs.Encode.{IsLeafAnswer, IsRecordOf, IsWrittenBy, RecordAnswer};
ghost use Rattle.sourcemap_index_model.specs.Equality.{same_tree};
ghost use Rattle.sourcemap_index_model.specs.Flat.{flat, AnswersLike, SaysFlat};
ghost use Rattle.sourcemap_index_model.specs.FlatList.{IsOrderly};
ghost use Rattle.sourcemap_index_model.specs.MapTree.{MapTree};
ghost use Rattle.sourcemap_index_model.specs.WellFormed.{HasTokensInOrder, IsInOrder, IsWellFormed};

/// A law: a record determines the result of decoding (`TreeDecodes`), which is a map or an error.
pub fn records_decode_once()
    ensures { (r : Tree) (a b : Result MapTree Error) → TreeDecodes r a → TreeDecodes r b → a ≡ b }
{}

/// A law: each decoded map is well-formed at every level. At every level of a decoded map, the
/// tokens of each regular map and each Hermes map are sorted.
pub fn decoded_maps_are_well_formed()
    ensures well_formed { (r : Tree) (t : MapTree) → TreeDecodes r (Ok t) → IsWellFormed t }
    ensures tokens { (r : Tree) (t : MapTree) → TreeDecodes r (Ok t) → HasTokensInOrder t }
{}

/// A law: the sections of a well-formed map are sorted at every level.
pub fn well_formed_maps_are_in_order()
    ensures { (t : MapTree) → IsWellFormed t → IsInOrder t }
{}

/// A law: if no section reaches into the next one at any level (`IsOrderly`), the sections are
/// sorted at every level.
pub fn orderly_maps_are_in_order()
    ensures { (t : MapTree) → IsOrderly t → IsInOrder t }
{}

/// A law: `same_tree` decides equality of maps, and is an equivalence.
pub fn same_tree_decides()
    ensures decides { (s t : MapTree) → Decides (same_tree s t) (s ≡ t) }
    ensures equivalence { IsEquivalence same_tree }
{}

/// A law: the flattened map has one new token for each token of each regular map and each Hermes
/// map. Premises: flattening returns no error, and the tokens of each of these maps are sorted. A
/// new token has the meaning of the old token. The new generated position counts from the start of
/// the whole map, and not from the start of a section. The new tokens are sorted by generated
/// position. At the same position, the tokens of an earlier section come before the tokens of a
/// later section. Tokens of the same regular map or Hermes map keep their order.
pub fn flat_maps_say_the_flat_list()
    ensures { (t : MapTree) (m : MapValue) → HasTokensInOrder t → flat t ≡ Ok m → SaysFlat t m }
{}

/// A law: each position with a meaning in a map has the same meaning in the flattened map.
/// Premises: flattening returns no error, no sections overlap at any level (`IsOrderly`), and the
/// tokens of each regular map and each Hermes map are sorted.
pub fn flat_maps_answer_alike()
    ensures { (t : MapTree) (m : MapValue) → HasTokensInOrder t → IsOrderly t → flat t ≡ Ok m
        → AnswersLike t m }
{}

/// A law: the flattened map of a well-formed map is well-formed.
pub fn flat_maps_are_well_formed()
    ensures { (t : MapTree) (m : MapValue) → IsWellFormed t → flat t ≡ Ok m
        → IsWellFormedRegular m }
{}

/// A law: a map determines its record.
pub fn maps_are_written_once()
    ensures { (t : MapTree) (a b : Tree) → IsRecordOf t a → IsRecordOf t b → a ≡ b }
{}

/// A law: the record of a map satisfies `RecordAnswer`. In particular, the record of a well-formed
/// map decodes to a map with the same meaning at every position. `KeepsParts` says which parts are
/// kept. The first premise: the record of each regular map and each Hermes map in the map satisfies
/// `IsLeafAnswer`. The second premise, `IsInRange`, holds for every record in memory: numbers are
/// below 2^32, and a debug id has 16 bytes.
pub fn written_records_read_back()
    ensures { (t : MapTree) (r : Tree) → IsWrittenBy IsLeafAnswer t r
        → IsInRange r → RecordAnswer t (Ok r) }
{}
