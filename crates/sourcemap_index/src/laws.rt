//! Laws on maps of any kind that are decoded or written.
ghost use Rattle.std.specs.Prelude.{◌≡◌, ◌≤◌, false, List, Ok, ℕ, ◌↔◌};
ghost use Rattle.serde_json.specs.Data.{Data};
ghost use Rattle.serde_json.specs.Written.{has_float};
ghost use Rattle.sourcemap_headers.specs.DataUrl.{Holds};
ghost use Rattle.sourcemap_records.specs.Bytes.{BytesHaveResult, UrlHasResult, ValueHasResult};
ghost use Rattle.sourcemap_map_regular.specs.Decode.{RegularDecodes};
ghost use Rattle.sourcemap_map_regular.specs.Encode.{ReadsBack};
ghost use Rattle.sourcemap_map_regular.specs.Map.{MapValue};
ghost use Rattle.sourcemap_map_regular.specs.Write.{IsEncoded};
ghost use Rattle.sourcemap_index_model.specs.Encode.{RecordAnswer, Restores};
ghost use Rattle.sourcemap_hermes.specs.Decode.{RecordDecodesAsHermes};
ghost use Rattle.sourcemap_hermes.specs.Map.{HermesValue};
ghost use Rattle.sourcemap_index_model.specs.MapTree.{MapTree, hermes, leaf, regular};
ghost use Rattle.sourcemap_index_model.specs.WellFormed.{HasTokensInOrder, IsWellFormed};
ghost use Rattle.sourcemap_index.specs.Decode.{BytesDecode, UrlDecodes, ValueDecodes};
ghost use Rattle.sourcemap_index.specs.DecodedMap.{IsShallow, IsTextOf, IsValueOf, levels};

/// A law on decoding a JSON value, bytes or a data URL. Decoding as a map of any kind gives the
/// regular map `m` exactly if decoding as a regular map gives `m`.
pub fn regular_maps_are_of_a_kind()
    ensures values { (d : Data) (m : MapValue)
        → ValueHasResult RegularDecodes d (Ok m) ↔ ValueDecodes d (Ok (leaf (regular m))) }
    ensures bytes { (bytes : List ℕ) (m : MapValue)
        → BytesHaveResult RegularDecodes bytes (Ok m) ↔ BytesDecode bytes (Ok (leaf (regular m))) }
    ensures urls { (url : List ℕ) (m : MapValue)
        → UrlHasResult RegularDecodes url (Ok m) ↔ UrlDecodes url (Ok (leaf (regular m))) }
{}

/// A law on decoding a JSON value, bytes or a data URL. Decoding as a map of any kind gives the
/// Hermes map `h` exactly if decoding as a Hermes map gives `h`.
pub fn hermes_maps_are_of_a_kind()
    ensures values { (d : Data) (h : HermesValue)
        → ValueHasResult RecordDecodesAsHermes d (Ok h) ↔ ValueDecodes d (Ok (leaf (hermes h))) }
    ensures bytes { (bytes : List ℕ) (h : HermesValue)
        → BytesHaveResult RecordDecodesAsHermes bytes (Ok h)
        ↔ BytesDecode bytes (Ok (leaf (hermes h))) }
    ensures urls { (url : List ℕ) (h : HermesValue)
        → UrlHasResult RecordDecodesAsHermes url (Ok h) ↔ UrlDecodes url (Ok (leaf (hermes h))) }
{}

/// A law: let a map be decoded from a JSON value, bytes or a data URL. Then the map is well-formed,
/// and its tokens are sorted. In an index map, the tokens of each regular map and each Hermes map
/// are sorted, at every level. Both properties are premises of laws on flattened maps.
pub fn read_maps_are_well_formed()
    ensures values { (d : Data) (t : MapTree) → ValueDecodes d (Ok t)
        → IsWellFormed t × HasTokensInOrder t }
    ensures bytes { (bytes : List ℕ) (t : MapTree) → BytesDecode bytes (Ok t)
        → IsWellFormed t × HasTokensInOrder t }
    ensures urls { (url : List ℕ) (t : MapTree) → UrlDecodes url (Ok t)
        → IsWellFormed t × HasTokensInOrder t }
{}

/// A law: two compact JSON texts of the same map are equal. The JSON value of a map contains no
/// floating-point number, so encoding writes the value as compact text.
pub fn written_values_have_one_text()
    ensures whole { (t : MapTree) (d : Data) → IsValueOf t d → has_float d ≡ false }
    ensures once { (t : MapTree) (a b : List ℕ) → IsTextOf t a → IsTextOf t b → a ≡ b }
{}

/// A law: if a map of any kind is encoded, the bytes are the compact text of the map's JSON value.
/// The proof uses that this JSON value contains no floating-point number.
pub fn encoded_texts_are_compact()
    ensures { (t : MapTree) (text : List ℕ) → IsEncoded (RecordAnswer t) text → IsTextOf t text }
{}

/// A law: a map of any kind is written as JSON of at most 127 levels if its index maps are nested
/// at most 40 deep (`levels`). Decoding rejects JSON text of more than 127 levels with
/// `BadJson(Parse)`.
pub fn maps_of_forty_levels_are_shallow()
    ensures { (t : MapTree) → levels t ≤ 40 → IsShallow t }
{}

/// A law: let a well-formed map of any kind be encoded to JSON of at most 127 levels (`IsShallow`).
/// Then the bytes decode to a map that has the same meaning at every position, and a data URL of
/// the bytes decodes to such a map too. `KeepsParts` says which parts of the map are kept.
pub fn encoded_texts_read_back()
    ensures bytes { (t : MapTree) (text : List ℕ)
        → IsEncoded (RecordAnswer t) text → IsWellFormed t → IsShallow t
        → ReadsBack (BytesDecode text) (Restores t) }
    ensures urls { (t : MapTree) (text url : List ℕ)
        → IsEncoded (RecordAnswer t) text → Holds url text → IsWellFormed t → IsShallow t
        → ReadsBack (UrlDecodes url) (Restores t) }
{}
