//! Writes the compact JSON text of a map to writers and data URLs.
ghost use Rattle.std.specs.Prelude.{◌≡◌, ◌⊎◌, ℕ, List, Err, OnErr, OnOk, IfOk, IfErr, IsOkUnless, string_bytes};
ghost use Rattle.std.specs.Io.KnownBytes.{Appends};
ghost use Rattle.sourcemap_errors.specs.Answer.{UnlessMemory};
ghost use Rattle.sourcemap_errors.specs.declared.errors.Error.TheVariants.{OutOfMemory};
ghost use Rattle.sourcemap_headers.specs.DataUrl.{data_url_of, Holds};
ghost use Rattle.sourcemap_map_regular.specs.Map.{MapValue, IsWellFormed};
ghost use Rattle.sourcemap_records.specs.Bytes.{BytesHaveResult, UrlHasResult};
ghost use Rattle.sourcemap_map_regular.specs.Decode.{RegularDecodes};
ghost use Rattle.sourcemap_map_regular.specs.Encode.{RecordAnswer, ReadsBack, Restores};
ghost use Rattle.sourcemap_map_regular.specs.Write.{IsEncoded, IsCompactTextOf, IsIo};

use crate::encode::Encodable;
use crate::map::SourceMap;
use sourcemap_errors::errors::Result;
use sourcemap_headers::data_url::data_url;
use std::alloc::Global;
use std::io::Write;

/// The compact JSON text of the map, as bytes. The errors are `OutOfMemory` and those of
/// `as_raw_sourcemap`. For regular maps, Hermes maps and index maps there is only `OutOfMemory`.
pub fn encode_to_vec<M: Encodable>(alloc: Global, map: &M) -> Result<Vec<u8>>
    ensures text { IfOk result (λ text. IsEncoded (M.encodes map.now) text.items) }
    ensures error { IfErr result (λ e. UnlessMemory e (M.encodes map.now (Err e))) }
{
    map.compact_text(alloc)
}

/// Writes the compact JSON text of the map to a borrowed writer. The text is complete before the
/// first write. So nothing is written if `as_raw_sourcemap` returns an error, or if memory runs out
/// before the first write. If a write fails, the error is `Io`, or `OutOfMemory` if the write ran
/// out of memory. The writer may then hold any part of the text.
pub fn encode_to<M: Encodable, W: Write>(alloc: Global, map: &M, writer: &mut W) -> Result<()>
    ensures written { OnOk result ((text : List ℕ) × IsEncoded (M.encodes map.now) text
        × Appends (W.contents writer.old) (W.contents writer.new) text) }
    ensures unwritten { OnErr result ((writer.new ≡ writer.old)
        ⊎ ((text : List ℕ) × IsEncoded (M.encodes map.now) text)) }
    ensures error { IfErr result (λ e. UnlessMemory e (M.encodes map.now (Err e) ⊎ IsIo e)) }
{
    let text = encode_to_vec(alloc, map)?;
    writer.write_all(text.as_slice())?;
    Ok(())
}

/// Writes the compact JSON text of the map. The errors are those of [`encode_to`]. The writer is
/// consumed, so no clause says what it contains afterwards. [`encode_to`] borrows its writer and
/// has such a clause.
pub fn encode<M: Encodable, W: Write + Drop>(alloc: Global, map: &M, mut writer: W) -> Result<()>
    ensures encoded { OnOk result ((text : List ℕ) × IsEncoded (M.encodes map.now) text) }
    ensures error { IfErr result (λ e. UnlessMemory e (M.encodes map.now (Err e) ⊎ IsIo e)) }
{
    encode_to(alloc, map, &mut writer)
}

impl SourceMap {
    /// Writes the compact JSON text of the map. The errors are `OutOfMemory`, and `Io` if a write
    /// fails for another reason. The writer is consumed, so no clause says what it contains
    /// afterwards. [`encode_to`] borrows its writer and has such a clause.
    pub fn to_writer<W: Write + Drop>(&self, writer: W) -> Result<()>
        ensures encoded { OnOk result ((text : List ℕ) × IsEncoded (RecordAnswer self.now) text) }
        ensures error { IfErr result (λ e. UnlessMemory e (IsIo e)) }
    {
        encode(self.allocator(), self, writer)
    }

    /// The compact JSON text of the map as a data URL. The only error is `OutOfMemory`.
    pub fn to_data_url(&self) -> Result<String>
        ensures url { IfOk result (λ url. (text : List ℕ) × IsEncoded (RecordAnswer self.now) text
            × (string_bytes url ≡ data_url_of text) × Holds (string_bytes url) text) }
        // The text of a well-formed map decodes to a map with the same meaning. The decoded map has
        // the same parts, except for what `KeepsParts` allows.
        ensures reads_back { IfOk result (λ url. IsWellFormed self.now
            → ReadsBack (UrlHasResult RegularDecodes (string_bytes url)) (Restores self.now)) }
        ensures memory { IsOkUnless result OutOfMemory }
    {
        let alloc = self.allocator();
        let text = encode_to_vec(alloc, self)?;
        // prover: `?` on its own line
        let url = data_url(alloc, text.as_slice())?;
        Ok(url)
    }
}

/// A law: the encoded text of a map is the compact text of the JSON value of the map's record. This
/// value has no floating-point number, so `IsEncoded` determines the text.
pub fn written_maps_are_compact()
    ensures { (m : MapValue) (text : List ℕ)
        → IsEncoded (RecordAnswer m) text → IsCompactTextOf m text }
{}

/// A law: the text of a well-formed map decodes to a map with the same meaning at every position.
/// The decoded map has the same parts, but it may lack repeated tokens, name ids that name nothing,
/// and contents that belong to no source.
pub fn written_maps_read_back()
    ensures { (m : MapValue) (text : List ℕ)
        → IsEncoded (RecordAnswer m) text → IsWellFormed m
        → ReadsBack (BytesHaveResult RegularDecodes text) (Restores m) }
{}
