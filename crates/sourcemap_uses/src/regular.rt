//! Regular maps, builders and views of sources. Everything here comes from the facade
//! `sourcemap_maps`.
ghost use Rattle.std.specs.Prelude.{◌≡◌, ◌≤◌, ◌⊎◌, [], ◌∷◌, Err, IfErr, IfOk, IsOkUnless, IsTrue, None, Ok, Some, map, slice_get};
ghost use Rattle.std.specs.Prelude.{string_bytes, vec_len};
ghost use Rattle.std.specs.Bool.{Decides};
ghost use Rattle.std.specs.Option.{option_copied};
ghost use Rattle.sourcemap_maps.specs.Adjust.{adjusted};
ghost use Rattle.sourcemap_maps.specs.Answer.{UnlessMemory};
ghost use Rattle.sourcemap_maps.specs.Bytes.{BytesHaveResult, IsAnswerRead, Reading, UrlHasResult};
ghost use Rattle.sourcemap_maps.specs.Decode.{RegularDecodes};
ghost use Rattle.sourcemap_maps.specs.Encode.{ReadsBack, Restores};
ghost use Rattle.sourcemap_maps.specs.Lines.{line_bodies};
ghost use Rattle.sourcemap_maps.specs.Loading.{IsNoFolder, folder_of};
ghost use Rattle.sourcemap_maps.specs.Map.{IsWellFormed, MapValue, made_of};
ghost use Rattle.sourcemap_maps.specs.Prefixes.{without_prefix};
ghost use Rattle.sourcemap_maps.specs.Texts.{texts_of};
ghost use Rattle.sourcemap_maps.specs.Token.{token_value};
ghost use Rattle.sourcemap_maps.specs.TokenWalk.{position_of};
ghost use Rattle.sourcemap_maps.specs.Tokens.{AllWithin};
ghost use Rattle.sourcemap_maps.specs.Walk.{identifier_at};
ghost use Rattle.sourcemap_maps.specs.declared.errors.Error.TheVariants.{OutOfMemory};
ghost use Rattle.sourcemap_uses.specs.Regular.{AreCompared};

use sourcemap_maps::builder::SourceMapBuilder;
use sourcemap_maps::errors::Result;
use sourcemap_maps::sourceview::SourceView;
use sourcemap_maps::types::{RawToken, SourceMap, Token};
use std::alloc::Global;
use std::io::Read;
use std::rt::Files;

/// Adjusts a map, and returns the adjusted map as a data URL. If `map` is well-formed, the URL
/// decodes to a map with the meanings of the adjusted map. Returns the errors of `adjust_mappings`.
pub fn adjusted_url(mut map: SourceMap, adjustment: &SourceMap) -> Result<String>
    ensures url { IfOk result (λ url. (new : MapValue) × (adjusted map adjustment.now ≡ Ok new)
        × (IsWellFormed map
        → ReadsBack (UrlHasResult RegularDecodes (string_bytes url)) (Restores new))) }
    ensures error { IfErr result (λ e. UnlessMemory e (adjusted map adjustment.now ≡ Err e)) }
{
    // prover: error passed on by `match`
    match map.adjust_mappings(adjustment) {
        Ok(()) => map.to_data_url(),
        Err(error) => Err(error),
    }
}

/// Returns whether a reader and a slice hold equal maps. Two copies of the same bytes do. Returns
/// the errors of `SourceMap::from_slice` and `SourceMap::from_reader`.
pub fn reads_same_map<R: Read + Drop>(alloc: Global, reader: R, bytes: &[u8]) -> Result<bool>
    ensures answer { IfOk result (AreCompared (R.remaining reader) bytes.now) }
    ensures same { IfOk result (λ is. R.remaining reader ≡ Some bytes.now → IsTrue is) }
    ensures error { IfErr result (λ e.
        UnlessMemory e (BytesHaveResult RegularDecodes bytes.now (Err e))
        ⊎ Reading (R.remaining reader)
        (λ read. IsAnswerRead (λ (m : MapValue). m) (BytesHaveResult RegularDecodes read) (Err e))) }
{
    let map = SourceMap::from_slice(alloc, bytes)?;
    let read = SourceMap::from_reader(alloc, reader)?;
    Ok(read == map)
}

/// Returns the map of these sources and tokens as a data URL. A token without a source must have
/// 4294967295 as source id, original line and original column. The URL decodes to a map with the
/// meanings of this map. The only error is `OutOfMemory`.
pub fn url_of_tokens(alloc: Global, sources: Vec<String>, tokens: Vec<RawToken>) -> Result<String>
    requires few { vec_len sources ≤ 4294967295 }
    requires within { AllWithin (vec_len sources) 0 tokens.items }
    ensures reads_back { IfOk result (λ url.
        ReadsBack (UrlHasResult RegularDecodes (string_bytes url))
        (Restores (made_of None tokens.items [] (texts_of sources) []))) }
    ensures memory { IsOkUnless result OutOfMemory }
{
    let map = SourceMap::new(alloc, None, tokens, Vec::new(alloc), sources, None)?;
    // prover: clauses of a call after `?`
    let url = map.to_data_url()?;
    Ok(url)
}

/// Loads contents for the sources of a builder from files in `folder`, then strips `prefix` from
/// the sources, and returns the map. The error is `Io` of kind `InvalidInput` exactly if `folder` is
/// not absolute, unless memory runs out.
pub fn finish_loaded<F: Files>(
    rt: &F,
    mut builder: SourceMapBuilder,
    folder: &str,
    prefix: &str,
) -> Result<SourceMap>
    ensures sources { IfOk result
        (λ m. m.sources ≡ map (without_prefix (prefix.now ∷ [])) builder.sources) }
    ensures error { IfErr result
        (λ e. UnlessMemory e (IsNoFolder e × (folder_of folder.now None ≡ None))) }
{
    builder.load_local_source_contents(rt, folder, None)?;
    builder.strip_prefixes(&[prefix])?;
    builder.into_sourcemap()
}

/// Returns the first line of a source, without its terminator. Allocates nothing.
pub fn first_line(view: &SourceView) -> Option<&str>
    ensures { option_copied result ≡ slice_get (line_bodies view.now) 0 }
{
    let mut lines = view.lines();
    lines.next()
}

/// Returns the identifier at the generated position of a token, in a view of the generated text.
/// `None` if the text has no such position, or no identifier there.
pub fn word_at<'a>(view: &'a SourceView, token: Token<'a>) -> Option<&'a str>
    ensures { option_copied result ≡ identifier_at view.now (position_of (token_value token.entry)) }
{
    let mut walk = view.rev_token_iter(token);
    let (_, word) = walk.next()?;
    word
}
