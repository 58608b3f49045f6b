//! Records, data URLs and references. Everything here comes from the facade `sourcemap_json`.
ghost use Rattle.std.specs.Prelude.{◌≡◌, ◌↔◌, ℕ, List, IfErr, IfOk, IsOkUnless, IsTrue, None, Some, option_map, string_bytes};
ghost use Rattle.serde_json.specs.View.{view};
ghost use Rattle.sourcemap_json.specs.Answer.{IsAnswer, UnlessMemory};
ghost use Rattle.sourcemap_json.specs.DataUrl.{Holds};
ghost use Rattle.sourcemap_json.specs.Detection.{AreMap};
ghost use Rattle.sourcemap_json.specs.Jsontypes.{Tree, record_of, written};
ghost use Rattle.sourcemap_json.specs.Reference.{first_reference};
ghost use Rattle.sourcemap_json.specs.declared.errors.Error.TheVariants.{BadJson, OutOfMemory};
ghost use Rattle.sourcemap_json.specs.declared.errors.JsonFault.TheVariants.{Shape};
ghost use Rattle.sourcemap_uses.specs.Records.{FileOfReference};

use serde_json::Value;
use sourcemap_json::data_url::data_url_bytes;
use sourcemap_json::detector::{is_sourcemap_slice, locate_sourcemap_reference_slice};
use sourcemap_json::errors::{Error, Result};
use sourcemap_json::jsontypes::RawSourceMap;
use sourcemap_json::laws::data_urls_have_one_answer;
use std::alloc::Global;

/// Returns whether a text is a data URL (see `data_url_bytes`) of bytes that have the keys of a
/// source map (see `is_sourcemap_slice`). The only error is `OutOfMemory`.
pub fn url_holds_map(alloc: Global, url: &str) -> Result<bool>
    ensures exact { IfOk result
        (λ is. IsTrue is ↔ ((bytes : List ℕ) × Holds url.now bytes × AreMap bytes)) }
    ensures memory { IsOkUnless result OutOfMemory }
{
    data_urls_have_one_answer();
    match data_url_bytes(alloc, url) {
        Ok(bytes) => is_sourcemap_slice(alloc, bytes.as_slice()),
        // prover: match on the error alone
        Err(error) => match error {
            Error::InvalidDataUrl => Ok(false),
            error => Err(error),
        },
    }
}

/// Returns the path of the file to which the first reference in a text leads, resolved against
/// `path`, the path of the text. `None` if the text has no reference, or if
/// `SourceMapRef::resolve_path` resolves it to no file. Returns the errors of
/// `locate_sourcemap_reference_slice`.
pub fn referenced_file(alloc: Global, text: &[u8], path: &str) -> Result<Option<String>>
    ensures { IsAnswer (option_map string_bytes)
        (FileOfReference (first_reference text.now) path.now) result }
{
    match locate_sourcemap_reference_slice(alloc, text) {
        Ok(Some(reference)) => reference.resolve_path(path),
        Ok(None) => Ok(None),
        Err(error) => Err(error),
    }
}

/// Returns the JSON value of the record in a JSON value: without unknown keys, and with the keys in
/// byte order. The error is `BadJson(Shape)` exactly if the value is no record. Any other error is
/// `OutOfMemory`.
pub fn normalized(alloc: Global, value: &Value) -> Result<Value>
    ensures value { IfOk result (λ new. (t : Tree)
        × (record_of (view value.now) ≡ Some t) × (view new ≡ written t)) }
    ensures error { IfErr result (λ e. UnlessMemory e
        ((e ≡ BadJson Shape) × (record_of (view value.now) ≡ None))) }
{
    // prover: error passed on by `match`
    match RawSourceMap::from_value(alloc, value) {
        Ok(raw) => raw.into_value(alloc),
        Err(error) => Err(error),
    }
}
