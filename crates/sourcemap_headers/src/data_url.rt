//! Data URLs of source maps, read and written.
ghost use Rattle.std.specs.Prelude.{◌≡◌, ℕ, List, Result as Answer, codes, IfOk, IsOkUnless, option_map, string_bytes};
ghost use Rattle.sourcemap_errors.specs.declared.errors.Error.{Error as SourceMapError};
ghost use Rattle.sourcemap_errors.specs.Answer.{IsAnswer};
ghost use Rattle.sourcemap_headers.specs.DataUrl.{after_front, without_charset, body_of, data_url_of, DataUrlAnswer};
ghost use Rattle.sourcemap_headers.specs.DataUrl.{Holds};

use base64::DecodeAllocError;
use base64::engine::general_purpose::STANDARD;
use sourcemap_errors::errors::{Error, Result};
use std::alloc::Global;

fn after_front<'a>(front: &[u8], text: &'a [u8]) -> Option<&'a [u8]>
    ensures { option_map (λ rest. rest.now) result ≡ after_front front.now text.now }
{
    if text.starts_with(front) {
        Some(&text[front.len()..])
    } else {
        None
    }
}

fn without_charset(text: &[u8]) -> &[u8]
    ensures { result.now ≡ without_charset text.now }
{
    if let Some(rest) = after_front(b";charset=utf-8", text) {
        return rest;
    }
    if let Some(rest) = after_front(b";charset=utf8", text) {
        return rest;
    }
    text
}

fn body(url: &[u8]) -> Option<&[u8]>
    ensures { option_map (λ rest. rest.now) result ≡ body_of url.now }
{
    let rest = after_front(b"data:application/json", url)?;
    after_front(b";base64,", without_charset(rest))
}

/// Decodes the data URL of a source map: `data:application/json`, then `;charset=utf-8`,
/// `;charset=utf8` or nothing, then `;base64,` and standard base64. Letter case matters. The base64
/// must equal the standard encoding of the decoded bytes: it is padded, it has no white space, and
/// the unused bits of its last symbol are 0. The error is `InvalidDataUrl` for any other text, or
/// `OutOfMemory`.
pub fn data_url_bytes(alloc: Global, url: &str) -> Result<Vec<u8>>
    ensures { IsAnswer (λ v. v.items) (DataUrlAnswer url.now) result }
{
    let Some(body) = body(url.as_bytes()) else {
        return Err(Error::InvalidDataUrl);
    };
    match STANDARD.decode(alloc, body) {
        Ok(bytes) => Ok(bytes),
        Err(DecodeAllocError::OutOfMemory) => Err(Error::OutOfMemory),
        Err(DecodeAllocError::DecodeError(_)) => Err(Error::InvalidDataUrl),
    }
}

/// Encodes bytes as a data URL with the charset `utf-8`. For this URL `data_url_bytes` returns the
/// same bytes, or the error `OutOfMemory`. The only error of the encoding is `OutOfMemory`.
pub fn data_url(alloc: Global, bytes: &[u8]) -> Result<String>
    ensures text { IfOk result (λ url. string_bytes url ≡ data_url_of bytes.now) }
    ensures reads_back { IfOk result (λ url. Holds (string_bytes url) bytes.now) }
    ensures memory { IsOkUnless result Error.OutOfMemory }
{
    let mut url = String::from_str(alloc, "data:application/json;charset=utf-8;base64,")?;
    STANDARD.encode_string(bytes, &mut url)?;
    Ok(url)
}

/// A law: `url` alone determines the result of `data_url_bytes`, except the error `OutOfMemory`.
pub fn data_urls_have_one_answer()
    ensures { (url : List ℕ) (a b : Answer (List ℕ) SourceMapError)
        → DataUrlAnswer url a → DataUrlAnswer url b → a ≡ b }
{}
