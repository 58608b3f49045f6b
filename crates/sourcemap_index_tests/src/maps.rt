// Decodes JSON text to maps, and prints records and JSON values as text.
use serde_json::Value;
use sourcemap::decoder::decode_slice;
use sourcemap::errors::{Error, Result};
use sourcemap::jsontypes::RawSourceMap;
use sourcemap::types::{DecodedMap, SourceMapIndex};
use sourcemap_test_support::results::{box_result, error_of, owned_text};
use std::alloc::Global;

/// Decodes a text to a map of any kind. The errors are those of `decode_slice`.
pub fn map_of(alloc: Global, text: &str) -> Result<Box<DecodedMap>> {
    box_result(alloc, decode_slice(alloc, text.as_bytes()))
}

/// The index map decoded from a text. The errors are those of `decode_slice`, and
/// `IncompatibleSourceMap` if the text is a regular map or a Hermes map.
pub fn index_of(alloc: Global, text: &str) -> Result<Box<SourceMapIndex>> {
    box_result(alloc, index_in(decode_slice(alloc, text.as_bytes())?))
}

fn index_in(map: DecodedMap) -> Result<SourceMapIndex> {
    match map {
        DecodedMap::Index(index) => Ok(index),
        _ => Err(Error::IncompatibleSourceMap),
    }
}

/// The JSON text of a record. Returns the error of `record` if there is one. The only other error
/// is out of memory.
pub fn record_text(alloc: Global, record: Result<RawSourceMap>) -> Result<String> {
    value_text(alloc, record?.into_value(alloc))
}

/// The JSON text of a value. If `value` is an error, returns the text of the error instead. Out of
/// memory stays an error.
pub fn value_text(alloc: Global, value: Result<Value>) -> Result<String> {
    match value {
        Ok(value) => owned_text(value.to_string(alloc)),
        error => error_of(alloc, error),
    }
}
