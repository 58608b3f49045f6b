//! Records from JSON texts, and the JSON texts of records and values.
use crate::results::{box_result, owned_text};
use serde_json::Value;
use sourcemap_errors::errors::Result;
use sourcemap_records::jsontypes::RawSourceMap;
use std::alloc::Global;

/// The record that is read from this JSON text.
pub fn record(alloc: Global, text: &str) -> Result<RawSourceMap> {
    RawSourceMap::from_owned(alloc, Value::from_str(alloc, text)?)
}

/// The same record in a box. prover: one drop
pub fn boxed_record(alloc: Global, text: &str) -> Result<Box<RawSourceMap>> {
    box_result(alloc, record(alloc, text))
}

/// The JSON text of a record, or the error of `record`. The only other error is `OutOfMemory`.
pub fn record_text(alloc: Global, record: Result<RawSourceMap>) -> Result<String> {
    value_text(alloc, record?.into_value(alloc))
}

/// The JSON text of a value, or the error of `value`. The only other error is `OutOfMemory`.
pub fn value_text(alloc: Global, value: Result<Value>) -> Result<String> {
    match value {
        Ok(value) => owned_text(value.to_string(alloc)),
        Err(error) => Err(error),
    }
}
