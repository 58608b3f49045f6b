//! JSON values, read from bytes or copied, of which only what a caller names is kept.
ghost use Rattle.std.specs.Prelude.{◌≡◌, ◌≤◌, None, IfOk, IfErr, IsUtf8};
ghost use Rattle.serde_json.specs.Data.{depth as nesting};
ghost use Rattle.serde_json.specs.Read.{max_depth, read as read_json};
ghost use Rattle.serde_json.specs.View.{view, items_view, members_view};
ghost use Rattle.sourcemap_json_read.specs.Kept.{HoldsKept, kept, kept_items, kept_members};
ghost use Rattle.sourcemap_json_read.specs.declared.kept.ReadError.TheVariants.{Invalid};

use crate::exact::read_exactly;
pub use crate::levels::Level;
use crate::stop::Stop;
use crate::values::read_fast;
use serde_json::{Map, Value};
use std::alloc::{AllocError, AllocFailed, Global};

/// Why bytes were not read.
#[derive(Clone, Copy, Debug, PartialEq, Eq, Drop)]
pub enum ReadError {
    /// The bytes are not UTF-8, are not a JSON text, have more than 127 levels, have a number too
    /// large for `f64`, or escape one half of a surrogate pair without the other.
    Invalid,
    OutOfMemory,
}

impl From<AllocError> for ReadError {
    ghost use Rattle.sourcemap_json_read.specs.declared.kept.ReadError.TheVariants.{OutOfMemory};

    ghost from_gives = { λ _ e. e ≡ OutOfMemory };

    fn from(_refused: AllocError) -> ReadError {
        ReadError::OutOfMemory
    }
}

impl<T: Drop> From<AllocFailed<T>> for ReadError {
    ghost use Rattle.sourcemap_json_read.specs.declared.kept.ReadError.TheVariants.{OutOfMemory};

    ghost from_gives = { λ _ e. e ≡ OutOfMemory };

    fn from(_refused: AllocFailed<T>) -> ReadError {
        ReadError::OutOfMemory
    }
}

impl From<json::Invalid> for ReadError {
    ghost from_gives = { λ _ e. e ≡ Invalid };

    fn from(_invalid: json::Invalid) -> ReadError {
        ReadError::Invalid
    }
}

/// Reads a JSON text, and returns what is kept of its value. All of the text is checked, but of its
/// value only what is kept is held in memory. Of duplicate keys the last member counts. A text of a
/// form that the fast path does not support is read again, token by token.
pub fn kept_from_slice<L: Level>(alloc: Global, bytes: &[u8], level: L) -> Result<Value, ReadError>
    ensures ok { IfOk result (λ v. HoldsKept L.Level.inside level bytes.now (view v)) }
    ensures nests { IfOk result (λ v. nesting (view v) ≤ max_depth) }
    ensures err { IfErr result (λ e. e ≡ Invalid → IsUtf8 bytes.now → read_json bytes.now ≡ None) }
{
    match read_fast(alloc, bytes, level) {
        Ok(value) => Ok(value),
        Err(Stop::Unsupported) => read_exactly(alloc, bytes, level),
        Err(Stop::OutOfMemory) => Err(ReadError::OutOfMemory),
    }
}

/// Returns a copy of what is kept of a value. The error is out of memory.
#[cycle(copy)]
pub fn kept_copy<L: Level>(alloc: Global, value: &Value, level: L) -> Result<Value, AllocError>
    ensures { IfOk result (λ v. view v ≡ kept L.Level.inside level (view value.now)) }
{
    match value {
        Value::Null => Ok(Value::Null),
        Value::Bool(is_true) => Ok(Value::Bool(*is_true)),
        Value::Number(number) => Ok(Value::Number(*number)),
        Value::String(text) => Ok(Value::String(String::from_str(alloc, text.as_str())?)),
        Value::Array(items) => match level.enter_items() {
            Some(inner) => Ok(Value::Array(copy_items(alloc, items, inner)?)),
            None => Ok(Value::Array(Vec::new(alloc))),
        },
        Value::Object(members) => Ok(Value::Object(copy_members(alloc, members, level)?)),
    }
}

#[cycle(copy)]
fn copy_items<L: Level>(
    alloc: Global,
    items: &Vec<Value>,
    level: L,
) -> Result<Vec<Value>, AllocError>
    ensures { IfOk result (λ v. items_view v.items
        ≡ kept_items L.Level.inside level (items_view items.now.items)) }
{
    let mut copies = Vec::with_capacity(alloc, items.len())?;
    for item in items {
        copies.push(kept_copy(alloc, item, level)?)?;
    }
    Ok(copies)
}

#[cycle(copy)]
fn copy_members<L: Level>(
    alloc: Global,
    members: &Map<String, Value>,
    level: L,
) -> Result<Map<String, Value>, AllocError>
    ensures { IfOk result (λ m. members_view m.entries
        ≡ kept_members L.Level.inside level (members_view members.now.entries)) }
{
    let mut copies = Map::new(alloc);
    for (key, member) in members.iter() {
        let Some(inner) = level.enter(key.as_str()) else {
            continue;
        };
        let name = String::from_str(alloc, key.as_str())?;
        drop(copies.insert(name, kept_copy(alloc, member, inner)?)?);
    }
    Ok(copies)
}
