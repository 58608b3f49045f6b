// Fields of a record, read from JSON values and written as JSON values.
ghost use Rattle.std.specs.Prelude.{◌≡◌, ℕ, List, Option, Some, Ok, map, option_map, string_bytes, IfOk, IfErr, IfSome, OnOk};
ghost use Rattle.std.specs.List.{AllByRecursion};
ghost use Rattle.serde_json.specs.Data.{Data, string};
ghost use Rattle.serde_json.specs.Find.{get, get_member};
ghost use Rattle.serde_json.specs.View.{view, items_view, members_view};
ghost use Rattle.sourcemap_errors.specs.declared.errors.Error.TheVariants.{OutOfMemory};
ghost use Rattle.sourcemap_records.specs.Jsontypes.{FitsU32, is_there};
ghost use Rattle.sourcemap_records.specs.Field.{IsUnbounded, due, GivesReading, Makes, put_if, written_number, written_or_null, written_list, KeepsOthers, any, text, small_number, or_null, items_read, found, list, at, required};

use serde_json::{Map, Value, put};
use sourcemap_errors::errors::{Error, JsonFault, Result};
use std::alloc::Global;

// A type that a field of a record may have.
pub(crate) trait Field: Drop {
    // The type of the value that represents a field in contracts.
    ghost Seen: { Type 0 };

    // The value that represents a field in contracts.
    ghost see: { Self → Seen };

    // What a JSON value is read as, or `None` if it is not valid for this type.
    ghost reading: { Data → Option Seen };

    // What a field is written as.
    ghost writing: { Seen → Data };

    // A bound that `see field` meets for each `field` of this type. For `u32`: below 2^32.
    ghost in_range: { Seen → Type 0 };

    // Consumes `value`. Strings are moved, not copied.
    fn from_json_value(alloc: Global, value: Value) -> Result<Self>
        ensures { GivesReading see result (reading (view value)) };

    // Consumes the field. Strings are moved, not copied.
    fn to_json_value(self, alloc: Global) -> Result<Value>
        ensures value { Makes view result (writing (see self)) }
        ensures in_range { OnOk result (in_range (see self)) };

    fn duplicate(&self, alloc: Global) -> Result<Self>
        ensures { Makes see result (see self.now) };
}

impl Field for Value {
    ghost Seen = { Data };

    ghost see = { view };

    ghost reading = { any };

    ghost writing = { λ d. d };

    ghost in_range = { IsUnbounded };

    fn from_json_value(_alloc: Global, value: Value) -> Result<Value> {
        Ok(value)
    }

    fn to_json_value(self, _alloc: Global) -> Result<Value> {
        Ok(self)
    }

    fn duplicate(&self, _alloc: Global) -> Result<Value> {
        Ok(self.clone()?)
    }
}

impl Field for String {
    ghost Seen = { List ℕ };

    ghost see = { string_bytes };

    ghost reading = { text };

    ghost writing = { string };

    ghost in_range = { IsUnbounded };

    fn from_json_value(_alloc: Global, value: Value) -> Result<String> {
        match value {
            Value::String(text) => Ok(text),
            _ => Err(Error::BadJson(JsonFault::Shape)),
        }
    }

    fn to_json_value(self, _alloc: Global) -> Result<Value> {
        Ok(Value::String(self))
    }

    fn duplicate(&self, alloc: Global) -> Result<String> {
        Ok(String::from_str(alloc, self.as_str())?)
    }
}

impl Field for u32 {
    ghost Seen = { ℕ };

    ghost see = { λ n. n };

    ghost reading = { small_number };

    ghost writing = { written_number };

    ghost in_range = { FitsU32 };

    fn from_json_value(_alloc: Global, value: Value) -> Result<u32> {
        read_number(&value)
    }

    fn to_json_value(self, _alloc: Global) -> Result<Value> {
        Ok(Value::from(self))
    }

    fn duplicate(&self, _alloc: Global) -> Result<u32> {
        Ok(*self)
    }
}

fn read_number(value: &Value) -> Result<u32>
    ensures { result ≡ due (small_number (view value.now)) }
{
    match value.as_u64() {
        Some(n) if n < 1 << 32 => Ok(n as u32),
        _ => Err(Error::BadJson(JsonFault::Shape)),
    }
}

impl<T: Field> Field for Option<T> {
    ghost Seen = { Option T.Seen };

    ghost see = { option_map T.see };

    ghost reading = { or_null T.reading };

    ghost writing = { written_or_null T.writing };

    ghost in_range = { λ o. IfSome o T.in_range };

    fn from_json_value(alloc: Global, value: Value) -> Result<Option<T>> {
        if let Value::Null = value {
            return Ok(None);
        }
        Ok(Some(T::from_json_value(alloc, value)?))
    }

    fn to_json_value(self, alloc: Global) -> Result<Value> {
        match self {
            Some(field) => field.to_json_value(alloc),
            None => Ok(Value::Null),
        }
    }

    fn duplicate(&self, alloc: Global) -> Result<Option<T>> {
        match self {
            Some(field) => Ok(Some(field.duplicate(alloc)?)),
            None => Ok(None),
        }
    }
}

impl<T: Field> Field for Vec<T> {
    ghost Seen = { List T.Seen };

    ghost see = { λ v. map T.see v.items };

    ghost reading = { list T.reading };

    ghost writing = { written_list T.writing };

    ghost in_range = { AllByRecursion T.in_range };

    fn from_json_value(alloc: Global, value: Value) -> Result<Vec<T>> {
        match value {
            Value::Array(items) => items_from_json(alloc, items),
            _ => Err(Error::BadJson(JsonFault::Shape)),
        }
    }

    fn to_json_value(self, alloc: Global) -> Result<Value> {
        Ok(Value::Array(items_to_json(alloc, self)?))
    }

    fn duplicate(&self, alloc: Global) -> Result<Vec<T>> {
        let mut copies = Vec::with_capacity(alloc, self.len())?;
        for field in self {
            copies.push(field.duplicate(alloc)?)?;
        }
        Ok(copies)
    }
}

fn items_from_json<T: Field>(alloc: Global, items: Vec<Value>) -> Result<Vec<T>>
    ensures { GivesReading (λ v. map T.see v.items) result
        (items_read T.reading (items_view items.items)) }
{
    let mut fields = Vec::with_capacity(alloc, items.len())?;
    for item in items {
        fields.push(T::from_json_value(alloc, item)?)?;
    }
    Ok(fields)
}

fn items_to_json<T: Field>(alloc: Global, fields: Vec<T>) -> Result<Vec<Value>>
    ensures ok { IfOk result (λ v. map view v.items ≡ map T.writing (map T.see fields.items)) }
    ensures in_range { OnOk result (AllByRecursion T.in_range (map T.see fields.items)) }
    ensures err { IfErr result (λ e. e ≡ OutOfMemory) }
{
    let mut items = Vec::with_capacity(alloc, fields.len())?;
    for field in fields {
        items.push(field.to_json_value(alloc)?)?;
    }
    Ok(items)
}

pub(crate) fn remove_value(members: &mut Map<String, Value>, key: &str) -> Option<Value>
    ensures value { option_map view result
        ≡ get_member key.now (members_view members.old.entries) }
    ensures others { KeepsOthers key.now (members_view members.old.entries)
        (members_view members.new.entries) }
{
    members.remove(key)
}

// Removes the value at `key` and reads it as a field. Returns `None` if the key is missing or null.
// A value that is not valid for `F` is `BadJson(Shape)`.
pub(crate) fn read_optional<F: Field>(
    alloc: Global,
    members: &mut Map<String, Value>,
    key: &str,
) -> Result<Option<F>>
    ensures value { GivesReading (option_map F.see) result
        (at key.now F.reading (members_view members.old.entries)) }
    ensures others { KeepsOthers key.now (members_view members.old.entries)
        (members_view members.new.entries) }
{
    match remove_value(members, key) {
        Some(value) => Field::from_json_value(alloc, value),
        None => Ok(None),
    }
}

// The items of an array, or `None` for null. Any other value is `BadJson(Shape)`.
fn value_list(value: Value) -> Result<Option<Vec<Value>>>
    ensures { GivesReading (option_map (λ v. map view v.items)) result
        (or_null (list any) (view value)) }
{
    match value {
        Value::Null => Ok(None),
        Value::Array(items) => Ok(Some(items)),
        _ => Err(Error::BadJson(JsonFault::Shape)),
    }
}

// Removes the array at `key` and returns its items, or `None` if the key is missing or null. Any
// other value is `BadJson(Shape)`. Moves the `Vec` as a whole, not item by item.
pub(crate) fn read_values(members: &mut Map<String, Value>, key: &str) -> Result<Option<Vec<Value>>>
    ensures value { GivesReading (option_map (λ v. map view v.items)) result
        (at key.now (list any) (members_view members.old.entries)) }
    ensures others { KeepsOthers key.now (members_view members.old.entries)
        (members_view members.new.entries) }
{
    match remove_value(members, key) {
        Some(value) => value_list(value),
        None => Ok(None),
    }
}

// Removes the value at `key` and reads it as a field. A missing key and a value that is not valid
// for `F` are `BadJson(Shape)`.
pub(crate) fn read_required<F: Field>(
    alloc: Global,
    members: &mut Map<String, Value>,
    key: &str,
) -> Result<F>
    ensures value { GivesReading F.see result
        (required key.now F.reading (members_view members.old.entries)) }
    ensures others { KeepsOthers key.now (members_view members.old.entries)
        (members_view members.new.entries) }
{
    match remove_value(members, key) {
        Some(value) => F::from_json_value(alloc, value),
        None => Err(Error::BadJson(JsonFault::Shape)),
    }
}

// Inserts `field` at `key`, or nothing if `field` is `None`.
pub(crate) fn put_field<F: Field>(
    alloc: Global,
    members: &mut Map<String, Value>,
    key: &str,
    field: Option<F>,
) -> Result<()>
    ensures ok { OnOk result (members_view members.new.entries
        ≡ put_if key.now (option_map F.writing (option_map F.see field))
        (members_view members.old.entries)) }
    ensures in_range { OnOk result (IfSome (option_map F.see field) F.in_range) }
    ensures err { IfErr result (λ e. e ≡ OutOfMemory) }
{
    if let Some(field) = field {
        put(members, alloc, key, field.to_json_value(alloc)?)?;
    }
    Ok(())
}

// Inserts `values` at `key` as an array, or nothing for `None`. Moves the `Vec` as a whole, not
// item by item.
pub(crate) fn put_values(
    alloc: Global,
    members: &mut Map<String, Value>,
    key: &str,
    values: Option<Vec<Value>>,
) -> Result<()>
    ensures ok { OnOk result (members_view members.new.entries
        ≡ put_if key.now (option_map (written_list (λ d. d))
        (option_map (λ v. map view v.items) values)) (members_view members.old.entries)) }
    ensures err { IfErr result (λ e. e ≡ OutOfMemory) }
{
    if let Some(values) = values {
        put(members, alloc, key, Value::Array(values))?;
    }
    Ok(())
}

// Returns the number at `key`, or `None` if the key is missing or null. A value that is not a `u32`
// is `BadJson(Shape)`.
pub(crate) fn number_at(value: &Value, key: &str) -> Result<Option<u32>>
    ensures { result ≡ due (found small_number (get key.now (view value.now))) }
{
    match value.get(key) {
        None | Some(Value::Null) => Ok(None),
        Some(number) => Ok(Some(read_number(number)?)),
    }
}

// Whether a key has a value other than null.
pub(crate) fn has(value: &Value, key: &str) -> bool
    ensures { result ≡ is_there (get key.now (view value.now)) }
{
    match value.get(key) {
        None | Some(Value::Null) => false,
        Some(_) => true,
    }
}
