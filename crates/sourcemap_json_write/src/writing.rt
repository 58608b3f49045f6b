//! JSON values as compact JSON texts. `serde_json` writes the values that hold a float.
ghost use Rattle.std.specs.Prelude.{◌≡◌, ◌≤◌, ◌++◌, ◌∷◌, [], Some, false, IfOk, OnOk, int_lt, pos, string_bytes};
ghost use Rattle.std.specs.Prelude.{FitsSigned, IsUtf8};
ghost use Rattle.std.specs.Int.{w64};
ghost use Rattle.json.specs.Ascii.{open_brace, open_bracket};
ghost use Rattle.json.specs.Print.{quoted};
ghost use Rattle.serde_json.specs.Data.{depth};
ghost use Rattle.serde_json.specs.Read.{read, max_depth};
ghost use Rattle.serde_json.specs.View.{view, number_view, items_view, members_view};
ghost use Rattle.serde_json.specs.Written.{has_float, comma_if, compact_text, items_text, members_text, number_text};
ghost use Rattle.sourcemap_json_write.specs.Writing.{IsPlainNumber, IsPlainValue, ArePlainItems, ArePlainMembers};

use crate::quoting::{put_byte, put_quoted};
use crate::short::put_bytes;
use itoa::Buffer;
use serde_json::{Map, Number, Value};
use std::alloc::{AllocError, Global};
use std::mem;

// While a short string is put, the vector is longer than the string by up to this many bytes.
const SPARE: usize = 64;

/// Returns the compact JSON text of a value, as `Value::to_vec` does, but faster where strings have
/// escapes. The error is out of memory.
pub fn value_to_vec(alloc: Global, value: &Value) -> Result<Vec<u8>, AllocError>
    ensures text { IfOk result (λ b. has_float (view value.now) ≡ false
        → b.items ≡ compact_text (view value.now)) }
    ensures utf8 { IfOk result (λ b. IsUtf8 b.items) }
    ensures reads_back { IfOk result (λ b. depth (view value.now) ≤ max_depth
        → read b.items ≡ Some (view value.now)) }
{
    let mut out = Vec::with_capacity(alloc, 128)?;
    match put_value(&mut out, value) {
        Ok(()) => Ok(out),
        Err(Refusal::Fraction) => value.to_vec(alloc),
        Err(Refusal::OutOfMemory) => Err(AllocError),
    }
}

/// Calls `value_to_vec` and returns its bytes as a `String`. The error is out of memory.
pub fn value_to_string(alloc: Global, value: &Value) -> Result<String, AllocError>
    ensures text { IfOk result (λ s. has_float (view value.now) ≡ false
        → string_bytes s ≡ compact_text (view value.now)) }
    ensures reads_back { IfOk result (λ s. depth (view value.now) ≤ max_depth
        → read (string_bytes s) ≡ Some (view value.now)) }
{
    let bytes = value_to_vec(alloc, value)?;
    Ok(unsafe { String::from_utf8_unchecked(bytes) })
}

/// Returns a text as a JSON string, quoted and escaped. The error is out of memory.
pub fn text_to_string(alloc: Global, text: &str) -> Result<String, AllocError>
    ensures text { IfOk result (λ s. string_bytes s ≡ quoted text.now) }
    ensures utf8 { OnOk result (IsUtf8 text.now) }
{
    let mut out = String::with_capacity(alloc, text.len().saturating_add(SPARE))?;
    push_quoted(&mut out, text)?;
    Ok(out)
}

/// Appends a text to `out` as a JSON string, quoted and escaped. The error is out of memory, and
/// then `out` is empty.
pub fn push_quoted(out: &mut String, text: &str) -> Result<(), AllocError>
    ensures text { OnOk result (string_bytes out.new ≡ string_bytes out.old ++ quoted text.now) }
    ensures utf8 { OnOk result (IsUtf8 text.now) }
{
    let empty = String::new(*out.allocator());
    let mut bytes = mem::replace(out, empty).into_bytes();
    put_quoted(&mut bytes, text.as_bytes())?;
    *out = unsafe { String::from_utf8_unchecked(bytes) };
    Ok(())
}

/// Why a value was not written.
#[derive(Drop)]
enum Refusal {
    /// The value holds a float. `serde_json` then writes the whole value.
    Fraction,
    OutOfMemory,
}

impl From<AllocError> for Refusal {
    fn from(_error: AllocError) -> Refusal {
        Refusal::OutOfMemory
    }
}

/// Appends the compact JSON text of a value to `out`. The error is `Fraction` if the value holds a
/// float, or `OutOfMemory`. This function is inlined into `put_items` and `put_members`, so only
/// arrays and objects need a recursive call. Such a call takes a large stack frame.
#[cycle(put)]
#[inline(always)]
fn put_value(out: &mut Vec<u8>, value: &Value) -> Result<(), Refusal>
    ensures text { OnOk result (out.new.items ≡ out.old.items ++ compact_text (view value.now)) }
    ensures plain { OnOk result (IsPlainValue (view value.now)) }
{
    match value {
        Value::Null => out.extend_from_slice(b"null")?,
        Value::Bool(true) => out.extend_from_slice(b"true")?,
        Value::Bool(false) => out.extend_from_slice(b"false")?,
        Value::Number(number) => put_number(out, number)?,
        Value::String(text) => put_quoted(out, text.as_str().as_bytes())?,
        Value::Array(items) => put_items(out, items)?,
        Value::Object(members) => put_members(out, members)?,
    }
    Ok(())
}

#[cycle(put)]
#[inline(never)]
fn put_items(out: &mut Vec<u8>, items: &Vec<Value>) -> Result<(), Refusal>
    ensures text { OnOk result (out.new.items
        ≡ out.old.items ++ open_bracket ∷ items_text false (items_view items.now.items)) }
    ensures plain { OnOk result (ArePlainItems (items_view items.now.items)) }
{
    put_byte(out, b'[')?;
    let mut later = false;
    for item in items {
        put_comma(out, later)?;
        put_value(out, item)?;
        later = true;
    }
    put_byte(out, b']')?;
    Ok(())
}

#[cycle(put)]
#[inline(never)]
fn put_members(out: &mut Vec<u8>, members: &Map<String, Value>) -> Result<(), Refusal>
    ensures text { OnOk result (out.new.items
        ≡ out.old.items ++ open_brace ∷ members_text false (members_view members.now.entries)) }
    ensures plain { OnOk result (ArePlainMembers (members_view members.now.entries)) }
{
    put_byte(out, b'{')?;
    let mut later = false;
    for (key, member) in members.iter() {
        put_comma(out, later)?;
        put_quoted(out, key.as_str().as_bytes())?;
        put_byte(out, b':')?;
        put_value(out, member)?;
        later = true;
    }
    put_byte(out, b'}')?;
    Ok(())
}

#[inline(always)]
fn put_comma(out: &mut Vec<u8>, later: bool) -> Result<(), AllocError>
    ensures { OnOk result (out.new.items ≡ out.old.items ++ comma_if later) }
{
    if later {
        put_byte(out, b',')?;
    }
    Ok(())
}

/// Appends an integer to `out`, in decimal. The error is `Fraction` for a float, or `OutOfMemory`.
fn put_number(out: &mut Vec<u8>, number: &Number) -> Result<(), Refusal>
    ensures text { OnOk result
        (out.new.items ≡ out.old.items ++ number_text (number_view number.now)) }
    ensures plain { OnOk result (IsPlainNumber (number_view number.now)) }
{
    let mut buffer = Buffer::new();
    if let Some(whole) = number.as_u64() {
        put_bytes(out, buffer.format(whole).as_bytes())?;
        return Ok(());
    }
    let Some(negative) = number.as_i64() else {
        return Err(Refusal::Fraction);
    };
    if !is_below_zero(negative) {
        return Err(Refusal::Fraction);
    }
    put_bytes(out, buffer.format(negative).as_bytes())?;
    Ok(())
}

fn is_below_zero(whole: i64) -> bool
    ensures below { result ≡ int_lt whole (pos 0) }
    ensures fits { FitsSigned w64 whole }
{
    whole < 0
}
