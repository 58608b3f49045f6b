//! What the rules look at in a JSON value.
ghost use Rattle.std.specs.Prelude.{◌≡◌, option_map, false};
ghost use Rattle.std.specs.Option.{option_map_or};
ghost use Rattle.serde_json.specs.Find.{as_array};
ghost use Rattle.serde_json.specs.View.{view, items_view, number_view};
ghost use Rattle.sourcemap_check_keys.specs.Values.{whole_float, whole_number, whole_of, passes, all_items, some_item};
ghost use Rattle.sourcemap_check_keys.specs.Values.{count_at, has, fails, list_fails, list_has, position_at, position_of, list_at};

use serde_json::{Number, Value};
use std::num::{nearest_i64_to_f64, saturating_f64_to_i64};

/// A test on a JSON value.
#[derive(Clone, Copy)]
pub enum Test {
    /// A text.
    Text,
    /// A text, or null.
    TextOrNull,
    /// A number.
    Number,
    /// A whole number.
    Whole,
    /// The number 3.
    Three,
    /// A whole number below 0.
    BelowZero,
    /// A whole number that is at least this one.
    AtLeast(usize),
    /// A line or column: a whole number from 0 to 18446744073709551615.
    Position,
    /// An object.
    Object,
    /// A list.
    Array,
}

// The whole number that a float is.
fn whole_float(x: f64) -> Option<i64>
    ensures { result ≡ whole_float x }
{
    let whole = saturating_f64_to_i64(x);
    if whole.unsigned_abs() <= 9007199254740992 && nearest_i64_to_f64(whole) == x {
        Some(whole)
    } else {
        None
    }
}

fn whole_number(number: &Number) -> Option<i128>
    ensures { result ≡ whole_number (number_view number.now) }
{
    if let Some(whole) = number.as_i128() {
        return Some(whole);
    }
    let float = number.as_f64()?;
    let whole = whole_float(float)?;
    Some(i128::from(whole))
}

/// The whole number that a value is.
pub fn whole_of(value: &Value) -> Option<i128>
    ensures { result ≡ whole_of (view value.now) }
{
    whole_number(value.as_number()?)
}

fn position_at(whole: i128) -> Option<u64>
    ensures { result ≡ position_at whole }
{
    if whole >= 0 && whole < 18446744073709551616 {
        Some(whole as u64)
    } else {
        None
    }
}

/// The line or column that a value is: a whole number from 0 to 18446744073709551615.
pub fn position_of(value: &Value) -> Option<u64>
    ensures { result ≡ position_of (view value.now) }
{
    position_at(whole_of(value)?)
}

/// Whether a value passes a test.
pub fn passes(value: &Value, test: Test) -> bool
    ensures { result ≡ passes test (view value.now) }
{
    match test {
        Test::Text => value.is_string(),
        Test::TextOrNull => value.is_string() || value.is_null(),
        Test::Number => value.is_number(),
        Test::Whole => whole_of(value).is_some(),
        Test::Three => whole_of(value).is_some_and(|whole| whole == 3),
        Test::BelowZero => whole_of(value).is_some_and(|whole| whole < 0),
        Test::AtLeast(least) => whole_of(value).is_some_and(|whole| whole >= least as i128),
        Test::Position => position_of(value).is_some(),
        Test::Object => value.is_object(),
        Test::Array => value.is_array(),
    }
}

fn all_items(items: &[Value], test: Test) -> bool
    ensures { result ≡ all_items test (items_view items.now) }
{
    for item in items {
        if !passes(item, test) {
            return false;
        }
    }
    true
}

fn some_item(items: &[Value], test: Test) -> bool
    ensures { result ≡ some_item test (items_view items.now) }
{
    for item in items {
        if passes(item, test) {
            return true;
        }
    }
    false
}

/// Whether an object has a key.
pub fn has(object: &Value, key: &str) -> bool
    ensures { result ≡ has key.now (view object.now) }
{
    object.get(key).is_some()
}

/// Whether an object has a key, and its value fails the test.
pub fn fails(object: &Value, key: &str, test: Test) -> bool
    ensures { result ≡ fails test key.now (view object.now) }
{
    match object.get(key) {
        Some(value) => !passes(value, test),
        None => false,
    }
}

/// Whether an object has a key, and its value is no list whose items all pass the test.
pub fn list_fails(object: &Value, key: &str, test: Test) -> bool
    ensures { result ≡ list_fails test key.now (view object.now) }
{
    match object.get(key) {
        Some(value) => !is_list_of(value, test),
        None => false,
    }
}

fn is_list_of(value: &Value, test: Test) -> bool
    ensures { result ≡ option_map_or (all_items test) (as_array (view value.now)) false }
{
    match value.as_array() {
        Some(items) => all_items(items.as_slice(), test),
        None => false,
    }
}

fn list_at<'a>(object: &'a Value, key: &str) -> Option<&'a Vec<Value>>
    ensures { option_map (λ v. items_view v.now.items) result ≡ list_at key.now (view object.now) }
{
    object.get(key)?.as_array()
}

/// Whether the list at a key has an item that passes the test.
pub fn list_has(object: &Value, key: &str, test: Test) -> bool
    ensures { result ≡ list_has test key.now (view object.now) }
{
    match list_at(object, key) {
        Some(items) => some_item(items.as_slice(), test),
        None => false,
    }
}

/// How many items the list at a key has; 0 if there is no list.
pub fn count_at(object: &Value, key: &str) -> usize
    ensures { result ≡ count_at key.now (view object.now) }
{
    match list_at(object, key) {
        Some(items) => items.as_slice().len(),
        None => 0,
    }
}
