//! The fast path: what is kept of a JSON text. Reads the tokens one by one with a cursor, and moves
//! the decoded strings into the value.
ghost use Rattle.std.specs.Prelude.{◌≡◌, length, IfOk, IsUtf8, is_some};
ghost use Rattle.serde_json.specs.Data.{Data, Items, Members, no_members};
ghost use Rattle.serde_json.specs.View.{view, items_view, members_view};
ghost use Rattle.sourcemap_json_read.specs.Cursor.{Remaining, Takes};
ghost use Rattle.sourcemap_json_read.specs.Kept.{AreKeptMembers, HoldsKept, IsKept, kept_list};
ghost use Rattle.sourcemap_json_read.specs.Values.{BeginsWithValue, BeginsWithItems, BeginsWithMembers};

use crate::cursor::{Cursor, Step};
use crate::levels::{Level, level_inside, level_of_items};
use crate::stop::Stop;
use serde_json::{Map, Value};
use std::alloc::Global;

// The most levels of arrays and objects that `serde_json` accepts.
pub(crate) const MAX_DEPTH: usize = 127;

/// Reads a JSON text, and returns what is kept of its value. The error is `Unsupported` if the text
/// has a form that the fast path does not support. Any other error is out of memory.
pub(crate) fn read_fast<L: Level>(alloc: Global, bytes: &[u8], level: L) -> Result<Value, Stop>
    ensures { IfOk result (λ v. HoldsKept L.Level.inside level bytes.now (view v)) }
{
    let mut cursor = Cursor::new(alloc, bytes)?;
    let first = cursor.next(alloc, true)?;
    let value = read(alloc, first, &mut cursor, Some(level), MAX_DEPTH)?;
    match cursor.next(alloc, false)? {
        Step::End => Ok(value),
        _ => Err(Stop::Unsupported),
    }
}

/// Reads the value that begins with `first`, the token that the cursor read last, and returns what
/// is kept of it at `level`. Without a level the value is only checked, and what is returned means
/// nothing. The value has at most `depth` levels. The error is `Unsupported` if no value begins with
/// `first`, if the value has more levels, or if the value has another form that the fast path does
/// not support. Any other error is out of memory. Inlined into the loops over items and members,
/// which saves a call for each string and each number.
#[cycle(read)]
#[inline(always)]
fn read<L: Level>(
    alloc: Global,
    first: Step,
    cursor: &mut Cursor<'_>,
    level: Option<L>,
    depth: usize,
) -> Result<Value, Stop>
    ensures value { IfOk result (λ v. (old : Remaining) → Takes (is_some level) old first cursor.old
        → (d : Data) × BeginsWithValue depth old.tokens d cursor.new.tokens
        × IsKept L.Level.inside level d (view v)) }
    ensures utf8 { IfOk result (λ _. IsUtf8 cursor.new.bytes → IsUtf8 cursor.old.bytes) }
{
    match first {
        Step::Text(text) => Ok(Value::String(text)),
        Step::Number(number) => Ok(Value::Number(number)),
        Step::Bool(is_true) => Ok(Value::Bool(is_true)),
        Step::Null => Ok(Value::Null),
        Step::EndObject | Step::EndArray | Step::Key(_) | Step::End => Err(Stop::Unsupported),
        Step::BeginArray => {
            if depth == 0 {
                return Err(Stop::Unsupported);
            }
            let inner = level_of_items(level);
            Ok(Value::Array(read_items(alloc, cursor, inner, depth - 1)?))
        }
        Step::BeginObject => {
            if depth == 0 {
                return Err(Stop::Unsupported);
            }
            Ok(Value::Object(read_members(alloc, cursor, level, depth - 1)?))
        }
    }
}

/// Reads the rest of an array after its opening bracket: the items and the closing bracket. Returns
/// what is kept of the items, which have this level, and nothing without a level. Each item has at
/// most `depth` levels. The error is `Unsupported` if an item has more levels, or if the rest has
/// another form that the fast path does not support. Any other error is out of memory.
#[cycle(read)]
#[inline(never)]
fn read_items<L: Level>(
    alloc: Global,
    cursor: &mut Cursor<'_>,
    level: Option<L>,
    depth: usize,
) -> Result<Vec<Value>, Stop>
    ensures items { IfOk result (λ v. (ds : Items)
        × BeginsWithItems depth (length cursor.old.tokens) cursor.old.tokens ds cursor.new.tokens
        × (items_view v.items ≡ kept_list L.Level.inside level ds)) }
    ensures utf8 { IfOk result (λ _. IsUtf8 cursor.new.bytes → IsUtf8 cursor.old.bytes) }
{
    let keeps = level.is_some();
    // room for one item: an array within an array often has no more
    let mut found = Vec::with_capacity(alloc, 1)?;
    'items: loop {
        let first = cursor.next(alloc, keeps)?;
        if let Step::EndArray = first {
            // frees the spare capacity: the strings that are read next can use this memory
            found.shrink_to_fit();
            return Ok(found);
        }
        let item = read(alloc, first, cursor, level, depth)?;
        if !keeps {
            continue;
        }
        found.push(item)?;
    }
}

/// Reads the rest of an object after its opening bracket: the members and the closing bracket.
/// Returns the members that are kept at `level`, and nothing without a level. Of duplicate keys the
/// last value is kept. Each value has at most `depth` levels. The error is `Unsupported` if a value
/// has more levels, or if the rest has another form that the fast path does not support. Any other
/// error is out of memory.
#[cycle(read)]
#[inline(never)]
fn read_members<L: Level>(
    alloc: Global,
    cursor: &mut Cursor<'_>,
    level: Option<L>,
    depth: usize,
) -> Result<Map<String, Value>, Stop>
    ensures members { IfOk result (λ m. (ms : Members)
        × BeginsWithMembers depth (length cursor.old.tokens)
        cursor.old.tokens no_members ms cursor.new.tokens
        × AreKeptMembers L.Level.inside level ms (members_view m.entries)) }
    ensures utf8 { IfOk result (λ _. IsUtf8 cursor.new.bytes → IsUtf8 cursor.old.bytes) }
{
    let keeps = level.is_some();
    let mut found = Map::new(alloc);
    'members: loop {
        match cursor.next(alloc, keeps)? {
            Step::EndObject => return Ok(found),
            Step::Key(key) => {
                let inner = level_inside(level, key.as_str());
                let first = cursor.next(alloc, inner.is_some())?;
                let member = read(alloc, first, cursor, inner, depth)?;
                if inner.is_none() {
                    continue;
                }
                drop(found.insert(key, member)?);
            }
            _ => return Err(Stop::Unsupported),
        }
    }
}
