//! Any JSON text, read with the kit's token reader. Slower than the fast path, but refuses exactly
//! what is not JSON, and keeps no more than the fast path does.
ghost use Rattle.std.specs.Prelude.{◌≡◌, ◌<◌, length, Some, None, Err, IfOk, OnOk, IsUtf8};
ghost use Rattle.json.specs.Json.{value, items, members};
ghost use Rattle.serde_json.specs.Data.{Data, Items, Members, no_members};
ghost use Rattle.serde_json.specs.Read.{converted, of_items, of_json, of_members, read as read_json};
ghost use Rattle.serde_json.specs.View.{view, items_view, members_view};
ghost use Rattle.sourcemap_json_read.specs.Kept.{AreKeptMembers, HoldsKept, IsKept, kept_list};
ghost use Rattle.sourcemap_json_read.specs.declared.kept.ReadError.TheVariants.{Invalid};

use crate::kept::ReadError;
use crate::levels::{Level, level_inside, level_of_items};
use crate::numbers::parse_number;
use crate::strings::kept_string;
use crate::values::MAX_DEPTH;
use json::{Reader, Scratch, Token};
use serde_json::{Map, Value};
use simdutf8::compat::from_utf8;
use std::alloc::Global;

/// Reads a JSON text, and returns what is kept of its value.
pub(crate) fn read_exactly<L: Level>(
    alloc: Global,
    bytes: &[u8],
    level: L,
) -> Result<Value, ReadError>
    ensures ok { IfOk result (λ v. HoldsKept L.Level.inside level bytes.now (view v)) }
    ensures err { result ≡ Err Invalid → IsUtf8 bytes.now → read_json bytes.now ≡ None }
{
    match from_utf8(bytes) {
        Ok(text) => read_text(alloc, text, level),
        Err(_) => Err(ReadError::Invalid),
    }
}

fn read_text<L: Level>(alloc: Global, text: &str, level: L) -> Result<Value, ReadError>
    ensures ok { IfOk result (λ v. (d : Data) × (read_json text.now ≡ Some d)
        × IsKept L.Level.inside (Some level) d (view v)) }
    ensures err { result ≡ Err Invalid → read_json text.now ≡ None }
{
    let mut scratch = Scratch::new(alloc);
    let mut reader = Reader::new(text, &mut scratch)?;
    let value = read(alloc, &mut reader, Some(level), MAX_DEPTH)?;
    if reader.next().is_some() {
        return Err(ReadError::Invalid);
    }
    Ok(value)
}

/// Reads a value, and returns what is kept of it at `level`. Without a level the value is only
/// checked, and what is returned means nothing. The value has at most `depth` levels.
#[cycle(read)]
#[inline(always)]
fn read<L: Level>(
    alloc: Global,
    reader: &mut Reader<'_>,
    level: Option<L>,
    depth: usize,
) -> Result<Value, ReadError>
    ensures ok { IfOk result
        (λ v. (d : Data) × (converted of_json (value depth reader.old) ≡ Some (d, reader.new))
        × IsKept L.Level.inside level d (view v)) }
    ensures shorter { OnOk result (length reader.new < length reader.old) }
    ensures err { result ≡ Err Invalid → converted of_json (value depth reader.old) ≡ None }
{
    let token = reader.next().ok_or(ReadError::Invalid)?;
    match token {
        Token::String(text) => Ok(Value::String(kept_string(alloc, text, level.is_some())?)),
        Token::Number(text) => match parse_number(text) {
            Some(number) => Ok(Value::Number(number)),
            None => Err(ReadError::Invalid),
        },
        Token::Bool(is_true) => Ok(Value::Bool(is_true)),
        Token::Null => Ok(Value::Null),
        Token::EndObject | Token::EndArray | Token::Key(_) | Token::Bad => Err(ReadError::Invalid),
        Token::BeginArray => {
            if depth == 0 {
                return Err(ReadError::Invalid);
            }
            let inner = level_of_items(level);
            Ok(Value::Array(read_items(alloc, reader, inner, depth - 1)?))
        }
        Token::BeginObject => {
            if depth == 0 {
                return Err(ReadError::Invalid);
            }
            Ok(Value::Object(read_members(alloc, reader, level, depth - 1)?))
        }
    }
}

#[cycle(read)]
#[inline(never)]
fn read_items<L: Level>(
    alloc: Global,
    reader: &mut Reader<'_>,
    level: Option<L>,
    depth: usize,
) -> Result<Vec<Value>, ReadError>
    ensures ok { IfOk result (λ v. (ds : Items)
        × (converted of_items (items (value depth) (length reader.old) reader.old)
        ≡ Some (ds, reader.new)) × (items_view v.items ≡ kept_list L.Level.inside level ds)) }
    ensures shorter { OnOk result (length reader.new < length reader.old) }
    ensures err { result ≡ Err Invalid
        → converted of_items (items (value depth) (length reader.old) reader.old) ≡ None }
{
    let mut found = Vec::with_capacity(alloc, 1)?;
    'items: while !reader.take_end_array() {
        let item = read(alloc, reader, level, depth)?;
        if level.is_none() {
            continue;
        }
        found.push(item)?;
    }
    found.shrink_to_fit();
    Ok(found)
}

#[cycle(read)]
#[inline(never)]
fn read_members<L: Level>(
    alloc: Global,
    reader: &mut Reader<'_>,
    level: Option<L>,
    depth: usize,
) -> Result<Map<String, Value>, ReadError>
    ensures ok { IfOk result (λ m. (ms : Members)
        × (converted (λ js. of_members js no_members)
        (members (value depth) (length reader.old) reader.old) ≡ Some (ms, reader.new))
        × AreKeptMembers L.Level.inside level ms (members_view m.entries)) }
    ensures shorter { OnOk result (length reader.new < length reader.old) }
    ensures err { result ≡ Err Invalid → converted (λ js. of_members js no_members)
        (members (value depth) (length reader.old) reader.old) ≡ None }
{
    let mut found = Map::new(alloc);
    'members: while let Some(key) = reader.next_key()? {
        let inner = level_inside(level, key);
        let member = read(alloc, reader, inner, depth)?;
        if inner.is_none() {
            continue;
        }
        let name = String::from_str(alloc, key)?;
        drop(found.insert(name, member)?);
    }
    Ok(found)
}
