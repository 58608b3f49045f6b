// Implements `Field` for types of this crate and of `sourcemap_headers`.
ghost use Rattle.std.specs.Prelude.{◌≡◌, ℕ, List, string_bytes};
ghost use Rattle.serde_json.specs.Data.{string};
ghost use Rattle.serde_json.specs.View.{members_view};
ghost use Rattle.sourcemap_headers.specs.DebugId.{IsId, debug_id_of, debug_id_text};
ghost use Rattle.sourcemap_records.specs.Field.{IsUnbounded, GivesReading};
ghost use Rattle.sourcemap_records.specs.Jsontypes.{FitsU32, Scopes, scopes, scopes_in, scopes_view, written_scopes, offset, offset_in, written_offset, debug_id};

use crate::field::{Field, put_field, read_required};
use crate::jsontypes::{FacebookScopeMapping, RawSectionOffset};
use serde_json::{Map, Value};
use sourcemap_errors::errors::{Error, JsonFault, Result};
use sourcemap_headers::debug_id::DebugId;
use std::alloc::Global;

impl Field for DebugId {
    ghost Seen = { List ℕ };

    ghost see = { λ id. id };

    ghost reading = { debug_id };

    ghost writing = { λ id. string (debug_id_text id) };

    ghost in_range = { IsId };

    fn from_json_value(alloc: Global, value: Value) -> Result<DebugId> {
        let text = String::from_json_value(alloc, value)?;
        parsed_id(&text)
    }

    fn to_json_value(self, alloc: Global) -> Result<Value> {
        Ok(Value::String(self.to_string(alloc)?))
    }

    fn duplicate(&self, _alloc: Global) -> Result<DebugId> {
        Ok(*self)
    }
}

fn parsed_id(text: &String) -> Result<DebugId>
    ensures { GivesReading (λ id. id) result (debug_id_of (string_bytes text.now)) }
{
    match DebugId::parse(text.as_str()) {
        Some(id) => Ok(id),
        None => Err(Error::BadJson(JsonFault::Shape)),
    }
}

impl Field for RawSectionOffset {
    ghost use Rattle.sourcemap_records.specs.declared.jsontypes.RawSectionOffset.{RawSectionOffset};

    ghost Seen = { RawSectionOffset };

    ghost see = { λ offset. offset };

    ghost reading = { offset };

    ghost writing = { written_offset };

    ghost in_range = { λ offset. FitsU32 offset.line × FitsU32 offset.column };

    fn from_json_value(alloc: Global, value: Value) -> Result<RawSectionOffset> {
        match value {
            Value::Object(members) => read_offset(alloc, members),
            _ => Err(Error::BadJson(JsonFault::Shape)),
        }
    }

    fn to_json_value(self, alloc: Global) -> Result<Value> {
        let mut members = Map::new(alloc);
        put_field(alloc, &mut members, "line", Some(self.line))?;
        put_field(alloc, &mut members, "column", Some(self.column))?;
        Ok(Value::Object(members))
    }

    fn duplicate(&self, _alloc: Global) -> Result<RawSectionOffset> {
        Ok(*self)
    }
}

fn read_offset(alloc: Global, mut members: Map<String, Value>) -> Result<RawSectionOffset>
    ensures { GivesReading (λ offset. offset) result (offset_in (members_view members.entries)) }
{
    let line = read_required(alloc, &mut members, "line")?;
    let column = read_required(alloc, &mut members, "column")?;
    Ok(RawSectionOffset { line, column })
}

impl Field for FacebookScopeMapping {
    ghost Seen = { Scopes };

    ghost see = { scopes_view };

    ghost reading = { scopes };

    ghost writing = { written_scopes };

    ghost in_range = { IsUnbounded };

    fn from_json_value(alloc: Global, value: Value) -> Result<FacebookScopeMapping> {
        match value {
            Value::Object(members) => read_scopes(alloc, members),
            _ => Err(Error::BadJson(JsonFault::Shape)),
        }
    }

    fn to_json_value(self, alloc: Global) -> Result<Value> {
        let FacebookScopeMapping { names, mappings } = self;
        let mut members = Map::new(alloc);
        put_field(alloc, &mut members, "names", Some(names))?;
        put_field(alloc, &mut members, "mappings", Some(mappings))?;
        Ok(Value::Object(members))
    }

    fn duplicate(&self, alloc: Global) -> Result<FacebookScopeMapping> {
        let names = self.names.duplicate(alloc)?;
        let mappings = self.mappings.duplicate(alloc)?;
        Ok(FacebookScopeMapping { names, mappings })
    }
}

fn read_scopes(alloc: Global, mut members: Map<String, Value>) -> Result<FacebookScopeMapping>
    ensures { GivesReading scopes_view result (scopes_in (members_view members.entries)) }
{
    let names = read_required(alloc, &mut members, "names")?;
    let mappings = read_required(alloc, &mut members, "mappings")?;
    Ok(FacebookScopeMapping { names, mappings })
}
