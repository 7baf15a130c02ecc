//! What is asked, as JSON.

ghost use Rattle.std.specs.Prelude.{◌≡◌, ◌∷◌, ◌++◌, [], None, IfOk, OnOk};
ghost use Rattle.std.specs.Map.{lookup};
ghost use Rattle.std.specs.Str.{bytes_eq};
ghost use Rattle.jb_print.specs.Compact.{compact};
ghost use Rattle.gql_rounds.specs.Told as spec;

use crate::{Ask, Asks};
use bytes::Bytes;
use jb_print::to_bytes;
use jb_text::{ByteString, Listed, Memory};
use jb_tree::{Map, Number, Value};
use std::alloc::Global;

/// The asks as JSON without white space: a list of `{"object":7,"type":"Book","field":"author","arguments":{}}`. `Err` only when out of
/// memory.
pub fn asks_bytes(alloc: Global, asks: &Asks) -> Result<Bytes, Memory>
    ensures { IfOk result (λ bytes. bytes ≡ compact (spec.asks_value asks.now)) }
{
    let mut items = Listed::with_capacity(alloc, asks.len())?;
    for index in 0..asks.len() {
        items.push(ask_value(alloc, asks.value_at(index))?)?;
    }
    to_bytes(alloc, &Value::Array(items))
}

/// One ask as JSON. `Err` only when out of memory.
fn ask_value(alloc: Global, ask: &Ask) -> Result<Value, Memory>
    ensures { IfOk result (λ value. value ≡ spec.ask_value ask.now) }
{
    let object = Value::Number(Number::from_u64(ask.object));
    let type_name = Value::from_text(alloc, ask.type_name.as_str())?;
    let field = Value::from_text(alloc, ask.field.as_str())?;
    let arguments = Value::Object(ask.arguments.copy(alloc)?);
    let mut members = Map::new(alloc);
    add(alloc, &mut members, "object", object)?;
    add(alloc, &mut members, "type", type_name)?;
    add(alloc, &mut members, "field", field)?;
    add(alloc, &mut members, "arguments", arguments)?;
    Ok(Value::Object(members))
}

/// Adds a member whose key is not there. `Err` only when out of memory.
fn add(alloc: Global, members: &mut Map, key: &str, value: Value) -> Result<(), Memory>
    requires { lookup (bytes_eq key.now) members.old ≡ None }
    ensures { OnOk result (members.new ≡ members.old ++ (key.now, value) ∷ []) }
{
    let key = ByteString::from_text(alloc, key)?;
    members.insert_new(key, value)
}
