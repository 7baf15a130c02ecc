//! Values made of the values of `serde_json`.
ghost use Rattle.std.specs.Prelude.{◌≡◌, [], OnOk, Option, option_map};
ghost use Rattle.std.specs.Str.{bytes_eq};
ghost use Rattle.indexmap.specs.IndexMap.{insert_all, insert_entry};
ghost use Rattle.serde_json.specs.Data.{Data};
ghost use Rattle.serde_json.specs.View.{view, number_view, items_view, members_view};
ghost use Rattle.jb_tree.specs.declared.value.Value.{Number as whole};
ghost use Rattle.jb_from_json.specs.FromJson.{value_of, whole_of, items_of, members_of, IsTaken};

use jb_map::Pairs;
use jb_text::{ByteString, Listed, Memory, Number, Refused};
use jb_tree::{Map, Value};
use serde_json as json;
use std::alloc::{AllocError, Global};
use thiserror::Error;

/// Why a JSON value of another make is no [`Value`].
#[derive(Clone, Copy, Debug, PartialEq, Eq, Error)]
pub enum FromJsonFault {
    /// Some number is neither an `i64` nor a `u64`.
    #[error("a number is not whole or too large")]
    FloatInJson,
}

/// A type whose values are made of the values of `serde_json`.
pub trait FromJson: Sized {
    // What is made of a value of `serde_json`, if anything is.
    ghost meant: { Data → Option Self };

    /// The same value in memory of its own.
    ///
    /// # Errors
    ///
    /// - [`Refused::Fault`] with [`FromJsonFault::FloatInJson`] exactly where some number in it is neither an `i64` nor a `u64`.
    /// - [`Refused::Memory`] only when out of memory.
    fn from_json(alloc: Global, value: &json::Value) -> Result<Self, Refused<FromJsonFault>>
        ensures taken { IsTaken result (meant (view value.now)) };
}

impl FromJson for Value {
    ghost meant = { value_of };

    fn from_json(alloc: Global, value: &json::Value) -> Result<Value, Refused<FromJsonFault>> {
        from_value(alloc, value)
    }
}

#[cycle(taken)]
fn from_value(alloc: Global, value: &json::Value) -> Result<Value, Refused<FromJsonFault>>
    ensures { IsTaken result (value_of (view value.now)) }
{
    match value {
        json::Value::Null => Ok(Value::Null),
        json::Value::Bool(truth) => Ok(Value::Bool(*truth)),
        json::Value::Number(number) => from_number(number),
        json::Value::String(text) => Ok(Value::String(ByteString::from_text(
            alloc,
            text.as_str(),
        )?)),
        json::Value::Array(items) => Ok(Value::Array(from_items(alloc, items)?)),
        json::Value::Object(members) => Ok(Value::Object(from_members(alloc, members)?)),
    }
}

/// The number where it is whole and of 64 bits.
fn from_number(number: &json::Number) -> Result<Value, Refused<FromJsonFault>>
    ensures { IsTaken result (option_map whole (whole_of (number_view number.now))) }
{
    if let Some(number) = number.as_u64() {
        return Ok(Value::Number(Number::from_u64(number)));
    }
    match number.as_i64() {
        Some(number) => Ok(Value::Number(Number::from_i64(number))),
        None => Err(Refused::Fault(FromJsonFault::FloatInJson)),
    }
}

#[cycle(taken)]
fn from_items(
    alloc: Global,
    items: &Vec<json::Value>,
) -> Result<Listed<Value>, Refused<FromJsonFault>>
    ensures { IsTaken result (items_of (items_view items.now.items)) }
{
    let mut made = Listed::new(alloc);
    for item in items {
        let value = from_value(alloc, item)?;
        made.push(value)?;
    }
    Ok(made)
}

#[cycle(taken)]
fn from_members(
    alloc: Global,
    members: &json::Map<String, json::Value>,
) -> Result<Map, Refused<FromJsonFault>>
    ensures { IsTaken result (option_map (insert_all bytes_eq []) (members_of (members_view members.now.entries))) }
{
    let mut made = Pairs::new(alloc);
    for (key, member) in members.iter() {
        let value = from_value(alloc, member)?;
        let text = ByteString::from_text(alloc, key.as_str())?;
        put(&mut made, text, value)?;
    }
    Ok(made)
}

/// Inserts the pair; what it replaces, or the pair itself when out of memory, is dropped.
fn put<V: Drop>(members: &mut Pairs<V>, key: ByteString, value: V) -> Result<(), Memory>
    ensures { OnOk result (members.new ≡ insert_entry bytes_eq members.old key value) }
{
    match members.insert(key, value) {
        Ok(_) => Ok(()),
        Err(_) => Err(AllocError),
    }
}
