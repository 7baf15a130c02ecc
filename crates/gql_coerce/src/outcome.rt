//! Steps of coercion, and maps that are filled.

ghost use Rattle.std.specs.Prelude.{◌≡◌, Some, IfOk, OnOk};
ghost use Rattle.std.specs.Str.{bytes_eq};
ghost use Rattle.std.specs.Map.{keys_of};
ghost use Rattle.indexmap.specs.IndexMap.{insert_entry};
ghost use Rattle.jb_tree.specs.declared.value.Value.{Value as JsonValue};
ghost use Rattle.gql_coerce.specs.Outcome.{Outcome, Answers, mapped};
ghost use Rattle.gql_coerce.specs.Filled.{with_value};
ghost use Rattle.gql_coerce.specs.InputValue.{places};

use crate::fault::CoercionFault;
use jb_map::Pairs;
use jb_text::{ByteString, Memory, Refused};
use jb_tree::{Map, Value};
use std::alloc::{AllocError, Global};

/// The value that was made, as one that is there.
pub(crate) fn given_value(
    made: Result<Value, Refused<CoercionFault>>,
) -> Result<Option<Value>, Refused<CoercionFault>>
    ensures { (wanted : Outcome JsonValue) → Answers wanted made → Answers (mapped Some wanted) result }
{
    match made {
        Ok(value) => Ok(Some(value)),
        Err(refused) => Err(refused),
    }
}

/// Puts the value that was found, where there is one, under this name.
pub(crate) fn put(
    alloc: Global,
    members: &mut Map,
    key: &str,
    found: Option<Value>,
) -> Result<(), Memory>
    ensures { OnOk result (members.new ≡ with_value members.old key.now found) }
{
    match found {
        None => Ok(()),
        Some(value) => insert(members, ByteString::from_text(alloc, key)?, value),
    }
}

/// Inserts the pair; what it replaces, or the pair itself when out of memory, is dropped.
pub(crate) fn insert<V: Drop>(
    members: &mut Pairs<V>,
    key: ByteString,
    value: V,
) -> Result<(), Memory>
    ensures { OnOk result (members.new ≡ insert_entry bytes_eq members.old key value) }
{
    match members.insert(key, value) {
        Ok(_) => Ok(()),
        Err(_) => Err(AllocError),
    }
}

/// The keys of the members, in whose places values will stand.
pub(crate) fn places(alloc: Global, members: &Map) -> Result<Map, Memory>
    ensures { IfOk result (λ made. made ≡ places (keys_of members.now)) }
{
    let mut made = Map::new(alloc);
    for index in 0..members.len() {
        let key = members.key_at(index).copy(alloc)?;
        made.insert_new(key, Value::Null)?;
    }
    Ok(made)
}
