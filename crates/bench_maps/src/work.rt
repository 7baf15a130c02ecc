//! What each call does, and how many members it answered for.

ghost use Rattle.std.specs.Prelude.{◌≡◌, length, count_by, is_some, true, IfOk};
ghost use Rattle.std.specs.Str.{bytes_eq};
ghost use Rattle.std.specs.Map.{lookup};

use crate::call::Call;
use itoa::Buffer;
use jb_text::{ByteString, Listed, Memory};
use jb_tree::{Map, Value};
use std::alloc::{AllocError, Global};

/// How many members the call answered for, of an object of so many. `Err` only when out of memory.
///
/// No clause says that it is all of them, since none says that the keys are distinct: the stored output shows it.
pub fn answered(alloc: Global, call: Call, members: usize) -> Result<usize, Memory> {
    let keys = keys(alloc, members)?;
    if call == Call::Keys {
        return Ok(keys.len());
    }
    let object = built(alloc, keys.as_slice())?;
    answered_of(alloc, call, object, keys.as_slice())
}

fn answered_of(
    alloc: Global,
    call: Call,
    object: Map,
    keys: &[ByteString],
) -> Result<usize, Memory> {
    match call {
        Call::Keys | Call::Build => Ok(object.len()),
        Call::Find => Ok(found(&object, keys)),
        Call::Copy => copied(alloc, object),
        Call::Equal => equal(alloc, object),
        Call::Remove => Ok(removed(object, keys)),
    }
}

/// The texts of 0, 1 and so on. `Err` only when out of memory.
fn keys(alloc: Global, count: usize) -> Result<Listed<ByteString>, Memory>
    ensures { IfOk result (λ keys. length keys ≡ count) }
{
    let mut keys = Listed::new(alloc);
    for number in 0..count {
        keys.push(ByteString::from_text(alloc, Buffer::new().format(number))?)?;
    }
    Ok(keys)
}

/// The object with these keys and nulls. `Err` only when out of memory.
fn built(alloc: Global, keys: &[ByteString]) -> Result<Map, Memory> {
    let mut members = Map::new(alloc);
    for key in keys {
        match members.insert(key.copy(alloc)?, Value::Null) {
            Ok(_) => {}
            Err(_) => return Err(AllocError),
        }
    }
    Ok(members)
}

/// How many of the keys the object has.
fn found(members: &Map, keys: &[ByteString]) -> usize
    ensures { result ≡ count_by (λ key. is_some (lookup (bytes_eq key) members.now)) keys.now }
{
    keys.iter()
        .filter(|key| members.get(key.as_str()).is_some())
        .count()
}

/// How many members a copy of the object has. `Err` only when out of memory.
fn copied(alloc: Global, members: Map) -> Result<usize, Memory>
    ensures { IfOk result (λ count. count ≡ length members) }
{
    match Value::from(members).copy(alloc)? {
        Value::Object(copy) => Ok(copy.len()),
        _ => Ok(0),
    }
}

/// How many members the object has, where it equals its copy, or none. `Err` only when out of memory.
fn equal(alloc: Global, members: Map) -> Result<usize, Memory>
    ensures { IfOk result (λ count. count ≡ length members) }
{
    let count = members.len();
    if equals_its_copy(alloc, &Value::from(members))? {
        Ok(count)
    } else {
        Ok(0)
    }
}

/// Always: a value equals its copy. `Err` only when out of memory.
fn equals_its_copy(alloc: Global, value: &Value) -> Result<bool, Memory>
    ensures { IfOk result (λ same. same ≡ true) }
{
    let copy = value.copy(alloc)?;
    Ok(*value == copy)
}

/// How many of the keys were there to be removed.
fn removed(mut members: Map, keys: &[ByteString]) -> usize {
    let mut count = 0usize;
    for key in keys {
        if members.remove(key.as_str()).is_some() {
            count = count.saturating_add(1);
        }
    }
    count
}
