//! Objects and places in values: the order of members after each change, refusals, and hashing.
use crate::fixtures::{key, shown as text_of};
use jb_print::append_object;
use jb_read::{ReadFault, from_str};
use jb_tree::{ByteString, Index, IndexError, Listed, Map, Memory, Refused, Text, Value};
use std::alloc::{AllocError, Global};
use std::hash::{DefaultHasher, Hash, Hasher};
use std::process::Abort;

/// These members, in a list.
fn pairs_of(alloc: Global, members: &[(&str, u64)]) -> Result<Listed<(ByteString, Value)>, Memory> {
    let mut pairs = Listed::new(alloc);
    for (name, number) in members {
        pairs.push((key(alloc, *name)?, Value::from(*number)))?;
    }
    Ok(pairs)
}

/// The object of these members.
fn object(alloc: Global, members: &[(&str, u64)]) -> Result<Map, Memory> {
    Map::from_pairs(alloc, pairs_of(alloc, members)?)
}

/// The members in order, as a JSON text.
fn shown(alloc: Global, members: &Map) -> Result<String, Memory> {
    let mut text = String::new(alloc);
    append_object(&mut text, members)?;
    Ok(text)
}

fn number_of(value: Option<Value>) -> Option<u64> {
    value?.as_u64()
}

/// Takes a member out, and gives its number.
fn remove(members: &mut Map, name: &str) -> Option<u64> {
    number_of(members.remove(name))
}

/// Puts a number at a key, and gives the one that was there.
fn put(alloc: Global, members: &mut Map, name: &str, number: u64) -> Result<Option<u64>, Memory> {
    match members.insert(key(alloc, name)?, Value::from(number)) {
        Ok(old) => Ok(number_of(old)),
        Err(_) => Err(AllocError),
    }
}

/// Puts a number at a key where there is none, and gives what is there then.
fn enter(alloc: Global, members: &mut Map, name: &str, number: u64) -> Result<Option<u64>, Memory> {
    let place = members
        .entry(key(alloc, name)?)
        .or_insert(Value::from(number))?;
    Ok(place.as_u64())
}

fn assert_shows(rt: &impl Abort, alloc: Global, members: &Map, wanted: &str) -> Result<(), Memory> {
    assert_eq!(*rt; shown(alloc, members)?.as_str(), wanted);
    Ok(())
}

fn check_changes(rt: &impl Abort, alloc: Global, members: &mut Map) -> Result<(), Memory> {
    assert_eq!(*rt; remove(members, "a"), Some(1));
    assert_shows(rt, alloc, members, "{\"c\":3,\"b\":2}")?;
    assert_eq!(*rt; put(alloc, members, "b", 5)?, Some(2));
    assert_shows(rt, alloc, members, "{\"c\":3,\"b\":5}")
}

fn check_sorted(rt: &impl Abort, alloc: Global, members: &mut Map) -> Result<(), Memory> {
    members.sort_keys()?;
    assert_eq!(*rt; enter(alloc, members, "d", 4)?, Some(4));
    assert_shows(rt, alloc, members, "{\"b\":5,\"c\":3,\"d\":4}")
}

/// Moves members over from another object: whether none is left there.
fn append(alloc: Global, members: &mut Map, more: &[(&str, u64)]) -> Result<bool, Memory> {
    let mut other = object(alloc, more)?;
    members.append(&mut other)?;
    Ok(other.is_empty())
}

fn check_appended(rt: &impl Abort, alloc: Global, members: &mut Map) -> Result<(), Memory> {
    assert!(*rt; append(alloc, members, &[("b", 9), ("e", 1)])?);
    assert_shows(rt, alloc, members, "{\"b\":9,\"c\":3,\"d\":4,\"e\":1}")?;
    let copy = members.copy(alloc)?;
    assert!(*rt; copy == *members);
    Ok(())
}

#[test]
fn members_keep_their_order(rt: HostRuntime) -> Result<(), Memory> {
    let alloc = rt.alloc();
    let mut members = object(alloc, &[("a", 1), ("b", 2), ("c", 3)])?;
    check_changes(&rt, alloc, &mut members)?;
    check_sorted(&rt, alloc, &mut members)?;
    check_appended(&rt, alloc, &mut members)
}

fn extend(alloc: Global, members: &mut Map, more: &[(&str, u64)]) -> Result<(), Memory> {
    members.extend(pairs_of(alloc, more)?)
}

fn check_additions(rt: &impl Abort, alloc: Global, members: &mut Map) -> Result<(), Memory> {
    assert_shows(rt, alloc, members, "{\"a\":2}")?;
    extend(alloc, members, &[("a", 3), ("b", 4)])?;
    assert_shows(rt, alloc, members, "{\"a\":3,\"b\":4}")
}

/// The text of the object of these members, made in one call.
fn made_shown(alloc: Global, members: &[(&str, u64)]) -> Result<Text, Memory> {
    let made = Value::from_pairs(alloc, pairs_of(alloc, members)?)?;
    text_of(alloc, &made)
}

#[test]
fn the_last_pair_of_a_key_counts(rt: HostRuntime) -> Result<(), Memory> {
    let alloc = rt.alloc();
    let made = made_shown(alloc, &[("a", 1), ("b", 2), ("a", 3)])?;
    assert_eq!(rt; made.as_str(), "{\"a\":3,\"b\":2}");
    assert!(rt; Map::with_capacity(alloc, 4)?.is_empty());
    let mut members = object(alloc, &[("a", 1), ("a", 2)])?;
    check_additions(&rt, alloc, &mut members)
}

/// What a hasher answers that was fed this value.
fn hash_of(value: &Value) -> u64 {
    let mut state = DefaultHasher::default();
    value.hash(&mut state);
    state.finish()
}

const FORWARDS: &str = "{\"id1\":true,\"id2\":false}";

const BACKWARDS: &str = "{\"id2\":false,\"id1\":true}";

fn hash_of_text(alloc: Global, text: &str) -> Result<u64, Refused<ReadFault>> {
    Ok(hash_of(&from_str(alloc, text)?))
}

fn is_value_of(alloc: Global, value: &Value, text: &str) -> Result<bool, Refused<ReadFault>> {
    Ok(*value == from_str(alloc, text)?)
}

fn check_order(rt: &impl Abort, alloc: Global, forwards: &Value) -> Result<(), Refused<ReadFault>> {
    assert!(*rt; is_value_of(alloc, forwards, BACKWARDS)?);
    assert_eq!(*rt; hash_of(forwards), hash_of_text(alloc, BACKWARDS)?);
    assert!(*rt; !is_value_of(alloc, forwards, "{\"id2\":true,\"id1\":false}")?);
    Ok(())
}

/// Sorts the members of each object by their keys: the value's text then.
fn sort(alloc: Global, value: &mut Value) -> Result<Text, Memory> {
    value.sort_all_objects()?;
    text_of(alloc, value)
}

/// The same of the value of a text.
fn sorted(alloc: Global, text: &str) -> Result<Text, Refused<ReadFault>> {
    let mut value = from_str(alloc, text)?;
    Ok(sort(alloc, &mut value)?)
}

#[test]
fn the_order_of_members_does_not_count(rt: HostRuntime) -> Result<(), Refused<ReadFault>> {
    let alloc = rt.alloc();
    assert_eq!(rt; sorted(alloc, BACKWARDS)?.as_str(), FORWARDS);
    assert_eq!(rt; sorted(alloc, FORWARDS)?.as_str(), FORWARDS);
    check_order(&rt, alloc, &from_str(alloc, FORWARDS)?)
}

/// Makes a place of this key, and says whether a null is there.
fn makes_null(alloc: Global, name: &str, value: &mut Value) -> bool {
    match name.index_or_insert(alloc, value) {
        Ok(place) => place.is_null(),
        Err(_) => false,
    }
}

/// Whether a string's text leads to a place.
fn is_place(alloc: Global, value: &mut Value, name: &str) -> Result<bool, Memory> {
    let name = String::from_str(alloc, name)?;
    Ok(value.get_mut(&name).is_some())
}

fn check_place(rt: &impl Abort, alloc: Global, value: &mut Value) -> Result<(), Memory> {
    assert!(*rt; makes_null(alloc, "k", value));
    assert_eq!(*rt; text_of(alloc, value)?.as_str(), "{\"k\":null}");
    assert!(*rt; is_place(alloc, value, "k")?);
    assert!(*rt; value.get(0).is_none());
    Ok(())
}

#[test]
fn places_are_made(rt: HostRuntime) -> Result<(), Memory> {
    check_place(&rt, rt.alloc(), &mut Value::default())
}

/// Why there can be no such place.
fn refused(alloc: Global, index: impl Index, value: &mut Value) -> Option<IndexError> {
    match index.index_or_insert(alloc, value) {
        Err(Refused::Fault(fault)) => Some(fault),
        _ => None,
    }
}

/// The same in the value of a JSON text.
fn refusal(alloc: Global, index: impl Index, text: &str) -> Option<IndexError> {
    let mut value = from_str(alloc, text).ok()?;
    refused(alloc, index, &mut value)
}

#[test]
fn places_that_can_not_be_made(rt: HostRuntime) {
    let alloc = rt.alloc();
    let refusals = [
        refusal(alloc, 2, "[1]"),
        refusal(alloc, 0, "null"),
        refusal(alloc, "k", "1"),
    ];
    let wanted = [
        Some(IndexError::NoPlace { index: 2, len: 1 }),
        Some(IndexError::NotArray),
        Some(IndexError::NotObject),
    ];
    assert_eq!(rt; refusals, wanted);
}

/// Puts a null in the place at an index: whether the number there was given back.
fn put_null(value: &mut Value, index: impl Index, number: u64) -> bool {
    match value.put(index, Value::Null) {
        Ok(stood) => stood.eq_u64(number),
        Err(_) => false,
    }
}

/// The same at the place that a pointer names.
fn point_null(value: &mut Value, pointer: &str, number: u64) -> bool {
    match value.pointer_put(pointer, Value::Null) {
        Ok(stood) => stood.eq_u64(number),
        Err(_) => false,
    }
}

fn check_put(rt: &impl Abort, alloc: Global, value: &mut Value) -> Result<(), Memory> {
    assert!(*rt; put_null(value, "k", 1));
    assert!(*rt; !put_null(value, 0, 1));
    assert!(*rt; point_null(value, "/a~1b/1/x", 6));
    assert!(*rt; !point_null(value, "/a~1b/2", 6));
    let wanted = "{\"k\":null,\"a/b\":[5,{\"x\":null}]}";
    assert_eq!(*rt; text_of(alloc, value)?.as_str(), wanted);
    Ok(())
}

#[test]
fn values_are_put_in_places(rt: HostRuntime) -> Result<(), Refused<ReadFault>> {
    let mut value = from_str(rt.alloc(), "{\"k\":1,\"a/b\":[5,{\"x\":6}]}")?;
    check_put(&rt, rt.alloc(), &mut value)?;
    Ok(())
}
