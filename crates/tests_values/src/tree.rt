//! Values: that calls succeed with ample memory, the sizes, and the standard's own examples.
use crate::fixtures::{key, shown};
use jb_from_json::{FromJson, FromJsonFault};
use jb_read::{ReadFault, from_str};
use jb_tree::{ByteString, Listed, Map, Memory, Number, Refused, Text, Value, laws};
use serde_json as json;
use std::alloc::Global;
use std::mem::size_of;
use std::process::Abort;

#[test]
fn a_value_is_small(rt: HostRuntime) {
    assert_eq!(rt; size_of::<Value>(), 48);
    assert_eq!(rt; size_of::<Map>(), 40);
    assert_eq!(rt; size_of::<ByteString>(), 40);
}

/// `[null,"x"]`
fn items(alloc: Global) -> Result<Listed<Value>, Memory> {
    let mut items = Listed::new(alloc);
    items.push(Value::default())?;
    items.push(Value::from_text(alloc, "x")?)?;
    Ok(items)
}

/// `{"key 1":[null,"x"]}`, made part by part.
fn made(alloc: Global) -> Result<Value, Memory> {
    let name = key(alloc, "key 1")?;
    let list = Value::from_list(items(alloc)?);
    let mut members = Map::new(alloc);
    members.insert_new(name, list)?;
    Ok(Value::from(members))
}

/// How many items the value has at "key 1", and whether the last of two is "x".
fn found(value: &Value) -> Option<(usize, bool)> {
    let list = value.get("key 1")?;
    let last = list.get(1)?;
    Some((list.as_array()?.len(), last.eq_str("x")))
}

/// A copy, of which what it was made from is gone.
fn copied(alloc: Global) -> Result<Value, Memory> {
    made(alloc)?.copy(alloc)
}

fn check_copy(rt: &impl Abort, alloc: Global, copy: &Value) -> Result<(), Memory> {
    assert_eq!(*rt; found(copy), Some((2, true)));
    assert_eq!(*rt; shown(alloc, copy)?.as_str(), "{\"key 1\":[null,\"x\"]}");
    let again = copy.copy(alloc)?;
    assert!(*rt; *copy == again);
    assert!(*rt; laws::equality_is_sameness(copy, &again));
    Ok(())
}

#[test]
fn a_copy_is_equal(rt: HostRuntime) -> Result<(), Memory> {
    let copy = copied(rt.alloc())?;
    check_copy(&rt, rt.alloc(), &copy)
}

/// The example of RFC 6901, section 5, and one list of a number more.
const DOCUMENT: &str =
    r#"{"foo":["bar","baz"],"":0,"a/b":1,"c%d":2,"e^f":3,"g|h":4,"i\\j":5,"k\"l":6," ":7,"m~n":8,"l":[5]}"#;

/// The table of RFC 6901, section 5.
const POINTERS: &[(&str, &str)] = &[
    ("", DOCUMENT),
    ("/foo", "[\"bar\",\"baz\"]"),
    ("/foo/0", "\"bar\""),
    ("/", "0"),
    ("/a~1b", "1"),
    ("/c%d", "2"),
    ("/e^f", "3"),
    ("/g|h", "4"),
    ("/i\\j", "5"),
    ("/k\"l", "6"),
    ("/ ", "7"),
    ("/m~0n", "8"),
    ("/l/0", "5"),
];

/// Whether a pointer leads to the value of this text.
fn leads_to(alloc: Global, whole: &Value, pointer: &str, text: &str) -> Result<bool, Memory> {
    match whole.pointer(pointer) {
        Some(place) => Ok(shown(alloc, place)?.as_str() == text),
        None => Ok(false),
    }
}

fn check_pointers(rt: &impl Abort, alloc: Global, whole: &Value) -> Result<(), Memory> {
    for (pointer, text) in POINTERS {
        assert!(*rt; leads_to(alloc, whole, pointer, text)?, "{pointer}");
    }
    Ok(())
}

#[test]
fn pointers_lead_to_places(rt: HostRuntime) -> Result<(), Refused<ReadFault>> {
    let whole = from_str(rt.alloc(), DOCUMENT)?;
    check_pointers(&rt, rt.alloc(), &whole)?;
    Ok(())
}

const NO_POINTERS: &[&str] = &[
    "l", "/l/00", "/l/+0", "/l/1", "/l/-", "/l/", "/l/0/x", "/a/b", "/a~b", "/~01", "/foo/2",
];

/// Whether a pointer leads to no place, to be read or to be changed.
fn leads_nowhere(value: &mut Value, pointer: &str) -> bool {
    value.pointer(pointer).is_none() && value.pointer_mut(pointer).is_none()
}

fn check_no_pointers(rt: &impl Abort, value: &mut Value) {
    for pointer in NO_POINTERS {
        assert!(*rt; leads_nowhere(value, pointer), "{pointer}");
    }
}

#[test]
fn pointers_lead_nowhere(rt: HostRuntime) -> Result<(), Refused<ReadFault>> {
    let mut value = from_str(rt.alloc(), DOCUMENT)?;
    check_no_pointers(&rt, &mut value);
    Ok(())
}

/// The value that stands for a JSON text as the other crate reads it.
fn of_other_make(alloc: Global, text: &str) -> Result<Value, Refused<FromJsonFault>> {
    match json::Value::from_str(alloc, text) {
        Ok(other) => Value::from_json(alloc, &other),
        Err(_) => Err(Refused::Memory),
    }
}

/// The text of such a value.
fn of_other_make_shown(alloc: Global, text: &str) -> Result<Text, Refused<FromJsonFault>> {
    let value = of_other_make(alloc, text)?;
    Ok(shown(alloc, &value)?)
}

#[test]
fn values_of_other_makes(rt: HostRuntime) -> Result<(), Refused<FromJsonFault>> {
    let alloc = rt.alloc();
    let refused = of_other_make(alloc, "{\"a\":[1.5]}").err();
    let float = Refused::Fault(FromJsonFault::FloatInJson);
    assert_eq!(rt; refused, Some(float));
    let whole = "{\"a\":[1,true,null,\"x\"],\"b\":-2}";
    assert_eq!(rt; of_other_make_shown(alloc, whole)?.as_str(), whole);
    Ok(())
}

fn is_minus_five(value: Value) -> bool {
    value.eq_i64(-5) && value.is_i64() && value.is_number() && !value.is_u64() && !value.is_f64()
}

fn is_seven(value: Value) -> bool {
    value.eq_u64(7) && value.is_i64() && value.is_u64() && has_u64(&value)
}

fn has_u64(value: &Value) -> bool {
    match value.as_number() {
        Some(number) => number.is_u64(),
        None => false,
    }
}

fn are_minus_five() -> [bool; 5] {
    [
        is_minus_five(Value::from(-5i8)),
        is_minus_five(Value::from(-5i16)),
        is_minus_five(Value::from(-5i32)),
        is_minus_five(Value::from(-5i64)),
        is_minus_five(Value::from(-5isize)),
    ]
}

fn are_seven() -> [bool; 6] {
    [
        is_seven(Value::from(7u8)),
        is_seven(Value::from(7u16)),
        is_seven(Value::from(7u32)),
        is_seven(Value::from(7u64)),
        is_seven(Value::from(7usize)),
        is_seven(Value::from(Number::from_i64(7))),
    ]
}

#[test]
fn numbers_of_each_type(rt: HostRuntime) {
    assert_eq!(rt; are_minus_five(), [true; 5]);
    assert_eq!(rt; are_seven(), [true; 6]);
    assert!(rt; Value::from(u64::MAX).as_i64().is_none());
}

fn is_true(value: &Value) -> bool {
    value.eq_bool(true) && value.is_boolean()
}

fn is_null(value: Value) -> bool {
    value.is_null() && value.as_null().is_some()
}

fn is_false(value: Value) -> bool {
    value.eq_bool(false)
}

/// Whether the value of a text is a string, an array or an object.
fn kinds(alloc: Global, text: &str) -> Result<(bool, bool, bool), Refused<ReadFault>> {
    let value = from_str(alloc, text)?;
    Ok((value.is_string(), value.is_array(), value.is_object()))
}

#[test]
fn kinds_of_values(rt: HostRuntime) -> Result<(), Refused<ReadFault>> {
    let alloc = rt.alloc();
    assert!(rt; is_true(&Value::from(true)));
    assert!(rt; is_null(Value::from(())));
    assert!(rt; is_null(Value::from_option(None)));
    assert!(rt; is_false(Value::from_option(Some(Value::from(false)))));
    assert_eq!(rt; kinds(alloc, "\"new\"")?, (true, false, false));
    assert_eq!(rt; kinds(alloc, "[]")?, (false, true, false));
    assert_eq!(rt; kinds(alloc, "{}")?, (false, false, true));
    Ok(())
}

/// Takes the member of the empty key out of an object.
fn remove_empty(value: &mut Value) -> bool {
    match value.as_object_mut() {
        Some(members) => members.remove("").is_some(),
        None => false,
    }
}

/// Adds a null to a list, and gives the list away: how many items it had.
fn take_longer(list: &mut Value) -> Result<usize, Memory> {
    if let Some(items) = list.as_array_mut() {
        items.push(Value::Null)?;
    }
    Ok(count_items(&list.take()))
}

fn count_items(list: &Value) -> usize {
    match list.as_array() {
        Some(items) => items.len(),
        None => 0,
    }
}

/// Does so with the list at "foo".
fn take_foo(value: &mut Value) -> Result<usize, Memory> {
    match value.pointer_mut("/foo") {
        Some(list) => take_longer(list),
        None => Ok(0),
    }
}

/// Puts `true` in the place of the first item of a list.
fn change_first(list: &mut Value) -> bool {
    match list.get_mut(0) {
        Some(place) => {
            *place = Value::from(true);
            true
        }
        None => false,
    }
}

/// Does so with the list at "l".
fn change_item(value: &mut Value) -> bool {
    match value.get_mut("l") {
        Some(list) => change_first(list),
        None => false,
    }
}

fn check_changes(rt: &impl Abort, alloc: Global, value: &mut Value) -> Result<(), Memory> {
    assert!(*rt; remove_empty(value));
    assert_eq!(*rt; take_foo(value)?, 3);
    assert!(*rt; change_item(value));
    assert_eq!(*rt;
        shown(alloc, value)?.as_str(),
        "{\"l\":[true],\"foo\":null}"
    );
    Ok(())
}

#[test]
fn parts_are_changed_in_place(rt: HostRuntime) -> Result<(), Refused<ReadFault>> {
    let text = "{\"\":0,\"foo\":[\"bar\",\"baz\"],\"l\":[5]}";
    let mut value = from_str(rt.alloc(), text)?;
    check_changes(&rt, rt.alloc(), &mut value)?;
    Ok(())
}
