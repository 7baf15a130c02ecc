//! Places in values: those that are made, what a refusal leaves, and where nothing is lent.
use crate::fixtures::shown;
use jb_read::{ReadFault, from_str};
use jb_tree::{Index, Refused, Text, Value};
use std::alloc::Global;
use std::process::Abort;

/// Whether a place is made in the value of a JSON text, and the text of the value then.
fn make(alloc: Global, index: impl Index, text: &str) -> Result<(bool, Text), Refused<ReadFault>> {
    let mut value = from_str(alloc, text)?;
    let is_made = value.make(alloc, index).is_ok();
    Ok((is_made, shown(alloc, &value)?))
}

/// The same by the call that lends the place too.
fn make_lent(
    alloc: Global,
    index: impl Index,
    text: &str,
) -> Result<(bool, Text), Refused<ReadFault>> {
    let mut value = from_str(alloc, text)?;
    let is_made = index.index_or_insert(alloc, &mut value).is_ok();
    Ok((is_made, shown(alloc, &value)?))
}

fn check_made(rt: &impl Abort, found: &(bool, Text), is_made: bool, text: &str) {
    let (found, value) = found;
    assert_eq!(*rt; *found, is_made, "{text}");
    assert_eq!(*rt; value.as_str(), text);
}

#[test]
fn a_place_is_made_and_nothing_else(rt: HostRuntime) -> Result<(), Refused<ReadFault>> {
    let alloc = rt.alloc();
    check_made(&rt, &make(alloc, "k", "null")?, true, "{\"k\":null}");
    let wanted = "{\"j\":1,\"k\":null}";
    check_made(&rt, &make(alloc, "k", "{\"j\":1}")?, true, wanted);
    check_made(&rt, &make(alloc, "k", "{\"k\":1}")?, true, "{\"k\":1}");
    check_made(&rt, &make(alloc, 0, "[1]")?, true, "[1]");
    Ok(())
}

#[test]
fn a_refusal_leaves_the_value(rt: HostRuntime) -> Result<(), Refused<ReadFault>> {
    let alloc = rt.alloc();
    check_made(&rt, &make(alloc, 1, "[1]")?, false, "[1]");
    check_made(&rt, &make(alloc, 0, "null")?, false, "null");
    check_made(&rt, &make(alloc, "k", "[1]")?, false, "[1]");
    check_made(&rt, &make_lent(alloc, 1, "[1]")?, false, "[1]");
    check_made(&rt, &make_lent(alloc, 0, "null")?, false, "null");
    check_made(&rt, &make_lent(alloc, "k", "[1]")?, false, "[1]");
    Ok(())
}

/// Whether no call lends a place inside.
fn lends_nothing(value: &mut Value) -> bool {
    value.get_mut(3).is_none() && value.get_mut("x").is_none() && value.pointer_mut("/x").is_none()
}

/// Whether the list or the map of a value lends none either.
fn lends_no_part(value: &mut Value) -> bool {
    match value {
        Value::Array(items) => items.get_mut(3).is_none(),
        Value::Object(members) => members.get_mut("x").is_none(),
        _ => value.as_array_mut().is_none() && value.as_object_mut().is_none(),
    }
}

fn check_unlent(rt: &impl Abort, alloc: Global, text: &str) -> Result<(), Refused<ReadFault>> {
    let mut value = from_str(alloc, text)?;
    assert!(*rt; lends_nothing(&mut value), "{text}");
    assert!(*rt; lends_no_part(&mut value), "{text}");
    assert_eq!(*rt; shown(alloc, &value)?.as_str(), text);
    Ok(())
}

#[test]
fn nothing_is_lent_where_there_is_no_place(rt: HostRuntime) -> Result<(), Refused<ReadFault>> {
    for text in &["null", "1", "[1,2,3]", "{\"k\":1}"] {
        check_unlent(&rt, rt.alloc(), text)?;
    }
    Ok(())
}

fn check_identity(rt: &impl Abort, one: &Value, other: &Value, is_identical: bool) {
    assert!(*rt; *one == *other);
    assert_eq!(*rt; one.is_identical(other), is_identical);
}

#[test]
fn identity_has_the_order_of_members(rt: HostRuntime) -> Result<(), Refused<ReadFault>> {
    let one = from_str(rt.alloc(), "{\"a\":[1,\"x\"],\"b\":{\"c\":null}}")?;
    let other = from_str(rt.alloc(), "{\"b\":{\"c\":null},\"a\":[1,\"x\"]}")?;
    check_identity(&rt, &one, &one, true);
    check_identity(&rt, &one, &other, false);
    Ok(())
}
