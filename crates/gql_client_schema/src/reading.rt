//! What JSON values are read as, by a trait, and the members of objects.

ghost use Rattle.std.specs.Prelude.{◌≡◌, [], true};
ghost use Rattle.std.specs.Option.{option_copied};
ghost use Rattle.gql_ast_base.specs.Names.{is_name};
ghost use Rattle.jb_tree.specs.declared.value.Value.{Value as JsonValue};
ghost use Rattle.gql_client_schema.specs.Reading.{Answers, Reading, both, mapped, read_items};
ghost use Rattle.gql_client_schema.specs.Members as spec;

use crate::path::{Unread, in_item, in_member, misfit};
use gql_ast_base::Name;
use jb_text::{ByteString, Listed, Refused};
use jb_tree::{Map, Value};
use std::alloc::Global;

/// What is read of a value.
pub(crate) trait Read: Sized + Drop {
    // What the value is read as, or the first part of it that breaks a rule.
    ghost reading: { JsonValue → Reading Self };

    /// What the value is read as. `Err` where a part of it breaks a rule, or when out of memory.
    fn read(alloc: Global, value: &Value) -> Result<Self, Unread>
        ensures { Answers (reading value.now) result };
}

impl Read for ByteString {
    ghost reading = { spec.read_text };

    fn read(alloc: Global, value: &Value) -> Result<ByteString, Unread> {
        match value.as_str() {
            Some(text) => Ok(ByteString::from_text(alloc, text)?),
            None => Err(misfit(alloc)),
        }
    }
}

impl Read for bool {
    ghost reading = { spec.read_truth };

    fn read(alloc: Global, value: &Value) -> Result<bool, Unread> {
        match value.as_bool() {
            Some(truth) => Ok(truth),
            None => Err(misfit(alloc)),
        }
    }
}

impl Read for Name {
    ghost reading = { spec.read_name };

    fn read(alloc: Global, value: &Value) -> Result<Name, Unread> {
        match value.as_str() {
            Some(text) => name_of(alloc, text),
            None => Err(misfit(alloc)),
        }
    }
}

fn name_of(alloc: Global, text: &str) -> Result<Name, Unread>
    ensures { Answers (spec.name_of text.now) result }
{
    match Name::new(alloc, text) {
        Ok(name) => Ok(name),
        Err(Refused::Fault(_)) => Err(misfit(alloc)),
        Err(Refused::Memory) => Err(Refused::Memory),
    }
}

impl<T: Read> Read for Option<T> {
    ghost reading = { spec.or_null T.reading };

    fn read(alloc: Global, value: &Value) -> Result<Option<T>, Unread> {
        if value.is_null() {
            return Ok(None);
        }
        match T::read(alloc, value) {
            Ok(found) => Ok(Some(found)),
            Err(unread) => Err(unread),
        }
    }
}

impl<T: Read> Read for Listed<T> {
    ghost reading = { spec.read_list T.reading };

    fn read(alloc: Global, value: &Value) -> Result<Listed<T>, Unread> {
        match value.as_array() {
            Some(values) => each(alloc, values.as_slice()),
            None => Err(misfit(alloc)),
        }
    }
}

/// Each of the items in turn.
fn each<T: Read>(alloc: Global, values: &[Value]) -> Result<Listed<T>, Unread>
    ensures { Answers (read_items T.reading 0 [] values.now) result }
{
    let mut items = Listed::new(alloc);
    for (index, value) in values.iter().enumerate() {
        match in_item(index, T::read(alloc, value)) {
            Ok(found) => items.push(found)?,
            Err(unread) => return Err(unread),
        }
    }
    Ok(items)
}

/// A list that may be null, which stands for one without items.
pub(crate) fn list_or_null<T: Read>(alloc: Global, value: &Value) -> Result<Listed<T>, Unread>
    ensures { Answers (spec.read_list_or_null T.reading value.now) result }
{
    if value.is_null() {
        return Ok(Listed::new(alloc));
    }
    Listed::read(alloc, value)
}

/// A member that has to be there.
pub(crate) fn required<T: Read>(alloc: Global, name: &str, members: &Map) -> Result<T, Unread>
    requires { is_name name.now ≡ true }
    ensures { Answers (spec.required T.reading name.now members.now) result }
{
    in_member(alloc, name, there(alloc, members.get(name)))
}

fn there<T: Read>(alloc: Global, value: Option<&Value>) -> Result<T, Unread>
    ensures { Answers (spec.there T.reading (option_copied value.entry)) result }
{
    match value {
        Some(value) => T::read(alloc, value),
        None => Err(misfit(alloc)),
    }
}

/// A list that may be null, but has to be there.
pub(crate) fn required_list<T: Read>(
    alloc: Global,
    name: &str,
    members: &Map,
) -> Result<Listed<T>, Unread>
    requires { is_name name.now ≡ true }
    ensures { Answers (spec.required (spec.read_list_or_null T.reading) name.now members.now) result }
{
    in_member(alloc, name, list_there(alloc, members.get(name)))
}

fn list_there<T: Read>(alloc: Global, value: Option<&Value>) -> Result<Listed<T>, Unread>
    ensures { Answers (spec.there (spec.read_list_or_null T.reading) (option_copied value.entry)) result }
{
    match value {
        Some(value) => list_or_null(alloc, value),
        None => Err(misfit(alloc)),
    }
}

/// A member in whose place `absent` counts where it is absent.
pub(crate) fn spared<T: Read>(
    alloc: Global,
    name: &str,
    absent: T,
    members: &Map,
) -> Result<T, Unread>
    requires { is_name name.now ≡ true }
    ensures { Answers (spec.spared T.reading absent name.now members.now) result }
{
    in_member(alloc, name, there_or(alloc, absent, members.get(name)))
}

fn there_or<T: Read>(alloc: Global, absent: T, value: Option<&Value>) -> Result<T, Unread>
    ensures { Answers (spec.there_or T.reading absent (option_copied value.entry)) result }
{
    match value {
        Some(value) => T::read(alloc, value),
        None => Ok(absent),
    }
}

/// One thing and then another.
pub(crate) fn both<A: Drop, B: Drop>(
    first: Result<A, Unread>,
    second: Result<B, Unread>,
) -> Result<(A, B), Unread>
    ensures { (one : Reading A) (other : Reading B) → Answers one first → Answers other second → Answers (both one other) result }
{
    match first {
        Ok(one) => with(one, second),
        Err(unread) => Err(unread),
    }
}

fn with<A: Drop, B: Drop>(one: A, second: Result<B, Unread>) -> Result<(A, B), Unread>
    ensures { (other : Reading B) → Answers other second → Answers (mapped (λ found. (one, found)) other) result }
{
    match second {
        Ok(other) => Ok((one, other)),
        Err(unread) => Err(unread),
    }
}

/// A description, which may be absent (GraphQL October 2021, section 2.9.4).
pub(crate) fn description_in(alloc: Global, members: &Map) -> Result<Option<ByteString>, Unread>
    ensures { Answers (spec.description_in members.now) result }
{
    spared(alloc, "description", None, members)
}
