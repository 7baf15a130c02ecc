//! Places in a value, named by a number or a key.
ghost use Rattle.std.specs.Prelude.{◌≡◌, List, Option, Result, Ok, Some, [], ◌∷◌, string_bytes, IsSome, IfOk, OnOk, OnErr, slice_get, slice_set};
ghost use Rattle.std.specs.Option.{option_copied, option_copied_mut};
ghost use Rattle.std.specs.Str.{bytes_eq};
ghost use Rattle.std.specs.Map.{lookup, set_value};
ghost use Rattle.jb_tree.specs.declared.index.IndexError.{IndexError as Fault};
ghost use Rattle.jb_tree.specs.declared.value.Value.{Value as Tree, Null};
ghost use Rattle.jb_tree.specs.Places.{item_put_found, item_made_found, item_found_kept, member_put_found, member_made_found, member_found_kept};
ghost use Rattle.jb_tree.specs.Index.{item_at, member_at, with_item, with_member, with_key, item_put, member_put, IsMade, IsLent, IsPut};
ghost use Rattle.jb_tree.specs.bridge.Index.{HasPlace};

use crate::value::{Map, Value};
use jb_map::Pairs;
use jb_text::{ByteString, Listed, Memory, Refused};
use std::alloc::Global;
use std::mem;
use thiserror::Error;

/// Why a value can have no place at an index.
#[derive(Clone, Copy, Debug, PartialEq, Eq, Error)]
pub enum IndexError {
    /// The array has `len` items, so there is none at `index`.
    #[error("no item stands at {index} among {len}")]
    NoPlace { index: usize, len: usize },
    /// A place by number was asked for in what is no array.
    #[error("the value is no array")]
    NotArray,
    /// A place by key was asked for in what is neither an object nor null.
    #[error("the value is no object")]
    NotObject,
}

/// What names a place in a value: a place in an array by number, or one in an object by its key.
pub trait Index: Drop {
    ghost finds: { Self → Tree → Option Tree };

    ghost makes: { Self → Tree → Result Tree Fault };

    ghost puts: { Self → Tree → Tree → Tree };

    /// What is at the place, or `None` where there is no such place.
    fn index_into<'v>(&self, v: &'v Value) -> Option<&'v Value>
        ensures { option_copied result ≡ finds self.now v.now };

    /// The same, to be changed in its place. No clause says what a write there leaves of the rest.
    fn index_into_mut<'v>(&self, v: &'v mut Value) -> Option<&'v mut Value>
        ensures { option_copied_mut result ≡ finds self.now v.old };

    /// Lends the place, and makes it where there is none: by key a null becomes an empty object, and a missing key is
    /// added last with null; by number nothing is added. `NotArray` and `NoPlace` by number, `NotObject` by key,
    /// `Memory` when out of memory. No clause says what a write there leaves of the rest.
    fn index_or_insert<'v>(
        &self,
        alloc: Global,
        v: &'v mut Value,
    ) -> Result<&'v mut Value, Refused<IndexError>>
        ensures { IsLent result (makes self.now v.old) (finds self.now) };

    /// Puts a value in the place, and gives what stood there: nothing else changes. Where there is no such place it
    /// hands the value back, and nothing changes.
    fn put_into(&self, v: &mut Value, value: Value) -> Result<Value, Value>
        ensures { IsPut result value (finds self.now v.old) v.old (puts self.now v.old value) v.new };

    /// Makes the place where there is none, as `index_or_insert` does, and lends nothing. A refused call leaves the value as
    /// it was.
    fn make_in(&self, alloc: Global, v: &mut Value) -> Result<(), Refused<IndexError>>
        ensures { IsMade result v.old v.new (makes self.now v.old) };

    // What was put in a place is found there.
    ghost put_is_found: { (index : Self) (v w : Tree) → IsSome (finds index v) → finds index (puts index v w) ≡ Some w };

    // A place that was made is there.
    ghost made_is_found: { (index : Self) (v made : Tree) → makes index v ≡ Ok made → IsSome (finds index made) };

    // Where there is a place already, making it changes nothing.
    ghost found_is_kept: { (index : Self) (v : Tree) → IsSome (finds index v) → makes index v ≡ Ok v };
}

impl Index for usize {
    ghost finds = { item_at };

    ghost makes = { with_item };

    ghost puts = { item_put };

    ghost put_is_found = { item_put_found };

    ghost made_is_found = { item_made_found };

    ghost found_is_kept = { item_found_kept };

    fn index_into<'v>(&self, v: &'v Value) -> Option<&'v Value> {
        match v {
            Value::Array(items) => items.get(*self),
            _ => None,
        }
    }

    fn index_into_mut<'v>(&self, v: &'v mut Value) -> Option<&'v mut Value> {
        match v {
            Value::Array(items) => items.get_mut(*self),
            _ => None,
        }
    }

    fn index_or_insert<'v>(
        &self,
        _alloc: Global,
        v: &'v mut Value,
    ) -> Result<&'v mut Value, Refused<IndexError>> {
        match test_item(v, *self) {
            Ok(()) => Ok(self.index_into_mut(v).unwrap()),
            Err(fault) => Err(Refused::Fault(fault)),
        }
    }

    fn put_into(&self, v: &mut Value, value: Value) -> Result<Value, Value> {
        match v {
            Value::Array(items) => put_item(items, *self, value),
            _ => Err(value),
        }
    }

    fn make_in(&self, _alloc: Global, v: &mut Value) -> Result<(), Refused<IndexError>> {
        match test_item(v, *self) {
            Ok(()) => Ok(()),
            Err(fault) => Err(Refused::Fault(fault)),
        }
    }
}

impl Index for &str {
    ghost finds = { λ key. member_at key.now };

    ghost makes = { λ key. with_member key.now };

    ghost puts = { λ key. member_put key.now };

    ghost put_is_found = { λ key. member_put_found key.now };

    ghost made_is_found = { λ key. member_made_found key.now };

    ghost found_is_kept = { λ key. member_found_kept key.now };

    fn index_into<'v>(&self, v: &'v Value) -> Option<&'v Value> {
        match v {
            Value::Object(members) => members.get(*self),
            _ => None,
        }
    }

    fn index_into_mut<'v>(&self, v: &'v mut Value) -> Option<&'v mut Value> {
        match v {
            Value::Object(members) => members.get_mut(*self),
            _ => None,
        }
    }

    fn index_or_insert<'v>(
        &self,
        alloc: Global,
        v: &'v mut Value,
    ) -> Result<&'v mut Value, Refused<IndexError>> {
        match make_member(alloc, v, *self) {
            Ok(()) => Ok(self.index_into_mut(v).unwrap()),
            Err(refused) => Err(refused),
        }
    }

    fn put_into(&self, v: &mut Value, value: Value) -> Result<Value, Value> {
        match v {
            Value::Object(members) => put_member(members, *self, value),
            _ => Err(value),
        }
    }

    fn make_in(&self, alloc: Global, v: &mut Value) -> Result<(), Refused<IndexError>> {
        make_member(alloc, v, *self)
    }
}

impl Index for &String {
    ghost finds = { λ key. member_at (string_bytes key.now) };

    ghost makes = { λ key. with_member (string_bytes key.now) };

    ghost puts = { λ key. member_put (string_bytes key.now) };

    ghost put_is_found = { λ key. member_put_found (string_bytes key.now) };

    ghost made_is_found = { λ key. member_made_found (string_bytes key.now) };

    ghost found_is_kept = { λ key. member_found_kept (string_bytes key.now) };

    fn index_into<'v>(&self, v: &'v Value) -> Option<&'v Value> {
        self.as_str().index_into(v)
    }

    fn index_into_mut<'v>(&self, v: &'v mut Value) -> Option<&'v mut Value> {
        self.as_str().index_into_mut(v)
    }

    fn index_or_insert<'v>(
        &self,
        alloc: Global,
        v: &'v mut Value,
    ) -> Result<&'v mut Value, Refused<IndexError>> {
        self.as_str().index_or_insert(alloc, v)
    }

    fn put_into(&self, v: &mut Value, value: Value) -> Result<Value, Value> {
        self.as_str().put_into(v, value)
    }

    fn make_in(&self, alloc: Global, v: &mut Value) -> Result<(), Refused<IndexError>> {
        self.as_str().make_in(alloc, v)
    }
}

impl Value {
    /// What is at the index, or `None` where there is no such place.
    pub fn get<I: Index>(&self, index: I) -> Option<&Value>
        ensures { option_copied result ≡ I.Index.finds index self.now }
    {
        index.index_into(self)
    }

    /// The same, to be changed in its place. No clause says that a write there leaves the rest as it was: a caller whose
    /// proof needs that goes by `as_array_mut` or `as_object_mut`, and by `get_mut` of the list or the map.
    pub fn get_mut<I: Index>(&mut self, index: I) -> Option<&mut Value>
        ensures { option_copied_mut result ≡ I.Index.finds index self.old }
    {
        index.index_into_mut(self)
    }

    /// Puts a value in the place at the index, and gives what stood there: nothing else changes. Where there is no such
    /// place the answer is `Err` with the value itself, and nothing changes. It takes no memory.
    pub fn put<I: Index>(&mut self, index: I, value: Value) -> Result<Value, Value>
        ensures { IsPut result value (I.Index.finds index self.old) self.old (I.Index.puts index self.old value) self.new }
    {
        index.put_into(self, value)
    }

    /// Makes the place at the index where there is none, and nothing else: by key a null becomes an empty object, and a
    /// missing key is added last with null; by number nothing is added. A refused call leaves the value as it was.
    ///
    /// # Errors
    ///
    /// - [`Refused::Fault`]: by number `NotArray` and `NoPlace`, by key `NotObject`.
    /// - [`Refused::Memory`] when out of memory.
    pub fn make<I: Index>(&mut self, alloc: Global, index: I) -> Result<(), Refused<IndexError>>
        ensures { IsMade result self.old self.new (I.Index.makes index self.old) }
    {
        index.make_in(alloc, self)
    }
}

/// Whether an array has an item at a place. It is `Ok` where it has one.
fn test_item(v: &Value, place: usize) -> Result<(), IndexError>
    ensures made { HasPlace result (with_item place v.now) v.now }
    ensures there { OnOk result (IsSome (item_at place v.now)) }
{
    match v {
        Value::Array(items) if place < items.len() => Ok(()),
        Value::Array(items) => Err(IndexError::NoPlace {
            index: place,
            len: items.len(),
        }),
        _ => Err(IndexError::NotArray),
    }
}

/// Makes a member at a key, as `index_or_insert` does. A refused call leaves the value as it was.
fn make_member(alloc: Global, v: &mut Value, key: &str) -> Result<(), Refused<IndexError>>
    ensures made { IsMade result v.old v.new (with_member key.now v.old) }
    ensures there { OnOk result (IsSome (member_at key.now v.new)) }
{
    match v {
        Value::Null => {
            *v = Value::Object(only_member(alloc, key)?);
            Ok(())
        }
        Value::Object(members) => {
            add_member(alloc, members, key)?;
            Ok(())
        }
        _ => Err(Refused::Fault(IndexError::NotObject)),
    }
}

/// Puts a value in the place of an item.
fn put_item(items: &mut Listed<Value>, place: usize, value: Value) -> Result<Value, Value>
    ensures { IsPut result value (slice_get items.old place) items.old (slice_set items.old place value) items.new }
{
    match items.get_mut(place) {
        Some(item) => Ok(mem::replace(item, value)),
        None => Err(value),
    }
}

/// Puts a value in the place of a member.
fn put_member(members: &mut Map, key: &str, value: Value) -> Result<Value, Value>
    ensures { IsPut result value (lookup (bytes_eq key.now) members.old) members.old (set_value (bytes_eq key.now) members.old value) members.new }
{
    match members.get_mut(key) {
        Some(member) => Ok(mem::replace(member, value)),
        None => Err(value),
    }
}

/// The object of this one key, with null.
fn only_member(alloc: Global, key: &str) -> Result<Map, Memory>
    ensures { IfOk result (λ members. members ≡ (key.now, Null) ∷ []) }
{
    let mut members = Pairs::new(alloc);
    members.insert_new(ByteString::from_text(alloc, key)?, Value::Null)?;
    Ok(members)
}

/// Adds the key last, with null, where it is missing. `Err` only when out of memory: the object is then as it was.
fn add_member(alloc: Global, members: &mut Map, key: &str) -> Result<(), Memory>
    ensures added { OnOk result (members.new ≡ with_key key.now members.old) }
    ensures there { OnOk result (IsSome (lookup (bytes_eq key.now) members.new)) }
    ensures refused { OnErr result (members.new ≡ members.old) }
{
    match members.find(key) {
        Some(_) => Ok(()),
        None => {
            let text = ByteString::from_text(alloc, key)?;
            members.insert_new(text, Value::Null)?;
            Ok(())
        }
    }
}
