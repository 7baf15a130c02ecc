//! A value put in the place that a JSON Pointer names (RFC 6901).
ghost use Rattle.std.specs.Prelude.{◌≡◌, [], ◌∷◌};
ghost use Rattle.std.specs.Option.{option_copied};
ghost use Rattle.std.specs.Str.{bytes_eq};
ghost use Rattle.std.specs.Map.{lookup, set_value};
ghost use Rattle.jb_tree.specs.Index.{IsPut};
ghost use Rattle.jb_tree.specs.Pointer.{decoded, item_named, item_named_put, named, named_put, pointed, pointed_put, tokens_from};
ghost use Rattle.jb_tree.specs.bridge.Pointer.{tokens_left, IsPutBelow};

use crate::pointer::{item_place, member_place};
use crate::value::{Map, Value};
use jb_text::Listed;
use std::mem;

impl Value {
    /// Puts a value in the place that a JSON Pointer names, and gives what stood there: nothing else changes. Where
    /// there is no such place, or the text is no pointer, the answer is `Err` with the value itself, and nothing
    /// changes. It takes no memory. [`Value::pointer`] says what a pointer names.
    pub fn pointer_put(&mut self, pointer: &str, value: Value) -> Result<Value, Value>
        ensures { IsPut result value (pointed pointer.now self.old) self.old (pointed_put pointer.now self.old value) self.new }
    {
        if pointer.is_empty() {
            return Ok(mem::replace(self, value));
        }
        match pointer.strip_prefix('/') {
            Some(rest) => put_named(self, Some(rest), value),
            None => Err(value),
        }
    }
}

/// Puts a value in the place that the rest of a pointer names.
#[cycle(putting)]
fn put_named(place: &mut Value, rest: Option<&str>, value: Value) -> Result<Value, Value>
    ensures { IsPut result value (named (tokens_left (option_copied rest.entry)) place.old) place.old (named_put (tokens_left (option_copied rest.entry)) place.old value) place.new }
{
    let Some(text) = rest else {
        return Ok(mem::replace(place, value));
    };
    let (token, more) = first_token(text);
    match place {
        Value::Array(items) => put_in_items(items, token, more, value),
        Value::Object(members) => put_in_members(members, token, more, value),
        _ => Err(value),
    }
}

/// The same below the item that a token names.
#[cycle(putting)]
fn put_in_items(
    items: &mut Listed<Value>,
    token: &str,
    more: Option<&str>,
    value: Value,
) -> Result<Value, Value>
    ensures { IsPutBelow result value (tokens_left (option_copied more.entry)) (item_named token.now 0 items.old) (item_named_put token.now 0 items.old) items.old items.new }
{
    let Some(index) = item_place(items.len(), token) else {
        return Err(value);
    };
    match items.get_mut(index) {
        Some(item) => put_named(item, more, value),
        None => Err(value),
    }
}

/// The same below the member that a token names.
#[cycle(putting)]
fn put_in_members(
    members: &mut Map,
    token: &str,
    more: Option<&str>,
    value: Value,
) -> Result<Value, Value>
    ensures { IsPutBelow result value (tokens_left (option_copied more.entry)) (lookup (bytes_eq (decoded token.now)) members.old) (set_value (bytes_eq (decoded token.now)) members.old) members.old members.new }
{
    match member_place(members, token) {
        Some(index) => put_named(members.value_mut_at(index), more, value),
        None => Err(value),
    }
}

/// The first token of the rest of a pointer, and what follows behind the next `/`.
fn first_token(rest: &str) -> (&str, Option<&str>)
    ensures { tokens_from [] rest.now ≡ result.0.now ∷ tokens_left (option_copied result.1) }
{
    match rest.split_once('/') {
        Some((token, more)) => (token, Some(more)),
        None => (rest, None),
    }
}
