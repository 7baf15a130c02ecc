//! What a value holds, by its kind.
ghost use Rattle.std.specs.Prelude.{◌≡◌, None, is_some, MatchOption, FitsSigned};
ghost use Rattle.std.specs.Borrow.{LendsIf, sem};
ghost use Rattle.std.specs.Int.{w64};
ghost use Rattle.std.specs.Option.{option_copied, option_map, SomeIff};
ghost use Rattle.jb_text.specs.Number.{IsUnsigned};
ghost use Rattle.jb_tree.specs.Value.{object_members, array_items, string_text, whole_number, truth_value, is_null};
ghost use Rattle.jb_tree.specs.Rows.{list_row, map_row};
ghost use Rattle.jb_tree.specs.contracts.value.Value.{the_row};
ghost use Rattle.jb_tree.specs.declared.value.Value.{Array, Object};

use crate::value::{Map, Value};
use jb_text::{Listed, Number};
use std::mem;

impl Value {
    /// The members where the value is an object.
    pub fn as_object(&self) -> Option<&Map>
        ensures { option_copied result ≡ object_members self.now }
    {
        match self {
            Value::Object(members) => Some(members),
            _ => None,
        }
    }

    /// The members where the value is an object, to be changed in their place.
    pub fn as_object_mut(&mut self) -> Option<&mut Map>
        ensures* writes_back { sem 𝓛 (LendsIf the_row map_row self.entry result Object self.old) }
        ensures value { option_map (λ members. members.now) result ≡ object_members self.old }
    {
        match self {
            Value::Object(members) => Some(members),
            _ => None,
        }
    }

    /// The items where the value is an array.
    pub fn as_array(&self) -> Option<&Listed<Value>>
        ensures { option_copied result ≡ array_items self.now }
    {
        match self {
            Value::Array(items) => Some(items),
            _ => None,
        }
    }

    /// The items where the value is an array, to be changed in their place.
    pub fn as_array_mut(&mut self) -> Option<&mut Listed<Value>>
        ensures* writes_back { sem 𝓛 (LendsIf the_row list_row self.entry result Array self.old) }
        ensures value { option_map (λ items. items.now) result ≡ array_items self.old }
    {
        match self {
            Value::Array(items) => Some(items),
            _ => None,
        }
    }

    /// The text where the value is a string.
    pub fn as_str(&self) -> Option<&str>
        ensures { option_copied result ≡ string_text self.now }
    {
        match self {
            Value::String(text) => Some(text.as_str()),
            _ => None,
        }
    }

    /// The number where the value is one.
    pub fn as_number(&self) -> Option<&Number>
        ensures { option_copied result ≡ whole_number self.now }
    {
        match self {
            Value::Number(number) => Some(number),
            _ => None,
        }
    }

    /// The number where the value is one that an `i64` holds.
    pub fn as_i64(&self) -> Option<i64>
        ensures { MatchOption (whole_number self.now) (result ≡ None) (λ z. SomeIff result (FitsSigned w64 z) z) }
    {
        match self {
            Value::Number(number) => number.as_i64(),
            _ => None,
        }
    }

    /// The number where the value is one that a `u64` holds.
    pub fn as_u64(&self) -> Option<u64>
        ensures { MatchOption (whole_number self.now) (result ≡ None) (λ z. IsUnsigned result z) }
    {
        match self {
            Value::Number(number) => number.as_u64(),
            _ => None,
        }
    }

    /// The truth value where the value is one.
    pub fn as_bool(&self) -> Option<bool>
        ensures { result ≡ truth_value self.now }
    {
        match self {
            Value::Bool(truth) => Some(*truth),
            _ => None,
        }
    }

    /// `Some(())` where the value is null.
    pub fn as_null(&self) -> Option<()>
        ensures { is_some result ≡ is_null self.now }
    {
        match self {
            Value::Null => Some(()),
            _ => None,
        }
    }

    /// Takes the value out, and leaves `Null` in its place.
    pub fn take(&mut self) -> Value
        ensures taken { result ≡ self.old }
        ensures left { self.new ≡ Value.Null }
    {
        mem::replace(self, Value::Null)
    }
}
