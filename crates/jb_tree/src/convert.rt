//! Values made of what Rust holds otherwise.
ghost use Rattle.std.specs.Prelude.{◌≡◌, [], pos, IfOk, unwrap_or};
ghost use Rattle.std.specs.Str.{bytes_eq};
ghost use Rattle.indexmap.specs.IndexMap.{insert_all};
ghost use Rattle.jb_tree.specs.declared.value.Value.{Null, Bool, Number, Object};

use crate::value::{Map, Value};
use jb_map::Pairs;
use jb_text::{ByteString, Listed, Memory, Number};
use std::alloc::Global;

impl Value {
    /// The string of a copy of `text`. `Err` only when out of memory.
    pub fn from_text(alloc: Global, text: &str) -> Result<Value, Memory>
        ensures { IfOk result (λ made. made ≡ Value.String text.now) }
    {
        Ok(Value::String(ByteString::from_text(alloc, text)?))
    }

    /// The array of these items.
    pub fn from_list(items: Listed<Value>) -> Value
        ensures { result ≡ Value.Array items }
    {
        Value::Array(items)
    }

    /// The object of these pairs, each inserted in turn: of those with one key the first gives the place, and the last the value.
    /// `Err` only when out of memory.
    pub fn from_pairs(alloc: Global, pairs: Listed<(ByteString, Value)>) -> Result<Value, Memory>
        ensures { IfOk result (λ made. made ≡ Value.Object (insert_all bytes_eq [] pairs)) }
    {
        Ok(Value::Object(Pairs::from_pairs(alloc, pairs)?))
    }

    /// The value itself, or `Null` for `None`.
    pub fn from_option(value: Option<Value>) -> Value
        ensures { result ≡ unwrap_or value Value.Null }
    {
        match value {
            Some(value) => value,
            None => Value::Null,
        }
    }
}

impl From<i8> for Value {
    ghost from_gives = { λ value made. made ≡ Number value };

    fn from(value: i8) -> Value {
        Value::Number(Number::from_i64(value as i64))
    }
}

impl From<i16> for Value {
    ghost from_gives = { λ value made. made ≡ Number value };

    fn from(value: i16) -> Value {
        Value::Number(Number::from_i64(value as i64))
    }
}

impl From<i32> for Value {
    ghost from_gives = { λ value made. made ≡ Number value };

    fn from(value: i32) -> Value {
        Value::Number(Number::from_i64(value as i64))
    }
}

impl From<i64> for Value {
    ghost from_gives = { λ value made. made ≡ Number value };

    fn from(value: i64) -> Value {
        Value::Number(Number::from_i64(value))
    }
}

impl From<isize> for Value {
    ghost from_gives = { λ value made. made ≡ Number value };

    fn from(value: isize) -> Value {
        Value::Number(Number::from_i64(value as i64))
    }
}

impl From<u8> for Value {
    ghost from_gives = { λ value made. made ≡ Number (pos value) };

    fn from(value: u8) -> Value {
        Value::Number(Number::from_u64(value as u64))
    }
}

impl From<u16> for Value {
    ghost from_gives = { λ value made. made ≡ Number (pos value) };

    fn from(value: u16) -> Value {
        Value::Number(Number::from_u64(value as u64))
    }
}

impl From<u32> for Value {
    ghost from_gives = { λ value made. made ≡ Number (pos value) };

    fn from(value: u32) -> Value {
        Value::Number(Number::from_u64(value as u64))
    }
}

impl From<u64> for Value {
    ghost from_gives = { λ value made. made ≡ Number (pos value) };

    fn from(value: u64) -> Value {
        Value::Number(Number::from_u64(value))
    }
}

impl From<usize> for Value {
    ghost from_gives = { λ value made. made ≡ Number (pos value) };

    fn from(value: usize) -> Value {
        Value::Number(Number::from_u64(value as u64))
    }
}

impl From<bool> for Value {
    ghost from_gives = { λ value made. made ≡ Bool value };

    fn from(value: bool) -> Value {
        Value::Bool(value)
    }
}

impl From<()> for Value {
    ghost from_gives = { λ _ made. made ≡ Null };

    fn from(_unit: ()) -> Value {
        Value::Null
    }
}

impl From<Number> for Value {
    ghost from_gives = { λ value made. made ≡ Number value };

    fn from(value: Number) -> Value {
        Value::Number(value)
    }
}

impl From<Map> for Value {
    ghost from_gives = { λ value made. made ≡ Object value };

    fn from(value: Map) -> Value {
        Value::Object(value)
    }
}
