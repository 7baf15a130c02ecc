//! The unsigned integer types.
ghost use Rattle.std.specs.Prelude.{◌≡◌, ◌≤◌, ◌^◌, ◌-◌, IfOk};
ghost use Rattle.jb_shape.specs.Outcome.{Answers};
ghost use Rattle.jb_shape.specs.Scalars.{number_of, unsigned_within, read_unsigned, unsigned_value};

use crate::shape_error::ShapeError;
use crate::shapes::{FromValue, ToValue};
use jb_tree::{Number, Refused, Value};
use std::alloc::Global;

/// The number where the value is one.
pub(crate) fn number_of(value: &Value) -> Result<Number, ShapeError>
    ensures { result ≡ number_of value.now }
{
    match value {
        Value::Number(number) => Ok(*number),
        _ => Err(ShapeError::WrongKind),
    }
}

/// A number from zero to `most`.
pub(crate) fn unsigned_within(number: Number, most: u64) -> Result<u64, ShapeError>
    ensures { result ≡ unsigned_within most number }
{
    match number.as_u64() {
        Some(value) if value <= most => Ok(value),
        _ => Err(ShapeError::NumberTooLarge),
    }
}

// A value that is a number from zero to `most`.
fn read_unsigned(value: &Value, most: u64) -> Result<u64, Refused<ShapeError>>
    ensures read { Answers (read_unsigned most value.now) result }
    ensures within { IfOk result (λ n. n ≤ most) }
{
    let number = number_of(value)?;
    Ok(unsigned_within(number, most)?)
}

impl ToValue for u8 {
    ghost shape = { unsigned_value };

    fn to_value(&self, _alloc: Global) -> Result<Value, Refused<ShapeError>> {
        Ok(Value::Number(Number::from_u64(*self as u64)))
    }
}

impl FromValue for u8 {
    ghost reading = { read_unsigned (2 ^ 8 - 1) };

    fn from_value(_alloc: Global, value: &Value) -> Result<u8, Refused<ShapeError>> {
        Ok(read_unsigned(value, u8::MAX as u64)? as u8)
    }
}

impl ToValue for u16 {
    ghost shape = { unsigned_value };

    fn to_value(&self, _alloc: Global) -> Result<Value, Refused<ShapeError>> {
        Ok(Value::Number(Number::from_u64(*self as u64)))
    }
}

impl FromValue for u16 {
    ghost reading = { read_unsigned (2 ^ 16 - 1) };

    fn from_value(_alloc: Global, value: &Value) -> Result<u16, Refused<ShapeError>> {
        Ok(read_unsigned(value, u16::MAX as u64)? as u16)
    }
}

impl ToValue for u32 {
    ghost shape = { unsigned_value };

    fn to_value(&self, _alloc: Global) -> Result<Value, Refused<ShapeError>> {
        Ok(Value::Number(Number::from_u64(*self as u64)))
    }
}

impl FromValue for u32 {
    ghost reading = { read_unsigned (2 ^ 32 - 1) };

    fn from_value(_alloc: Global, value: &Value) -> Result<u32, Refused<ShapeError>> {
        Ok(read_unsigned(value, u32::MAX as u64)? as u32)
    }
}

impl ToValue for u64 {
    ghost shape = { unsigned_value };

    fn to_value(&self, _alloc: Global) -> Result<Value, Refused<ShapeError>> {
        Ok(Value::Number(Number::from_u64(*self)))
    }
}

impl FromValue for u64 {
    ghost reading = { read_unsigned (2 ^ 64 - 1) };

    fn from_value(_alloc: Global, value: &Value) -> Result<u64, Refused<ShapeError>> {
        read_unsigned(value, u64::MAX)
    }
}

impl ToValue for usize {
    ghost shape = { unsigned_value };

    fn to_value(&self, _alloc: Global) -> Result<Value, Refused<ShapeError>> {
        Ok(Value::Number(Number::from_u64(*self as u64)))
    }
}

impl FromValue for usize {
    ghost reading = { read_unsigned (2 ^ 64 - 1) };

    fn from_value(_alloc: Global, value: &Value) -> Result<usize, Refused<ShapeError>> {
        Ok(read_unsigned(value, usize::MAX as u64)? as usize)
    }
}
