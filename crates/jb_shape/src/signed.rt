//! The signed integer types.
ghost use Rattle.std.specs.Prelude.{◌≡◌, ◌^◌, ◌-◌, ◌<◌, ◌≤ℤ◌, pos, negsuc, IfOk};
ghost use Rattle.jb_shape.specs.Outcome.{Answers};
ghost use Rattle.jb_shape.specs.Scalars.{signed_within, read_signed, signed_value};

use crate::shape_error::ShapeError;
use crate::shapes::{FromValue, ToValue};
use crate::unsigned::number_of;
use jb_tree::{Number, Refused, Value};
use std::alloc::Global;

/// A number from -`most` - 1 to `most`.
pub(crate) fn signed_within(number: Number, most: u64) -> Result<i64, ShapeError>
    requires { most < 2 ^ 63 }
    ensures { result ≡ signed_within most number }
{
    let greatest = most as i64;
    match number.as_i64() {
        Some(value) if -1 - greatest <= value && value <= greatest => Ok(value),
        _ => Err(ShapeError::NumberTooLarge),
    }
}

// A value that is a number from -`most` - 1 to `most`.
fn read_signed(value: &Value, most: u64) -> Result<i64, Refused<ShapeError>>
    requires { most < 2 ^ 63 }
    ensures read { Answers (read_signed most value.now) result }
    ensures low { IfOk result (λ z. negsuc most ≤ℤ z) }
    ensures high { IfOk result (λ z. z ≤ℤ pos most) }
{
    let number = number_of(value)?;
    Ok(signed_within(number, most)?)
}

impl ToValue for i8 {
    ghost shape = { signed_value };

    fn to_value(&self, _alloc: Global) -> Result<Value, Refused<ShapeError>> {
        Ok(Value::Number(Number::from_i64(*self as i64)))
    }
}

impl FromValue for i8 {
    ghost reading = { read_signed (2 ^ 7 - 1) };

    fn from_value(_alloc: Global, value: &Value) -> Result<i8, Refused<ShapeError>> {
        Ok(read_signed(value, i8::MAX as u64)? as i8)
    }
}

impl ToValue for i16 {
    ghost shape = { signed_value };

    fn to_value(&self, _alloc: Global) -> Result<Value, Refused<ShapeError>> {
        Ok(Value::Number(Number::from_i64(*self as i64)))
    }
}

impl FromValue for i16 {
    ghost reading = { read_signed (2 ^ 15 - 1) };

    fn from_value(_alloc: Global, value: &Value) -> Result<i16, Refused<ShapeError>> {
        Ok(read_signed(value, i16::MAX as u64)? as i16)
    }
}

impl ToValue for i32 {
    ghost shape = { signed_value };

    fn to_value(&self, _alloc: Global) -> Result<Value, Refused<ShapeError>> {
        Ok(Value::Number(Number::from_i64(*self as i64)))
    }
}

impl FromValue for i32 {
    ghost reading = { read_signed (2 ^ 31 - 1) };

    fn from_value(_alloc: Global, value: &Value) -> Result<i32, Refused<ShapeError>> {
        Ok(read_signed(value, i32::MAX as u64)? as i32)
    }
}

impl ToValue for i64 {
    ghost shape = { signed_value };

    fn to_value(&self, _alloc: Global) -> Result<Value, Refused<ShapeError>> {
        Ok(Value::Number(Number::from_i64(*self)))
    }
}

impl FromValue for i64 {
    ghost reading = { read_signed (2 ^ 63 - 1) };

    fn from_value(_alloc: Global, value: &Value) -> Result<i64, Refused<ShapeError>> {
        read_signed(value, i64::MAX as u64)
    }
}

impl ToValue for isize {
    ghost shape = { signed_value };

    fn to_value(&self, _alloc: Global) -> Result<Value, Refused<ShapeError>> {
        Ok(Value::Number(Number::from_i64(*self as i64)))
    }
}

impl FromValue for isize {
    ghost reading = { read_signed (2 ^ 63 - 1) };

    fn from_value(_alloc: Global, value: &Value) -> Result<isize, Refused<ShapeError>> {
        Ok(read_signed(value, isize::MAX as u64)? as isize)
    }
}
