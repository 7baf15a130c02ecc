//! Nulls, truth values, texts, values and options.
ghost use Rattle.std.specs.Prelude.{Ok};
ghost use Rattle.jb_shape.specs.Scalars.{unit_value, read_unit, truth_value_of, read_truth, text_value, read_text, option_value, read_option};

use crate::shape_error::ShapeError;
use crate::shapes::{FromValue, ToValue};
use jb_tree::{ByteString, Refused, Text, Value};
use std::alloc::Global;

impl ToValue for () {
    ghost shape = { unit_value };

    fn to_value(&self, _alloc: Global) -> Result<Value, Refused<ShapeError>> {
        Ok(Value::Null)
    }
}

impl FromValue for () {
    ghost reading = { read_unit };

    fn from_value(_alloc: Global, value: &Value) -> Result<(), Refused<ShapeError>> {
        if value.is_null() {
            Ok(())
        } else {
            Err(Refused::Fault(ShapeError::WrongKind))
        }
    }
}

impl ToValue for bool {
    ghost shape = { truth_value_of };

    fn to_value(&self, _alloc: Global) -> Result<Value, Refused<ShapeError>> {
        Ok(Value::Bool(*self))
    }
}

impl FromValue for bool {
    ghost reading = { read_truth };

    fn from_value(_alloc: Global, value: &Value) -> Result<bool, Refused<ShapeError>> {
        match value.as_bool() {
            Some(truth) => Ok(truth),
            None => Err(Refused::Fault(ShapeError::WrongKind)),
        }
    }
}

impl ToValue for Text {
    ghost shape = { text_value };

    fn to_value(&self, alloc: Global) -> Result<Value, Refused<ShapeError>> {
        Ok(Value::String(ByteString::from_text(alloc, self.as_str())?))
    }
}

impl FromValue for Text {
    ghost reading = { read_text };

    fn from_value(alloc: Global, value: &Value) -> Result<Text, Refused<ShapeError>> {
        match value.as_str() {
            Some(text) => Ok(Text::from_str(alloc, text)?),
            None => Err(Refused::Fault(ShapeError::WrongKind)),
        }
    }
}

impl ToValue for Value {
    ghost shape = { Ok };

    fn to_value(&self, alloc: Global) -> Result<Value, Refused<ShapeError>> {
        Ok(self.copy(alloc)?)
    }
}

impl FromValue for Value {
    ghost reading = { Ok };

    fn from_value(alloc: Global, value: &Value) -> Result<Value, Refused<ShapeError>> {
        Ok(value.copy(alloc)?)
    }
}

impl<T: ToValue> ToValue for Option<T> {
    ghost shape = { option_value T.shape };

    fn to_value(&self, alloc: Global) -> Result<Value, Refused<ShapeError>> {
        match self {
            Some(inner) => inner.to_value(alloc),
            None => Ok(Value::Null),
        }
    }
}

impl<T: FromValue> FromValue for Option<T> {
    ghost reading = { read_option T.reading };

    fn from_value(alloc: Global, value: &Value) -> Result<Option<T>, Refused<ShapeError>> {
        if value.is_null() {
            return Ok(None);
        }
        Ok(Some(T::from_value(alloc, value)?))
    }
}
