//! Lists and pairs, which are arrays.
ghost use Rattle.jb_shape.specs.Lists.{list_value, read_list, pair_value, read_pair};

use crate::shape_error::ShapeError;
use crate::shapes::{FromValue, ToValue};
use jb_tree::{Listed, Refused, Value};
use std::alloc::Global;

impl<T: ToValue> ToValue for Listed<T> {
    ghost shape = { list_value T.shape };

    fn to_value(&self, alloc: Global) -> Result<Value, Refused<ShapeError>> {
        let mut values = Listed::new(alloc);
        for item in self.as_slice() {
            values.push(item.to_value(alloc)?)?;
        }
        Ok(Value::Array(values))
    }
}

impl<T: FromValue> FromValue for Listed<T> {
    ghost reading = { read_list T.reading };

    fn from_value(alloc: Global, value: &Value) -> Result<Listed<T>, Refused<ShapeError>> {
        let Some(values) = value.as_array() else {
            return Err(Refused::Fault(ShapeError::WrongKind));
        };
        let mut items = Listed::new(alloc);
        for value in values.as_slice() {
            items.push(T::from_value(alloc, value)?)?;
        }
        Ok(items)
    }
}

impl<A: ToValue, B: ToValue> ToValue for (A, B) {
    ghost shape = { pair_value A.shape B.shape };

    fn to_value(&self, alloc: Global) -> Result<Value, Refused<ShapeError>> {
        let first = self.0.to_value(alloc)?;
        let second = self.1.to_value(alloc)?;
        let mut values = Listed::new(alloc);
        values.push(first)?;
        values.push(second)?;
        Ok(Value::Array(values))
    }
}

impl<A: FromValue, B: FromValue> FromValue for (A, B) {
    ghost reading = { read_pair A.reading B.reading };

    fn from_value(alloc: Global, value: &Value) -> Result<(A, B), Refused<ShapeError>> {
        let Some(values) = value.as_array() else {
            return Err(Refused::Fault(ShapeError::WrongKind));
        };
        let [first, second] = values.as_slice() else {
            return Err(Refused::Fault(ShapeError::WrongLength));
        };
        Ok((A::from_value(alloc, first)?, B::from_value(alloc, second)?))
    }
}
