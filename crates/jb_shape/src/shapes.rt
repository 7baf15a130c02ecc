//! The traits of what has a shape, and the calls through them.
ghost use Rattle.std.specs.Prelude.{ℕ, List, Result};
ghost use Rattle.jb_tree.specs.declared.value.Value.{Value as JsonValue};
ghost use Rattle.jb_shape.specs.declared.shape_error.ShapeError.{ShapeError as Cause};
ghost use Rattle.jb_shape.specs.Outcome.{Answers};

use crate::shape_error::ShapeError;
use jb_tree::{ByteString, Refused, Value};
use std::alloc::Global;

/// What a JSON value stands for.
pub trait ToValue {
    // The value that stands for it, or why there is none.
    ghost shape: { Self → Result JsonValue Cause };

    /// The value that stands for `self`.
    ///
    /// # Errors
    ///
    /// `KeyNotText` where the type of some key has no texts, or out of memory.
    fn to_value(&self, alloc: Global) -> Result<Value, Refused<ShapeError>>
        ensures { Answers (shape self.now) result };
}

/// What can be read from a JSON value.
pub trait FromValue: Sized + Drop {
    // What the value is read as, or why it is not.
    ghost reading: { JsonValue → Result Self Cause };

    /// What `value` stands for.
    ///
    /// # Errors
    ///
    /// The [`ShapeError`] of the first part that does not fit, or out of memory.
    fn from_value(alloc: Global, value: &Value) -> Result<Self, Refused<ShapeError>>
        ensures { Answers (reading value.now) result };
}

/// What can be the key of an object's member.
pub trait MapKey: Sized + Drop {
    // The text that stands for it, or why there is none.
    ghost key_text: { Self → Result (List ℕ) Cause };

    // What the text is read as, or why it is not.
    ghost key_reading: { List ℕ → Result Self Cause };

    /// The text that stands for `self`.
    ///
    /// # Errors
    ///
    /// `KeyNotText` where the type has no texts, or out of memory.
    fn to_key(&self, alloc: Global) -> Result<ByteString, Refused<ShapeError>>
        ensures { Answers (key_text self.now) result };

    /// What the text `key` stands for.
    ///
    /// # Errors
    ///
    /// `KeyNotText` where the type has no texts, `WrongKind` where the text is not of the type's form,
    /// `NumberTooLarge` where it is a number outside the type, or out of memory.
    fn from_key(alloc: Global, key: &str) -> Result<Self, Refused<ShapeError>>
        ensures { Answers (key_reading key.now) result };
}

/// The value that stands for `value`: see [`ToValue`].
pub fn to_value<T: ToValue>(alloc: Global, value: &T) -> Result<Value, Refused<ShapeError>>
    ensures { Answers (T.shape value.now) result }
{
    value.to_value(alloc)
}

/// What `value` stands for: see [`FromValue`].
pub fn from_value<T: FromValue>(alloc: Global, value: &Value) -> Result<T, Refused<ShapeError>>
    ensures { Answers (T.reading value.now) result }
{
    T::from_value(alloc, value)
}
