//! Tests of a value's kind.
ghost use Rattle.std.specs.Prelude.{◌≡◌, ◌↔◌, ◌≤ℤ◌, pos, false, is_some, FitsSigned, IsSomeAnd, IsTrue};
ghost use Rattle.std.specs.Int.{w64};
ghost use Rattle.jb_tree.specs.Value.{object_members, array_items, string_text, whole_number, truth_value, is_null};

use crate::value::Value;

impl Value {
    /// Whether this is an object.
    pub fn is_object(&self) -> bool
        ensures { result ≡ is_some (object_members self.now) }
    {
        self.as_object().is_some()
    }

    /// Whether this is an array.
    pub fn is_array(&self) -> bool
        ensures { result ≡ is_some (array_items self.now) }
    {
        self.as_array().is_some()
    }

    /// Whether this is a text.
    pub fn is_string(&self) -> bool
        ensures { result ≡ is_some (string_text self.now) }
    {
        self.as_str().is_some()
    }

    /// Whether this is a number.
    pub fn is_number(&self) -> bool
        ensures { result ≡ is_some (whole_number self.now) }
    {
        self.as_number().is_some()
    }

    /// Whether the value is a number that an `i64` holds.
    pub fn is_i64(&self) -> bool
        ensures { IsTrue result ↔ IsSomeAnd (whole_number self.now) (λ z. FitsSigned w64 z) }
    {
        self.as_i64().is_some()
    }

    /// Whether the value is a number that a `u64` holds, which is one that is not below zero.
    pub fn is_u64(&self) -> bool
        ensures { IsTrue result ↔ IsSomeAnd (whole_number self.now) (λ z. pos 0 ≤ℤ z) }
    {
        self.as_u64().is_some()
    }

    /// Always false: each number is whole.
    pub fn is_f64(&self) -> bool
        ensures { result ≡ false }
    {
        false
    }

    /// Whether this is `true` or `false`.
    pub fn is_boolean(&self) -> bool
        ensures { result ≡ is_some (truth_value self.now) }
    {
        self.as_bool().is_some()
    }

    /// Whether this is `null`.
    pub fn is_null(&self) -> bool
        ensures { result ≡ is_null self.now }
    {
        match self {
            Value::Null => true,
            _ => false,
        }
    }
}
