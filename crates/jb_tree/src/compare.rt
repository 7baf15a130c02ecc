//! Values compared with a text, a number or a truth value.
ghost use Rattle.std.specs.Prelude.{◌≡◌, ◌↔◌, Some, pos, IsTrue};
ghost use Rattle.jb_tree.specs.Value.{string_text, whole_number, truth_value};

use crate::value::Value;

impl Value {
    /// Whether the value is this text.
    pub fn eq_str(&self, other: &str) -> bool
        ensures { IsTrue result ↔ (string_text self.now ≡ Some other.now) }
    {
        match self.as_str() {
            Some(text) => text == other,
            None => false,
        }
    }

    /// Whether the value is this number.
    pub fn eq_i64(&self, other: i64) -> bool
        ensures { IsTrue result ↔ (whole_number self.now ≡ Some other) }
    {
        match self.as_i64() {
            Some(number) => number == other,
            None => false,
        }
    }

    /// Whether the value is this number.
    pub fn eq_u64(&self, other: u64) -> bool
        ensures { IsTrue result ↔ (whole_number self.now ≡ Some (pos other)) }
    {
        match self.as_u64() {
            Some(number) => number == other,
            None => false,
        }
    }

    /// Whether the value is this truth value.
    pub fn eq_bool(&self, other: bool) -> bool
        ensures { IsTrue result ↔ (truth_value self.now ≡ Some other) }
    {
        match self.as_bool() {
            Some(truth) => truth == other,
            None => false,
        }
    }
}
