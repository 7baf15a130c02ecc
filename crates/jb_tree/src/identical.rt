//! Values compared exactly, the order of pairs included.
ghost use Rattle.std.specs.Prelude.{◌≡◌, ◌↔◌, IsTrue};

use crate::value::{Map, Value};
use jb_text::Listed;

impl Value {
    /// Whether the two are one and the same tree, the order of the pairs of each object included, which `==` leaves aside.
    #[cycle(identity)]
    pub fn is_identical(&self, other: &Value) -> bool
        ensures { IsTrue result ↔ (self.now ≡ other.now) }
    {
        match self {
            Value::Null => other.is_null(),
            Value::Bool(truth) => other.eq_bool(*truth),
            Value::Number(number) => match other.as_number() {
                Some(others) => number == others,
                None => false,
            },
            Value::String(text) => other.eq_str(text.as_str()),
            Value::Array(items) => match other.as_array() {
                Some(others) => are_items_identical(items, others),
                None => false,
            },
            Value::Object(members) => match other.as_object() {
                Some(others) => are_members_identical(members, others),
                None => false,
            },
        }
    }
}

#[cycle(identity)]
fn are_items_identical(items: &Listed<Value>, others: &Listed<Value>) -> bool
    ensures { IsTrue result ↔ (items.now ≡ others.now) }
{
    let len = items.len();
    if len != others.len() {
        return false;
    }
    for index in 0..len {
        if !items.as_slice()[index].is_identical(&others.as_slice()[index]) {
            return false;
        }
    }
    true
}

#[cycle(identity)]
fn are_members_identical(members: &Map, others: &Map) -> bool
    ensures { IsTrue result ↔ (members.now ≡ others.now) }
{
    let len = members.len();
    if len != others.len() {
        return false;
    }
    for index in 0..len {
        if members.key_at(index) != others.key_at(index) {
            return false;
        }
        if !members.value_at(index).is_identical(others.value_at(index)) {
            return false;
        }
    }
    true
}
