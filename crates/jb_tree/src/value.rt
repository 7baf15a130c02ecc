//! The JSON value, and copies of it (RFC 8259, section 3).
ghost use Rattle.std.specs.Prelude.{◌≡◌, IfOk};

use jb_map::{Pairs, TryClone};
use jb_text::{ByteString, Listed, Memory, Number};
use std::alloc::Global;

/// A JSON object: pairs of text and value with distinct texts, in order of insertion.
pub type Map = Pairs<Value>;

/// A JSON value (RFC 8259, section 3). Its default is `Null`.
#[derive(PartialEq, Eq, Hash, Drop)]
pub enum Value {
    Null,
    Bool(bool),
    Number(Number),
    String(ByteString),
    Array(Listed<Value>),
    Object(Map),
}

impl Default for Value {
    ghost use Rattle.std.specs.Prelude.{◌≡◌};
    ghost use Rattle.jb_tree.specs.declared.value.Value.{Null};

    ghost is_default = { λ value. value ≡ Null };

    fn default() -> Value {
        Value::Null
    }
}

impl Value {
    /// The same tree in memory of its own; texts share their buffers. `Err` only when out of memory.
    #[cycle(copy)]
    pub fn copy(&self, alloc: Global) -> Result<Value, Memory>
        ensures { IfOk result (λ copy. copy ≡ self.now) }
    {
        match self {
            Value::Null => Ok(Value::Null),
            Value::Bool(truth) => Ok(Value::Bool(*truth)),
            Value::Number(number) => Ok(Value::Number(*number)),
            Value::String(text) => Ok(Value::String(text.copy(alloc)?)),
            Value::Array(items) => Ok(Value::Array(copy_items(alloc, items)?)),
            Value::Object(members) => Ok(Value::Object(copy_members(alloc, members)?)),
        }
    }
}

impl TryClone for Value {
    fn try_clone(&self, alloc: Global) -> Result<Value, Memory> {
        self.copy(alloc)
    }
}

#[cycle(copy)]
fn copy_items(alloc: Global, items: &Listed<Value>) -> Result<Listed<Value>, Memory>
    ensures { IfOk result (λ copy. copy ≡ items.now) }
{
    let mut copies = Listed::with_capacity(alloc, items.len())?;
    for item in items.as_slice() {
        copies.push(item.copy(alloc)?)?;
    }
    Ok(copies)
}

#[cycle(copy)]
fn copy_members(alloc: Global, members: &Map) -> Result<Map, Memory>
    ensures { IfOk result (λ copy. copy ≡ members.now) }
{
    let mut copies = Pairs::with_capacity(alloc, members.len())?;
    for index in 0..members.len() {
        let key = members.key_at(index).copy(alloc)?;
        let value = members.value_at(index).copy(alloc)?;
        copies.insert_new(key, value)?;
    }
    Ok(copies)
}
