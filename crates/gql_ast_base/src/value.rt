//! Values.

ghost use Rattle.std.specs.Prelude.{◌≡◌, IfOk};

use crate::copying::Copying;
use crate::name::Name;
use crate::together::both;
use gql_source::SourceSpan;
use jb_text::{Listed, Memory, Text};
use std::alloc::Global;

mod conversion;

pub use conversion::{default_value, truth};

/// A value, and the place that it was read from.
#[cycle(value)]
pub struct Value {
    pub kind: ValueKind,
    pub location: Option<SourceSpan>,
}

impl Drop for Value {
    fn drop(self) {
        let Value {
            kind: _,
            location: _,
        } = self;
    }
}

/// What a value is (GraphQL October 2021, section 2.9).
#[derive(Drop)]
#[cycle(value)]
pub enum ValueKind {
    Null,
    Variable(Name),
    /// A whole number as it was written.
    Int(Text),
    /// A number with a fraction or an exponent as it was written.
    Float(Text),
    /// The characters that a string stands for.
    String(Text),
    Boolean(bool),
    Enum(Name),
    List(Listed<Value>),
    Object(Listed<(Name, Value)>),
}

impl Value {
    /// What it is, without its place.
    #[must_use]
    pub fn into_kind(self) -> ValueKind
        ensures { result ≡ self.kind }
    {
        let Value { kind, location: _ } = self;
        kind
    }
}

impl Copying for Value {
    fn copy(&self, alloc: Global) -> Result<Value, Memory> {
        copy_value(self, alloc)
    }
}

impl Copying for ValueKind {
    fn copy(&self, alloc: Global) -> Result<ValueKind, Memory> {
        copy_kind(self, alloc)
    }
}

#[cycle(copy_value)]
fn copy_value(value: &Value, alloc: Global) -> Result<Value, Memory>
    ensures { IfOk result (λ copy. copy ≡ value.now) }
{
    Ok(Value {
        kind: copy_kind(&value.kind, alloc)?,
        location: value.location,
    })
}

#[cycle(copy_value)]
fn copy_kind(kind: &ValueKind, alloc: Global) -> Result<ValueKind, Memory>
    ensures { IfOk result (λ copy. copy ≡ kind.now) }
{
    match kind {
        ValueKind::Null => Ok(ValueKind::Null),
        ValueKind::Variable(name) => name.copy(alloc).map(ValueKind::Variable),
        ValueKind::Int(number) => number.copy(alloc).map(ValueKind::Int),
        ValueKind::Float(number) => number.copy(alloc).map(ValueKind::Float),
        ValueKind::String(text) => text.copy(alloc).map(ValueKind::String),
        ValueKind::Boolean(truth) => Ok(ValueKind::Boolean(*truth)),
        ValueKind::Enum(name) => name.copy(alloc).map(ValueKind::Enum),
        ValueKind::List(items) => copy_items(items, alloc).map(ValueKind::List),
        ValueKind::Object(members) => copy_members(members, alloc).map(ValueKind::Object),
    }
}

#[cycle(copy_value)]
fn copy_items(items: &Listed<Value>, alloc: Global) -> Result<Listed<Value>, Memory>
    ensures { IfOk result (λ copy. copy ≡ items.now) }
{
    let mut copies = Listed::new(alloc);
    for item in items.as_slice() {
        copies.push(copy_value(item, alloc)?)?;
    }
    Ok(copies)
}

#[cycle(copy_value)]
fn copy_members(
    members: &Listed<(Name, Value)>,
    alloc: Global,
) -> Result<Listed<(Name, Value)>, Memory>
    ensures { IfOk result (λ copy. copy ≡ members.now) }
{
    let mut copies = Listed::new(alloc);
    for member in members.as_slice() {
        copies.push(both(member.0.copy(alloc), copy_value(&member.1, alloc))?)?;
    }
    Ok(copies)
}
