//! Values, references to types, arguments and directives.

use crate::trees::description::Description;
use gql_ast::{Argument, Directive, Name, TypeRef, Value, ValueKind};
use jb_text::Listed;

/// The line of a reference to a type.
pub(crate) fn type_line(out: &mut Description<'_>, ty: &TypeRef) {
    out.begin("type");
    add_type(out, ty);
    out.add("\n");
}

fn add_type(out: &mut Description<'_>, ty: &TypeRef) {
    match ty {
        TypeRef::Named(name) => out.add_name(name),
        TypeRef::NonNullNamed(name) => {
            out.add_name(name);
            out.add("!");
        }
        TypeRef::List(item) => {
            out.add("[");
            add_type(out, item.get());
            out.add("]");
        }
        TypeRef::NonNullList(item) => {
            out.add("[");
            add_type(out, item.get());
            out.add("]!");
        }
    }
}

pub(crate) fn directives(out: &mut Description<'_>, directives: &Listed<Directive>) {
    for directive in directives.as_slice() {
        out.open("directive", directive.location);
        out.name("name", &directive.name);
        arguments(out, &directive.arguments);
        out.close();
    }
}

pub(crate) fn arguments(out: &mut Description<'_>, arguments: &Listed<Argument>) {
    for argument in arguments.as_slice() {
        out.open("argument", argument.location);
        out.name("name", &argument.name);
        value(out, "value", &argument.value);
        out.close();
    }
}

/// The lines of a default value, where there is one.
pub(crate) fn default_value(out: &mut Description<'_>, default_value: &Option<Value>) {
    if let Some(default_value) = default_value {
        value(out, "default_value", default_value);
    }
}

#[cycle(value)]
fn value(out: &mut Description<'_>, field: &str, value: &Value) {
    out.begin(field);
    out.add(kind_of(&value.kind));
    out.enter(value.location);
    content(out, &value.kind);
    out.close();
}

fn kind_of(kind: &ValueKind) -> &'static str {
    match kind {
        ValueKind::Null => "Null ",
        ValueKind::Variable(_) => "Variable ",
        ValueKind::Int(_) => "Int ",
        ValueKind::Float(_) => "Float ",
        ValueKind::String(_) => "String ",
        ValueKind::Boolean(_) => "Boolean ",
        ValueKind::Enum(_) => "Enum ",
        ValueKind::List(_) => "List ",
        ValueKind::Object(_) => "Object ",
    }
}

#[cycle(value)]
fn content(out: &mut Description<'_>, kind: &ValueKind) {
    match kind {
        ValueKind::Null => {}
        ValueKind::Variable(name) => out.name("name", name),
        ValueKind::Int(text) => out.line("text", text.as_str()),
        ValueKind::Float(text) => out.line("text", text.as_str()),
        ValueKind::String(text) => out.line("text", text.as_str()),
        ValueKind::Boolean(true) => out.line("truth", "true"),
        ValueKind::Boolean(false) => out.line("truth", "false"),
        ValueKind::Enum(name) => out.name("name", name),
        ValueKind::List(items) => list(out, items),
        ValueKind::Object(members) => object(out, members),
    }
}

#[cycle(value)]
fn list(out: &mut Description<'_>, items: &Listed<Value>) {
    for item in items.as_slice() {
        value(out, "item", item);
    }
}

#[cycle(value)]
fn object(out: &mut Description<'_>, members: &Listed<(Name, Value)>) {
    for member in members.as_slice() {
        out.name("name", &member.0);
        value(out, "value", &member.1);
    }
}
