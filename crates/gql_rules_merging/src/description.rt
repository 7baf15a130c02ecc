//! Texts that tell fields apart. Fields that differ in their places alone have one text, whatever the order of their arguments.

use crate::numbering::Selected;
use gql_ast_base::{Argument, Name, Value, ValueKind};
use itoa::Buffer;
use jb_text::Memory;
use std::alloc::Global;

/// Writes the type of the set that a field stands in, its response key, its name and its arguments. `Err` only when out of
/// memory.
pub(crate) fn write_head(
    alloc: Global,
    field: &Selected<'_>,
    text: &mut String,
) -> Result<(), Memory> {
    write_word(field.parent.as_str(), text)?;
    write_word(field.key().as_str(), text)?;
    write_word(field.field.name.as_str(), text)?;
    write_arguments(alloc, field.field.arguments.as_slice(), text)
}

/// Writes a word and a space.
fn write_word(word: &str, text: &mut String) -> Result<(), Memory> {
    text.push_str(word)?;
    text.push_str(" ")
}

/// Writes arguments in the order of their texts, which is that of their names.
fn write_arguments(alloc: Global, arguments: &[Argument], text: &mut String) -> Result<(), Memory> {
    let mut pieces = Vec::new(alloc);
    for argument in arguments {
        pieces.push(named_text(alloc, &argument.name, &argument.value)?)?;
    }
    write_sorted(pieces, text)
}

/// Writes these texts in order.
fn write_sorted(mut pieces: Vec<String>, text: &mut String) -> Result<(), Memory> {
    pieces.sort()?;
    for piece in pieces.as_slice() {
        write_word(piece.as_str(), text)?;
    }
    Ok(())
}

/// A name with its value.
#[cycle(text)]
fn named_text(alloc: Global, name: &Name, value: &Value) -> Result<String, Memory> {
    let mut text = String::new(alloc);
    write_word(name.as_str(), &mut text)?;
    write_value(alloc, value, &mut text)?;
    Ok(text)
}

#[cycle(text)]
fn write_value(alloc: Global, value: &Value, text: &mut String) -> Result<(), Memory> {
    write_kind(alloc, &value.kind, text)
}

/// Writes a value, each kind in a form of its own.
#[cycle(text)]
fn write_kind(alloc: Global, kind: &ValueKind, text: &mut String) -> Result<(), Memory> {
    match kind {
        ValueKind::Null => text.push_str("null"),
        ValueKind::Variable(name) => write_marked("$", name.as_str(), text),
        ValueKind::Int(number) => text.push_str(number.as_str()),
        ValueKind::Float(number) => text.push_str(number.as_str()),
        ValueKind::String(characters) => write_string(characters.as_str(), text),
        ValueKind::Boolean(truth) => text.push_str(if *truth { "true" } else { "false" }),
        ValueKind::Enum(name) => text.push_str(name.as_str()),
        ValueKind::List(items) => write_items(alloc, items.as_slice(), text),
        ValueKind::Object(members) => write_members(alloc, members.as_slice(), text),
    }
}

/// Writes the items of a list in their order.
#[cycle(text)]
fn write_items(alloc: Global, items: &[Value], text: &mut String) -> Result<(), Memory> {
    text.push_str("[")?;
    for item in items {
        write_value(alloc, item, text)?;
        text.push_str(" ")?;
    }
    text.push_str("]")
}

/// Writes the members of an object in the order of their texts.
#[cycle(text)]
fn write_members(
    alloc: Global,
    members: &[(Name, Value)],
    text: &mut String,
) -> Result<(), Memory> {
    let mut pieces = Vec::new(alloc);
    for member in members {
        pieces.push(named_text(alloc, &member.0, &member.1)?)?;
    }
    text.push_str("{")?;
    write_sorted(pieces, text)?;
    text.push_str("}")
}

/// Writes a text behind a mark.
fn write_marked(mark: &str, word: &str, text: &mut String) -> Result<(), Memory> {
    text.push_str(mark)?;
    text.push_str(word)
}

/// Writes the characters of a string behind their number, so that they cannot be taken for what follows.
fn write_string(characters: &str, text: &mut String) -> Result<(), Memory> {
    let mut buffer = Buffer::new();
    text.push_str("\"")?;
    write_marked(buffer.format(characters.len()), "\"", text)?;
    text.push_str(characters)
}
