//! The texts of values.

ghost use Rattle.std.specs.Prelude.{◌≡◌, ◌++◌, false, codes, map, IfOk, OnOk, string_bytes};
ghost use Rattle.gql_ast.specs.ValueText as spec;
ghost use Rattle.gql_ast.specs.bridge.ValueText as spec_bridge;
ghost use Rattle.gql_ast.specs.bridge.Pieces.{pieces_text, comma_after};

use gql_ast_base::{Name, Value, ValueKind};
use jb_print::append_string;
use jb_text::{Listed, Memory, Text};
use std::alloc::Global;

/// The text of a value (GraphQL October 2021, section 2.9): names, numbers and `$v` as they were written, strings
/// quoted and escaped as in compact JSON, `[1, 2]`, `{b: 4, a: 2}`, `[]` and `{}`. `Err` only when out of memory.
pub fn print_value(alloc: Global, value: &Value) -> Result<Text, Memory>
    ensures { IfOk result (λ text. text ≡ spec.value_text value.now) }
{
    let mut text = String::new(alloc);
    write_kind(&mut text, &value.kind)?;
    Ok(Text::from_string(text))
}

#[cycle(write)]
fn write_kind(out: &mut String, kind: &ValueKind) -> Result<(), Memory>
    ensures { OnOk result (string_bytes out.new ≡ string_bytes out.old ++ spec.kind_text kind.now) }
{
    match kind {
        ValueKind::Null => out.push_str("null"),
        ValueKind::Variable(name) => write_variable(out, name),
        ValueKind::Int(number) => out.push_str(number.as_str()),
        ValueKind::Float(number) => out.push_str(number.as_str()),
        ValueKind::String(text) => append_string(out, text.as_str()),
        ValueKind::Boolean(true) => out.push_str("true"),
        ValueKind::Boolean(false) => out.push_str("false"),
        ValueKind::Enum(name) => out.push_str(name.as_str()),
        ValueKind::List(items) => write_items(out, items),
        ValueKind::Object(members) => write_members(out, members),
    }
}

fn write_variable(out: &mut String, name: &Name) -> Result<(), Memory>
    ensures { OnOk result (string_bytes out.new ≡ string_bytes out.old ++ (codes "$" ++ name.now.text)) }
{
    out.push_str("$")?;
    out.push_str(name.as_str())
}

#[cycle(write)]
fn write_items(out: &mut String, items: &Listed<Value>) -> Result<(), Memory>
    ensures { OnOk result (string_bytes out.new
        ≡ string_bytes out.old ++ (codes "[" ++ (pieces_text false (map spec.value_text items.now) ++ codes "]"))) }
{
    out.push_str("[")?;
    let mut later = false;
    for item in items.as_slice() {
        write_comma(out, later)?;
        write_kind(out, &item.kind)?;
        later = true;
    }
    out.push_str("]")
}

#[cycle(write)]
fn write_members(out: &mut String, members: &Listed<(Name, Value)>) -> Result<(), Memory>
    ensures { OnOk result (string_bytes out.new
        ≡ string_bytes out.old ++ (codes "{" ++ (pieces_text false (map spec_bridge.member_text members.now) ++ codes "}"))) }
{
    out.push_str("{")?;
    let mut later = false;
    for member in members.as_slice() {
        write_comma(out, later)?;
        write_key(out, &member.0)?;
        write_kind(out, &member.1.kind)?;
        later = true;
    }
    out.push_str("}")
}

fn write_comma(out: &mut String, later: bool) -> Result<(), Memory>
    ensures { OnOk result (string_bytes out.new ≡ string_bytes out.old ++ comma_after later) }
{
    if later { out.push_str(", ") } else { Ok(()) }
}

fn write_key(out: &mut String, name: &Name) -> Result<(), Memory>
    ensures { OnOk result (string_bytes out.new ≡ string_bytes out.old ++ (name.now.text ++ codes ": ")) }
{
    out.push_str(name.as_str())?;
    out.push_str(": ")
}
