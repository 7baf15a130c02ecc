//! The text of a value over several lines, appended to a text.

ghost use Rattle.std.specs.Prelude.{◌≡◌, ◌++◌, [], false, codes, map, IfOk, OnOk, string_bytes};
ghost use Rattle.jb_print.specs.Quoted.{quoted};
ghost use Rattle.jb_print.specs.Pretty.{pretty_at, deeper};
ghost use Rattle.jb_print.specs.bridge.Pieces.{pieces_text, item_line, member_line, pretty_list, pretty_object};

use crate::compact::{write_comma, write_value};
use crate::text::write_text;
use jb_tree::{ByteString, Listed, Map, Memory, Value};
use std::alloc::Global;

/// Appends the text of `value` whose closing brackets stand behind `line`, a line feed and an indentation.
#[cycle(pretty)]
pub(crate) fn write_pretty(
    out: &mut String,
    alloc: Global,
    line: &str,
    value: &Value,
) -> Result<(), Memory>
    ensures { OnOk result (string_bytes out.new
        ≡ string_bytes out.old ++ pretty_at line.now value.now) }
{
    match value {
        Value::Array(items) => write_list(out, alloc, line, items),
        Value::Object(members) => write_object(out, alloc, line, members),
        Value::Null | Value::Bool(_) | Value::Number(_) | Value::String(_) => {
            write_value(out, value)
        }
    }
}

#[cycle(pretty)]
fn write_list(
    out: &mut String,
    alloc: Global,
    line: &str,
    items: &Listed<Value>,
) -> Result<(), Memory>
    ensures { OnOk result (string_bytes out.new
        ≡ string_bytes out.old ++ pretty_list line.now items.now) }
{
    if items.is_empty() {
        return out.push_str("[]");
    }
    let inner = deeper(alloc, line)?;
    out.push_str("[")?;
    write_items(out, alloc, inner.as_str(), items)?;
    out.push_str(line)?;
    out.push_str("]")
}

#[cycle(pretty)]
fn write_items(
    out: &mut String,
    alloc: Global,
    line: &str,
    items: &Listed<Value>,
) -> Result<(), Memory>
    ensures { OnOk result (string_bytes out.new
        ≡ string_bytes out.old ++ pieces_text false (map (item_line line.now) items.now)) }
{
    let mut later = false;
    for item in items.as_slice() {
        write_comma(out, later)?;
        out.push_str(line)?;
        write_pretty(out, alloc, line, item)?;
        later = true;
    }
    Ok(())
}

#[cycle(pretty)]
fn write_object(out: &mut String, alloc: Global, line: &str, members: &Map) -> Result<(), Memory>
    ensures { OnOk result (string_bytes out.new
        ≡ string_bytes out.old ++ pretty_object line.now members.now) }
{
    if members.is_empty() {
        return out.push_str("{}");
    }
    let inner = deeper(alloc, line)?;
    out.push_str("{")?;
    write_members(out, alloc, inner.as_str(), members)?;
    out.push_str(line)?;
    out.push_str("}")
}

#[cycle(pretty)]
fn write_members(out: &mut String, alloc: Global, line: &str, members: &Map) -> Result<(), Memory>
    ensures { OnOk result (string_bytes out.new
        ≡ string_bytes out.old ++ pieces_text false (map (member_line line.now) members.now)) }
{
    let mut later = false;
    for index in 0..members.len() {
        write_comma(out, later)?;
        write_key(out, line, members.key_at(index))?;
        write_pretty(out, alloc, line, members.value_at(index))?;
        later = true;
    }
    Ok(())
}

fn write_key(out: &mut String, line: &str, key: &ByteString) -> Result<(), Memory>
    ensures { OnOk result (string_bytes out.new
        ≡ string_bytes out.old ++ (line.now ++ quoted key.now ++ codes ": ")) }
{
    out.push_str(line)?;
    write_text(out, key.as_str())?;
    out.push_str(": ")
}

fn deeper(alloc: Global, line: &str) -> Result<String, Memory>
    ensures { IfOk result (λ inner. string_bytes inner ≡ deeper line.now) }
{
    let mut inner = String::from_str(alloc, line)?;
    inner.push_str("  ")?;
    Ok(inner)
}
