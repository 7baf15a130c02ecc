//! The compact text of a value, appended to a text.

ghost use Rattle.std.specs.Prelude.{◌≡◌, ◌++◌, false, codes, map, OnOk, string_bytes};
ghost use Rattle.std.specs.Fmt.{signed_decimal};
ghost use Rattle.jb_print.specs.Compact.{compact};
ghost use Rattle.jb_print.specs.Quoted.{quoted};
ghost use Rattle.jb_print.specs.bridge.Pieces.{comma_after, pieces_text, member_piece};

use crate::text::write_text;
use itoa::Buffer;
use jb_tree::{ByteString, Listed, Map, Memory, Number, Value};

/// Appends the compact text of `value`.
#[cycle(compact)]
#[inline(always)]
pub(crate) fn write_value(out: &mut String, value: &Value) -> Result<(), Memory>
    ensures { OnOk result (string_bytes out.new ≡ string_bytes out.old ++ compact value.now) }
{
    match value {
        Value::Null => out.push_str("null"),
        Value::Bool(true) => out.push_str("true"),
        Value::Bool(false) => out.push_str("false"),
        Value::Number(number) => write_number(out, number),
        Value::String(text) => write_text(out, text.as_str()),
        Value::Array(items) => write_items(out, items),
        Value::Object(members) => write_members(out, members),
    }
}

#[cycle(compact)]
fn write_items(out: &mut String, items: &Listed<Value>) -> Result<(), Memory>
    ensures { OnOk result (string_bytes out.new
        ≡ string_bytes out.old ++ (codes "[" ++ (pieces_text false (map compact items.now) ++ codes "]"))) }
{
    out.push('[')?;
    let mut later = false;
    for item in items.as_slice() {
        write_comma(out, later)?;
        write_value(out, item)?;
        later = true;
    }
    out.push(']')
}

#[cycle(compact)]
pub(crate) fn write_members(out: &mut String, members: &Map) -> Result<(), Memory>
    ensures { OnOk result (string_bytes out.new
        ≡ string_bytes out.old ++ (codes "{" ++ (pieces_text false (map member_piece members.now) ++ codes "}"))) }
{
    out.push('{')?;
    let mut later = false;
    for index in 0..members.len() {
        write_comma(out, later)?;
        write_key(out, members.key_at(index))?;
        write_value(out, members.value_at(index))?;
        later = true;
    }
    out.push('}')
}

pub(crate) fn write_comma(out: &mut String, later: bool) -> Result<(), Memory>
    ensures { OnOk result (string_bytes out.new ≡ string_bytes out.old ++ comma_after later) }
{
    if later { out.push(',') } else { Ok(()) }
}

fn write_key(out: &mut String, key: &ByteString) -> Result<(), Memory>
    ensures { OnOk result (string_bytes out.new
        ≡ string_bytes out.old ++ (quoted key.now ++ codes ":")) }
{
    write_text(out, key.as_str())?;
    out.push(':')
}

fn write_number(out: &mut String, number: &Number) -> Result<(), Memory>
    ensures { OnOk result (string_bytes out.new
        ≡ string_bytes out.old ++ signed_decimal number.now) }
{
    let mut buffer = Buffer::new();
    match number.as_i64() {
        Some(value) => out.push_str(buffer.format(value)),
        None => match number.as_u64() {
            Some(value) => out.push_str(buffer.format(value)),
            None => unreachable!(),
        },
    }
}
