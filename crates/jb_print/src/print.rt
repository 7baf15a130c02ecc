//! The texts of values, and of their parts.

ghost use Rattle.std.specs.Prelude.{◌≡◌, ◌++◌, IfOk, OnOk, string_bytes};
ghost use Rattle.jb_tree.specs.declared.value.Value.TheVariants as json;
ghost use Rattle.jb_print.specs.Quoted.{quoted};
ghost use Rattle.jb_print.specs.Compact.{compact};
ghost use Rattle.jb_print.specs.Pretty.{pretty};

use crate::compact::{write_members, write_value};
use crate::pretty::write_pretty;
use crate::text::write_text;
use bytes::Bytes;
use jb_tree::{Map, Memory, Text, Value};
use std::alloc::Global;

/// Room for a short text, so that it is allocated once.
const FIRST_ROOM: usize = 128;

/// The compact JSON text of `value` (RFC 8259): no white space, and in strings only the escapes that are needed.
/// A quote and a backslash get a backslash, backspace, form feed, line feed, carriage return and tab their
/// letter, other bytes below 0x20 `\u00xx` in lower-case hexadecimal; all else stands as it is.
///
/// `Err` only when out of memory.
pub fn to_bytes(alloc: Global, value: &Value) -> Result<Bytes, Memory>
    ensures { IfOk result (λ bytes. bytes ≡ compact value.now) }
{
    let text = compact_string(alloc, value)?;
    Ok(Bytes::from_vec(text.into_bytes())?)
}

/// The same text as a [`Text`]. `Err` only when out of memory.
pub fn to_text(alloc: Global, value: &Value) -> Result<Text, Memory>
    ensures { IfOk result (λ text. text ≡ compact value.now) }
{
    Ok(Text::from_string(compact_string(alloc, value)?))
}

/// The JSON text (RFC 8259) of `value` with a line for each item and pair: two spaces deeper for each level, `"key": value`,
/// and `[]` and `{}` where there are none. Strings are as in [`to_bytes`]. `Err` only when out of memory.
pub fn to_pretty(alloc: Global, value: &Value) -> Result<Text, Memory>
    ensures { IfOk result (λ text. text ≡ pretty value.now) }
{
    let mut text = String::with_capacity(alloc, FIRST_ROOM)?;
    write_pretty(&mut text, alloc, "\n", value)?;
    Ok(Text::from_string(text))
}

/// Appends the text that [`to_bytes`] gives. `Err` only when out of memory: then some of it may be there.
pub fn append_value(out: &mut String, value: &Value) -> Result<(), Memory>
    ensures { OnOk result (string_bytes out.new ≡ string_bytes out.old ++ compact value.now) }
{
    write_value(out, value)
}

/// Appends the text that [`to_bytes`] gives of an object with these members. `Err` only when out of memory: then some of it may be
/// there.
pub fn append_object(out: &mut String, members: &Map) -> Result<(), Memory>
    ensures { OnOk result (string_bytes out.new ≡ string_bytes out.old ++ compact (json.Object members.now)) }
{
    write_members(out, members)
}

/// Appends the text that [`to_bytes`] gives of a string. `Err` only when out of memory: then some of it may be there.
pub fn append_string(out: &mut String, text: &str) -> Result<(), Memory>
    ensures { OnOk result (string_bytes out.new ≡ string_bytes out.old ++ quoted text.now) }
{
    write_text(out, text)
}

fn compact_string(alloc: Global, value: &Value) -> Result<String, Memory>
    ensures { IfOk result (λ text. string_bytes text ≡ compact value.now) }
{
    let mut text = String::with_capacity(alloc, FIRST_ROOM)?;
    write_value(&mut text, value)?;
    Ok(text)
}
