//! Printing straight to a text, as the JSON value that a thing stands for.

ghost use Rattle.std.specs.Prelude.{◌≡◌, ◌++◌, true, pos, map, codes, OnOk, string_bytes};
ghost use Rattle.jb_tree.specs.declared.value.Value.{Value as JsonValue};
ghost use Rattle.jb_tree.specs.declared.value.Value.TheVariants as json;
ghost use Rattle.jb_print.specs.Compact.{compact};
ghost use Rattle.jb_print.specs.Quoted.{quoted};
ghost use Rattle.jb_print.specs.bridge.Pieces.{comma_after, pieces_text, member_piece};
ghost use Rattle.gql_response.specs.Response.{list_member, object_member};

use jb_print::{append_object, append_string, append_value};
use jb_text::{Memory, Number};
use jb_tree::{Map, Value};

/// What is printed as a JSON value.
pub(crate) trait Printed {
    // The value that it stands for.
    ghost value_of: { Self → JsonValue };

    /// Appends the compact text of the value. `Err` only when out of memory.
    fn append(&self, out: &mut String) -> Result<(), Memory>
        ensures { OnOk result (string_bytes out.new ≡ string_bytes out.old ++ compact (value_of self.now)) };
}

/// Appends an array of the items. `Err` only when out of memory.
pub(crate) fn append_list<T: Printed>(out: &mut String, items: &[T]) -> Result<(), Memory>
    ensures { OnOk result (string_bytes out.new ≡ string_bytes out.old ++ compact (json.Array (map T.value_of items.now))) }
{
    out.push_str("[")?;
    let mut later = false;
    for item in items {
        append_comma(out, later)?;
        item.append(out)?;
        later = true;
    }
    out.push_str("]")?;
    Ok(())
}

/// Appends a later member whose value is a list, where that has items. `Err` only when out of memory.
pub(crate) fn append_list_member<T: Printed>(
    out: &mut String,
    key: &str,
    items: &[T],
) -> Result<(), Memory>
    ensures { OnOk result (string_bytes out.new ≡ string_bytes out.old
        ++ pieces_text true (map member_piece (list_member key.now (map T.value_of items.now)))) }
{
    if items.is_empty() {
        return Ok(());
    }
    append_key(out, true, key)?;
    append_list(out, items)
}

/// Appends a later member whose value is an object, where that has members. `Err` only when out of memory.
pub(crate) fn append_object_member(out: &mut String, key: &str, members: &Map) -> Result<(), Memory>
    ensures { OnOk result (string_bytes out.new ≡ string_bytes out.old
        ++ pieces_text true (map member_piece (object_member key.now members.now))) }
{
    if members.is_empty() {
        return Ok(());
    }
    append_key(out, true, key)?;
    append_object(out, members)
}

/// Appends the key of a member, behind a comma where it is a later one. `Err` only when out of memory.
pub(crate) fn append_key(out: &mut String, later: bool, key: &str) -> Result<(), Memory>
    ensures { OnOk result (string_bytes out.new ≡ string_bytes out.old ++ (comma_after later ++ (quoted key.now ++ codes ":"))) }
{
    append_comma(out, later)?;
    append_string(out, key)?;
    out.push_str(":")
}

fn append_comma(out: &mut String, later: bool) -> Result<(), Memory>
    ensures { OnOk result (string_bytes out.new ≡ string_bytes out.old ++ comma_after later) }
{
    if later { out.push_str(",") } else { Ok(()) }
}

/// Appends a count as a JSON number. `Err` only when out of memory.
pub(crate) fn append_whole(out: &mut String, count: usize) -> Result<(), Memory>
    ensures { OnOk result (string_bytes out.new ≡ string_bytes out.old ++ compact (json.Number (pos count))) }
{
    append_value(out, &Value::Number(Number::from_u64(count as u64)))
}
