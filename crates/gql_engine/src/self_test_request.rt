//! The request of the self-test.

ghost use Rattle.std.specs.Prelude.{◌≡◌, ◌++◌, IfOk, OnOk, string_bytes};
ghost use Rattle.std.specs.Fmt.{decimal};
ghost use Rattle.gql_engine.specs.SelfTest.{comma_before, item, items, self_test, tag};

use bytes::Bytes;
use itoa::Buffer;
use jb_tree::Memory;
use std::alloc::Global;

const HEAD: &str =
    "{\"schema\":\"type Query { items: [Item!]! } type Item { id: Int! tags: [String] }\",\"query\":\"{ items { id tags } }\",\"data\":{\"items\":[";

const TAIL: &str = "]}}";

/// The text of the request whose data has this many items. Each has its number, from 0, and one tag; the tag of every tenth is
/// an error. `Err` only when out of memory.
pub fn self_test_text(alloc: Global, count: u32) -> Result<Bytes, Memory>
    ensures { IfOk result (λ text. text ≡ self_test count) }
{
    let mut out = String::new(alloc);
    out.push_str(HEAD)?;
    append_items(&mut out, count)?;
    out.push_str(TAIL)?;
    Bytes::from_string(out)
}

/// Appends the items.
fn append_items(out: &mut String, count: u32) -> Result<(), Memory>
    ensures { OnOk result (string_bytes out.new ≡ string_bytes out.old ++ items count) }
{
    let mut number = 0;
    while number < count {
        append_comma(out, number)?;
        append_item(out, number)?;
        number += 1;
    }
    Ok(())
}

/// Appends the comma before an item, unless it is the first.
fn append_comma(out: &mut String, number: u32) -> Result<(), Memory>
    ensures { OnOk result (string_bytes out.new ≡ string_bytes out.old ++ comma_before number) }
{
    if number == 0 {
        Ok(())
    } else {
        out.push_str(",")
    }
}

/// Appends one item.
fn append_item(out: &mut String, number: u32) -> Result<(), Memory>
    ensures { OnOk result (string_bytes out.new ≡ string_bytes out.old ++ item number) }
{
    out.push_str("{\"id\":")?;
    append_number(out, number)?;
    out.push_str(",\"tags\":[")?;
    append_tag(out, number)?;
    out.push_str("]}")
}

/// Appends the one tag of an item.
fn append_tag(out: &mut String, number: u32) -> Result<(), Memory>
    ensures { OnOk result (string_bytes out.new ≡ string_bytes out.old ++ tag number) }
{
    if number % 10 == 9 {
        return out.push_str("{\"__error\":\"e\"}");
    }
    out.push_str("\"t")?;
    append_number(out, number % 7)?;
    out.push_str("\"")
}

/// Appends a number in decimal.
fn append_number(out: &mut String, number: u32) -> Result<(), Memory>
    ensures { OnOk result (string_bytes out.new ≡ string_bytes out.old ++ decimal number) }
{
    let mut buffer = Buffer::new();
    out.push_str(buffer.format(number))
}
