//! Which coerced arguments a plan keeps.

use gql_coerce::ArgumentFault;
use gql_response::JsonMap;
use jb_text::Listed;
use jb_tree::{Map, Value};

/// Up to this many values are kept of one field's arguments, those within lists and objects counted too.
const MOST_KEPT: usize = 64;

/// Whether the arguments of a field are kept for all objects of a type.
///
/// One large value of a variable can be an argument of many fields, and a copy for each of them would take the product of both
/// in memory.
pub(crate) fn are_kept(arguments: &Result<JsonMap, ArgumentFault>) -> bool {
    match arguments {
        Ok(arguments) => count_members(arguments) <= MOST_KEPT,
        Err(_) => true,
    }
}

/// How many values there are in a value, itself and those within it. The count stops at the largest number.
#[cycle(count)]
fn count_values(value: &Value) -> usize {
    match value {
        Value::Array(items) => count_items(items).saturating_add(1),
        Value::Object(members) => count_members(members).saturating_add(1),
        _ => 1,
    }
}

#[cycle(count)]
fn count_items(items: &Listed<Value>) -> usize {
    let mut count: usize = 0;
    for item in items.as_slice() {
        count = count.saturating_add(count_values(item));
    }
    count
}

#[cycle(count)]
fn count_members(members: &Map) -> usize {
    let mut count: usize = 0;
    for index in 0..members.len() {
        count = count.saturating_add(count_values(members.value_at(index)));
    }
    count
}
