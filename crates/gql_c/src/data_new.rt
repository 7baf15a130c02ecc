//! Data from their texts.

ghost use Rattle.gql_c.specs.Data.{ReadsData};
ghost use Rattle.gql_c.specs.bridge.Data.{ReadsMembers, ReadsValue};
ghost use Rattle.gql_c.specs.Outcomes.{Tells};

use crate::handle::Handle;
use crate::held::Held;
use crate::outcome::Outcome;
use crate::told::tell;
use bytes::Bytes;
use gql_engine::{Map, Refused, Value, from_bytes_whole};
use std::alloc::Global;
use std::sync::Arc;

/// Reads plain data: the JSON text of an object (RFC 8259), whose numbers are whole. It may be nested at most 127 deep. What the handle
/// held is let go.
///
/// [`UNREAD`](crate::UNREAD) exactly where the bytes are no such text, and [`NO_MEMORY`](crate::NO_MEMORY) only when out of memory.
#[unsafe(no_mangle)]
pub extern "C" fn gql_data_new(alloc: Global, text: &[u8], to: &mut Handle) -> u32
    ensures { Tells (ReadsData text.now) result to.new.held }
{
    let outcome = read_data(alloc, text);
    tell(alloc, outcome, to)
}

/// The data that bytes spell.
fn read_data(alloc: Global, text: &[u8]) -> Outcome
    ensures { ReadsData text.now result }
{
    match Bytes::copy_from_slice(alloc, text) {
        Ok(bytes) => read_bytes(alloc, &bytes),
        Err(_) => Outcome::NoMemory,
    }
}

fn read_bytes(alloc: Global, bytes: &Bytes) -> Outcome
    ensures { ReadsData bytes.now result }
{
    match from_bytes_whole(alloc, bytes) {
        Ok(value) => hold_value(alloc, value),
        Err(Refused::Fault(_)) => Outcome::Unread,
        Err(Refused::Memory) => Outcome::NoMemory,
    }
}

/// A value as data, if it is an object.
fn hold_value(alloc: Global, value: Value) -> Outcome
    ensures { ReadsValue value result }
{
    match value {
        Value::Object(members) => hold_members(alloc, members),
        _ => Outcome::Unread,
    }
}

fn hold_members(alloc: Global, members: Map) -> Outcome
    ensures { ReadsMembers members result }
{
    match Arc::new(alloc, members) {
        Ok(members) => Outcome::answered(alloc, Held::Data(members)),
        Err(_) => Outcome::NoMemory,
    }
}
