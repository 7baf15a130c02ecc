//! Values, arrays and objects (RFC 8259, sections 3 to 5).

ghost use Rattle.std.specs.Prelude.{◌≡◌, ◌<◌, suc, length, drop, OnOk, MatchResult};
ghost use Rattle.std.specs.Str.{bytes_eq};
ghost use Rattle.indexmap.specs.IndexMap.{insert_entry};
ghost use Rattle.jb_read.specs.Reading.{broken};
ghost use Rattle.jb_read.specs.bridge.Reading.{Gives, GivesTurn};
ghost use Rattle.jb_read.specs.Values.{scalar_at, key_at, item_at, member_at, array_at, object_at, value_at};
ghost use Rattle.jb_read.specs.declared.fault.FaultKind.TheVariants.{Depth};

use crate::cursor::Cursor;
use crate::fault::{Broken, FaultKind, Stop};
use crate::number::read_number;
use crate::text::read_text;
use crate::token::{read_byte, read_next, read_word, skip_spaces, take_byte};
use jb_tree::{ByteString, Listed, Map, Memory, Pairs, Value};
use std::alloc::{AllocError, Global};

/// A value that is no array and no object.
#[tactic(auto, unfolding(crate::specs::Values::scalar_at))]
fn read_scalar(alloc: Global, cursor: &mut Cursor<'_>) -> Result<Value, Stop>
    ensures value { Gives result cursor.new (scalar_at cursor.old) }
    ensures fewer { OnOk result (length cursor.new < length cursor.old) }
{
    match cursor.peek() {
        Some(b'"') => {
            cursor.skip(1);
            Ok(Value::String(read_text(alloc, cursor)?))
        }
        Some(b'n') => {
            read_word(cursor, b"null")?;
            Ok(Value::Null)
        }
        Some(b't') => {
            read_word(cursor, b"true")?;
            Ok(Value::Bool(true))
        }
        Some(b'f') => {
            read_word(cursor, b"false")?;
            Ok(Value::Bool(false))
        }
        Some(b'-' | b'0'..=b'9') => Ok(Value::Number(read_number(cursor)?)),
        _ => Err(cursor.fault(FaultKind::Syntax).into()),
    }
}

/// Goes into the bracket that stands here, and gives how many levels may be opened inside.
fn open_bracket(cursor: &mut Cursor<'_>, depth: usize) -> Result<usize, Broken>
    requires { 0 < length cursor.old }
    ensures { MatchResult result (λ inner. (depth ≡ suc inner) × (cursor.new ≡ drop 1 cursor.old)) (λ e. (depth ≡ 0) × (e ≡ broken Depth cursor.old)) }
{
    if depth == 0 {
        return Err(cursor.fault(FaultKind::Depth));
    }
    cursor.skip(1);
    Ok(depth - 1)
}

/// An item of an array. Says whether another follows.
#[cycle(value)]
#[tactic(auto, unfolding(crate::specs::Values::item_at))]
fn read_item(
    alloc: Global,
    cursor: &mut Cursor<'_>,
    depth: usize,
    items: &mut Listed<Value>,
) -> Result<bool, Stop>
    ensures value { GivesTurn result items.new cursor.new (item_at (value_at depth) items.old cursor.old) }
    ensures fewer { OnOk result (length cursor.new < length cursor.old) }
{
    items.push(read_value(alloc, cursor, depth)?)?;
    Ok(read_next(cursor, b']')?)
}

/// The items of an array, from behind the bracket that opens it (RFC 8259, section 5).
#[cycle(value)]
fn read_array(alloc: Global, cursor: &mut Cursor<'_>, depth: usize) -> Result<Listed<Value>, Stop>
    ensures value { Gives result cursor.new (array_at (value_at depth) cursor.old) }
    ensures fewer { OnOk result (length cursor.new < length cursor.old) }
{
    let mut items = Listed::new(alloc);
    skip_spaces(cursor);
    if take_byte(cursor, b']') {
        return Ok(items);
    }
    while read_item(alloc, cursor, depth, &mut items)? {}
    Ok(items)
}

/// A key, its colon and the white space around that.
#[tactic(auto, unfolding(crate::specs::Values::key_at))]
fn read_key(alloc: Global, cursor: &mut Cursor<'_>) -> Result<ByteString, Stop>
    ensures value { Gives result cursor.new (key_at cursor.old) }
    ensures fewer { OnOk result (length cursor.new < length cursor.old) }
{
    read_byte(cursor, b'"')?;
    let key = read_text(alloc, cursor)?;
    skip_spaces(cursor);
    read_byte(cursor, b':')?;
    skip_spaces(cursor);
    Ok(key)
}

/// Puts a member among those so far. A key that is there keeps its place and takes the new value.
fn put_member<V: Drop>(members: &mut Pairs<V>, key: ByteString, value: V) -> Result<(), Memory>
    ensures { OnOk result (members.new ≡ insert_entry bytes_eq members.old key value) }
{
    match members.insert(key, value) {
        Ok(_) => Ok(()),
        Err(_) => Err(AllocError),
    }
}

/// A member of an object. Says whether another follows.
#[cycle(value)]
#[tactic(auto, unfolding(crate::specs::Values::member_at))]
fn read_member(
    alloc: Global,
    cursor: &mut Cursor<'_>,
    depth: usize,
    members: &mut Map,
) -> Result<bool, Stop>
    ensures value { GivesTurn result members.new cursor.new (member_at (value_at depth) members.old cursor.old) }
    ensures fewer { OnOk result (length cursor.new < length cursor.old) }
{
    let key = read_key(alloc, cursor)?;
    let value = read_value(alloc, cursor, depth)?;
    put_member(members, key, value)?;
    Ok(read_next(cursor, b'}')?)
}

/// The members of an object, from behind the bracket that opens it (RFC 8259, section 4).
#[cycle(value)]
fn read_object(alloc: Global, cursor: &mut Cursor<'_>, depth: usize) -> Result<Map, Stop>
    ensures value { Gives result cursor.new (object_at (value_at depth) cursor.old) }
    ensures fewer { OnOk result (length cursor.new < length cursor.old) }
{
    let mut members = Map::new(alloc);
    skip_spaces(cursor);
    if take_byte(cursor, b'}') {
        return Ok(members);
    }
    while read_member(alloc, cursor, depth, &mut members)? {}
    Ok(members)
}

/// A value in which at most `depth` levels are opened (RFC 8259, section 3).
#[cycle(value)]
#[tactic(auto, using(crate::proofs::Nested::value_at_array, crate::proofs::Nested::value_at_object, crate::proofs::Nested::value_at_deep_array, crate::proofs::Nested::value_at_deep_object, crate::proofs::Nested::value_at_scalar))]
pub fn read_value(alloc: Global, cursor: &mut Cursor<'_>, depth: usize) -> Result<Value, Stop>
    ensures value { Gives result cursor.new (value_at depth cursor.old) }
    ensures fewer { OnOk result (length cursor.new < length cursor.old) }
{
    match cursor.peek() {
        Some(b'[') => {
            let inner = open_bracket(cursor, depth)?;
            Ok(Value::Array(read_array(alloc, cursor, inner)?))
        }
        Some(b'{') => {
            let inner = open_bracket(cursor, depth)?;
            Ok(Value::Object(read_object(alloc, cursor, inner)?))
        }
        _ => read_scalar(alloc, cursor),
    }
}
