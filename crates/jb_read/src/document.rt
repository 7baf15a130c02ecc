//! Whole texts, and the value that a text begins with.

ghost use Rattle.std.specs.Prelude.{◌≡◌, length, IfOk, IfErr, Ok, Err};
ghost use Rattle.jb_read.specs.declared.fault.ReadFault.{ReadFault};
ghost use Rattle.jb_read.specs.Faults.{FrontFault, JsonFault, IsFaultOf, IsFrontFaultOf};
ghost use Rattle.jb_tree.specs.declared.value.Value.{Value};
ghost use Rattle.jb_read.specs.Spelling.{JsonText, JsonFront};
ghost use Rattle.jb_read.specs.Values.{whole_value};
ghost use Rattle.jb_read.specs.Texts.{text_value, text_front, Answers, front_value};
ghost use Rattle.jb_read.specs.bridge.Texts.{GivesValue, IsWithin, placed_stop};

use crate::cursor::Cursor;
use crate::fault::{FaultKind, ReadFault, Stop};
use crate::token::skip_spaces;
use crate::value::read_value;
use bytes::Bytes;
use jb_tree::{Refused, Value};
use std::alloc::Global;

/// How many levels of brackets a text may open.
const MOST_LEVELS: usize = 127;

/// The value that a text begins with, behind white space (RFC 8259, section 2). What follows it is not looked at.
#[tactic(auto, using(crate::proofs::Within::front_stops_within), unfolding(crate::specs::Values::first_value))]
fn read_front(alloc: Global, cursor: &mut Cursor<'_>) -> Result<Value, Stop>
    ensures value { GivesValue result (front_value cursor.old) }
    ensures within { IfErr result (IsWithin (length cursor.old)) }
{
    skip_spaces(cursor);
    read_value(alloc, cursor, MOST_LEVELS)
}

/// The one value of a text, between white space.
#[tactic(auto, using(crate::proofs::Within::whole_stops_within), unfolding(crate::specs::Values::first_value, crate::specs::Values::whole_value))]
fn read_whole(alloc: Global, cursor: &mut Cursor<'_>) -> Result<Value, Stop>
    ensures value { GivesValue result (whole_value 127 cursor.old) }
    ensures within { IfErr result (IsWithin (length cursor.old)) }
{
    skip_spaces(cursor);
    let value = read_value(alloc, cursor, MOST_LEVELS)?;
    skip_spaces(cursor);
    if cursor.left() > 0 {
        return Err(cursor.fault(FaultKind::Syntax).into());
    }
    Ok(value)
}

/// The refusal of a text of this length.
fn placed(stop: Stop, length: usize) -> Refused<ReadFault>
    requires { IsWithin length stop }
    ensures { result ≡ placed_stop length stop }
{
    match stop {
        Refused::Fault(broken) => Refused::Fault(ReadFault {
            kind: broken.kind,
            place: length - broken.left,
        }),
        Refused::Memory => Refused::Memory,
    }
}

fn placed_front(alloc: Global, bytes: &Bytes) -> Result<Value, Refused<ReadFault>>
    ensures { Answers result (text_front bytes.now) }
{
    match read_front(alloc, &mut Cursor::new(bytes)) {
        Ok(value) => Ok(value),
        Err(stop) => Err(placed(stop, bytes.len())),
    }
}

fn placed_whole(alloc: Global, bytes: &Bytes) -> Result<Value, Refused<ReadFault>>
    ensures { Answers result (text_value bytes.now) }
{
    match read_whole(alloc, &mut Cursor::new(bytes)) {
        Ok(value) => Ok(value),
        Err(stop) => Err(placed(stop, bytes.len())),
    }
}

/// The value that a text begins with, behind white space (RFC 8259, section 2). What follows the value is ignored, but
/// a number ends where no digit, `.`, `e` or `E` follows it.
///
/// # Errors
///
/// The first fault from the left, with its place, counted in bytes: `Syntax`, `Float` for a number with a fraction or an exponent
/// and for `-0`, `NumberRange` for one below -2^63 or above 2^64-1, or `Depth` for the bracket that opens the 128th level. `Memory`
/// only when out of memory.
pub fn from_bytes(alloc: Global, bytes: &Bytes) -> Result<Value, Refused<ReadFault>>
    // The first fault from the left, or the value.
    ensures exact { Answers result (text_front bytes.now) }
    // What is read is what the bytes spell, and what they spell is read, unless memory runs out.
    ensures spelled { IfOk result (JsonFront bytes.now) }
    ensures only { (v : Value) → JsonFront bytes.now v → Answers result (Ok v) }
    // What is refused is broken there, and what is broken is refused so, unless memory runs out.
    ensures broken { IfErr result (IsFrontFaultOf bytes.now) }
    ensures refused { (f : ReadFault) → FrontFault bytes.now f → Answers result (Err f) }
{
    placed_front(alloc, bytes)
}

/// The one value of a text, between white space (RFC 8259, section 2).
///
/// # Errors
///
/// Those of [`from_bytes`], and `Syntax` too for a byte behind the value that is no white space.
pub fn from_bytes_whole(alloc: Global, bytes: &Bytes) -> Result<Value, Refused<ReadFault>>
    // The first fault from the left, or the value.
    ensures exact { Answers result (text_value bytes.now) }
    // What is read is what the bytes spell, and what they spell is read, unless memory runs out.
    ensures spelled { IfOk result (JsonText bytes.now) }
    ensures only { (v : Value) → JsonText bytes.now v → Answers result (Ok v) }
    // What is refused is broken there, and what is broken is refused so, unless memory runs out.
    ensures broken { IfErr result (IsFaultOf bytes.now) }
    ensures refused { (f : ReadFault) → JsonFault bytes.now f → Answers result (Err f) }
{
    placed_whole(alloc, bytes)
}

/// As [`from_bytes_whole`], over a copy of `text`, with the same errors.
pub fn from_str(alloc: Global, text: &str) -> Result<Value, Refused<ReadFault>>
    // The first fault from the left, or the value.
    ensures exact { Answers result (text_value text.now) }
    // What is read is what the bytes spell, and what they spell is read, unless memory runs out.
    ensures spelled { IfOk result (JsonText text.now) }
    ensures only { (v : Value) → JsonText text.now v → Answers result (Ok v) }
    // What is refused is broken there, and what is broken is refused so, unless memory runs out.
    ensures broken { IfErr result (IsFaultOf text.now) }
    ensures refused { (f : ReadFault) → JsonFault text.now f → Answers result (Err f) }
{
    from_bytes_whole(alloc, &Bytes::copy_from_slice(alloc, text.as_bytes())?)
}
