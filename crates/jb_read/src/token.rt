//! White space, words, and what stands between values (RFC 8259, section 2).

ghost use Rattle.std.specs.Prelude.{◌≡◌, ◌<◌, ◌≤◌, ◌+◌, length, drop, OnOk, if◌then◌else◌};
ghost use Rattle.jb_read.specs.Bytes.{is_white, skip_white};
ghost use Rattle.std.specs.Bool.{OnTrue};
ghost use Rattle.jb_read.specs.Reading.{byte_at, word_at};
ghost use Rattle.jb_read.specs.bridge.Reading.{Tells};
ghost use Rattle.jb_read.specs.Values.{begins_with, next_at};

use crate::cursor::Cursor;
use crate::fault::{Broken, FaultKind};

fn is_white(byte: u8) -> bool
    ensures { result ≡ is_white byte }
{
    byte <= b' ' && matches!(byte, b' ' | b'\t' | b'\n' | b'\r')
}

/// Goes on past white space.
#[tactic(auto, using(crate::proofs::Front::skip_white_stop, crate::proofs::Front::skip_white_end))]
pub fn skip_spaces(cursor: &mut Cursor<'_>)
    ensures skipped { cursor.new ≡ skip_white cursor.old }
    ensures no_more { length cursor.new ≤ length cursor.old }
{
    while let Some(byte) = cursor.peek() {
        if !is_white(byte) {
            break;
        }
        cursor.skip(1);
    }
}

/// Takes this byte, or refuses another one, and the end, as `Syntax`.
pub fn read_byte(cursor: &mut Cursor<'_>, byte: u8) -> Result<(), Broken>
    ensures value { Tells result cursor.new (byte_at byte cursor.old) }
    ensures fewer { OnOk result (length cursor.new + 1 ≡ length cursor.old) }
{
    if cursor.peek() != Some(byte) {
        return Err(cursor.fault(FaultKind::Syntax));
    }
    cursor.skip(1);
    Ok(())
}

/// Takes these bytes, or refuses the first that differs as `Syntax`.
pub fn read_word(cursor: &mut Cursor<'_>, word: &[u8]) -> Result<(), Broken>
    ensures value { Tells result cursor.new (word_at word.now cursor.old) }
    ensures fewer { OnOk result (length cursor.new + length word.now ≡ length cursor.old) }
{
    for byte in word {
        read_byte(cursor, *byte)?;
    }
    Ok(())
}

/// Takes this byte where it stands, and says whether it does.
pub fn take_byte(cursor: &mut Cursor<'_>, byte: u8) -> bool
    ensures value { result ≡ begins_with byte cursor.old }
    ensures rest { cursor.new ≡ (if begins_with byte cursor.old then drop 1 cursor.old else cursor.old) }
    ensures fewer { OnTrue result (length cursor.new < length cursor.old) }
    ensures no_more { length cursor.new ≤ length cursor.old }
{
    if cursor.peek() != Some(byte) {
        return false;
    }
    cursor.skip(1);
    true
}

/// Behind an item or a member: says whether a comma announces another, or takes the bracket that closes.
#[tactic(auto, unfolding(crate::specs::Values::next_at))]
#[inline(always)]
pub fn read_next(cursor: &mut Cursor<'_>, close: u8) -> Result<bool, Broken>
    ensures value { Tells result cursor.new (next_at close cursor.old) }
    ensures fewer { OnOk result (length cursor.new < length cursor.old) }
{
    skip_spaces(cursor);
    if take_byte(cursor, close) {
        return Ok(false);
    }
    read_byte(cursor, b',')?;
    skip_spaces(cursor);
    Ok(true)
}
