//! Strings (RFC 8259, section 7).

ghost use Rattle.std.specs.Prelude.{◌≡◌, ◌<◌, ◌≤◌, length, IfOk, OnOk, OnSome, Ok, MatchOption, is_none, ◌&&◌, ◌==◌};
ghost use Rattle.std.specs.Str.{error_len};
ghost use Rattle.std.specs.String.{string_bytes};
ghost use Rattle.jb_read.specs.bridge.Reading.{Tells, Gives, GivesTurn, told_text};
ghost use Rattle.jb_read.specs.Strings.{plain_length, run_at, piece_at, text_at};

use crate::ascii::ascii_length;
use crate::cursor::Cursor;
use crate::escape::read_escape;
use crate::fault::{Broken, FaultKind, Stop};
use jb_tree::{ByteString, Memory};
use std::alloc::Global;
use std::str;
use std::str::Utf8Error;

/// How many bytes at the front stand for themselves.
#[tactic(auto, using(crate::proofs::Plain::plain_prefix, crate::proofs::Plain::plain_within))]
fn plain_length(bytes: &[u8]) -> usize
    ensures value { result ≡ plain_length bytes.now }
    ensures within { result ≤ length bytes.now }
{
    jb_text::plain_length(bytes)
}

/// Whether bytes that are no UTF-8 could have become a text by more bytes behind them.
fn is_cut_off(error: &Utf8Error, behind: &[u8]) -> bool
    ensures { result ≡ ((length behind.now == 0) && is_none (error_len error.now)) }
{
    behind.is_empty() && error.error_len().is_none()
}

/// The plain characters at the front. Bytes that are no UTF-8 are refused at the first sequence that is ill-formed, or
/// at the text's end where more bytes could have completed it.
#[tactic(auto, unfolding(crate::specs::Strings::run_at))]
fn read_run<'a>(cursor: &mut Cursor<'a>) -> Result<&'a str, Broken>
    ensures value { Tells (told_text result) cursor.new (run_at cursor.old) }
    ensures no_more { OnOk result (length cursor.new ≤ length cursor.old) }
{
    let (front, behind) = cursor.rest().split_at(plain_length(cursor.rest()));
    match str::from_utf8(front) {
        Ok(text) => {
            cursor.skip(front.len());
            Ok(text)
        }
        Err(error) => {
            if is_cut_off(&error, behind) {
                cursor.skip(front.len());
                return Err(cursor.fault(FaultKind::Syntax));
            }
            cursor.skip(error.valid_up_to());
            Err(cursor.fault(FaultKind::Syntax))
        }
    }
}

/// A piece of a string with an escape, behind what was made: plain characters, and an escape or the quote that ends
/// the string. Says whether another piece follows.
#[tactic(auto, unfolding(crate::specs::Strings::piece_at, crate::specs::Strings::piece_end))]
fn read_piece(cursor: &mut Cursor<'_>, made: &mut String) -> Result<bool, Stop>
    ensures value { GivesTurn result (string_bytes made.new) cursor.new (piece_at (string_bytes made.old) cursor.old) }
    ensures fewer { OnOk result (length cursor.new < length cursor.old) }
{
    made.push_str(read_run(cursor)?)?;
    let syntax = cursor.fault(FaultKind::Syntax);
    match cursor.peek() {
        Some(b'"') => {
            cursor.skip(1);
            Ok(false)
        }
        Some(b'\\') => {
            cursor.skip(1);
            made.push(read_escape(cursor, syntax)?)?;
            Ok(true)
        }
        _ => Err(syntax.into()),
    }
}

/// A string without an escape, as a slice of the text. Another one gives nothing, and leaves the cursor.
fn read_plain(alloc: Global, cursor: &mut Cursor<'_>) -> Result<Option<ByteString>, Memory>
    ensures value { IfOk result (λ found. MatchOption found (cursor.new ≡ cursor.old) (λ text. text_at cursor.old ≡ Ok (text, cursor.new))) }
    ensures fewer { IfOk result (λ found. OnSome found (length cursor.new < length cursor.old)) }
{
    let length = plain_length(cursor.rest());
    let Some(b'"') = cursor.peek_behind(length) else {
        return Ok(None);
    };
    let Ok(_) = str::from_utf8(&cursor.rest()[..length]) else {
        return Ok(None);
    };
    let text = cursor.cut(alloc, length)?;
    cursor.skip(length + 1);
    Ok(Some(text))
}

/// A string, piece by piece.
fn read_pieces(alloc: Global, cursor: &mut Cursor<'_>) -> Result<ByteString, Stop>
    ensures value { Gives result cursor.new (text_at cursor.old) }
    ensures fewer { OnOk result (length cursor.new < length cursor.old) }
{
    let mut made = String::new(alloc);
    while read_piece(cursor, &mut made)? {}
    Ok(ByteString::from_text(alloc, made.as_str())?)
}

/// A string that has other characters than ASCII, or a fault.
fn read_other(alloc: Global, cursor: &mut Cursor<'_>) -> Result<ByteString, Stop>
    ensures value { Gives result cursor.new (text_at cursor.old) }
    ensures fewer { OnOk result (length cursor.new < length cursor.old) }
{
    if let Some(text) = read_plain(alloc, cursor)? {
        return Ok(text);
    }
    read_pieces(alloc, cursor)
}

/// A string, from behind the quote that opens it to behind the one that ends it (RFC 8259, section 7).
pub fn read_text(alloc: Global, cursor: &mut Cursor<'_>) -> Result<ByteString, Stop>
    ensures value { Gives result cursor.new (text_at cursor.old) }
    ensures fewer { OnOk result (length cursor.new < length cursor.old) }
{
    let length = ascii_length(cursor.rest());
    if let Some(b'"') = cursor.peek_behind(length) {
        let text = cursor.cut(alloc, length)?;
        cursor.skip(length + 1);
        return Ok(text);
    }
    if let Some(b'\\') = cursor.peek_behind(length) {
        return read_pieces(alloc, cursor);
    }
    read_other(alloc, cursor)
}
