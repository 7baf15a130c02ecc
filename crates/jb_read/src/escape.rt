//! Escapes of strings (RFC 8259, section 7).

ghost use Rattle.std.specs.Prelude.{◌≡◌, ◌<◌, ◌+◌, ◌^◌, length, IsTrue, IfOk, OnOk};
ghost use Rattle.jb_read.specs.bridge.Reading.{Tells};
ghost use Rattle.jb_read.specs.Strings.{hex_value, hex_digit_at, hex_at, is_high, is_low, pair_char, low_at, pair_at, unicode_at, short_escape, escape_at};

use crate::cursor::Cursor;
use crate::fault::{Broken, FaultKind};
use crate::token::read_byte;

const FIRST_HIGH: u32 = 0xD800;

const FIRST_LOW: u32 = 0xDC00;

const AFTER_SURROGATES: u32 = 0xE000;

fn hex_value(byte: u8) -> Option<u32>
    ensures { result ≡ hex_value byte }
{
    match byte {
        b'0'..=b'9' => Some(u32::from(byte - b'0')),
        b'a'..=b'f' => Some(u32::from(byte - b'a') + 10),
        b'A'..=b'F' => Some(u32::from(byte - b'A') + 10),
        _ => None,
    }
}

#[tactic(auto, unfolding(crate::specs::Strings::hex_digit_at))]
fn read_hex_digit(cursor: &mut Cursor<'_>) -> Result<u32, Broken>
    ensures value { Tells result cursor.new (hex_digit_at cursor.old) }
    ensures fits { IfOk result (λ digit. digit < 16) }
    ensures fewer { OnOk result (length cursor.new < length cursor.old) }
{
    let digit = cursor
        .peek()
        .and_then(hex_value)
        .ok_or(cursor.fault(FaultKind::Syntax))?;
    cursor.skip(1);
    Ok(digit)
}

/// The four digits behind `\u`.
#[tactic(auto, unfolding(crate::specs::Strings::hex_at))]
fn read_unit(cursor: &mut Cursor<'_>) -> Result<u32, Broken>
    ensures value { Tells result cursor.new (hex_at cursor.old) }
    ensures fits { IfOk result (λ unit. unit < 2 ^ 16) }
    ensures fewer { OnOk result (length cursor.new < length cursor.old) }
{
    let first = read_hex_digit(cursor)?;
    let second = read_hex_digit(cursor)?;
    let third = read_hex_digit(cursor)?;
    let fourth = read_hex_digit(cursor)?;
    Ok(((first * 16 + second) * 16 + third) * 16 + fourth)
}

fn is_high(unit: u32) -> bool
    ensures { result ≡ is_high unit }
{
    FIRST_HIGH <= unit && unit < FIRST_LOW
}

fn is_low(unit: u32) -> bool
    ensures { result ≡ is_low unit }
{
    FIRST_LOW <= unit && unit < AFTER_SURROGATES
}

/// The character that two surrogates stand for (Unicode, section 3.9, UTF-16).
fn pair_char(high: u32, low: u32) -> char
    requires high { IsTrue (is_high high) }
    requires low { IsTrue (is_low low) }
    ensures { result ≡ pair_char high low }
{
    let code = 0x1_0000 + (high - FIRST_HIGH) * 0x400 + (low - FIRST_LOW);
    char::from_u32(code).unwrap()
}

/// The escape of a low surrogate.
#[tactic(auto, unfolding(crate::specs::Strings::low_at))]
fn read_low(cursor: &mut Cursor<'_>) -> Result<u32, Broken>
    ensures value { Tells result cursor.new (low_at cursor.old) }
    ensures low { IfOk result (λ unit. IsTrue (is_low unit)) }
    ensures fewer { OnOk result (length cursor.new < length cursor.old) }
{
    let no_low = cursor.fault(FaultKind::Syntax);
    read_byte(cursor, b'\\')?;
    read_byte(cursor, b'u')?;
    let unit = read_unit(cursor)?;
    if !is_low(unit) {
        return Err(no_low);
    }
    Ok(unit)
}

/// The character of a high surrogate and the low one that must follow it. Without it the fault is `own`, unless the
/// text ends before the next escape is read.
#[tactic(auto, unfolding(crate::specs::Strings::pair_at))]
fn read_pair(cursor: &mut Cursor<'_>, own: Broken, high: u32) -> Result<char, Broken>
    requires { IsTrue (is_high high) }
    ensures value { Tells result cursor.new (pair_at own high cursor.old) }
    ensures fewer { OnOk result (length cursor.new < length cursor.old) }
{
    match read_low(cursor) {
        Ok(low) => Ok(pair_char(high, low)),
        Err(ended) if ended.left == 0 => Err(ended),
        Err(_) => Err(own),
    }
}

/// The character behind `\u`, where `own` is the fault of the whole escape.
#[tactic(auto, unfolding(crate::specs::Strings::unicode_at))]
fn read_unicode(cursor: &mut Cursor<'_>, own: Broken) -> Result<char, Broken>
    ensures value { Tells result cursor.new (unicode_at own cursor.old) }
    ensures fewer { OnOk result (length cursor.new < length cursor.old) }
{
    let unit = read_unit(cursor)?;
    if is_high(unit) {
        return read_pair(cursor, own, unit);
    }
    char::from_u32(unit).ok_or(own)
}

fn short_escape(letter: u8) -> Option<char>
    ensures { result ≡ short_escape letter }
{
    match letter {
        b'"' | b'\\' | b'/' => Some(char::from(letter)),
        b'b' => Some('\u{8}'),
        b'f' => Some('\u{c}'),
        b'n' => Some('\n'),
        b'r' => Some('\r'),
        b't' => Some('\t'),
        _ => None,
    }
}

/// The character of an escape, from behind its backslash, where `own` is the fault of the whole escape.
#[tactic(auto, unfolding(crate::specs::Strings::escape_at))]
pub fn read_escape(cursor: &mut Cursor<'_>, own: Broken) -> Result<char, Broken>
    ensures value { Tells result cursor.new (escape_at own cursor.old) }
    ensures fewer { OnOk result (length cursor.new < length cursor.old) }
{
    let wrong_letter = cursor.fault(FaultKind::Syntax);
    let letter = cursor.peek().ok_or(wrong_letter)?;
    if letter == b'u' {
        cursor.skip(1);
        return read_unicode(cursor, own);
    }
    let character = short_escape(letter).ok_or(wrong_letter)?;
    cursor.skip(1);
    Ok(character)
}
