//! Numbers (RFC 8259, section 6), whole ones alone.

ghost use Rattle.std.specs.Prelude.{◌≡◌, drop, ◌+◌, ◌-◌, ◌*◌, ◌≤◌, ◌<◌, ◌^◌, ℕ, length, IsTrue, OnOk};
ghost use Rattle.jb_read.specs.Bytes.{is_digit, begins};
ghost use Rattle.jb_read.specs.bridge.Reading.{Tells};
ghost use Rattle.jb_read.specs.Numbers.{digits_from, number_of, is_mark, number_at};
ghost use Rattle.jb_read.specs.bridge.Numbers.{bounded_whole_at, within};

use crate::cursor::Cursor;
use crate::fault::{Broken, FaultKind};
use jb_tree::Number;

fn is_digit(byte: u8) -> bool
    ensures { result ≡ is_digit byte }
{
    byte.is_ascii_digit()
}

fn begins_digit(cursor: &Cursor<'_>) -> bool
    ensures { result ≡ begins is_digit cursor.now }
{
    cursor.peek().is_some_and(is_digit)
}

fn begins_mark(cursor: &Cursor<'_>) -> bool
    ensures { result ≡ begins is_mark cursor.now }
{
    matches!(cursor.peek(), Some(b'.' | b'e' | b'E'))
}

/// The magnitude with one digit more, while 64 bits hold it.
fn with_digit(value: Option<u64>, byte: u8) -> Option<u64>
    requires { IsTrue (is_digit byte) }
    ensures { (n : ℕ) → value ≡ within n → result ≡ within (10 * n + (byte - 48)) }
{
    value?.checked_mul(10)?.checked_add(u64::from(byte - b'0'))
}

/// The greatest number behind which 64 bits hold any digit.
const SAFE: u64 = 1_844_674_407_370_955_160;

/// The number that the digits at the front spell behind its first digit, as far as 64 bits surely hold it, and how many of
/// them there are.
fn spelled_safely(bytes: &[u8], lead: u8) -> (u64, usize)
    ensures value { digits_from result.0 (drop result.1 bytes.now) ≡ digits_from lead bytes.now }
    ensures bound { result.0 < 2 ^ 64 }
    ensures within { result.1 ≤ length bytes.now }
{
    let mut value = u64::from(lead);
    let mut count = 0;
    for &byte in bytes {
        if !is_digit(byte) || value > SAFE {
            break;
        }
        value = value * 10 + u64::from(byte - b'0');
        count += 1;
    }
    (value, count)
}

/// The number that the digits at the front spell behind these, where 64 bits hold it, and how many there are.
#[tactic(auto, using(crate::proofs::Front::digits_from_stop, crate::proofs::Front::digits_from_end))]
fn spelled_on(bytes: &[u8], number: u64) -> (Option<u64>, usize)
    ensures value { result.0 ≡ within (digits_from number bytes.now).0 }
    ensures rest { drop result.1 bytes.now ≡ (digits_from number bytes.now).1 }
    ensures within { result.1 ≤ length bytes.now }
{
    let mut value = Some(number);
    let mut count = 0;
    for &byte in bytes {
        if !is_digit(byte) {
            break;
        }
        value = with_digit(value, byte);
        count += 1;
    }
    (value, count)
}

/// The number that the digits at the front spell behind its first digit, where 64 bits hold it.
fn read_digits(cursor: &mut Cursor<'_>, lead: u8) -> Option<u64>
    ensures value { result ≡ within (digits_from lead cursor.old).0 }
    ensures rest { cursor.new ≡ (digits_from lead cursor.old).1 }
    ensures no_more { length cursor.new ≤ length cursor.old }
{
    let (number, count) = spelled_safely(cursor.rest(), lead);
    cursor.skip(count);
    let (value, more) = spelled_on(cursor.rest(), number);
    cursor.skip(more);
    value
}

/// The digits of a number: a zero alone, or digits that do not begin with zero.
#[tactic(auto, unfolding(crate::specs::Numbers::whole_part_at))]
fn read_whole_part(cursor: &mut Cursor<'_>) -> Result<Option<u64>, Broken>
    ensures value { Tells result cursor.new (bounded_whole_at cursor.old) }
    ensures fewer { OnOk result (length cursor.new < length cursor.old) }
{
    match cursor.peek() {
        Some(b'0') => {
            cursor.skip(1);
            if begins_digit(cursor) {
                return Err(cursor.fault(FaultKind::Syntax));
            }
            Ok(Some(0))
        }
        Some(lead @ b'1'..=b'9') => {
            cursor.skip(1);
            Ok(read_digits(cursor, lead - b'0'))
        }
        _ => Err(cursor.fault(FaultKind::Syntax)),
    }
}

/// The number of a sign and a magnitude, where there is one.
fn number_of(minus: bool, magnitude: u64) -> Option<Number>
    ensures { result ≡ number_of minus magnitude }
{
    if minus {
        0i64.checked_sub_unsigned(magnitude).map(Number::from_i64)
    } else {
        Some(Number::from_u64(magnitude))
    }
}

/// A number. Behind its digits `.`, `e` and `E` make it `Float`; so is `-0`; then comes its range.
#[tactic(auto, unfolding(crate::specs::Numbers::number_at))]
pub fn read_number(cursor: &mut Cursor<'_>) -> Result<Number, Broken>
    ensures value { Tells result cursor.new (number_at cursor.old) }
    ensures fewer { OnOk result (length cursor.new < length cursor.old) }
{
    let float = cursor.fault(FaultKind::Float);
    let out_of_range = cursor.fault(FaultKind::NumberRange);
    let minus = cursor.peek() == Some(b'-');
    if minus {
        cursor.skip(1);
    }
    let magnitude = read_whole_part(cursor)?;
    if begins_mark(cursor) || (minus && magnitude == Some(0)) {
        return Err(float);
    }
    magnitude
        .and_then(|magnitude| number_of(minus, magnitude))
        .ok_or(out_of_range)
}
