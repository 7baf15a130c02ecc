//! What strings and block strings are made of.

ghost use Rattle.std.specs.Prelude.{◌≡◌, ◌+◌, ◌<◌, ◌≤◌, length, true};
ghost use Rattle.gql_lexer.specs.Lex as spec;

use crate::class::{is_digit, is_line, is_source};
use crate::run::byte;

/// Whether `"""` stands at the place.
pub(crate) fn is_block_quote(at: &[u8], from: usize) -> bool
    requires { from ≤ length at.now }
    ensures value { result ≡ spec.is_block_quote at.now from }
{
    byte(at, from) == b'"' && byte(at, from + 1) == b'"' && byte(at, from + 2) == b'"'
}

/// The value of a hexadecimal digit, and 16 for any other byte.
pub(crate) fn hex_value(b: u8) -> u32
    ensures value { result ≡ spec.hex_value b }
    ensures small { result ≤ 16 }
{
    match b {
        b'0'..=b'9' => u32::from(b - b'0'),
        b'A'..=b'F' => u32::from(b - b'A' + 10),
        b'a'..=b'f' => u32::from(b - b'a' + 10),
        _ => 16,
    }
}

/// Whether four hexadecimal digits stand at the place.
#[tactic(auto, unfolding(crate::specs::Lex::is_unit))]
pub(crate) fn is_unit(at: &[u8], from: usize) -> bool
    requires { from < 16 }
    ensures value { result ≡ spec.is_unit at.now from }
    ensures within { result ≡ true → from + 4 ≤ length at.now }
{
    hex_value(byte(at, from)) < 16
        && hex_value(byte(at, from + 1)) < 16
        && hex_value(byte(at, from + 2)) < 16
        && hex_value(byte(at, from + 3)) < 16
}

/// The number that four hexadecimal digits at the place write.
#[tactic(auto, unfolding(crate::specs::Lex::unit))]
pub(crate) fn unit(at: &[u8], from: usize) -> u32
    requires { from < 16 }
    ensures value { result ≡ spec.unit at.now from }
    ensures small { result ≤ 0x1_1110 }
{
    let high = hex_value(byte(at, from)) * 16 + hex_value(byte(at, from + 1));
    (high * 16 + hex_value(byte(at, from + 2))) * 16 + hex_value(byte(at, from + 3))
}

fn is_unit_escape(at: &[u8], from: usize) -> bool
    requires { from < 10 }
    ensures value { result ≡ spec.is_unit_escape at.now from }
    ensures within { result ≡ true → from + 6 ≤ length at.now }
{
    byte(at, from) == b'\\' && byte(at, from + 1) == b'u' && is_unit(at, from + 2)
}

pub(crate) fn is_high_surrogate(unit: u32) -> bool
    ensures { result ≡ spec.is_high_surrogate unit }
{
    matches!(unit, 0xD800..=0xDBFF)
}

fn is_low_surrogate(unit: u32) -> bool
    ensures { result ≡ spec.is_low_surrogate unit }
{
    matches!(unit, 0xDC00..=0xDFFF)
}

/// The length of the escape by code units of UTF-16 that the text begins with, or 0.
#[tactic(auto, unfolding(crate::specs::Lex::unicode_escape_len))]
fn unicode_escape_len(at: &[u8]) -> usize
    ensures value { result ≡ spec.unicode_escape_len at.now }
    ensures within { result ≤ length at.now }
{
    if !is_unit_escape(at, 0) || is_low_surrogate(unit(at, 2)) {
        0
    } else if !is_high_surrogate(unit(at, 2)) {
        6
    } else if is_unit_escape(at, 6) && is_low_surrogate(unit(at, 8)) {
        12
    } else {
        0
    }
}

pub(crate) fn is_escaped(b: u8) -> bool
    ensures { result ≡ spec.is_escaped b }
{
    matches!(b, b'"' | b'\\' | b'/' | b'b' | b'f' | b'n' | b'r' | b't')
}

/// The length of the byte or escape of a string that the text begins with, or 0.
#[inline(always)]
#[tactic(auto, unfolding(crate::specs::Lex::string_len))]
pub(crate) fn string_len(at: &[u8]) -> usize
    ensures value { result ≡ spec.string_len at.now }
    ensures within { result ≤ length at.now }
{
    let first = byte(at, 0);
    if first == b'\\' {
        if is_escaped(byte(at, 1)) {
            2
        } else {
            unicode_escape_len(at)
        }
    } else if is_line(first) && first != b'"' {
        1
    } else {
        0
    }
}

/// The length of the byte or `\"""` of a block string that the text begins with, or 0.
#[inline(always)]
#[tactic(auto, unfolding(crate::specs::Lex::block_len))]
pub(crate) fn block_len(at: &[u8]) -> usize
    ensures value { result ≡ spec.block_len at.now }
    ensures within { result ≤ length at.now }
{
    let first = byte(at, 0);
    if is_block_quote(at, 0) {
        0
    } else if first == b'\\' && is_block_quote(at, 1) {
        4
    } else if is_source(first) {
        1
    } else {
        0
    }
}
