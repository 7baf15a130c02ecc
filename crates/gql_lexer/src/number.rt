//! Numbers.

ghost use Rattle.std.specs.Prelude.{◌≡◌, ◌+◌, ◌<◌, ◌≤◌, length};
ghost use Rattle.gql_lexer.specs.Lex as spec;
ghost use Rattle.gql_lexer.specs.bridge.Lex as spec_bridge;

use crate::SyntaxFault;
use crate::class::is_name_continue;
use crate::run::{ByteRun, byte, past};
use crate::token::{FaultAt, Lexed, TokenKind};

fn sign_end(at: &[u8]) -> usize
    ensures value { result ≡ spec.sign_end at.now }
    ensures within { result ≤ length at.now }
{
    if byte(at, 0) == b'-' { 1 } else { 0 }
}

/// The end of the digits in front of a fraction or an exponent.
#[tactic(auto, unfolding(crate::specs::Lex::whole_end))]
fn whole_end(at: &[u8]) -> usize
    ensures value { result ≡ spec.whole_end at.now }
    ensures within { (spec.sign_end at.now ≤ result) × (result ≤ length at.now) }
{
    let start = sign_end(at);
    if byte(at, start) == b'0' {
        start + 1
    } else {
        past(ByteRun::Digit, at, start)
    }
}

/// The end of the fraction that begins at the place, if one does.
#[tactic(auto, unfolding(crate::specs::Lex::fraction_end))]
fn fraction_end(at: &[u8], whole: usize) -> usize
    requires { whole ≤ length at.now }
    ensures value { result ≡ spec.fraction_end at.now whole }
    ensures within { (whole ≤ result) × (result ≤ length at.now) }
{
    if byte(at, whole) == b'.' {
        past(ByteRun::Digit, at, whole + 1)
    } else {
        whole
    }
}

fn is_exponent(b: u8) -> bool
    ensures { result ≡ spec.is_exponent b }
{
    b == b'e' || b == b'E'
}

fn is_sign(b: u8) -> bool
    ensures { result ≡ spec.is_sign b }
{
    b == b'+' || b == b'-'
}

/// Where the digits of the exponent at the place begin.
#[tactic(auto, unfolding(crate::specs::Lex::exponent_start))]
fn exponent_start(at: &[u8], from: usize) -> usize
    requires { from < length at.now }
    ensures value { result ≡ spec.exponent_start at.now from }
    ensures within { (from < result) × (result ≤ length at.now) }
{
    if is_sign(byte(at, from + 1)) {
        from + 2
    } else {
        from + 1
    }
}

/// The end of the exponent that begins at the place, if one does.
#[tactic(auto, unfolding(crate::specs::Lex::exponent_end))]
fn exponent_end(at: &[u8], from: usize) -> usize
    requires { from ≤ length at.now }
    ensures value { result ≡ spec.exponent_end at.now from }
    ensures within { (from ≤ result) × (result ≤ length at.now) }
{
    if is_exponent(byte(at, from)) {
        past(ByteRun::Digit, at, exponent_start(at, from))
    } else {
        from
    }
}

fn goes_on(b: u8) -> bool
    ensures { result ≡ spec.goes_on b }
{
    is_name_continue(b) || b == b'.'
}

fn bad_number(end: usize) -> Lexed
    ensures { result ≡ spec_bridge.fault SyntaxFault.BadNumber 0 end }
{
    Err(FaultAt {
        fault: SyntaxFault::BadNumber,
        start: 0,
        end,
    })
}

/// The number that a text begins with, which begins with a digit or `-`.
#[tactic(auto, unfolding(crate::specs::bridge::Lex::number))]
pub(crate) fn number(at: &[u8]) -> Lexed
    ensures value { result ≡ spec_bridge.number at.now }
    ensures within { spec_bridge.IsWithin at.now result }
{
    let whole = whole_end(at);
    if whole == sign_end(at) {
        return bad_number(whole);
    }
    let fraction = fraction_end(at, whole);
    if fraction == whole + 1 {
        return bad_number(fraction);
    }
    let end = exponent_end(at, fraction);
    if end != fraction && end == exponent_start(at, fraction) {
        return bad_number(end);
    }
    if goes_on(byte(at, end)) {
        return bad_number(end);
    }
    let kind = if end == whole {
        TokenKind::IntValue
    } else {
        TokenKind::FloatValue
    };
    Ok((kind, end))
}
