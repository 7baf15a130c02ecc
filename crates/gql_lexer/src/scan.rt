//! The token that a text begins with.

ghost use Rattle.std.specs.Prelude.{◌≡◌, ◌+◌, ◌<◌, ◌≤◌, length, drop, slice_index, true};
ghost use Rattle.gql_lexer.specs.Lex as spec;
ghost use Rattle.gql_lexer.specs.bridge.Lex as spec_bridge;

use crate::SyntaxFault;
use crate::class::{ByteClass, class_of, is_source};
use crate::number::number;
use crate::run::{ByteRun, ItemRun, byte, is_mark, past, past_items};
use crate::string::is_block_quote;
use crate::token::{FaultAt, Lexed, TokenKind};

fn fault(fault: SyntaxFault, start: usize, end: usize) -> Lexed
    ensures { result ≡ spec_bridge.fault fault start end }
{
    Err(FaultAt { fault, start, end })
}

/// The character that a text begins with is unexpected.
fn unexpected(at: &[u8]) -> Lexed
    requires { 0 < length at.now }
    ensures value { result ≡ spec_bridge.unexpected at.now }
    ensures within { spec_bridge.IsWithin at.now result }
{
    fault(
        SyntaxFault::BadCharacter,
        0,
        past(ByteRun::Continuation, at, 1),
    )
}

fn is_control_at(at: &[u8], place: usize) -> bool
    ensures value { result ≡ spec_bridge.is_control_at at.now place }
{
    place < at.len() && !is_source(at[place])
}

#[tactic(auto, unfolding(crate::specs::bridge::Lex::comment))]
fn comment(at: &[u8]) -> Lexed
    requires { 0 < length at.now }
    ensures value { result ≡ spec_bridge.comment at.now }
    ensures within { spec_bridge.IsWithin at.now result }
{
    let end = past(ByteRun::Line, at, 1);
    if is_control_at(at, end) {
        fault(SyntaxFault::BadCharacter, end, end + 1)
    } else {
        Ok((TokenKind::Ignored, end))
    }
}

#[tactic(auto, unfolding(crate::specs::bridge::Lex::dots))]
fn dots(at: &[u8]) -> Lexed
    requires { 0 < length at.now }
    ensures value { result ≡ spec_bridge.dots at.now }
    ensures within { spec_bridge.IsWithin at.now result }
{
    if byte(at, 1) == b'.' && byte(at, 2) == b'.' {
        Ok((TokenKind::Punctuator, 3))
    } else {
        unexpected(at)
    }
}

/// A name, whose first byte is told already.
fn name(at: &[u8]) -> Lexed
    requires some { 0 < length at.now }
    requires start { spec.is_in ByteRun.Name (slice_index at.now 0) ≡ true }
    ensures value { result ≡ spec_bridge.token TokenKind.Name (spec.past ByteRun.Name at.now 0) }
    ensures within { spec_bridge.IsWithin at.now result }
{
    Ok((TokenKind::Name, past(ByteRun::Name, at, 1)))
}

/// A row of white space and byte order marks that begins with white space.
fn blanks(at: &[u8]) -> Lexed
    requires some { 0 < length at.now }
    requires blank { spec.is_in ByteRun.Blank (slice_index at.now 0) ≡ true }
    ensures value { result ≡ spec_bridge.token TokenKind.Ignored (spec.run_len spec.blank_len at.now) }
    ensures within { spec_bridge.IsWithin at.now result }
{
    let end = past(ByteRun::Blank, at, 1);
    // most rows have no mark, of which this is the first byte
    if byte(at, end) == 0xEF {
        Ok((TokenKind::Ignored, past_items(ItemRun::Blank, at, end)))
    } else {
        Ok((TokenKind::Ignored, end))
    }
}

#[tactic(auto, unfolding(crate::specs::bridge::Lex::mark, crate::specs::Lex::blank_len))]
fn mark(at: &[u8]) -> Lexed
    requires { 0 < length at.now }
    ensures value { result ≡ spec_bridge.mark at.now }
    ensures within { spec_bridge.IsWithin at.now result }
{
    if is_mark(at) {
        Ok((TokenKind::Ignored, past_items(ItemRun::Blank, at, 0)))
    } else {
        unexpected(at)
    }
}

/// Where the characters of a block string end. Most bytes stand for themselves, and are passed in one run.
fn block_end(at: &[u8]) -> usize
    requires { 3 ≤ length at.now }
    ensures value { result ≡ 3 + spec.run_len spec.block_len (drop 3 at.now) }
    ensures within { (3 ≤ result) × (result ≤ length at.now) }
{
    let plain = past(ByteRun::BlockPlain, at, 3);
    past_items(ItemRun::Block, at, plain)
}

#[tactic(auto, unfolding(crate::specs::bridge::Lex::block_string))]
fn block_string(at: &[u8]) -> Lexed
    requires { 3 ≤ length at.now }
    ensures value { result ≡ spec_bridge.block_string at.now }
    ensures within { spec_bridge.IsWithin at.now result }
{
    let end = block_end(at);
    if is_block_quote(at, end) {
        Ok((TokenKind::StringValue, end + 3))
    } else if end < at.len() {
        fault(SyntaxFault::BadCharacter, end, end + 1)
    } else {
        fault(SyntaxFault::OpenString, 0, end)
    }
}

/// Where the characters and escapes of a string end. Most bytes stand for themselves, and are passed in one run.
fn string_end(at: &[u8]) -> usize
    requires { 0 < length at.now }
    ensures value { result ≡ 1 + spec.run_len spec.string_len (drop 1 at.now) }
    ensures within { (1 ≤ result) × (result ≤ length at.now) }
{
    let plain = past(ByteRun::Plain, at, 1);
    past_items(ItemRun::String, at, plain)
}

#[tactic(auto, unfolding(crate::specs::bridge::Lex::string))]
fn string(at: &[u8]) -> Lexed
    requires { 0 < length at.now }
    ensures value { result ≡ spec_bridge.string at.now }
    ensures within { spec_bridge.IsWithin at.now result }
{
    let end = string_end(at);
    match byte(at, end) {
        b'"' => Ok((TokenKind::StringValue, end + 1)),
        b'\\' => fault(SyntaxFault::BadEscape, end, end + 1),
        _ if is_control_at(at, end) => fault(SyntaxFault::BadCharacter, end, end + 1),
        _ => fault(SyntaxFault::OpenString, 0, end),
    }
}

#[tactic(auto, unfolding(crate::specs::bridge::Lex::quoted))]
fn quoted(at: &[u8]) -> Lexed
    requires { 0 < length at.now }
    ensures value { result ≡ spec_bridge.quoted at.now }
    ensures within { spec_bridge.IsWithin at.now result }
{
    if is_block_quote(at, 0) {
        block_string(at)
    } else {
        string(at)
    }
}

/// The token that a text begins with, or the fault in its place.
#[tactic(auto, unfolding(crate::specs::bridge::Lex::lex, crate::specs::Lex::blank_len))]
pub(crate) fn lex(at: &[u8]) -> Lexed
    requires { 0 < length at.now }
    ensures value { result ≡ spec_bridge.lex at.now }
    ensures within { spec_bridge.IsWithin at.now result }
{
    match class_of(at[0]) {
        ByteClass::Name => name(at),
        ByteClass::Number => number(at),
        ByteClass::Blank => blanks(at),
        ByteClass::Punctuator => Ok((TokenKind::Punctuator, 1)),
        ByteClass::Dot => dots(at),
        ByteClass::Quote => quoted(at),
        ByteClass::Comment => comment(at),
        ByteClass::Comma => Ok((TokenKind::Ignored, 1)),
        ByteClass::Mark => mark(at),
        ByteClass::Other => unexpected(at),
    }
}
