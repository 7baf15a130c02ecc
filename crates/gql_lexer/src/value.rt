//! The values of strings.

ghost use Rattle.std.specs.Prelude.{◌≡◌, ◌<◌, drop, take, slice_index, false, IfOk, IfSome, IfNone, string_bytes};
ghost use Rattle.std.specs.List.{prefix_len};
ghost use Rattle.gql_lexer.specs.Class.{is_plain};
ghost use Rattle.gql_lexer.specs.Lex as lex;
ghost use Rattle.gql_lexer.specs.Value as spec;
ghost use Rattle.gql_lexer.specs.bridge.Value as spec_bridge;

use crate::Memory;
use crate::cut::{skip, split_run};
use crate::run::{ByteRun, byte};
use crate::string::{is_escaped, is_high_surrogate, string_len, unit};
use std::alloc::Global;

/// What a letter or mark stands for behind a backslash.
fn escaped(b: u8) -> u8
    ensures { result ≡ spec.escaped b }
{
    match b {
        b'b' => 0x08,
        b'f' => 0x0C,
        b'n' => b'\n',
        b'r' => b'\r',
        b't' => b'\t',
        _ => b,
    }
}

/// The code of the character that an escape by code units stands for.
#[tactic(auto, unfolding(crate::specs::Value::escaped_character))]
fn escaped_character(at: &[u8]) -> u32
    ensures { result ≡ spec.escaped_character at.now }
{
    let first = unit(at, 2);
    if is_high_surrogate(first) {
        0x1_0000 + (first - 0xD800) * 0x400 + unit(at, 8).saturating_sub(0xDC00)
    } else {
        first
    }
}

/// The character that the escape at the beginning of a text stands for.
fn escape_value(at: &[u8]) -> char
    requires begins { slice_index at.now 0 ≡ 0x5C }
    requires some { 0 < lex.string_len at.now }
    ensures { result ≡ spec.escape_value at.now }
{
    let b = byte(at, 1);
    if is_escaped(b) {
        char::from(escaped(b))
    } else {
        char::from_u32(escaped_character(at)).unwrap()
    }
}

/// The character that the escape at the beginning of a text stands for, and the length of the escape.
/// `None` where no escape begins.
fn escape(at: &[u8]) -> Option<(char, usize)>
    ensures some { IfSome result (λ found. spec_bridge.IsEscape at.now found.0 found.1) }
    ensures none { IfNone result (slice_index at.now 0 ≡ 0x5C → lex.string_len at.now ≡ 0) }
{
    let len = string_len(at);
    if byte(at, 0) == b'\\' && len > 0 {
        Some((escape_value(at), len))
    } else {
        None
    }
}

/// The plain bytes that a text begins with, and the rest.
fn split_plain(s: &str) -> (&str, &str)
    ensures plain { result.0.now ≡ take (prefix_len is_plain s.now) s.now }
    ensures rest { result.1.now ≡ drop (prefix_len is_plain s.now) s.now }
    ensures stops { is_plain (slice_index result.1.now 0) ≡ false }
{
    split_run(ByteRun::Plain, s)
}

/// The value of a string on one line, which is given from its opening quote on.
///
/// An escape stands for its character, as section 2.9.4 of GraphQL October 2021 says, and the escapes of a
/// high and a low surrogate in a row stand for one character.
pub fn string_value(alloc: Global, token: &str) -> Result<String, Memory>
    requires { slice_index token.now 0 ≡ 0x22 }
    ensures { IfOk result (λ value. string_bytes value ≡ spec.string_value token.now) }
{
    let mut out = String::new(alloc);
    let mut rest = skip(token, 1);
    'pieces: loop {
        let (plain, behind) = split_plain(rest);
        out.push_str(plain)?;
        let Some((character, len)) = escape(behind.as_bytes()) else {
            return Ok(out);
        };
        out.push(character)?;
        rest = skip(behind, len);
    }
}
