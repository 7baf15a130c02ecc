//! The named types of printed types.

ghost use Rattle.std.specs.Prelude.{◌≡◌, ◌<◌, ◌++◌, drop, length, IfOk, OnOk, string_bytes};
ghost use Rattle.gql_diag_messages.specs.NamedType.{named_type, wraps};

use jb_text::{Memory, Text};
use std::alloc::Global;

/// A type without the marks of lists and of non-null types around it: `Int` of `[Int!]!` (GraphQL October 2021,
/// section 3.4.1). `Err` only when out of memory.
pub(crate) fn named_type(alloc: Global, type_text: &str) -> Result<Text, Memory>
    ensures { IfOk result (λ text. text ≡ named_type type_text.now) }
{
    let mut out = String::with_capacity(alloc, type_text.len())?;
    let mut rest = type_text.as_bytes();
    while !rest.is_empty() {
        append_first(&mut out, rest)?;
        rest = &rest[1..];
    }
    Ok(Text::from_string(out))
}

/// Appends the first byte, unless it marks a list or a non-null type.
fn append_first(out: &mut String, rest: &[u8]) -> Result<(), Memory>
    requires { 0 < length rest.now }
    ensures { OnOk result (string_bytes out.new ++ named_type (drop 1 rest.now) ≡ string_bytes out.old ++ named_type rest.now) }
{
    if wraps(rest[0]) {
        return Ok(());
    }
    out.push(char::from(rest[0]))
}

/// Whether the byte marks a list or a non-null type.
fn wraps(byte: u8) -> bool
    ensures { result ≡ wraps byte }
{
    byte == b'[' || byte == b']' || byte == b'!'
}
