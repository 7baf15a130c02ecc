//! Texts with places for names.

ghost use Rattle.std.specs.Prelude.{◌≡◌, ◌<◌, ◌≤◌, ◌+◌, ◌++◌, drop, length, IfOk, string_bytes};
ghost use Rattle.gql_diag_messages.specs.Filled.{name_at, is_lacking, is_directive, place_for, filled};

use jb_text::{Memory, Text};
use std::alloc::Global;

/// The pattern with the names in their places: `{0}` stands for the first name, `{1}` for the second, and so on. A
/// name that is not there is the empty text. `Err` only when out of memory.
pub(crate) fn filled(alloc: Global, pattern: &str, names: &[Text]) -> Result<Text, Memory>
    ensures { IfOk result (λ text. text ≡ filled pattern.now names.now) }
{
    let mut out = String::with_capacity(alloc, pattern.len())?;
    let mut rest = pattern.as_bytes();
    while !rest.is_empty() {
        let done = write_next(&mut out, rest, names)?;
        rest = &rest[done..];
    }
    Ok(Text::from_string(out))
}

/// Writes what stands at the front of a pattern, and gives the number of its bytes.
fn write_next(out: &mut String, rest: &[u8], names: &[Text]) -> Result<usize, Memory>
    requires { 0 < length rest.now }
    ensures within { IfOk result (λ done. (0 < done) × (done ≤ length rest.now)) }
    ensures written { IfOk result (λ done. string_bytes out.new ++ filled (drop done rest.now) names.now
        ≡ string_bytes out.old ++ filled rest.now names.now) }
{
    match place_for(rest) {
        Some(number) => {
            out.push_str(name_at(names, number))?;
            Ok(3)
        }
        None => {
            out.push(char::from(rest[0]))?;
            Ok(1)
        }
    }
}

fn place_for(rest: &[u8]) -> Option<usize>
    ensures { result ≡ place_for rest.now }
{
    match rest {
        [b'{', digit @ b'0'..=b'9', b'}', ..] => Some((*digit - b'0') as usize),
        _ => None,
    }
}

/// The name of this number, or the empty text where there is none.
pub(crate) fn name_at(names: &[Text], number: usize) -> &str
    ensures { result.now ≡ name_at names.now number }
{
    match names.get(number) {
        Some(name) => name.as_str(),
        None => "",
    }
}

/// Whether the name of this number is the empty text, as that of an unnamed definition.
pub(crate) fn is_lacking(names: &[Text], number: usize) -> bool
    ensures { result ≡ is_lacking number names.now }
{
    name_at(names, number).is_empty()
}

/// Whether the first name begins with `@`, as that of a directive does where an argument is its.
pub(crate) fn is_directive(names: &[Text]) -> bool
    ensures { result ≡ is_directive names.now }
{
    match name_at(names, 0).as_bytes() {
        [b'@', ..] => true,
        _ => false,
    }
}
