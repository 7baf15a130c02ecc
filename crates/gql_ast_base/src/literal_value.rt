//! The values that tokens are.

ghost use Rattle.std.specs.Prelude.{◌≡◌, IfOk};
ghost use Rattle.gql_ast_base.specs.Values as spec;

use crate::literal::{has_part, opens_number, opens_string, string_text};
use crate::value::ValueKind;
use jb_text::{Memory, Text};
use std::alloc::Global;

/// The number that a token is.
fn number_kind(alloc: Global, token: &str) -> Result<ValueKind, Memory>
    ensures { IfOk result (λ made. made ≡ spec.number_kind token.now) }
{
    let number = Text::from_str(alloc, token)?;
    if has_part(token) {
        Ok(ValueKind::Float(number))
    } else {
        Ok(ValueKind::Int(number))
    }
}

/// The value that a token is, if it is a number or a string. `Err` only where memory runs out.
#[tactic(auto, unfolding(crate::specs::Values::literal))]
pub fn literal_kind(alloc: Global, token: &str) -> Result<Option<ValueKind>, Memory>
    ensures { IfOk result (λ made. made ≡ spec.literal token.now) }
{
    if opens_string(token) {
        return Ok(Some(ValueKind::String(string_text(alloc, token)?)));
    }
    if opens_number(token) {
        return Ok(Some(number_kind(alloc, token)?));
    }
    Ok(None)
}
