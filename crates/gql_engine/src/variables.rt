//! The JSON text of the variables of a call.

ghost use Rattle.std.specs.Prelude.{◌≡◌, IfErr, IfOk};
ghost use Rattle.jb_tree.specs.Value.{object_members};
ghost use Rattle.gql_engine.specs.AnswerError.{IsNoVariables, IsObjectText};

use crate::answer_error::{AnswerError, VariablesFault};
use bytes::Bytes;
use jb_read::from_bytes_whole;
use jb_tree::{Map, Refused, Value};
use std::alloc::Global;

/// The members of the object that a JSON text spells, as [`answer`](crate::answer) reads its variables.
///
/// # Errors
///
/// [`AnswerError::Variables`] exactly where the text is no JSON text, with its first fault, or one of another value than an object,
/// and [`AnswerError::Memory`] when out of memory.
pub fn read_variables(alloc: Global, variables: &Bytes) -> Result<Map, AnswerError>
    ensures read { IfOk result (IsObjectText variables.now) }
    ensures refused { IfErr result (IsNoVariables variables.now) }
{
    match from_bytes_whole(alloc, variables) {
        Ok(value) => match members_of(value) {
            Some(members) => Ok(members),
            None => Err(AnswerError::Variables(VariablesFault::NotObject)),
        },
        Err(Refused::Fault(fault)) => Err(AnswerError::Variables(VariablesFault::Read(fault))),
        Err(Refused::Memory) => Err(AnswerError::Memory),
    }
}

/// The members where the value is an object.
fn members_of(value: Value) -> Option<Map>
    ensures { result ≡ object_members value }
{
    match value {
        Value::Object(members) => Some(members),
        _ => None,
    }
}
