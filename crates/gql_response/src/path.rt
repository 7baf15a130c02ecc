//! The steps from a response's data to a place in it.

ghost use Rattle.jb_shape.specs.Outcome.{Answers};
ghost use Rattle.gql_response.specs.Response.{segment_value};
ghost use Rattle.gql_response.specs.Reading.{named, read_segment};

use crate::printed::{Printed, append_whole};
use gql_ast_base::Name;
use jb_print::append_string;
use jb_shape::{FromValue, ShapeError};
use jb_text::{Memory, Refused};
use jb_tree::Value;
use std::alloc::Global;

/// A step from the response's data to a place in it (GraphQL October 2021, section 7.1.2). Steps are compared by the
/// text of the name or by the place; where a name was read is left aside.
#[derive(PartialEq, Eq, Drop)]
pub enum ResponseDataPathSegment {
    /// The response key of a field.
    Field(Name),
    /// The place of an item in a list, from 0.
    ListIndex(usize),
}

impl Printed for ResponseDataPathSegment {
    ghost value_of = { segment_value };

    fn append(&self, out: &mut String) -> Result<(), Memory> {
        match self {
            ResponseDataPathSegment::Field(name) => append_string(out, name.as_str()),
            ResponseDataPathSegment::ListIndex(index) => append_whole(out, *index),
        }
    }
}

impl FromValue for ResponseDataPathSegment {
    ghost reading = { read_segment };

    fn from_value(
        alloc: Global,
        value: &Value,
    ) -> Result<ResponseDataPathSegment, Refused<ShapeError>> {
        match value.as_str() {
            Some(text) => named(alloc, text),
            None => Ok(ResponseDataPathSegment::ListIndex(usize::from_value(alloc, value)?)),
        }
    }
}

/// The step to a field, where the text is a name; else it is a value of another kind.
fn named(alloc: Global, text: &str) -> Result<ResponseDataPathSegment, Refused<ShapeError>>
    ensures { Answers (named text.now) result }
{
    match Name::new(alloc, text) {
        Ok(name) => Ok(ResponseDataPathSegment::Field(name)),
        Err(Refused::Fault(_)) => Err(Refused::Fault(ShapeError::WrongKind)),
        Err(Refused::Memory) => Err(Refused::Memory),
    }
}
