//! Fields of object types and interface types.

ghost use Rattle.gql_client_schema.specs.Parts as spec;
ghost use Rattle.gql_client_schema.specs.Reading.{Answers};

use crate::deprecation::deprecation_in;
use crate::path::{Unread, misfit};
use crate::reading::{Read, both, description_in, required};
use gql_sdl::ShownField;
use jb_tree::{Map, Value};
use std::alloc::Global;

impl Read for ShownField {
    ghost reading = { spec.read_field };

    fn read(alloc: Global, value: &Value) -> Result<ShownField, Unread> {
        match value.as_object() {
            Some(members) => field_of(alloc, members),
            None => Err(misfit(alloc)),
        }
    }
}

/// A field (GraphQL October 2021, section 4.2.3).
fn field_of(alloc: Global, members: &Map) -> Result<ShownField, Unread>
    ensures { Answers (spec.field_of members.now) result }
{
    let name = required(alloc, "name", members);
    let description = description_in(alloc, members);
    let arguments = required(alloc, "args", members);
    let ty = required(alloc, "type", members);
    let deprecation = deprecation_in(alloc, members);
    match both(
        name,
        both(description, both(arguments, both(ty, deprecation))),
    ) {
        Ok(parts) => {
            let (name, (description, (arguments, (ty, deprecation)))) = parts;
            Ok(ShownField {
                description,
                name,
                arguments,
                ty,
                deprecation,
            })
        }
        Err(unread) => Err(unread),
    }
}
