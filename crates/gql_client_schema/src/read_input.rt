//! Arguments and fields of input objects.

ghost use Rattle.gql_client_schema.specs.Parts as spec;
ghost use Rattle.gql_client_schema.specs.Reading.{Answers};

use crate::deprecation::deprecation_if_there;
use crate::path::{Unread, misfit};
use crate::reading::{Read, both, description_in, required};
use gql_sdl::ShownInput;
use jb_tree::{Map, Value};
use std::alloc::Global;

impl Read for ShownInput {
    ghost reading = { spec.read_input };

    fn read(alloc: Global, value: &Value) -> Result<ShownInput, Unread> {
        match value.as_object() {
            Some(members) => input_of(alloc, members),
            None => Err(misfit(alloc)),
        }
    }
}

/// An input value (GraphQL October 2021, section 4.2.4).
fn input_of(alloc: Global, members: &Map) -> Result<ShownInput, Unread>
    ensures { Answers (spec.input_of members.now) result }
{
    let name = required(alloc, "name", members);
    let description = description_in(alloc, members);
    let ty = required(alloc, "type", members);
    let default_value = required(alloc, "defaultValue", members);
    let deprecation = deprecation_if_there(alloc, members);
    match both(
        name,
        both(description, both(ty, both(default_value, deprecation))),
    ) {
        Ok(parts) => {
            let (name, (description, (ty, (default_value, deprecation)))) = parts;
            Ok(ShownInput {
                description,
                name,
                ty,
                default_value,
                deprecation,
            })
        }
        Err(unread) => Err(unread),
    }
}
