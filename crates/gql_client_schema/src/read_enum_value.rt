//! Values of enum types.

ghost use Rattle.gql_client_schema.specs.Parts as spec;
ghost use Rattle.gql_client_schema.specs.Reading.{Answers};

use crate::deprecation::deprecation_in;
use crate::path::{Unread, misfit};
use crate::reading::{Read, both, description_in, required};
use gql_sdl::ShownEnumValue;
use jb_tree::{Map, Value};
use std::alloc::Global;

impl Read for ShownEnumValue {
    ghost reading = { spec.read_enum_value };

    fn read(alloc: Global, value: &Value) -> Result<ShownEnumValue, Unread> {
        match value.as_object() {
            Some(members) => enum_value_of(alloc, members),
            None => Err(misfit(alloc)),
        }
    }
}

/// An enum value (GraphQL October 2021, section 4.2.5).
fn enum_value_of(alloc: Global, members: &Map) -> Result<ShownEnumValue, Unread>
    ensures { Answers (spec.enum_value_of members.now) result }
{
    let name = required(alloc, "name", members);
    let description = description_in(alloc, members);
    let deprecation = deprecation_in(alloc, members);
    match both(name, both(description, deprecation)) {
        Ok(parts) => {
            let (name, (description, deprecation)) = parts;
            Ok(ShownEnumValue {
                description,
                name,
                deprecation,
            })
        }
        Err(unread) => Err(unread),
    }
}
