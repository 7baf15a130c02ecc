//! Directives.

ghost use Rattle.gql_client_schema.specs.Parts as spec;
ghost use Rattle.gql_client_schema.specs.Reading.{Answers};

use crate::path::{Unread, misfit};
use crate::reading::{Read, both, description_in, required, spared};
use gql_ast::DirectiveLocation;
use gql_sdl::ShownDirective;
use jb_tree::{Map, Value};
use std::alloc::Global;

impl Read for ShownDirective {
    ghost reading = { spec.read_directive };

    fn read(alloc: Global, value: &Value) -> Result<ShownDirective, Unread> {
        match value.as_object() {
            Some(members) => directive_of(alloc, members),
            None => Err(misfit(alloc)),
        }
    }
}

/// A directive (GraphQL October 2021, section 4.2.6).
fn directive_of(alloc: Global, members: &Map) -> Result<ShownDirective, Unread>
    ensures { Answers (spec.directive_of members.now) result }
{
    let name = required(alloc, "name", members);
    let description = description_in(alloc, members);
    let is_repeatable = spared(alloc, "isRepeatable", false, members);
    let locations = required(alloc, "locations", members);
    let arguments = required(alloc, "args", members);
    match both(
        name,
        both(description, both(is_repeatable, both(locations, arguments))),
    ) {
        Ok(parts) => {
            let (name, (description, (is_repeatable, (locations, arguments)))) = parts;
            Ok(ShownDirective {
                description,
                name,
                is_repeatable,
                locations,
                arguments,
            })
        }
        Err(unread) => Err(unread),
    }
}
