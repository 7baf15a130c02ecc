//! Schemas.

ghost use Rattle.std.specs.Prelude.{◌≡◌};
ghost use Rattle.gql_client_schema.specs.Parts as spec;
ghost use Rattle.gql_client_schema.specs.Reading.{Answers};

use crate::path::{Unread, misfit};
use crate::reading::{Read, both, description_in, required};
use gql_ast_base::Name;
use gql_sdl::{ShownDirective, ShownSchema, ShownType};
use jb_text::{ByteString, Listed};
use jb_tree::{Map, Value};
use std::alloc::Global;

impl Read for ShownSchema {
    ghost reading = { spec.read_schema };

    fn read(alloc: Global, value: &Value) -> Result<ShownSchema, Unread> {
        match value.as_object() {
            Some(members) => schema_of(alloc, members),
            None => Err(misfit(alloc)),
        }
    }
}

/// A schema (GraphQL October 2021, section 4.2.1).
fn schema_of(alloc: Global, members: &Map) -> Result<ShownSchema, Unread>
    ensures { Answers (spec.schema_of members.now) result }
{
    let description = description_in(alloc, members);
    let query = required(alloc, "queryType", members);
    let mutation = required(alloc, "mutationType", members);
    let subscription = required(alloc, "subscriptionType", members);
    let types = required(alloc, "types", members);
    let directives = required(alloc, "directives", members);
    match both(
        description,
        both(
            query,
            both(mutation, both(subscription, both(types, directives))),
        ),
    ) {
        Ok(parts) => Ok(schema_by(parts)),
        Err(unread) => Err(unread),
    }
}

/// What is read of a schema, part by part.
type SchemaParts = (
    Option<ByteString>,
    (
        Root,
        (
            Option<Root>,
            (Option<Root>, (Listed<ShownType>, Listed<ShownDirective>)),
        ),
    ),
);

fn schema_by(parts: SchemaParts) -> ShownSchema
    ensures { result ≡ spec.schema_by parts }
{
    let (description, (query, (mutation, (subscription, (types, directives))))) = parts;
    ShownSchema {
        description,
        query: name_of(query),
        mutation: name_in(mutation),
        subscription: name_in(subscription),
        types,
        directives,
    }
}

/// A root type, of which the name alone is asked for.
#[derive(Drop)]
struct Root {
    name: Name,
}

impl Read for Root {
    ghost reading = { spec.read_root };

    fn read(alloc: Global, value: &Value) -> Result<Root, Unread> {
        match value.as_object() {
            Some(members) => root_of(alloc, members),
            None => Err(misfit(alloc)),
        }
    }
}

fn root_of(alloc: Global, members: &Map) -> Result<Root, Unread>
    ensures { Answers (spec.root_of members.now) result }
{
    match required(alloc, "name", members) {
        Ok(name) => Ok(Root { name }),
        Err(unread) => Err(unread),
    }
}

fn name_of(root: Root) -> Name
    ensures { result ≡ root.name }
{
    let Root { name } = root;
    name
}

fn name_in(root: Option<Root>) -> Option<Name>
    ensures { result ≡ spec.name_in root }
{
    match root {
        Some(root) => Some(name_of(root)),
        None => None,
    }
}
