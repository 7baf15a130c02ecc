//! Answers to the full query.

ghost use Rattle.std.specs.Prelude.{◌≡◌};
ghost use Rattle.gql_client_schema.specs.Parts as spec;
ghost use Rattle.gql_client_schema.specs.Reading.{Answers};

use crate::path::{Unread, misfit};
use crate::reading::{Read, required};
use gql_sdl::ShownSchema;
use jb_tree::{Map, Value};
use std::alloc::Global;

/// The data of an answer.
#[derive(Drop)]
struct Data {
    schema: ShownSchema,
}

impl Read for Data {
    ghost reading = { spec.read_data };

    fn read(alloc: Global, value: &Value) -> Result<Data, Unread> {
        match value.as_object() {
            Some(members) => data_of(alloc, members),
            None => Err(misfit(alloc)),
        }
    }
}

fn data_of(alloc: Global, members: &Map) -> Result<Data, Unread>
    ensures { Answers (spec.data_of members.now) result }
{
    match required(alloc, "__schema", members) {
        Ok(schema) => Ok(Data { schema }),
        Err(unread) => Err(unread),
    }
}

/// What the answer shows of a schema (GraphQL October 2021, section 4.2). `Err` where a part of it breaks a rule, or when out of
/// memory.
pub(crate) fn read_answer(alloc: Global, value: &Value) -> Result<ShownSchema, Unread>
    ensures { Answers (spec.read_answer value.now) result }
{
    match value.as_object() {
        Some(members) => answer_of(alloc, members),
        None => Err(misfit(alloc)),
    }
}

fn schema_in(found: Data) -> ShownSchema
    ensures { result ≡ spec.schema_in found }
{
    let Data { schema } = found;
    schema
}

fn answer_of(alloc: Global, members: &Map) -> Result<ShownSchema, Unread>
    ensures { Answers (spec.answer_of members.now) result }
{
    match required(alloc, "data", members) {
        Ok(found) => Ok(schema_in(found)),
        Err(unread) => Err(unread),
    }
}
