//! Schemas from their texts.

ghost use Rattle.gql_c.specs.Outcomes.{TellsMade};
ghost use Rattle.gql_c.specs.Schemas.{ReadsSchema, ReadsSchemaText};

use crate::handle::Handle;
use crate::held::Held;
use crate::outcome::{Outcome, refuse};
use crate::told::tell_made;
use gql_engine::{AnswerError, Refused, Service};
use std::alloc::Global;
use std::sync::Arc;

/// Reads and checks the text of a schema (GraphQL October 2021, sections 2 and 3), into the first handle. What both handles held is let
/// go.
///
/// [`ANSWERED`](crate::ANSWERED) where the text means a schema. [`REFUSED`](crate::REFUSED) exactly where it means none: the reply has
/// a JSON object with an error for each thing that is wrong. [`UNREAD`](crate::UNREAD) exactly where it is no UTF-8.
/// [`NO_MEMORY`](crate::NO_MEMORY) only when out of memory.
#[unsafe(no_mangle)]
pub extern "C" fn gql_schema_new(
    alloc: Global,
    text: &[u8],
    schema: &mut Handle,
    reply: &mut Handle,
) -> u32
    ensures { TellsMade (ReadsSchema text.now) result schema.new.held reply.new.held }
{
    let outcome = read_schema(alloc, text);
    tell_made(alloc, outcome, schema, reply)
}

/// The schema that bytes mean.
fn read_schema(alloc: Global, text: &[u8]) -> Outcome
    ensures { ReadsSchema text.now result }
{
    match str::from_utf8(text) {
        Ok(text) => schema_of_text(alloc, text),
        Err(_) => Outcome::Unread,
    }
}

/// The schema that a text means.
fn schema_of_text(alloc: Global, text: &str) -> Outcome
    ensures { ReadsSchemaText text.now result }
{
    match Service::new(alloc, text) {
        Ok(service) => match Arc::new(alloc, service) {
            Ok(service) => Outcome::answered(alloc, Held::Schema(service)),
            Err(_) => Outcome::NoMemory,
        },
        Err(Refused::Fault(list)) => refuse(alloc, AnswerError::Schema(list)),
        Err(Refused::Memory) => Outcome::NoMemory,
    }
}
