//! Queries from their texts.

ghost use Rattle.std.specs.Prelude.{◌≡◌, option_map};
ghost use Rattle.std.specs.Arc.{arc_value};
ghost use Rattle.gql_c.specs.Outcomes.{TellsMade};
ghost use Rattle.gql_c.specs.Queries.{ReadsQuery, ReadsQueryBytes, ReadsQueryText};

use crate::handle::Handle;
use crate::held::Held;
use crate::outcome::{Outcome, refuse};
use crate::query::Query;
use crate::store::{put_back, take_from};
use crate::told::tell_made;
use gql_engine::{AnswerError, Refused, Service};
use std::alloc::Global;
use std::sync::Arc;

/// Reads and checks the text of a query against a schema (GraphQL October 2021, sections 2 and 5), into the second handle. The query
/// keeps the schema, so that the schema's handle may be let go first. What the last two handles held is let go.
///
/// [`ANSWERED`](crate::ANSWERED) where the text means a document. [`REFUSED`](crate::REFUSED) exactly where it means none: the reply has
/// a JSON object with an error for each thing that is wrong. [`UNREAD`](crate::UNREAD) exactly where it is no UTF-8, and
/// [`WRONG_HANDLE`](crate::WRONG_HANDLE) exactly where the first handle holds no schema. [`NO_MEMORY`](crate::NO_MEMORY) only when out of
/// memory.
#[unsafe(no_mangle)]
pub extern "C" fn gql_query_new(
    alloc: Global,
    schema: &mut Handle,
    text: &[u8],
    query: &mut Handle,
    reply: &mut Handle,
) -> u32
    ensures same { schema.new.held ≡ schema.old.held }
    ensures told { TellsMade (ReadsQuery schema.old.held text.now) result query.new.held reply.new.held }
{
    let held = take_from(alloc, schema);
    let outcome = read_query(alloc, &held, text);
    put_back(alloc, held, schema);
    tell_made(alloc, outcome, query, reply)
}

/// The query that bytes mean against what a handle holds.
fn read_query(alloc: Global, held: &Option<Box<Held>>, text: &[u8]) -> Outcome
    ensures { ReadsQuery (option_map (λ b. b.value) held.now) text.now result }
{
    match held {
        Some(held) => match held.as_ref() {
            Held::Schema(service) => read_bytes(alloc, service, text),
            _ => Outcome::WrongHandle,
        },
        None => Outcome::WrongHandle,
    }
}

/// The query that bytes mean against a schema.
fn read_bytes(alloc: Global, service: &Arc<Service>, text: &[u8]) -> Outcome
    ensures { ReadsQueryBytes (arc_value service.now) text.now result }
{
    match str::from_utf8(text) {
        Ok(text) => query_of_text(alloc, service, text),
        Err(_) => Outcome::Unread,
    }
}

/// The query that a text means against a schema.
fn query_of_text(alloc: Global, service: &Arc<Service>, text: &str) -> Outcome
    ensures { ReadsQueryText (arc_value service.now) text.now result }
{
    match Query::of_text(alloc, service, text) {
        Ok(query) => match Arc::new(alloc, query) {
            Ok(query) => Outcome::answered(alloc, Held::Query(query)),
            Err(_) => Outcome::NoMemory,
        },
        Err(Refused::Fault(list)) => refuse(alloc, AnswerError::Document(list)),
        Err(Refused::Memory) => Outcome::NoMemory,
    }
}
