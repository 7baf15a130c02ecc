//! What is wrong with texts, for people.

ghost use Rattle.gql_c.specs.Checks.{ChecksBytes, ChecksTexts};
ghost use Rattle.gql_c.specs.Outcomes.{Tells};

use crate::handle::Handle;
use crate::held::Held;
use crate::outcome::Outcome;
use crate::told::tell;
use bytes::Bytes;
use gql_engine::{DiagnosticList, Refused, Service, reports};
use std::alloc::Global;

/// What is wrong with the texts of a schema and of a query (GraphQL October 2021, sections 2, 3 and 5), for people. What the handle of the
/// reply held is let go.
///
/// [`ANSWERED`](crate::ANSWERED) exactly where nothing is: the reply has no bytes. [`REFUSED`](crate::REFUSED) exactly where something
/// is: the reply has the reports of the first text that means nothing, a message for each thing that is wrong with a line for
/// each place. [`UNREAD`](crate::UNREAD) exactly where one is no UTF-8. [`NO_MEMORY`](crate::NO_MEMORY) only when out of memory.
#[unsafe(no_mangle)]
pub extern "C" fn gql_check(alloc: Global, schema: &[u8], query: &[u8], reply: &mut Handle) -> u32
    ensures { Tells (ChecksBytes schema.now query.now) result reply.new.held }
{
    let outcome = check_bytes(alloc, schema, query);
    tell(alloc, outcome, reply)
}

fn check_bytes(alloc: Global, schema: &[u8], query: &[u8]) -> Outcome
    ensures { ChecksBytes schema.now query.now result }
{
    match str::from_utf8(schema) {
        Ok(schema) => check_query_bytes(alloc, schema, query),
        Err(_) => Outcome::Unread,
    }
}

fn check_query_bytes(alloc: Global, schema: &str, query: &[u8]) -> Outcome
    ensures { ChecksBytes schema.now query.now result }
{
    match str::from_utf8(query) {
        Ok(query) => check_texts(alloc, schema, query),
        Err(_) => Outcome::Unread,
    }
}

fn check_texts(alloc: Global, schema: &str, query: &str) -> Outcome
    ensures { ChecksTexts schema.now query.now result }
{
    match Service::new(alloc, schema) {
        Ok(service) => check_query(alloc, &service, query),
        Err(Refused::Fault(list)) => Outcome::refused(alloc, reports(alloc, list)),
        Err(Refused::Memory) => Outcome::NoMemory,
    }
}

/// What is wrong with a query against the schema of a service.
fn check_query(alloc: Global, service: &Service, query: &str) -> Outcome
    ensures { ChecksTexts service.now query.now result }
{
    match service.prepare(alloc, query) {
        Ok(prepared) => {
            drop(prepared);
            Outcome::answered(alloc, Held::Reply(Bytes::new()))
        }
        Err(Refused::Fault(list)) => Outcome::refused(alloc, reports(alloc, list)),
        Err(Refused::Memory) => Outcome::NoMemory,
    }
}
