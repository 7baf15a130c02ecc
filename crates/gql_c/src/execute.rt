//! Executions.

ghost use Rattle.std.specs.Prelude.{◌≡◌, Some, option_map};
ghost use Rattle.gql_document_types.specs.ChosenOperation.{text_of};
ghost use Rattle.gql_c.specs.Executions.{Executes, ExecutesHeld, ExecutesNamed, IsToldAs};
ghost use Rattle.gql_c.specs.Outcomes.{Tells};

use crate::handle::Handle;
use crate::held::Held;
use crate::outcome::{Outcome, refuse};
use crate::query::Query;
use crate::request::{Request, has_introspection, operation_name, variables_text};
use crate::store::{put_back, take_from};
use crate::told::tell;
use bytes::Bytes;
use gql_engine::{AnswerError, Map};
use std::alloc::Global;

/// Executes an operation of a query over data, which are the object that the query begins at (GraphQL October 2021, sections 6 and 7).
/// What the handle of the reply held is let go.
///
/// Bits of `flags`: 1 where the operation is that of the name, and otherwise the only one; 2 where `__schema` and `__type` are
/// answered (section 4). `variables` is the JSON text of an object; no bytes at all are one without members.
///
/// [`ANSWERED`](crate::ANSWERED): the reply has the response, as [`Service`](gql_engine::Service) answers the texts of the schema
/// and of the query. [`REFUSED`](crate::REFUSED) exactly where that has a refusal: the reply has its JSON.
/// [`UNREAD`](crate::UNREAD) exactly where the name counts and is no UTF-8, and [`WRONG_HANDLE`](crate::WRONG_HANDLE) exactly where the
/// first handle holds no query or the second no data. [`NO_MEMORY`](crate::NO_MEMORY) only when out of memory.
#[unsafe(no_mangle)]
pub extern "C" fn gql_execute(
    alloc: Global,
    query: &mut Handle,
    root: &mut Handle,
    name: &[u8],
    variables: &[u8],
    flags: u32,
    reply: &mut Handle,
) -> u32
    ensures same_query { query.new.held ≡ query.old.held }
    ensures same_data { root.new.held ≡ root.old.held }
    ensures told { Tells (ExecutesHeld query.old.held root.old.held name.now variables.now flags) result reply.new.held }
{
    let request = Request {
        name,
        variables,
        flags,
    };
    let held_query = take_from(alloc, query);
    let held_root = take_from(alloc, root);
    let outcome = execute_held(alloc, &held_query, &held_root, &request);
    put_back(alloc, held_query, query);
    put_back(alloc, held_root, root);
    tell(alloc, outcome, reply)
}

/// What comes of a request over what two handles hold.
fn execute_held(
    alloc: Global,
    query: &Option<Box<Held>>,
    root: &Option<Box<Held>>,
    request: &Request<'_>,
) -> Outcome
    ensures { ExecutesHeld (option_map (λ b. b.value) query.now) (option_map (λ b. b.value) root.now)
        request.now.name.now request.now.variables.now request.now.flags result }
{
    match (query, root) {
        (Some(query), Some(root)) => execute_both(alloc, query.as_ref(), root.as_ref(), request),
        _ => Outcome::WrongHandle,
    }
}

fn execute_both(alloc: Global, query: &Held, root: &Held, request: &Request<'_>) -> Outcome
    ensures { ExecutesHeld (Some query.now) (Some root.now) request.now.name.now request.now.variables.now request.now.flags result }
{
    match (query, root) {
        (Held::Query(query), Held::Data(members)) => execute_named(alloc, query, members, request),
        _ => Outcome::WrongHandle,
    }
}

/// What comes of a request to a query over data.
fn execute_named(alloc: Global, query: &Query, members: &Map, request: &Request<'_>) -> Outcome
    ensures { ExecutesNamed query.now members.now request.now.name.now request.now.variables.now request.now.flags result }
{
    match operation_name(request.name, request.flags) {
        Ok(name) => execute(alloc, query, members, name, request),
        Err(_) => Outcome::Unread,
    }
}

/// The same where the name is a text, or there is none.
fn execute(
    alloc: Global,
    query: &Query,
    members: &Map,
    name: Option<&str>,
    request: &Request<'_>,
) -> Outcome
    ensures { Executes query.now members.now (text_of name.entry) request.now.variables.now request.now.flags result }
{
    let introspection = has_introspection(request.flags);
    match variables_text(alloc, request.variables) {
        Ok(variables) => {
            let answer = query.answer(alloc, name, &variables, introspection, members);
            reply_with(alloc, answer)
        }
        Err(_) => Outcome::NoMemory,
    }
}

/// The reply to a request that is answered so.
pub(crate) fn reply_with(alloc: Global, answer: Result<Bytes, AnswerError>) -> Outcome
    ensures { IsToldAs answer result }
{
    match answer {
        Ok(response) => Outcome::answered(alloc, Held::Reply(response)),
        Err(refusal) => refuse(alloc, refusal),
    }
}
