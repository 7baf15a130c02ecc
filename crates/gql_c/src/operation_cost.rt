//! What an operation costs, known before it is executed.

ghost use Rattle.std.specs.Prelude.{◌≡◌, ◌≤◌, ◌<◌, IfErr, IfOk, OnOk, option_map};
ghost use Rattle.gql_c.specs.Costs.{Costs, CostsIn, CostsNamed, IsCost, IsCostTold, IsErrorTold, IsNotChosen, TellsCost, cost_in, number_of};
ghost use Rattle.gql_c.specs.bridge.Costs.{IsTooCostlyTold};
ghost use Rattle.gql_cost.specs.Refusal.{IsTooCostly};
ghost use Rattle.gql_document_types.specs.ChosenOperation.{text_of};
ghost use Rattle.gql_document_types.specs.Spreads.{AreAcyclic};

use crate::handle::Handle;
use crate::held::Held;
use crate::outcome::{Outcome, refuse};
use crate::query::Query;
use crate::request::operation_name;
use crate::status::{ANSWERED, NO_MEMORY, REFUSED, TOO_COSTLY, UNREAD, WRONG_HANDLE};
use crate::store::{gql_free, put_back, put_into, take_from};
use gql_cost::{CostFault, LimitedError, cost};
use gql_engine::executable::Operation;
use gql_engine::parser::SourceMap;
use gql_engine::{
    AnswerError, ExecutableDocument, GraphQLError, Refused, RequestError, RequestKind, Steps,
    Valid, valid_documents_run,
};
use std::alloc::Global;
use std::marker::Brand;
use std::sync::ledger::{Blank, Ledger};

/// How many nodes the data of a response may have, where no list has more than so many items.
#[repr(C)]
#[derive(Clone, Copy)]
pub struct Limit {
    /// The most items that a list is taken to have.
    pub items: u32,
    /// The most nodes: one for the data, and one for each value in them.
    pub nodes: u32,
}

/// What comes of asking for the cost of an operation.
#[derive(Drop)]
pub enum Costing {
    /// It is this, within the limit.
    Cost(u32),
    /// It is above the limit, which the reply says.
    TooCostly(Box<Held>),
    /// There is no such operation, which the reply says.
    Refused(Box<Held>),
    /// Memory ran out.
    NoMemory,
    /// A handle does not hold what the call takes.
    WrongHandle,
    /// The name is no text.
    Unread,
}

/// The cost of the operation that [`gql_execute`](crate::gql_execute) would execute, into `cost`: how many nodes the data of its response
/// can have at most, where no list has more items than the limit says (GraphQL October 2021, sections 6.3 and 6.4). Nothing is executed,
/// and each selection of the operation and of the fragments is looked at once at most. `cost` is 0 where another status is told. What
/// the handle of the reply held is let go.
///
/// [`ANSWERED`](crate::ANSWERED) where the cost is no more nodes than the limit says. [`TOO_COSTLY`](crate::TOO_COSTLY) exactly where it is
/// more: the reply has a JSON object with the one error `cost above limit`. [`REFUSED`](crate::REFUSED) exactly where there is no such
/// operation (section 6.1): the reply has a JSON object with that error. [`UNREAD`](crate::UNREAD) exactly where the name counts and is
/// no UTF-8, and [`WRONG_HANDLE`](crate::WRONG_HANDLE) exactly where the first handle holds no query. [`NO_MEMORY`](crate::NO_MEMORY) only
/// when out of memory.
#[unsafe(no_mangle)]
pub extern "C" fn gql_operation_cost(
    alloc: Global,
    query: &mut Handle,
    name: &[u8],
    flags: u32,
    limit: &Limit,
    cost: &mut u32,
    reply: &mut Handle,
) -> u32
    ensures same { query.new.held ≡ query.old.held }
    ensures told { TellsCost (Costs query.old.held name.now flags limit.now) result cost.new reply.new.held }
{
    let held = take_from(alloc, query);
    let costing = cost_held(alloc, &held, name, flags, limit);
    put_back(alloc, held, query);
    *cost = cost_number(&costing);
    tell_cost(alloc, costing, reply)
}

/// The cost, and 0 where none is told.
fn cost_number(costing: &Costing) -> u32
    ensures { result ≡ number_of costing.now }
{
    match costing {
        Costing::Cost(number) => *number,
        _ => 0,
    }
}

/// Puts the reply into its handle, which is left empty where there is none.
fn tell_cost(alloc: Global, costing: Costing, reply: &mut Handle) -> u32
    ensures { IsCostTold costing result reply.new.held }
{
    gql_free(alloc, reply);
    match costing {
        Costing::Cost(_) => ANSWERED,
        Costing::TooCostly(held) => {
            put_into(alloc, held, reply);
            TOO_COSTLY
        }
        Costing::Refused(held) => {
            put_into(alloc, held, reply);
            REFUSED
        }
        Costing::NoMemory => NO_MEMORY,
        Costing::WrongHandle => WRONG_HANDLE,
        Costing::Unread => UNREAD,
    }
}

/// The cost of an operation of what a handle holds.
fn cost_held(
    alloc: Global,
    held: &Option<Box<Held>>,
    name: &[u8],
    flags: u32,
    limit: &Limit,
) -> Costing
    ensures { Costs (option_map (λ b. b.value) held.now) name.now flags limit.now result }
{
    match held {
        Some(held) => match held.as_ref() {
            Held::Query(query) => cost_named(alloc, query, name, flags, limit),
            _ => Costing::WrongHandle,
        },
        None => Costing::WrongHandle,
    }
}

/// The cost of an operation of a query.
fn cost_named(alloc: Global, query: &Query, name: &[u8], flags: u32, limit: &Limit) -> Costing
    ensures { CostsNamed query.now name.now flags limit.now result }
{
    match operation_name(name, flags) {
        Ok(name) => cost_chosen(alloc, query, name, limit),
        Err(_) => Costing::Unread,
    }
}

/// The same where the name is a text, or there is none.
fn cost_chosen(alloc: Global, query: &Query, name: Option<&str>, limit: &Limit) -> Costing
    ensures { CostsIn query.now (text_of name.entry) limit.now result }
{
    valid_documents_run();
    let document = query.document();
    match document.as_ref().operations_get(alloc, name) {
        Ok(operation) => cost_within(alloc, document, operation, limit),
        Err(Refused::Fault(error)) => not_chosen(alloc, &error, &document.as_ref().sources),
        Err(Refused::Memory) => Costing::NoMemory,
    }
}

/// The cost of an operation of a document, or that it is above the limit.
fn cost_within(
    alloc: Global,
    document: &Valid<ExecutableDocument>,
    operation: &Operation,
    limit: &Limit,
) -> Costing
    requires { AreAcyclic document.now.fragments }
    ensures { IsCost limit.now (cost_in limit.now document.now operation.now) result }
{
    match cost_alone::<Brand>(alloc, document, operation, limit, Blank::new(1)) {
        Ok(cost) => Costing::Cost(cost),
        Err(Refused::Fault(_)) => too_costly(alloc),
        Err(Refused::Memory) => Costing::NoMemory,
    }
}

/// The cost, with a counter of its own.
fn cost_alone<L: Ledger>(
    alloc: Global,
    document: &Valid<ExecutableDocument>,
    operation: &Operation,
    limit: &Limit,
    blank: Blank,
) -> Result<u32, Refused<CostFault>>
    requires acyclic { AreAcyclic document.now.fragments }
    requires name { blank.name ≡ L.name }
    requires parts { blank.parts ≡ L.parts }
    requires some { 0 < blank.parts }
    ensures is { IfOk result (λ n. n ≡ cost_in limit.now document.now operation.now) }
    ensures within { OnOk result (cost_in limit.now document.now operation.now ≤ limit.now.nodes) }
    ensures above { IfErr result (IsTooCostly limit.now.items document.now.fragments operation.now.selection_set.selections limit.now.nodes) }
{
    let mut steps = Steps::<L>::open(blank);
    cost(
        alloc,
        document,
        operation,
        limit.items,
        limit.nodes,
        &mut steps,
    )
}

/// The refusal of what costs too much.
fn too_costly(alloc: Global) -> Costing
    ensures { IsTooCostlyTold result }
{
    match LimitedError::TooCostly.into_bytes(alloc) {
        Ok(text) => match Box::new(alloc, Held::Reply(text)) {
            Ok(held) => Costing::TooCostly(held),
            Err(_) => Costing::NoMemory,
        },
        Err(_) => Costing::NoMemory,
    }
}

/// The refusal where there is no such operation.
fn not_chosen(alloc: Global, error: &RequestError, sources: &SourceMap) -> Costing
    ensures { IsNotChosen error.now sources.now result }
{
    match error.to_graphql_error(alloc, sources) {
        Ok(error) => refuse_operation(alloc, error),
        Err(_) => Costing::NoMemory,
    }
}

fn refuse_operation(alloc: Global, error: GraphQLError) -> Costing
    ensures { IsErrorTold error result }
{
    let kind = RequestKind::Operation;
    match refuse(alloc, AnswerError::Request { kind, error }) {
        Outcome::Refused(held) => Costing::Refused(held),
        _ => Costing::NoMemory,
    }
}
