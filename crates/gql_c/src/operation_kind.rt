//! What kind of operation a request is for.

ghost use Rattle.std.specs.Prelude.{◌≡◌, option_map};
ghost use Rattle.gql_document_types.specs.ChosenOperation.{text_of};
ghost use Rattle.gql_c.specs.Kinds.{IsChoice, IsChoiceNamed, IsChosenIn, TellsKind, kind_of, status_of};

use crate::handle::Handle;
use crate::held::Held;
use crate::query::Query;
use crate::request::operation_name;
use crate::status::{ANSWERED, NO_MEMORY, REFUSED, UNREAD, WRONG_HANDLE};
use crate::store::{put_back, take_from};
use gql_engine::Refused;
use gql_engine::ast::OperationType;
use std::alloc::Global;

/// What comes of the choice of an operation.
#[derive(Clone, Copy)]
pub enum Choice {
    /// One of this type.
    Operation(OperationType),
    /// There is no such operation.
    Nothing,
    /// Memory ran out where there is no such operation.
    NoMemory,
    /// A handle does not hold what the call takes.
    WrongHandle,
    /// The name is no text.
    Unread,
}

/// The kind of the operation that [`gql_execute`](crate::gql_execute) would execute, into `kind`: 1 for a query, 2 for a mutation, 3 for
/// a subscription (GraphQL October 2021, section 2.3), and 0 where there is none.
///
/// [`REFUSED`](crate::REFUSED) where there is no such operation (section 6.1), [`UNREAD`](crate::UNREAD) exactly where the name counts and
/// is no UTF-8, [`WRONG_HANDLE`](crate::WRONG_HANDLE) exactly where the handle holds no query. [`NO_MEMORY`](crate::NO_MEMORY) only when
/// out of memory, and only where there is no such operation.
#[unsafe(no_mangle)]
pub extern "C" fn gql_operation_kind(
    alloc: Global,
    query: &mut Handle,
    name: &[u8],
    flags: u32,
    kind: &mut u32,
) -> u32
    ensures same { query.new.held ≡ query.old.held }
    ensures told { TellsKind (IsChoice query.old.held name.now flags) result kind.new }
{
    let held = take_from(alloc, query);
    let choice = choose_held(alloc, &held, name, flags);
    put_back(alloc, held, query);
    *kind = kind_number(choice);
    choice_status(choice)
}

fn kind_number(choice: Choice) -> u32
    ensures { result ≡ kind_of choice }
{
    match choice {
        Choice::Operation(OperationType::Query) => 1,
        Choice::Operation(OperationType::Mutation) => 2,
        Choice::Operation(OperationType::Subscription) => 3,
        _ => 0,
    }
}

fn choice_status(choice: Choice) -> u32
    ensures { result ≡ status_of choice }
{
    match choice {
        Choice::Operation(_) => ANSWERED,
        Choice::Nothing => REFUSED,
        Choice::NoMemory => NO_MEMORY,
        Choice::WrongHandle => WRONG_HANDLE,
        Choice::Unread => UNREAD,
    }
}

/// The choice of an operation of what a handle holds.
fn choose_held(alloc: Global, held: &Option<Box<Held>>, name: &[u8], flags: u32) -> Choice
    ensures { IsChoice (option_map (λ b. b.value) held.now) name.now flags result }
{
    match held {
        Some(held) => match held.as_ref() {
            Held::Query(query) => choose_named(alloc, query, name, flags),
            _ => Choice::WrongHandle,
        },
        None => Choice::WrongHandle,
    }
}

/// The choice of an operation of a query.
fn choose_named(alloc: Global, query: &Query, name: &[u8], flags: u32) -> Choice
    ensures { IsChoiceNamed query.now name.now flags result }
{
    match operation_name(name, flags) {
        Ok(name) => choose(alloc, query, name),
        Err(_) => Choice::Unread,
    }
}

/// The same where the name is a text, or there is none.
fn choose(alloc: Global, query: &Query, name: Option<&str>) -> Choice
    ensures { IsChosenIn query.now (text_of name.entry) result }
{
    match query.document().as_ref().operations_get(alloc, name) {
        Ok(operation) => Choice::Operation(operation.operation_type),
        Err(Refused::Fault(_)) => Choice::Nothing,
        Err(Refused::Memory) => Choice::NoMemory,
    }
}
