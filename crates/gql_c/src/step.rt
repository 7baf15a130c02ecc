//! Steps of requests, whose resolvers are the caller's.

ghost use Rattle.std.specs.Prelude.{◌≡◌, Some, option_map};
ghost use Rattle.gql_document_types.specs.ChosenOperation.{text_of};
ghost use Rattle.gql_c.specs.Steps.{AreAsksTold, IsStepTold, IsToldRound, Steps, StepsHeld, StepsNamed, StepsOver, TellsStep};
ghost use Rattle.gql_rounds.specs.Told.{asks_value};

use crate::execute::reply_with;
use crate::handle::Handle;
use crate::held::Held;
use crate::outcome::Outcome;
use crate::query::Query;
use crate::request::{Request, has_introspection, operation_name, variables_text};
use crate::status;
use crate::store::{put_back, put_into, take_from};
use crate::told::tell;
use gql_engine::AnswerError;
use gql_rounds::{Answers, Asks, Round, asks_bytes};
use std::alloc::Global;

/// What comes of a step of a request.
#[derive(Drop)]
pub enum Stepping {
    /// What is asked, as a reply.
    Asks(Box<Held>),
    /// Nothing is asked, and this comes of the request.
    Ended(Outcome),
}

/// One step of a request whose resolvers are the caller's (GraphQL October 2021, sections 6 and 7): what is asked of the caller's objects
/// beyond the answers that the second handle holds, or the response by these answers, once nothing is asked. A handle that holds nothing
/// is no answer yet. What the handle of the reply held is let go.
///
/// Name, variables and flags are those of [`gql_execute`](crate::gql_execute).
///
/// [`ASKS`](crate::ASKS): the reply has a JSON list, never an empty one, of all that is asked, each of the form
/// `{"object":7,"type":"Book","field":"author","arguments":{}}`. The object that an operation begins at is 0. Answers go to
/// [`gql_answers_add`](crate::gql_answers_add), and then comes the next step. [`ANSWERED`](crate::ANSWERED): the reply has the response.
/// [`REFUSED`](crate::REFUSED) exactly where the request has a refusal, whatever was answered: the reply has its JSON.
/// [`UNREAD`](crate::UNREAD) exactly where the name counts and is no UTF-8, and [`WRONG_HANDLE`](crate::WRONG_HANDLE) exactly where the
/// first handle holds no query or the second something else than answers. [`NO_MEMORY`](crate::NO_MEMORY) only when out of memory.
#[unsafe(no_mangle)]
pub extern "C" fn gql_step(
    alloc: Global,
    query: &mut Handle,
    answers: &mut Handle,
    name: &[u8],
    variables: &[u8],
    flags: u32,
    reply: &mut Handle,
) -> u32
    ensures same_query { query.new.held ≡ query.old.held }
    ensures same_answers { answers.new.held ≡ answers.old.held }
    ensures told { TellsStep (StepsHeld query.old.held answers.old.held name.now variables.now flags) result reply.new.held }
{
    let request = Request {
        name,
        variables,
        flags,
    };
    let held_query = take_from(alloc, query);
    let held_answers = take_from(alloc, answers);
    let stepping = step_held(alloc, &held_query, &held_answers, &request);
    put_back(alloc, held_query, query);
    put_back(alloc, held_answers, answers);
    tell_step(alloc, stepping, reply)
}

/// Puts the reply into its handle, which is left empty where there is none.
fn tell_step(alloc: Global, stepping: Stepping, reply: &mut Handle) -> u32
    ensures { IsStepTold stepping result reply.new.held }
{
    match stepping {
        Stepping::Asks(held) => {
            put_into(alloc, held, reply);
            status::ASKS
        }
        Stepping::Ended(outcome) => tell(alloc, outcome, reply),
    }
}

/// A step of a request to what the first holds, with the answers that the second holds.
fn step_held(
    alloc: Global,
    query: &Option<Box<Held>>,
    answers: &Option<Box<Held>>,
    request: &Request<'_>,
) -> Stepping
    ensures { StepsHeld (option_map (λ b. b.value) query.now) (option_map (λ b. b.value) answers.now)
        request.now.name.now request.now.variables.now request.now.flags result }
{
    match query {
        Some(query) => match query.as_ref() {
            Held::Query(query) => step_over(alloc, query, answers, request),
            _ => Stepping::Ended(Outcome::WrongHandle),
        },
        None => Stepping::Ended(Outcome::WrongHandle),
    }
}

/// A step of a request to a query, with the answers that a handle holds.
fn step_over(
    alloc: Global,
    query: &Query,
    answers: &Option<Box<Held>>,
    request: &Request<'_>,
) -> Stepping
    ensures { StepsOver query.now (option_map (λ b. b.value) answers.now) request.now.name.now request.now.variables.now
        request.now.flags result }
{
    match answers {
        Some(held) => match held.as_ref() {
            Held::Answers(table) => step_named(alloc, query, table, request),
            _ => Stepping::Ended(Outcome::WrongHandle),
        },
        None => step_named(alloc, query, &Answers::new(alloc), request),
    }
}

/// A step of a request to a query, with these answers.
fn step_named(alloc: Global, query: &Query, answers: &Answers, request: &Request<'_>) -> Stepping
    ensures { StepsNamed query.now answers.now request.now.name.now request.now.variables.now request.now.flags result }
{
    match operation_name(request.name, request.flags) {
        Ok(name) => step_request(alloc, query, answers, name, request),
        Err(_) => Stepping::Ended(Outcome::Unread),
    }
}

/// The same where the name is a text, or there is none.
fn step_request(
    alloc: Global,
    query: &Query,
    answers: &Answers,
    name: Option<&str>,
    request: &Request<'_>,
) -> Stepping
    ensures { Steps query.now answers.now (text_of name.entry) request.now.variables.now request.now.flags result }
{
    let introspection = has_introspection(request.flags);
    match variables_text(alloc, request.variables) {
        Ok(variables) => {
            let round = query.step(alloc, name, &variables, introspection, answers);
            reply_round(alloc, round)
        }
        Err(_) => Stepping::Ended(Outcome::NoMemory),
    }
}

/// The reply of a step that gives this.
fn reply_round(alloc: Global, round: Result<Round, AnswerError>) -> Stepping
    ensures { IsToldRound round result }
{
    match round {
        Ok(Round::Asks(asks)) => reply_asks(alloc, &asks),
        Ok(Round::Answer(response)) => Stepping::Ended(reply_with(alloc, Ok(response))),
        Err(refusal) => Stepping::Ended(reply_with(alloc, Err(refusal))),
    }
}

/// What is asked as a reply.
fn reply_asks(alloc: Global, asks: &Asks) -> Stepping
    ensures { AreAsksTold (asks_value asks.now) result }
{
    match asks_bytes(alloc, asks) {
        Ok(text) => match Box::new(alloc, Held::Reply(text)) {
            Ok(held) => Stepping::Asks(held),
            Err(_) => Stepping::Ended(Outcome::NoMemory),
        },
        Err(_) => Stepping::Ended(Outcome::NoMemory),
    }
}
