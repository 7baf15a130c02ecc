//! A request with what each of its rounds asks, and what it is answered.

ghost use Rattle.gql_engine.specs.AtHand.{IsDocumentOver};

use bytes::Bytes;
use gql_engine::{AnswerError, ExecutableDocument, Question, Service, Valid};
use gql_rounds::{Answers, Round, asks_bytes, read_answers, step};
use std::alloc::Global;
use std::mem::ManuallyDrop;
use std::test::Fail;

/// What a round asks, and what it is answered.
pub(crate) struct Told {
    pub(crate) asks: &'static str,
    pub(crate) answers: &'static str,
}

/// A request, its rounds, and what is told last: the response or the refusal.
pub(crate) struct Case {
    pub(crate) query: &'static str,
    pub(crate) variables: &'static str,
    pub(crate) introspection: bool,
    pub(crate) rounds: &'static [Told],
    pub(crate) last: &'static str,
}

/// What a step tells: the asks, the response or the refusal, as JSON.
fn text_of_round(alloc: Global, round: Result<Round, AnswerError>) -> Result<Bytes, Fail> {
    match round {
        Ok(Round::Asks(asks)) => Ok(asks_bytes(alloc, &asks)?),
        Ok(Round::Answer(response)) => Ok(response),
        Err(refusal) => Ok(refusal.into_bytes(alloc)?),
    }
}

/// The first step of a request that tells something else than its case says, as it was told; `None` where there is none.
pub(crate) fn first_other(
    alloc: Global,
    service: &Service,
    case: &Case,
) -> Result<Option<Bytes>, Fail> {
    let Ok(prepared) = service.prepare(alloc, case.query) else {
        return Err("the query is wrong")?;
    };
    let document = ManuallyDrop::new(prepared.into_document());
    let variables = Bytes::from_static(case.variables.as_bytes());
    first_other_of(alloc, service, &document, case.query, &variables, case)
}

/// The same of a query that is checked.
fn first_other_of<'q>(
    alloc: Global,
    service: &Service,
    document: &Valid<ExecutableDocument>,
    query: &'q str,
    variables: &'q Bytes,
    case: &Case,
) -> Result<Option<Bytes>, Fail>
    requires { IsDocumentOver service.now query.now document.now }
{
    let question = Question {
        query,
        operation_name: None,
        variables,
        introspection: case.introspection,
    };
    let mut answers = Answers::new(alloc);
    for round in case.rounds {
        let asks = text_of_round(alloc, step(alloc, service, document, &question, &answers))?;
        if asks.as_slice() != round.asks.as_bytes() {
            return Ok(Some(asks));
        }
        let text = Bytes::from_static(round.answers.as_bytes());
        if read_answers(alloc, &text, &mut answers).is_err() {
            return Ok(Some(text));
        }
    }
    let last = text_of_round(alloc, step(alloc, service, document, &question, &answers))?;
    if last.as_slice() == case.last.as_bytes() {
        Ok(None)
    } else {
        Ok(Some(last))
    }
}
