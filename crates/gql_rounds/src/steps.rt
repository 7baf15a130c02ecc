//! The steps of a request.

ghost use Rattle.std.specs.Prelude.{◌≡◌, ◌<◌, IfOk};
ghost use Rattle.gql_engine.specs.AtHand.{IsDocumentOver};
ghost use Rattle.gql_engine.specs.Service.{asked_of};
ghost use Rattle.gql_rounds.specs.Rounds.{GivesRound};
ghost use Rattle.gql_rounds.specs.bridge.Rounds.{AsksNothing, FindsAsks};

use crate::ready::make_ready;
use crate::round::Round;
use crate::{Answers, Asks, Told, asks};
use gql_collect::Steps;
use gql_document_types::ExecutableDocument;
use gql_engine::{AnswerError, Question, Service};
use gql_exec::Executing;
use gql_parser::laws as text_laws;
use gql_resolvers::RequestInfo;
use gql_schema_types::Valid;
use jb_text::Memory;
use std::alloc::Global;
use std::marker::Brand;
use std::sync::ledger::{Blank, Ledger};

/// One step of a request over a document that its query means: what is asked with these answers, or the response by them, where
/// nothing is asked. A request that is not valid is refused at the first step.
///
/// # Errors
///
/// Those of [`Service::answer_document`], exactly where they come there.
pub fn step(
    alloc: Global,
    service: &Service,
    document: &Valid<ExecutableDocument>,
    question: &Question<'_>,
    answers: &Answers,
) -> Result<Round, AnswerError>
    requires { IsDocumentOver service.now question.now.query.now document.now }
    ensures { GivesRound answers.now (asked_of service.now question.now) result }
{
    step_alone::<Brand>(alloc, service, document, question, answers, Blank::new(1))
}

/// The same with a counter of its own.
fn step_alone<L: Ledger>(
    alloc: Global,
    service: &Service,
    document: &Valid<ExecutableDocument>,
    question: &Question<'_>,
    answers: &Answers,
    blank: Blank,
) -> Result<Round, AnswerError>
    requires document { IsDocumentOver service.now question.now.query.now document.now }
    requires name { blank.name ≡ L.name }
    requires parts { blank.parts ≡ L.parts }
    requires some { 0 < blank.parts }
    ensures { GivesRound answers.now (asked_of service.now question.now) result }
{
    let mut steps = Steps::<L>::open(blank);
    match asked(alloc, service, document, question, answers, &mut steps) {
        Ok(found) => give_round(alloc, service, document, question, answers, found),
        Err(_) => Err(AnswerError::Memory),
    }
}

/// What is asked, where something is, or else the answer.
fn give_round(
    alloc: Global,
    service: &Service,
    document: &Valid<ExecutableDocument>,
    question: &Question<'_>,
    answers: &Answers,
    found: Option<Asks>,
) -> Result<Round, AnswerError>
    requires document { IsDocumentOver service.now question.now.query.now document.now }
    requires found { FindsAsks answers.now (asked_of service.now question.now) found }
    ensures { GivesRound answers.now (asked_of service.now question.now) result }
{
    match found {
        Some(asks) => {
            if asks.is_empty() {
                return answer(alloc, service, document, question, answers);
            }
            Ok(Round::Asks(asks))
        }
        None => answer(alloc, service, document, question, answers),
    }
}

/// The response by these answers, or the refusal of a request that is not valid.
fn answer(
    alloc: Global,
    service: &Service,
    document: &Valid<ExecutableDocument>,
    question: &Question<'_>,
    answers: &Answers,
) -> Result<Round, AnswerError>
    requires document { IsDocumentOver service.now question.now.query.now document.now }
    requires nothing { AsksNothing answers.now (asked_of service.now question.now) }
    ensures { GivesRound answers.now (asked_of service.now question.now) result }
{
    match service.answer_document(alloc, document, question, &Told::root(answers)) {
        Ok(response) => Ok(Round::Answer(response)),
        Err(refusal) => Err(refusal),
    }
}

/// What is asked with these answers; `None` where the request is not valid. `Err` only when out of memory.
fn asked<L: Ledger>(
    alloc: Global,
    service: &Service,
    document: &Valid<ExecutableDocument>,
    question: &Question<'_>,
    answers: &Answers,
    steps: &mut Steps<L>,
) -> Result<Option<Asks>, Memory>
    requires { IsDocumentOver service.now question.now.query.now document.now }
    ensures { IfOk result (FindsAsks answers.now (asked_of service.now question.now)) }
{
    text_laws::valid_documents_run();
    let schema = service.schema();
    let found = make_ready(alloc, schema, document, question, steps)?;
    let Some(ready) = found else {
        return Ok(None);
    };
    let executing = Executing {
        alloc,
        request: RequestInfo {
            schema,
            implementers_map: service.implementers_map(),
            document,
        },
        operation: ready.operation,
        variables: &ready.variables,
        introspection: false,
    };
    let wanted = asks(&executing, ready.root_type, answers, steps)?;
    Ok(Some(wanted))
}
