//! What the program makes of a request.

ghost use Rattle.std.specs.Prelude.{◌≡◌, IfErr, IfOk};
ghost use Rattle.gql_checker.specs.Judged.{IsJudgedAs};
ghost use Rattle.gql_checker.specs.Program as spec;
ghost use Rattle.gql_engine.specs.Reply.{wanted_of};
ghost use Rattle.gql_engine.specs.Responding.{HasCauseOf};
ghost use Rattle.gql_engine.specs.Request.{asked_in};

use crate::checking::check_prepared;
use crate::verdict_line::verdict_line;
use bytes::Bytes;
use gql_engine::phases::{Wanted, check_query, check_schema};
use gql_engine::request::{Request, RequestForm};
use gql_engine::serving::{Output, RequestCommand, refused_for};
use gql_engine::{AnswerError, DataObject, Prepared, Service, Steps, laws as engine_laws};
use gql_response_check::Verdict;
use jb_tree::{Map, Memory};
use std::alloc::Global;
use std::sync::ledger::Ledger;

/// That the response of each request is to be checked.
#[derive(Clone, Copy)]
pub(crate) struct CheckCommand {}

/// What the words ask for: there are none.
pub(crate) fn check_asked(words: &[String]) -> Option<CheckCommand>
    ensures { result ≡ spec.check_asked words.now }
{
    if words.is_empty() {
        Some(CheckCommand {})
    } else {
        None
    }
}

impl RequestCommand for CheckCommand {
    ghost use Rattle.gql_checker.specs.Program.{CheckMust, CheckMustNot, CheckRefuses, CountedAnswers, with_response};

    ghost form_of = { with_response };

    ghost answers = { CountedAnswers };

    ghost refuses = { CheckRefuses };

    ghost must_answer = { CheckMust };

    ghost must_refuse = { CheckMustNot };

    fn request_form(&self) -> RequestForm {
        RequestForm::WithResponse
    }

    fn reply<L: Ledger>(
        &self,
        alloc: Global,
        request: &Request<'_>,
        _steps: &mut Steps<L>,
    ) -> Result<Output, Memory> {
        engine_laws::causes_exclude_one_another();
        engine_laws::readiness_is_one();
        match check_request(alloc, request) {
            Ok(verdict) => verdict_line(alloc, &verdict),
            Err(refusal) => refused_for(alloc, refusal),
        }
    }
}

/// The verdict on the response of a request, out of its data, or why there is none.
fn check_request(alloc: Global, request: &Request<'_>) -> Result<Verdict, AnswerError>
    ensures judged { IfOk result (IsJudgedAs (asked_in request.now)) }
    ensures refused { IfErr result (HasCauseOf (wanted_of (asked_in request.now))) }
{
    match check_schema(alloc, request.schema) {
        Ok(service) => check_by(alloc, &service, request),
        Err(refusal) => Err(refusal),
    }
}

/// The same by a service of its schema.
fn check_by(alloc: Global, service: &Service, request: &Request<'_>) -> Result<Verdict, AnswerError>
    requires { service.now ≡ request.now.schema.now }
    ensures judged { IfOk result (IsJudgedAs (asked_in request.now)) }
    ensures refused { IfErr result (HasCauseOf (wanted_of (asked_in request.now))) }
{
    match check_query(alloc, service, request.query) {
        Ok(prepared) => check_out_of_data(alloc, &prepared, request),
        Err(refusal) => Err(refusal),
    }
}

/// The same of its query.
fn check_out_of_data(
    alloc: Global,
    prepared: &Prepared<'_>,
    request: &Request<'_>,
) -> Result<Verdict, AnswerError>
    requires schema { prepared.now.schema ≡ request.now.schema.now }
    requires query { prepared.now.query ≡ request.now.query.now }
    ensures judged { IfOk result (IsJudgedAs (asked_in request.now)) }
    ensures refused { IfErr result (HasCauseOf (wanted_of (asked_in request.now))) }
{
    engine_laws::requests_want_this();
    let response = Bytes::copy_from_slice(alloc, request.response.unwrap_or("").as_bytes())?;
    let no_members = Map::new(alloc);
    let wanted = Wanted {
        operation_name: request.operation_name,
        variables: request.variables.unwrap_or(&no_members),
        introspection: request.introspection,
    };
    let root = DataObject::root(request.root.unwrap_or(&no_members));
    check_prepared(alloc, prepared, &wanted, &root, &response)
}
