//! What the program makes of a request.

ghost use Rattle.std.specs.Prelude.{◌≡◌, IfErr, IfOk};
ghost use Rattle.gql_cost.specs.Limited.{AnsweredWithin, HasLimitedCauseOf};
ghost use Rattle.gql_cost.specs.bridge.Told.{IsLimitedLine};
ghost use Rattle.gql_engine.specs.Reply.{root_of, wanted_of};
ghost use Rattle.gql_engine.specs.Request.{asked_in};
ghost use Rattle.gql_resolvers.specs.DataMeaning.{data_meaning};

use crate::cost_limit::CostLimit;
use crate::limited_error::LimitedError;
use crate::responding::respond_within;
use bytes::Bytes;
use gql_engine::phases::{Wanted, check_query, check_schema};
use gql_engine::request::{Request, RequestForm};
use gql_engine::serving::{Output, RequestCommand, done_with, line};
use gql_engine::{Prepared, Service, Steps, laws as engine_laws};
use gql_resolvers::DataObject;
use jb_tree::{Map, Memory};
use std::alloc::Global;
use std::sync::ledger::Ledger;

impl RequestCommand for CostLimit {
    ghost use Rattle.gql_cost.specs.Command.{MustAnswer, MustRefuse, Refuses};
    ghost use Rattle.gql_cost.specs.Program.{CountedAnswers, plain_form};

    ghost form_of = { plain_form };

    ghost answers = { CountedAnswers };

    ghost refuses = { Refuses };

    ghost must_answer = { MustAnswer };

    ghost must_refuse = { MustRefuse };

    fn request_form(&self) -> RequestForm {
        RequestForm::Plain
    }

    fn reply<L: Ledger>(
        &self,
        alloc: Global,
        request: &Request<'_>,
        steps: &mut Steps<L>,
    ) -> Result<Output, Memory> {
        engine_laws::causes_exclude_one_another();
        engine_laws::readiness_is_one();
        match answer_request(alloc, self, request, steps) {
            Ok(response) => done_with(alloc, response),
            Err(refusal) => refusal_line(alloc, refusal),
        }
    }
}

/// The line of a refusal. `Err` where memory ran out.
fn refusal_line(alloc: Global, refusal: LimitedError) -> Result<Output, Memory>
    ensures { IfOk result (IsLimitedLine refusal) }
{
    let text = refusal.into_bytes(alloc)?;
    Ok(Output::Refused(line(alloc, text)?))
}

/// The response to a request, or why there is none.
fn answer_request<L: Ledger>(
    alloc: Global,
    limit: &CostLimit,
    request: &Request<'_>,
    steps: &mut Steps<L>,
) -> Result<Bytes, LimitedError>
    ensures answered { IfOk result (AnsweredWithin (λ object. object.type_name) data_meaning (root_of (asked_in request.now)) limit.now
        (wanted_of (asked_in request.now))) }
    ensures refused { IfErr result (HasLimitedCauseOf limit.now (wanted_of (asked_in request.now))) }
{
    match check_schema(alloc, request.schema) {
        Ok(service) => answer_by(alloc, limit, &service, request, steps),
        Err(refusal) => Err(LimitedError::Answer(refusal)),
    }
}

/// The same by a service of its schema.
fn answer_by<L: Ledger>(
    alloc: Global,
    limit: &CostLimit,
    service: &Service,
    request: &Request<'_>,
    steps: &mut Steps<L>,
) -> Result<Bytes, LimitedError>
    requires { service.now ≡ request.now.schema.now }
    ensures answered { IfOk result (AnsweredWithin (λ object. object.type_name) data_meaning (root_of (asked_in request.now)) limit.now
        (wanted_of (asked_in request.now))) }
    ensures refused { IfErr result (HasLimitedCauseOf limit.now (wanted_of (asked_in request.now))) }
{
    match check_query(alloc, service, request.query) {
        Ok(prepared) => answer_out_of_data(alloc, limit, &prepared, request, steps),
        Err(refusal) => Err(LimitedError::Answer(refusal)),
    }
}

/// The same of its query.
fn answer_out_of_data<L: Ledger>(
    alloc: Global,
    limit: &CostLimit,
    prepared: &Prepared<'_>,
    request: &Request<'_>,
    steps: &mut Steps<L>,
) -> Result<Bytes, LimitedError>
    requires schema { prepared.now.schema ≡ request.now.schema.now }
    requires query { prepared.now.query ≡ request.now.query.now }
    ensures answered { IfOk result (AnsweredWithin (λ object. object.type_name) data_meaning (root_of (asked_in request.now)) limit.now
        (wanted_of (asked_in request.now))) }
    ensures refused { IfErr result (HasLimitedCauseOf limit.now (wanted_of (asked_in request.now))) }
{
    let no_members = Map::new(alloc);
    let wanted = Wanted {
        operation_name: request.operation_name,
        variables: request.variables.unwrap_or(&no_members),
        introspection: request.introspection,
    };
    let root = DataObject::root(request.root.unwrap_or(&no_members));
    respond_within(alloc, limit, prepared, &wanted, &root, steps)
}
