//! What the program makes of a request.

ghost use Rattle.std.specs.Prelude.{◌≡◌, IfErr, IfOk};
ghost use Rattle.gql_engine.specs.Request.{asked_in};
ghost use Rattle.gql_engine.specs.Reply.{root_of};
ghost use Rattle.gql_gateway.specs.Causes.{HasLocalCause};
ghost use Rattle.gql_gateway.specs.Command.{DataTells, wanted_here};
ghost use Rattle.gql_gateway.specs.Gateway.{IsJoinedBy};
ghost use Rattle.gql_gateway.specs.Program as spec;
ghost use Rattle.gql_gateway.specs.bridge.Told.{IsGatewayLine};

use crate::gateway_error::GatewayError;
use crate::responding::respond_joined;
use crate::{LocalRemote, laws};
use bytes::Bytes;
use gql_engine::phases::Wanted;
use gql_engine::request::{Request, RequestForm};
use gql_engine::serving::{Output, RequestCommand, done_with, line};
use gql_engine::{DataObject, Steps, laws as engine_laws};
use jb_tree::{Map, Memory};
use std::alloc::Global;
use std::sync::ledger::Ledger;

/// That requests are to be answered by a gateway over their own data.
#[derive(Clone, Copy)]
pub(crate) struct Gateway {}

/// What the words ask for: there are none.
pub(crate) fn gateway_asked(words: &[String]) -> Option<Gateway>
    ensures { result ≡ spec.gateway_asked words.now }
{
    if words.is_empty() {
        Some(Gateway {})
    } else {
        None
    }
}

impl RequestCommand for Gateway {
    ghost use Rattle.gql_gateway.specs.Program.{CountedAnswers, GatewayMust, GatewayMustNot, GatewayRefuses, plain_form};

    ghost form_of = { plain_form };

    ghost answers = { CountedAnswers };

    ghost refuses = { GatewayRefuses };

    ghost must_answer = { GatewayMust };

    ghost must_refuse = { GatewayMustNot };

    fn request_form(&self) -> RequestForm {
        RequestForm::Plain
    }

    fn reply<L: Ledger>(
        &self,
        alloc: Global,
        request: &Request<'_>,
        steps: &mut Steps<L>,
    ) -> Result<Output, Memory> {
        engine_laws::causes_exclude_one_another();
        engine_laws::readiness_is_one();
        laws::local_gateways_change_nothing::<DataObject<'_>>();
        match answer_request(alloc, request, steps) {
            Ok(response) => done_with(alloc, response),
            Err(refusal) => refusal_line(alloc, refusal),
        }
    }
}

/// The line of a refusal. `Err` where memory ran out.
fn refusal_line(alloc: Global, refusal: GatewayError) -> Result<Output, Memory>
    ensures { IfOk result (IsGatewayLine refusal) }
{
    let text = refusal.into_bytes(alloc)?;
    Ok(Output::Refused(line(alloc, text)?))
}

/// The response to a request, whose data are the other place's, or why there is none.
fn answer_request<L: Ledger>(
    alloc: Global,
    request: &Request<'_>,
    steps: &mut Steps<L>,
) -> Result<Bytes, GatewayError>
    ensures answered { IfOk result (IsJoinedBy (DataTells (root_of (asked_in request.now))) (wanted_here (asked_in request.now))) }
    ensures refused { IfErr result (HasLocalCause (wanted_here (asked_in request.now))) }
{
    engine_laws::requests_want_this();
    laws::local_gateways_change_nothing::<DataObject<'_>>();
    let no_members = Map::new(alloc);
    let wanted = Wanted {
        operation_name: request.operation_name,
        variables: request.variables.unwrap_or(&no_members),
        introspection: true,
    };
    let root = DataObject::root(request.root.unwrap_or(&no_members));
    let mut remote = LocalRemote::new(&root);
    respond_joined(
        alloc,
        request.schema,
        request.query,
        &wanted,
        &mut remote,
        steps,
    )
}
