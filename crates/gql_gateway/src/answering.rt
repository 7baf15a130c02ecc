//! Requests answered by a gateway.

ghost use Rattle.std.specs.Prelude.{◌≡◌, ◌<◌, ◌≤◌, true, IfErr, IfOk, suc};
ghost use Rattle.gql_engine.specs.AnswerError.{Asks, call_of, wanted_with};
ghost use Rattle.gql_engine.specs.Service.{asked_of};
ghost use Rattle.gql_gateway.specs.Answering.{GivesJoined};
ghost use Rattle.gql_gateway.specs.Causes.{HasGatewayCause, IsBeforeAsking};
ghost use Rattle.gql_gateway.specs.bridge.Causes.{JoinsOrCause};
ghost use Rattle.gql_gateway.specs.Gateway.{AsksNobody, IsJoinedBy};
ghost use Rattle.jb_io.specs.Stream.{HasFailed};

use crate::Remote;
use crate::gateway_error::GatewayError;
use crate::responding::respond_joined;
use bytes::Bytes;
use gql_engine::phases::{Wanted, read_variables};
use gql_engine::{Question, Steps, laws as engine_laws};
use jb_tree::Map;
use std::alloc::Global;
use std::marker::Brand;
use std::sync::ledger::{Blank, Ledger};

/// Answers an operation of a query over a schema as [`answer`](gql_engine::answer) does with introspection on, but for where it is
/// executed: the root fields named `__typename`, `__schema` and `__type` are answered here, the others by `remote`, and the bytes are
/// those of both responses joined by [`join`](crate::join) (GraphQL October 2021, sections 4, 6 and 7).
///
/// The operation is divided with each spread replaced by what its fragment selects. The remote is asked once at most: not where a
/// request is refused for a cause of [`answer`](gql_engine::answer) or as too large, and not where nothing is left for it.
///
/// What the remote answers is taken as it is. It may answer more keys than it was asked for; nobody looks at them. Of its errors those
/// count whose paths begin with a key that it answers, where both responses have data, and else all.
///
/// # Errors
///
/// The first of these that applies:
///
/// - [`GatewayError::Answer`] with the cause for which [`answer`](gql_engine::answer) refuses the request, exactly where there is one.
/// - [`GatewayError::TooLarge`] exactly where the operation has more than [`MOST_SELECTIONS`](crate::MOST_SELECTIONS) selections.
/// - [`GatewayError::Remote`] only where the remote's count of faults rose.
/// - [`GatewayError::MissingKey`] exactly where both responses have data and the remote's lacks a key, with the first such.
///
/// [`GatewayError::Memory`] comes when out of memory, also where the remote says so.
pub fn gateway_answer<R: Remote>(
    alloc: Global,
    schema: &str,
    query: &str,
    operation_name: Option<&str>,
    variables: &Bytes,
    remote: &mut R,
) -> Result<Bytes, GatewayError>
    ensures answer { GivesJoined (R.tells remote.old) (HasFailed (R.faults remote.old) (R.faults remote.new))
        (call_of schema.now query.now operation_name.entry variables.now true) result }
    ensures later { R.faults remote.old ≤ R.faults remote.new }

    // Where the request is refused before that, the remote is not asked.
    ensures unasked { IfErr result (λ refusal. IsBeforeAsking refusal → remote.new ≡ remote.old) }

    // It is asked once at most, and not where nothing is left for it.
    ensures once { R.asked remote.new ≤ suc (R.asked remote.old) }
    ensures left { Asks (call_of schema.now query.now operation_name.entry variables.now true) AsksNobody → remote.new ≡ remote.old }
{
    let question = Question {
        query,
        operation_name,
        variables,
        introspection: true,
    };
    let call = Call { schema, question };
    answer_alone::<R, Brand>(alloc, &call, remote, Blank::new(1))
}

/// The text of a schema, and what is asked of it.
#[derive(Clone, Copy)]
struct Call<'c> {
    schema: &'c str,
    question: Question<'c>,
}

/// The answer, with a counter of its own.
fn answer_alone<R: Remote, L: Ledger>(
    alloc: Global,
    call: &Call<'_>,
    remote: &mut R,
    blank: Blank,
) -> Result<Bytes, GatewayError>
    requires name { blank.name ≡ L.name }
    requires parts { blank.parts ≡ L.parts }
    requires some { 0 < blank.parts }
    ensures answer { GivesJoined (R.tells remote.old) (HasFailed (R.faults remote.old) (R.faults remote.new))
        (asked_of call.now.schema.now call.now.question) result }
    ensures later { R.faults remote.old ≤ R.faults remote.new }
    ensures unasked { IfErr result (λ refusal. IsBeforeAsking refusal → remote.new ≡ remote.old) }
    ensures once { R.asked remote.new ≤ suc (R.asked remote.old) }
    ensures left { Asks (asked_of call.now.schema.now call.now.question) AsksNobody → remote.new ≡ remote.old }
{
    engine_laws::causes_exclude_one_another();
    engine_laws::readiness_is_one();
    let mut steps = Steps::<L>::open(blank);
    answer_question(alloc, call, remote, &mut steps)
}

/// The answer, or the first cause of a refusal.
fn answer_question<R: Remote, L: Ledger>(
    alloc: Global,
    call: &Call<'_>,
    remote: &mut R,
    steps: &mut Steps<L>,
) -> Result<Bytes, GatewayError>
    ensures answered { IfOk result (λ bytes. Asks (asked_of call.now.schema.now call.now.question) (λ wanted. IsJoinedBy (R.tells remote.old) wanted bytes)) }
    ensures refused { IfErr result (HasGatewayCause (R.tells remote.old) (HasFailed (R.faults remote.old) (R.faults remote.new))
        (asked_of call.now.schema.now call.now.question)) }
    ensures later { R.faults remote.old ≤ R.faults remote.new }
    ensures unasked { IfErr result (λ refusal. IsBeforeAsking refusal → remote.new ≡ remote.old) }
    ensures once { R.asked remote.new ≤ suc (R.asked remote.old) }
    ensures left { Asks (asked_of call.now.schema.now call.now.question) AsksNobody → remote.new ≡ remote.old }
{
    engine_laws::causes_exclude_one_another();
    engine_laws::readiness_is_one();
    match read_variables(alloc, call.question.variables) {
        Ok(variables) => answer_wanted(alloc, call, &variables, remote, steps),
        Err(refusal) => Err(GatewayError::from(refusal)),
    }
}

/// The answer where the variables have these values.
fn answer_wanted<R: Remote, L: Ledger>(
    alloc: Global,
    call: &Call<'_>,
    variables: &Map,
    remote: &mut R,
    steps: &mut Steps<L>,
) -> Result<Bytes, GatewayError>
    ensures responds { JoinsOrCause (R.tells remote.old) (HasFailed (R.faults remote.old) (R.faults remote.new))
        (wanted_with (asked_of call.now.schema.now call.now.question) variables.now) result }
    ensures later { R.faults remote.old ≤ R.faults remote.new }
    ensures unasked { IfErr result (λ refusal. IsBeforeAsking refusal → remote.new ≡ remote.old) }
    ensures once { R.asked remote.new ≤ suc (R.asked remote.old) }
    ensures left { AsksNobody (wanted_with (asked_of call.now.schema.now call.now.question) variables.now) → remote.new ≡ remote.old }
{
    let wanted = Wanted {
        operation_name: call.question.operation_name,
        variables,
        introspection: call.question.introspection,
    };
    respond_joined(
        alloc,
        call.schema,
        call.question.query,
        &wanted,
        remote,
        steps,
    )
}
