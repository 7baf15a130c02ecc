//! The joined response to what is wanted, step by step.

ghost use Rattle.std.specs.Prelude.{◌≡◌, ◌≤◌, ℕ, IfErr, suc};
ghost use Rattle.gql_engine.specs.Phases.{IsReady, IsReadyForSome};
ghost use Rattle.gql_engine.specs.Wanted.{Wanted as WantedOf, wanted_over};
ghost use Rattle.gql_gateway.specs.Causes.{IsBeforeAsking};
ghost use Rattle.gql_gateway.specs.bridge.Causes.{JoinsOrCause};
ghost use Rattle.gql_gateway.specs.Gateway.{AsksNobody};
ghost use Rattle.jb_io.specs.Stream.{HasFailed};

use crate::gateway_error::{GatewayError, of_division};
use crate::{Division, Remote, divide};
use bytes::Bytes;
use gql_engine::phases::{ReadyOperation, Wanted, check_query, check_schema};
use gql_engine::{Prepared, Service, Steps, laws as engine_laws};
use gql_parser::laws as text_laws;
use std::alloc::Global;
use std::sync::ledger::Ledger;

/// The response to what is wanted of these texts, joined of two, or the first cause of a refusal.
pub(crate) fn respond_joined<R: Remote, L: Ledger>(
    alloc: Global,
    schema: &str,
    query: &str,
    wanted: &Wanted<'_>,
    remote: &mut R,
    steps: &mut Steps<L>,
) -> Result<Bytes, GatewayError>
    ensures responds { JoinsOrCause (R.tells remote.old) (HasFailed (R.faults remote.old) (R.faults remote.new))
        (wanted_over schema.now query.now wanted.now) result }
    ensures later { R.faults remote.old ≤ R.faults remote.new }
    ensures unasked { IfErr result (λ refusal. IsBeforeAsking refusal → remote.new ≡ remote.old) }
    ensures once { R.asked remote.new ≤ suc (R.asked remote.old) }
    ensures left { AsksNobody (wanted_over schema.now query.now wanted.now) → remote.new ≡ remote.old }
{
    match check_schema(alloc, schema) {
        Ok(service) => respond_by(alloc, &service, query, wanted, remote, steps),
        Err(refusal) => Err(GatewayError::from(refusal)),
    }
}

/// The same by a service of the schema.
fn respond_by<R: Remote, L: Ledger>(
    alloc: Global,
    service: &Service,
    query: &str,
    wanted: &Wanted<'_>,
    remote: &mut R,
    steps: &mut Steps<L>,
) -> Result<Bytes, GatewayError>
    ensures responds { JoinsOrCause (R.tells remote.old) (HasFailed (R.faults remote.old) (R.faults remote.new))
        (wanted_over service.now query.now wanted.now) result }
    ensures later { R.faults remote.old ≤ R.faults remote.new }
    ensures unasked { IfErr result (λ refusal. IsBeforeAsking refusal → remote.new ≡ remote.old) }
    ensures once { R.asked remote.new ≤ suc (R.asked remote.old) }
    ensures left { AsksNobody (wanted_over service.now query.now wanted.now) → remote.new ≡ remote.old }
{
    match check_query(alloc, service, query) {
        Ok(prepared) => respond_prepared(alloc, &prepared, wanted, remote, steps),
        Err(refusal) => Err(GatewayError::from(refusal)),
    }
}

/// The same with the query prepared.
fn respond_prepared<R: Remote, L: Ledger>(
    alloc: Global,
    prepared: &Prepared<'_>,
    wanted: &Wanted<'_>,
    remote: &mut R,
    steps: &mut Steps<L>,
) -> Result<Bytes, GatewayError>
    ensures responds { JoinsOrCause (R.tells remote.old) (HasFailed (R.faults remote.old) (R.faults remote.new))
        (wanted_over prepared.now.schema prepared.now.query wanted.now) result }
    ensures later { R.faults remote.old ≤ R.faults remote.new }
    ensures unasked { IfErr result (λ refusal. IsBeforeAsking refusal → remote.new ≡ remote.old) }
    ensures once { R.asked remote.new ≤ suc (R.asked remote.old) }
    ensures left { AsksNobody (wanted_over prepared.now.schema prepared.now.query wanted.now) → remote.new ≡ remote.old }
{
    match prepared.ready(alloc, wanted, steps) {
        Ok(ready) => respond_ready(alloc, &ready, remote, steps),
        Err(refusal) => Err(GatewayError::from(refusal)),
    }
}

/// The same of an operation that is ready.
fn respond_ready<R: Remote, L: Ledger>(
    alloc: Global,
    ready: &ReadyOperation<'_>,
    remote: &mut R,
    steps: &mut Steps<L>,
) -> Result<Bytes, GatewayError>
    requires { IsReadyForSome ready.now }
    ensures responds { (wanted : WantedOf) (before after : ℕ) → IsReady wanted before after ready.now
        → JoinsOrCause (R.tells remote.old) (HasFailed (R.faults remote.old) (R.faults remote.new)) wanted result }
    ensures later { R.faults remote.old ≤ R.faults remote.new }
    ensures unasked { IfErr result (λ refusal. IsBeforeAsking refusal → remote.new ≡ remote.old) }
    ensures once { R.asked remote.new ≤ suc (R.asked remote.old) }
    ensures left { (wanted : WantedOf) (before after : ℕ) → IsReady wanted before after ready.now → AsksNobody wanted → remote.new ≡ remote.old }
{
    engine_laws::readiness_is_one();
    text_laws::valid_documents_run();
    text_laws::roots_are_object_types();
    let division = Division {
        schema: ready.schema,
        implementers: ready.implementers,
        document: ready.document,
        operation: ready.operation,
        variables: &ready.variables,
    };
    match divide(alloc, &division, remote, steps) {
        Ok(response) => Ok(response.to_bytes(alloc)?),
        Err(refused) => Err(of_division(refused)),
    }
}
