//! The response to what is wanted, within a limit.

ghost use Rattle.std.specs.Prelude.{◌≤◌, ℕ, IfErr, IfOk};
ghost use Rattle.gql_cost.specs.bridge.Costing.{IsForMemory};
ghost use Rattle.gql_cost.specs.Limited.{AnsweredWithin, HasLimitedCauseOf, IsUnexecuted};
ghost use Rattle.gql_cost.specs.Sum.{cost};
ghost use Rattle.gql_engine.specs.Phases.{IsReady, IsReadyForSome};
ghost use Rattle.gql_engine.specs.Wanted.{Wanted as WantedOf, wanted_over};

use crate::bound_laws as cost_laws;
use crate::cost_limit::CostLimit;
use crate::limited_error::LimitedError;
use bytes::Bytes;
use gql_engine::phases::{ReadyOperation, Wanted};
use gql_engine::{AnswerError, Prepared, Steps, laws as engine_laws};
use gql_graph::laws as graph_laws;
use gql_parser::laws as text_laws;
use gql_resolvers::ObjectValue;
use std::alloc::Global;
use std::sync::ledger::Ledger;

/// The response to an operation of a query, or the first cause of a refusal.
pub(crate) fn respond_within<O: ObjectValue, L: Ledger>(
    alloc: Global,
    limit: &CostLimit,
    prepared: &Prepared<'_>,
    wanted: &Wanted<'_>,
    root: &O,
    steps: &mut Steps<L>,
) -> Result<Bytes, LimitedError>
    ensures answered { IfOk result (AnsweredWithin O.type_of O.resolves (O.seen root.now) limit.now (wanted_over prepared.now.schema prepared.now.query wanted.now)) }
    ensures refused { IfErr result (HasLimitedCauseOf limit.now (wanted_over prepared.now.schema prepared.now.query wanted.now)) }
    ensures unexecuted { IfErr result (IsUnexecuted (wanted_over prepared.now.schema prepared.now.query wanted.now) steps.old steps.new) }
{
    match prepared.ready(alloc, wanted, steps) {
        Ok(ready) => respond_ready(alloc, limit, &ready, root, steps),
        Err(refusal) => Err(LimitedError::Answer(refusal)),
    }
}

/// The response to an operation that is ready, or that its cost is above the limit.
fn respond_ready<O: ObjectValue, L: Ledger>(
    alloc: Global,
    limit: &CostLimit,
    ready: &ReadyOperation<'_>,
    root: &O,
    steps: &mut Steps<L>,
) -> Result<Bytes, LimitedError>
    requires { IsReadyForSome ready.now }
    ensures answered { (wanted : WantedOf) (before after : ℕ) → IsReady wanted before after ready.now
        → IfOk result (AnsweredWithin O.type_of O.resolves (O.seen root.now) limit.now wanted) }
    ensures refused { (wanted : WantedOf) (before after : ℕ) → IsReady wanted before after ready.now → IfErr result (HasLimitedCauseOf limit.now wanted) }
    ensures unexecuted { (wanted : WantedOf) (before : ℕ) → IsReady wanted before steps.old ready.now
        → IfErr result (IsUnexecuted wanted before steps.new) }
{
    match limit.cost(alloc, ready, steps) {
        Ok(_) => execute_within(alloc, limit, ready, root, steps),
        Err(refusal) => Err(refusal),
    }
}

/// The response to an operation whose cost is within the limit. `Err` only when out of memory.
fn execute_within<O: ObjectValue, L: Ledger>(
    alloc: Global,
    limit: &CostLimit,
    ready: &ReadyOperation<'_>,
    root: &O,
    steps: &mut Steps<L>,
) -> Result<Bytes, LimitedError>
    requires ready { IsReadyForSome ready.now }
    requires costs { cost limit.now.items ready.now.document.now.fragments ready.now.operation.now.selection_set.selections ≤ limit.now.nodes }
    ensures answered { (wanted : WantedOf) (before after : ℕ) → IsReady wanted before after ready.now
        → IfOk result (AnsweredWithin O.type_of O.resolves (O.seen root.now) limit.now wanted) }
    ensures refused { IfErr result IsForMemory }
{
    engine_laws::readiness_is_one();
    text_laws::valid_documents_run();
    text_laws::documents_are_typed();
    graph_laws::acyclic_graphs_have_ranks();
    cost_laws::fields_of_one_key_merge();
    cost_laws::object_types_are_covariant();
    match ready.execute(alloc, root, steps) {
        Ok(written) => Ok(written.bytes),
        Err(_) => Err(LimitedError::Answer(AnswerError::Memory)),
    }
}
