//! A response beside what is wanted of a query.

ghost use Rattle.std.specs.Prelude.{◌≡◌, ◌<◌, IfErr, IfOk};
ghost use Rattle.gql_checker.specs.Judged.{IsJudged};
ghost use Rattle.gql_engine.specs.Phases.{IsReadyForSome};
ghost use Rattle.gql_engine.specs.Responding.{HasCauseOf};
ghost use Rattle.gql_engine.specs.Wanted.{wanted_over};
ghost use Rattle.gql_response.specs.Reading.{response_read};
ghost use Rattle.gql_response_check.specs.Verdict.{IsVerdictBy};

use bytes::Bytes;
use gql_engine::phases::{ReadyOperation, Wanted};
use gql_engine::{AnswerError, ObjectValue, Prepared, Steps};
use gql_parser::laws as text_laws;
use gql_response_check::{Verdict, check_response};
use jb_tree::Memory;
use std::alloc::Global;
use std::marker::Brand;
use std::sync::ledger::{Blank, Ledger};

/// The verdict on `response`, the bytes of what is said to be the response to what is wanted of a query, by the resolvers of `root`:
/// what [`check_response`] says, once the operation is chosen, its depth checked where introspection is on, and its variables coerced
/// (GraphQL October 2021, section 6.1).
///
/// # Errors
///
/// Those of [`Prepared::ready`], exactly where they come there; [`AnswerError::Memory`] also where the resolver says so.
pub fn check_prepared<O: ObjectValue>(
    alloc: Global,
    prepared: &Prepared<'_>,
    wanted: &Wanted<'_>,
    root: &O,
    response: &Bytes,
) -> Result<Verdict, AnswerError>
    ensures judged { IfOk result (IsJudged O.type_of O.resolves (O.seen root.now)
        (wanted_over prepared.now.schema prepared.now.query wanted.now) response.now) }
    ensures refused { IfErr result (HasCauseOf (wanted_over prepared.now.schema prepared.now.query wanted.now)) }
{
    check_alone::<O, Brand>(alloc, prepared, wanted, root, response, Blank::new(1))
}

/// The same, with a counter of its own.
fn check_alone<O: ObjectValue, L: Ledger>(
    alloc: Global,
    prepared: &Prepared<'_>,
    wanted: &Wanted<'_>,
    root: &O,
    response: &Bytes,
    blank: Blank,
) -> Result<Verdict, AnswerError>
    requires name { blank.name ≡ L.name }
    requires parts { blank.parts ≡ L.parts }
    requires some { 0 < blank.parts }
    ensures judged { IfOk result (IsJudged O.type_of O.resolves (O.seen root.now)
        (wanted_over prepared.now.schema prepared.now.query wanted.now) response.now) }
    ensures refused { IfErr result (HasCauseOf (wanted_over prepared.now.schema prepared.now.query wanted.now)) }
{
    let mut steps = Steps::<L>::open(blank);
    match prepared.ready(alloc, wanted, &mut steps) {
        Ok(ready) => Ok(check_ready(alloc, &ready, root, response)?),
        Err(refusal) => Err(refusal),
    }
}

/// The same of an operation that is ready. `Err` only when out of memory.
fn check_ready<O: ObjectValue>(
    alloc: Global,
    ready: &ReadyOperation<'_>,
    root: &O,
    response: &Bytes,
) -> Result<Verdict, Memory>
    requires { IsReadyForSome ready.now }
    ensures { IfOk result (IsVerdictBy ready.now.introspection ready.now.schema.now ready.now.document.now ready.now.operation.now
        ready.now.variables O.type_of O.resolves (O.seen root.now) (response_read response.now)) }
{
    text_laws::valid_documents_run();
    text_laws::roots_are_object_types();
    check_response(
        alloc,
        ready.schema,
        ready.document,
        ready.operation,
        &ready.variables,
        ready.introspection,
        root,
        response,
    )
}
