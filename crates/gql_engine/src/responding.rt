//! The response to what is wanted, step by step: what the texts mean, the operation, its depth, its variables, the execution.

ghost use Rattle.std.specs.Prelude.{ℕ, List};
ghost use Rattle.gql_engine.specs.bridge.Made.{IsMadeOf, IsMadeOfSome};
ghost use Rattle.gql_engine.specs.bridge.Phases.{AreOfTexts, Mean};
ghost use Rattle.gql_engine.specs.Responding.{OrCause, Responds};
ghost use Rattle.gql_engine.specs.Wanted.{wanted_over};

use crate::answer_error::AnswerError;
use crate::made::Made;
use crate::meaning::{Texts, check_query, check_schema};
use crate::prepared::Prepared;
use crate::ready::make_ready;
use crate::response_bytes::Written;
use crate::service::Service;
use crate::wanted::Wanted;
use gql_collect::Steps;
use gql_resolvers::ObjectValue;
use std::alloc::Global;
use std::sync::ledger::Ledger;

/// The response to what is wanted of these texts, whose root is resolved by `root`. `steps` counts the looks at selections: those of
/// the depth check, which is made where introspection is on, and those of the execution. Both texts may be nested 500 deep.
///
/// # Errors
///
/// The first of these that applies, and otherwise only [`AnswerError::Memory`], when out of memory:
///
/// - [`AnswerError::Schema`] where the schema's text means no schema (GraphQL October 2021, sections 2 and 3);
/// - [`AnswerError::Document`] where the query's text means no document against it (sections 2 and 5);
/// - [`AnswerError::Request`] where there is no such operation (section 6.1), where introspection is on and the operation goes too
///   deep into the schema's types, or where a variable is not coerced (section 6.1.2), each with a kind of its own.
pub fn respond<O: ObjectValue, L: Ledger>(
    alloc: Global,
    schema: &str,
    query: &str,
    wanted: &Wanted<'_>,
    root: &O,
    steps: &mut Steps<L>,
) -> Result<Written, AnswerError>
    ensures { OrCause (wanted_over schema.now query.now wanted.now)
        (Responds O.type_of O.resolves (O.seen root.now) (wanted_over schema.now query.now wanted.now) steps.old steps.new) result }
{
    match check_schema(alloc, schema) {
        Ok(service) => respond_by(alloc, &service, query, wanted, root, steps),
        Err(refusal) => Err(refusal),
    }
}

/// The same with what was made before of the two texts.
pub(crate) fn respond_with<O: ObjectValue, L: Ledger>(
    alloc: Global,
    made: Made<'_>,
    wanted: &Wanted<'_>,
    root: &O,
    steps: &mut Steps<L>,
) -> Result<Written, AnswerError>
    requires { IsMadeOfSome made }
    ensures { (schema query : List ℕ) → IsMadeOf schema query made.entry → OrCause (wanted_over schema query wanted.now)
        (Responds O.type_of O.resolves (O.seen root.now) (wanted_over schema query wanted.now) steps.old steps.new) result }
{
    match made {
        Made::Nothing { schema, query } => respond(alloc, schema, query, wanted, root, steps),
        Made::Schema { service, query } => respond_by(alloc, service, query, wanted, root, steps),
        Made::Both(texts) => respond_on(alloc, &texts, wanted, root, steps),
    }
}

/// The same by a service of the schema.
fn respond_by<O: ObjectValue, L: Ledger>(
    alloc: Global,
    service: &Service,
    query: &str,
    wanted: &Wanted<'_>,
    root: &O,
    steps: &mut Steps<L>,
) -> Result<Written, AnswerError>
    ensures { OrCause (wanted_over service.now query.now wanted.now)
        (Responds O.type_of O.resolves (O.seen root.now) (wanted_over service.now query.now wanted.now) steps.old steps.new) result }
{
    match check_query(alloc, service, query) {
        Ok(prepared) => respond_prepared(alloc, &prepared, wanted, root, steps),
        Err(refusal) => Err(refusal),
    }
}

/// The same with the query prepared.
fn respond_prepared<O: ObjectValue, L: Ledger>(
    alloc: Global,
    prepared: &Prepared<'_>,
    wanted: &Wanted<'_>,
    root: &O,
    steps: &mut Steps<L>,
) -> Result<Written, AnswerError>
    ensures { OrCause (wanted_over prepared.now.schema prepared.now.query wanted.now)
        (Responds O.type_of O.resolves (O.seen root.now) (wanted_over prepared.now.schema prepared.now.query wanted.now) steps.old steps.new) result }
{
    let texts = prepared.texts();
    respond_on(alloc, &texts, wanted, root, steps)
}

/// The same on what the texts mean.
fn respond_on<O: ObjectValue, L: Ledger>(
    alloc: Global,
    texts: &Texts<'_>,
    wanted: &Wanted<'_>,
    root: &O,
    steps: &mut Steps<L>,
) -> Result<Written, AnswerError>
    requires { AreOfTexts texts.now }
    ensures { (schema query : List ℕ) → Mean schema query texts.now → OrCause (wanted_over schema query wanted.now)
        (Responds O.type_of O.resolves (O.seen root.now) (wanted_over schema query wanted.now) steps.old steps.new) result }
{
    match make_ready(alloc, texts, wanted, steps) {
        Ok(ready) => Ok(ready.execute(alloc, root, steps)?),
        Err(refusal) => Err(refusal),
    }
}
