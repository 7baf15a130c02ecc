//! What nothing is in the way of: the chosen operation, with its depth checked and its variables coerced.

ghost use Rattle.std.specs.Prelude.{ℕ, List, IfErr, IfOk};
ghost use Rattle.gql_engine.specs.Answered.{Answered, IsResultOf};
ghost use Rattle.gql_engine.specs.Phases.{IsReady, IsReadyForSome};
ghost use Rattle.gql_engine.specs.bridge.Phases.{AreOfTexts, Mean};
ghost use Rattle.gql_engine.specs.Responding.{HasCauseOf, OrCause, Responds};
ghost use Rattle.gql_engine.specs.Wanted.{Wanted as WantedOf, wanted_over};

use crate::answer_error::AnswerError;
use crate::meaning::Texts;
use crate::prepared::Prepared;
use crate::response_bytes::{Written, write_response};
use crate::steps_before::{check_depth, choose, coerce};
use crate::wanted::Wanted;
use gql_collect::Steps;
use gql_diag::JsonMap;
use gql_document_types::{ExecutableDocument, Operation};
use gql_exec::Execution;
use gql_parser::laws as text_laws;
use gql_resolvers::ObjectValue;
use gql_schema_types::{ImplementersMap, Schema, Valid};
use jb_tree::{Memory, Refused};
use std::alloc::{AllocError, Global};
use std::sync::ledger::Ledger;

/// An operation that is ready to be executed: the schema and the document, the operation of the document, and its coerced variables
/// (GraphQL October 2021, section 6.1).
#[derive(Drop)]
pub struct ReadyOperation<'t> {
    pub schema: &'t Valid<Schema>,
    pub implementers: &'t ImplementersMap,
    pub document: &'t Valid<ExecutableDocument>,
    pub operation: &'t Operation,
    pub variables: Valid<JsonMap>,
    pub introspection: bool,
}

impl Prepared<'_> {
    /// The operation that is wanted of the query: chosen, its depth checked where introspection is on, and its variables coerced.
    /// `steps` counts the looks of that check, at most one at each selection.
    ///
    /// # Errors
    ///
    /// [`AnswerError::Request`] of the first step that fails, exactly where one does, and [`AnswerError::Memory`] when out of memory.
    pub fn ready<L: Ledger>(
        &self,
        alloc: Global,
        wanted: &Wanted<'_>,
        steps: &mut Steps<L>,
    ) -> Result<ReadyOperation<'_>, AnswerError>
        ensures ready { IfOk result (IsReady (wanted_over self.now.schema self.now.query wanted.now) steps.old steps.new) }
        ensures refused { IfErr result (HasCauseOf (wanted_over self.now.schema self.now.query wanted.now)) }
    {
        let texts = self.texts();
        make_ready(alloc, &texts, wanted, steps)
    }
}

/// The same on what the texts mean.
pub(crate) fn make_ready<'t, L: Ledger>(
    alloc: Global,
    texts: &Texts<'t>,
    wanted: &Wanted<'_>,
    steps: &mut Steps<L>,
) -> Result<ReadyOperation<'t>, AnswerError>
    requires { AreOfTexts texts.now }
    ensures { (schema query : List ℕ) → Mean schema query texts.now → OrCause (wanted_over schema query wanted.now)
        (IsReady (wanted_over schema query wanted.now) steps.old steps.new) result }
{
    let operation = match choose(alloc, wanted, texts) {
        Ok(operation) => operation,
        Err(refusal) => return Err(refusal),
    };
    match check_depth(alloc, wanted, texts, operation, steps) {
        Ok(()) => {}
        Err(refusal) => return Err(refusal),
    }
    match coerce(alloc, wanted, texts, operation) {
        Ok(variables) => Ok(ReadyOperation {
            schema: texts.schema,
            implementers: texts.implementers,
            document: texts.document,
            operation,
            variables,
            introspection: wanted.introspection,
        }),
        Err(refusal) => Err(refusal),
    }
}

impl ReadyOperation<'_> {
    /// Executes the operation on this object, and writes the response as [`answer`](crate::answer) does (section 7). `steps` counts
    /// the looks at selections.
    ///
    /// # Errors
    ///
    /// Only when out of memory, also where the resolver says so.
    pub fn execute<O: ObjectValue, L: Ledger>(
        &self,
        alloc: Global,
        root: &O,
        steps: &mut Steps<L>,
    ) -> Result<Written, Memory>
        requires { IsReadyForSome self.now }
        ensures result { IfOk result (IsResultOf self.now.introspection O.type_of O.resolves (O.seen root.now) self.now.schema.now
            self.now.document.now self.now.operation.now self.now.variables steps.old steps.new) }

        // It is the response to what the operation is ready for; with the looks, where none was counted in between.
        ensures answered { (wanted : WantedOf) (before after : ℕ) → IsReady wanted before after self.now
            → IfOk result (λ written. Answered O.type_of O.resolves (O.seen root.now) wanted written.bytes) }
        ensures responds { (wanted : WantedOf) (before : ℕ) → IsReady wanted before steps.old self.now
            → IfOk result (Responds O.type_of O.resolves (O.seen root.now) wanted before steps.new) }
    {
        text_laws::operations_select_something();
        execute_with(alloc, self, &self.variables, root, steps)
    }
}

/// The response to an operation that is ready, with these values of its variables. `Err` only when out of memory.
fn execute_with<O: ObjectValue, L: Ledger>(
    alloc: Global,
    ready: &ReadyOperation<'_>,
    values: &Valid<JsonMap>,
    root: &O,
    steps: &mut Steps<L>,
) -> Result<Written, Memory>
    requires { IsReadyForSome ready.now }
    ensures { IfOk result (IsResultOf ready.now.introspection O.type_of O.resolves (O.seen root.now) ready.now.schema.now
        ready.now.document.now ready.now.operation.now values.now steps.old steps.new) }
{
    text_laws::valid_documents_run();
    text_laws::roots_are_object_types();
    let execution = Execution::new(ready.schema, ready.document)
        .implementers_map(ready.implementers)
        .operation(ready.operation)
        .coerced_variable_values(values)
        .enable_schema_introspection(ready.introspection);
    match execution.execute_written(alloc, root, steps) {
        Ok(response) => write_response(alloc, response),
        Err(Refused::Fault(_)) => unreachable!(),
        Err(Refused::Memory) => Err(AllocError),
    }
}
