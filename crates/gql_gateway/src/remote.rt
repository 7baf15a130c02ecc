//! Places that execute operations: the trait, and one that executes on a resolver.

ghost use Rattle.std.specs.Prelude.{◌≡◌, ◌≤◌, ℕ, IfOk, None, suc, ◌≢◌};
ghost use Rattle.gql_gateway.specs.Remote.{IsFault, TellsBy};
ghost use Rattle.gql_document_types.specs.Spreadless.{HasNoSpread};
ghost use Rattle.gql_document_types.specs.Spreads.{AreAcyclic};
ghost use Rattle.gql_document_types.specs.declared.document.ExecutableDocument.{ExecutableDocument as TheDocument};
ghost use Rattle.gql_document_types.specs.declared.operation.Operation.{Operation as TheOperation};
ghost use Rattle.gql_exec.specs.Request.{Members};
ghost use Rattle.gql_response.specs.declared.execution_response.ExecutionResponse.{ExecutionResponse as TheResponse};
ghost use Rattle.gql_schema_types.specs.Schemas.{object_of};
ghost use Rattle.gql_schema_types.specs.declared.schema.Schema.{Schema as TheSchema};

use gql_document_types::{ExecutableDocument, Operation};
use gql_exec::Execution;
use gql_resolvers::ObjectValue;
use gql_response::{ExecutionResponse, JsonMap};
use gql_schema_types::{Schema, Valid};
use jb_text::Refused;
use std::alloc::Global;

/// Why a place doesn't answer.
#[derive(Clone, Copy, Debug, PartialEq, Eq, Drop)]
pub enum RemoteError {
    /// It met a fault.
    Fault,
    /// Memory ran out.
    Memory,
}

/// Another place that executes operations.
pub trait Remote {
    // How many faults it has met.
    ghost faults: { Self → ℕ };

    // How often it was asked, as far as it counts that.
    ghost asked: { Self → ℕ };

    // What it answers in this state, as far as it tells.
    ghost tells: { Self → TheSchema → TheDocument → TheOperation → Members → TheResponse → Type 0 };

    /// The response to an operation without spreads, whose root type is an object type.
    ///
    /// # Errors
    ///
    /// - [`RemoteError::Fault`] only where the count of faults rose.
    /// - [`RemoteError::Memory`] when out of memory.
    fn execute(
        &mut self,
        alloc: Global,
        schema: &Valid<Schema>,
        document: &Valid<ExecutableDocument>,
        operation: &Operation,
        variables: &Valid<JsonMap>,
    ) -> Result<ExecutionResponse, RemoteError>
        requires root { object_of schema.now operation.now.selection_set.ty.text ≢ None }
        requires spreadless { HasNoSpread operation.now.selection_set.selections }
        requires acyclic { AreAcyclic document.now.fragments }
        ensures told { IfOk result (tells self.old schema.now document.now operation.now variables.now) }
        ensures later { faults self.old ≤ faults self.new }
        ensures counted { asked self.new ≤ suc (asked self.old) }
        ensures cause { IsFault (faults self.old) (faults self.new) result };
}

/// A place that executes on a resolver, with introspection on.
#[derive(Drop)]
pub struct LocalRemote<'o, O> {
    root: &'o O,
}

impl<'o, O: ObjectValue> LocalRemote<'o, O> {
    /// The place that executes on this root.
    #[must_use]
    pub fn new(root: &'o O) -> LocalRemote<'o, O>
        ensures { result.root.now ≡ root.now }
    {
        LocalRemote { root }
    }
}

impl<'o, O: ObjectValue> Remote for LocalRemote<'o, O> {
    ghost faults = { λ _. 0 };

    ghost asked = { λ _. 0 };

    ghost tells = { λ remote. TellsBy O.type_of O.resolves (O.seen remote.root.now) };

    fn execute(
        &mut self,
        alloc: Global,
        schema: &Valid<Schema>,
        document: &Valid<ExecutableDocument>,
        operation: &Operation,
        variables: &Valid<JsonMap>,
    ) -> Result<ExecutionResponse, RemoteError> {
        let execution = Execution::new(schema, document)
            .operation(operation)
            .coerced_variable_values(variables)
            .enable_schema_introspection(true);
        match execution.execute_sync(alloc, self.root) {
            Ok(response) => Ok(response),
            Err(Refused::Fault(_)) => Err(RemoteError::Fault),
            Err(Refused::Memory) => Err(RemoteError::Memory),
        }
    }
}
