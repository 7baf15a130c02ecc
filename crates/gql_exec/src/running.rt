//! How executions run: what refuses them, and else the cycle from the root.

ghost use Rattle.std.specs.Prelude.{Err, Ok, IfOk};
ghost use Rattle.gql_coerce.specs.Outcome.{told_as};
ghost use Rattle.gql_coerce.specs.Variables.{coerced_variables};
ghost use Rattle.gql_document_types.specs.Spreads.{AreAcyclic};
ghost use Rattle.gql_exec.specs.Thing.{of_user, type_of_thing};
ghost use Rattle.gql_exec.specs.ThingMeaning.{thing_meaning};
ghost use Rattle.gql_exec.specs.Execution as spec;
ghost use Rattle.gql_exec.specs.bridge.Execution as spec_bridge;
ghost use Rattle.gql_exec.specs.Looks.{AreLooks};
ghost use Rattle.gql_exec.specs.bridge.Output.{AreWritten, Finds};
ghost use Rattle.gql_exec.specs.bridge.Running.{IsRun, Runs, RunsOver, response_of};
ghost use Rattle.gql_collect.specs.RequestErrors.{request_error};
ghost use Rattle.gql_exec.specs.Response.{IsExecuted, IsExplained};

use crate::executed::Executed;
use crate::execution::{Execution, Given};
use crate::introspected::Introspected;
use crate::{Executing, Output, Path};
use gql_collect::{Pieces, Steps, coerce_variable_values};
use gql_document_types::Operation;
use gql_graph::laws;
use gql_resolvers::{ObjectValue, RequestInfo};
use gql_response::{JsonMap, RequestError};
use gql_schema_types::{ImplementersMap, ObjectType, Valid};
use jb_text::{Listed, Memory, Refused, Text};
use std::alloc::Global;
use std::sync::ledger::Ledger;

impl<'a> Execution<'a> {
    /// Executes the operation on the initial object, and makes the data in this output.
    pub(crate) fn execute_into<O: ObjectValue, L: Ledger, M: Output>(
        &self,
        alloc: Global,
        initial: &O,
        steps: &mut Steps<L>,
        out: &mut M,
    ) -> Result<Executed<M::Members>, Refused<RequestError>>
        requires { AreAcyclic self.now.document.now.fragments }
        ensures { Runs (AreWritten M.are_members out.old out.new) self.now O.type_of O.resolves (O.seen initial.now) steps.old steps.new result }
    {
        if self.introspection {
            self.execute_introspected(alloc, initial, steps, out)
        } else {
            self.execute(alloc, initial, steps, out)
        }
    }

    /// The same over the user's objects and those of introspection, from the user's object under the schema.
    fn execute_introspected<O: ObjectValue, L: Ledger, M: Output>(
        &self,
        alloc: Global,
        initial: &O,
        steps: &mut Steps<L>,
        out: &mut M,
    ) -> Result<Executed<M::Members>, Refused<RequestError>>
        requires { AreAcyclic self.now.document.now.fragments }
        ensures { RunsOver (AreWritten M.are_members out.old out.new) self.now (type_of_thing O.type_of) (thing_meaning O.resolves) (of_user self.now.schema.now (O.seen initial.now)) steps.old steps.new result }
    {
        let root = Introspected::root(self.schema, initial);
        self.execute(alloc, &root, steps, out)
    }

    /// The same over objects of one kind.
    fn execute<O: ObjectValue, L: Ledger, M: Output>(
        &self,
        alloc: Global,
        initial: &O,
        steps: &mut Steps<L>,
        out: &mut M,
    ) -> Result<Executed<M::Members>, Refused<RequestError>>
        requires { AreAcyclic self.now.document.now.fragments }
        ensures { RunsOver (AreWritten M.are_members out.old out.new) self.now O.type_of O.resolves (O.seen initial.now) steps.old steps.new result }
    {
        match self.operation {
            Some(operation) => self.execute_operation(alloc, operation, initial, steps, out),
            None => match self.document.as_ref().operations_get(alloc, None) {
                Ok(operation) => self.execute_operation(alloc, operation, initial, steps, out),
                Err(refused) => Err(refused),
            },
        }
    }

    /// The same of this operation (section 6.2).
    fn execute_operation<O: ObjectValue, L: Ledger, M: Output>(
        &self,
        alloc: Global,
        operation: &'a Operation,
        initial: &O,
        steps: &mut Steps<L>,
        out: &mut M,
    ) -> Result<Executed<M::Members>, Refused<RequestError>>
        requires { AreAcyclic self.now.document.now.fragments }
        ensures { IsRun (AreWritten M.are_members out.old out.new) self.now O.type_of O.resolves (O.seen initial.now) steps.old steps.new
            (spec.of_operation self.now.schema.now self.now.given operation.now) result }
    {
        let name = operation.object_type().as_str();
        match self.schema.as_ref().get_object(name) {
            Some(root) => self.execute_on(alloc, operation, root, initial, steps, out),
            None => Err(undefined_root(alloc)),
        }
    }

    /// The same on this root type.
    fn execute_on<O: ObjectValue, L: Ledger, M: Output>(
        &self,
        alloc: Global,
        operation: &'a Operation,
        root: &ObjectType,
        initial: &O,
        steps: &mut Steps<L>,
        out: &mut M,
    ) -> Result<Executed<M::Members>, Refused<RequestError>>
        requires { AreAcyclic self.now.document.now.fragments }
        ensures { IsRun (AreWritten M.are_members out.old out.new) self.now O.type_of O.resolves (O.seen initial.now) steps.old steps.new
            (spec.with_variables operation.now root.now (spec.variables_of self.now.schema.now operation.now self.now.given)) result }
    {
        match self.given {
            Given::Coerced(values) => self.execute_with(
                alloc, operation, root, values, initial, steps, out,
            ),
            Given::Raw(values) => self.execute_given(
                alloc, operation, root, values, initial, steps, out,
            ),
            Given::Nothing => {
                let values = JsonMap::new(alloc);
                self.execute_given(alloc, operation, root, &values, initial, steps, out)
            }
        }
    }

    /// The same where variables are given these values.
    fn execute_given<O: ObjectValue, L: Ledger, M: Output>(
        &self,
        alloc: Global,
        operation: &'a Operation,
        root: &ObjectType,
        values: &JsonMap,
        initial: &O,
        steps: &mut Steps<L>,
        out: &mut M,
    ) -> Result<Executed<M::Members>, Refused<RequestError>>
        requires { AreAcyclic self.now.document.now.fragments }
        ensures { IsRun (AreWritten M.are_members out.old out.new) self.now O.type_of O.resolves (O.seen initial.now) steps.old steps.new
            (spec.with_variables operation.now root.now (told_as request_error (coerced_variables self.now.schema.now.types operation.now.variables values.now))) result }
    {
        match coerce_variable_values(alloc, self.schema, operation, values) {
            Ok(values) => self.execute_with(alloc, operation, root, &values, initial, steps, out),
            Err(refused) => Err(refused),
        }
    }

    /// The same where variables have these values.
    fn execute_with<O: ObjectValue, L: Ledger, M: Output>(
        &self,
        alloc: Global,
        operation: &'a Operation,
        root: &ObjectType,
        values: &Valid<JsonMap>,
        initial: &O,
        steps: &mut Steps<L>,
        out: &mut M,
    ) -> Result<Executed<M::Members>, Refused<RequestError>>
        requires { AreAcyclic self.now.document.now.fragments }
        ensures { IsRun (AreWritten M.are_members out.old out.new) self.now O.type_of O.resolves (O.seen initial.now) steps.old steps.new
            (spec.with_variables operation.now root.now (Ok values.now)) result }
    {
        match self.implementers {
            Some(map) => Ok(self.run(alloc, operation, root, values, map, initial, steps, out)?),
            None => {
                let map = self.schema.as_ref().implementers_map(alloc)?;
                Ok(self.run(alloc, operation, root, values, &map, initial, steps, out)?)
            }
        }
    }

    /// The response. `Err` only when out of memory.
    fn run<O: ObjectValue, L: Ledger, M: Output>(
        &self,
        alloc: Global,
        operation: &'a Operation,
        root: &ObjectType,
        variables: &Valid<JsonMap>,
        implementers_map: &ImplementersMap,
        initial: &O,
        steps: &mut Steps<L>,
        out: &mut M,
    ) -> Result<Executed<M::Members>, Memory>
        requires { AreAcyclic self.now.document.now.fragments }
        ensures { IfOk result (λ executed. Finds (AreWritten M.are_members out.old out.new executed.members) (λ found.
            let r = spec.request_in self.now variables.now O.type_of O.resolves in
            let response = response_of executed found in
            IsExecuted r root.now (O.seen initial.now) operation.now.selection_set.selections response
            × IsExplained r root.now (O.seen initial.now) operation.now.selection_set.selections response
            × AreLooks r root.now (O.seen initial.now) operation.now.selection_set.selections steps.old steps.new)) }
    {
        laws::acyclic_graphs_have_ranks();
        let executing = Executing {
            alloc,
            request: RequestInfo {
                schema: self.schema,
                implementers_map,
                document: self.document,
            },
            operation,
            variables,
            introspection: self.introspection,
        };
        let mut pieces = Pieces::new(alloc);
        pieces.add(&operation.selection_set)?;
        let mut errors = Listed::new(alloc);
        let mut parts = executing.planner().parts(root, &pieces, steps)?;
        let members = executing.execute_parts(
            root,
            initial,
            &Path::Root,
            &mut parts,
            &mut errors,
            steps,
            out,
        )?;
        Ok(Executed { errors, members })
    }
}

/// The refusal of a root type that is no object type of the schema.
fn undefined_root(alloc: Global) -> Refused<RequestError>
    ensures { spec_bridge.IsUndefinedRoot result }
{
    match Text::from_str(alloc, "Undefined root operation type") {
        Ok(message) => Refused::Fault(RequestError {
            message,
            location: None,
            is_suspected_validation_bug: true,
        }),
        Err(_) => Refused::Memory,
    }
}
