//! The faults inside operations and fragments.

ghost use Rattle.std.specs.Prelude.{◌≡◌, ◌++◌, OnOk};
ghost use Rattle.std.specs.List.{flat_map};
ghost use Rattle.gql_document.specs.AmbiguousAnonymousOperation.{are_several as are_several_of};
ghost use Rattle.gql_document.specs.Build as spec;
ghost use Rattle.gql_document.specs.bridge.RootWalk.{selections_of};

use crate::ambiguous_anonymous_operation::{are_several, list_ambiguous_anonymous_operation};
use crate::fragment_tree::FragmentTree;
use crate::root_selections::root_selections;
use crate::selection_faults::list_selection_faults;
use crate::subscription_uses_conditional_selection::list_subscription_uses_conditional_selection;
use crate::subscription_uses_introspection::list_subscription_uses_introspection;
use crate::subscription_uses_multiple_fields::list_subscription_uses_multiple_fields;
use crate::type_kind::is_defined;
use crate::undefined_root_operation::list_undefined_root_operation;
use crate::undefined_type_in_named_fragment_type_condition::list_undefined_type_in_named_fragment_type_condition;
use gql_ast::{FragmentDefinition, OperationDefinition, Selection};
use gql_ast_base::{Name, OperationType};
use gql_diag_messages::DiagnosticData;
use gql_schema_types::{Schema, Table};
use jb_text::{Listed, Memory};
use std::alloc::Global;

/// What stays the same throughout.
#[derive(Clone, Copy)]
pub(crate) struct Judge<'d> {
    pub(crate) alloc: Global,
    pub(crate) schema: &'d Schema,
    pub(crate) fragments: &'d Table<FragmentTree>,
}

impl<'d> Judge<'d> {
    /// Lists the faults inside distinct operations and fragments.
    pub(crate) fn list_inside(
        &self,
        operations: &Listed<OperationDefinition>,
        faults: &mut Listed<DiagnosticData>,
    ) -> Result<(), Memory>
        ensures { OnOk result (faults.new ≡ faults.old ++ spec.faults_inside self.now.schema.now operations.now self.now.fragments.now) }
    {
        self.list_operations(operations, faults)?;
        self.list_fragments(faults)
    }

    /// Lists the faults inside distinct operations.
    fn list_operations(
        &self,
        operations: &Listed<OperationDefinition>,
        faults: &mut Listed<DiagnosticData>,
    ) -> Result<(), Memory>
        ensures { OnOk result (faults.new ≡ faults.old ++ flat_map (spec.operation_faults self.now.schema.now self.now.fragments.now (are_several_of operations.now)) operations.now) }
    {
        let several = are_several(operations);
        for operation in operations.as_slice() {
            self.list_operation(several, operation, faults)?;
        }
        Ok(())
    }

    /// Lists the faults inside distinct fragments.
    fn list_fragments(&self, faults: &mut Listed<DiagnosticData>) -> Result<(), Memory>
        ensures { OnOk result (faults.new ≡ faults.old ++ flat_map (spec.fragment_faults self.now.schema.now) self.now.fragments.now) }
    {
        for fragment in self.fragments.as_slice() {
            self.list_fragment(fragment.get(), faults)?;
        }
        Ok(())
    }

    /// Lists the faults inside an operation, of which there may be several.
    fn list_operation(
        &self,
        several: bool,
        operation: &OperationDefinition,
        faults: &mut Listed<DiagnosticData>,
    ) -> Result<(), Memory>
        ensures { OnOk result (faults.new ≡ faults.old ++ spec.operation_faults self.now.schema.now self.now.fragments.now several operation.now) }
    {
        list_ambiguous_anonymous_operation(self.alloc, several, operation, faults)?;
        match self
            .schema
            .schema_definition
            .root_operation(operation.operation_type)
        {
            Some(root) => self.list_on(root, operation, faults),
            None => list_undefined_root_operation(self.alloc, operation, faults),
        }
    }

    /// Lists the faults inside an operation on its root type.
    fn list_on(
        &self,
        root: &Name,
        operation: &OperationDefinition,
        faults: &mut Listed<DiagnosticData>,
    ) -> Result<(), Memory>
        ensures { OnOk result (faults.new ≡ faults.old ++ spec.faults_on self.now.schema.now self.now.fragments.now root.now operation.now) }
    {
        list_selection_faults(
            self.alloc,
            self.schema,
            root,
            &operation.selection_set,
            faults,
        )?;
        match operation.operation_type {
            OperationType::Subscription => self.list_subscription(operation, faults),
            OperationType::Query | OperationType::Mutation => Ok(()),
        }
    }

    /// Lists the faults at the root of a subscription.
    fn list_subscription(
        &self,
        operation: &OperationDefinition,
        faults: &mut Listed<DiagnosticData>,
    ) -> Result<(), Memory>
        ensures { OnOk result (faults.new ≡ faults.old ++ spec.subscription_root_faults self.now.schema.now self.now.fragments.now operation.now) }
    {
        let roots = root_selections(
            self.alloc,
            self.schema,
            self.fragments,
            &operation.selection_set,
        )?;
        list_root_faults(self.alloc, operation, &roots, faults)
    }

    /// Lists the faults inside a fragment.
    fn list_fragment(
        &self,
        fragment: &FragmentDefinition,
        faults: &mut Listed<DiagnosticData>,
    ) -> Result<(), Memory>
        ensures { OnOk result (faults.new ≡ faults.old ++ spec.fragment_faults self.now.schema.now fragment.now) }
    {
        if is_defined(self.schema, &fragment.type_condition) {
            list_selection_faults(
                self.alloc,
                self.schema,
                &fragment.type_condition,
                &fragment.selection_set,
                faults,
            )
        } else {
            list_undefined_type_in_named_fragment_type_condition(self.alloc, fragment, faults)
        }
    }
}

/// Lists the faults of the selections at the root of a subscription.
fn list_root_faults(
    alloc: Global,
    operation: &OperationDefinition,
    roots: &Listed<&Selection>,
    faults: &mut Listed<DiagnosticData>,
) -> Result<(), Memory>
    ensures { OnOk result (faults.new ≡ faults.old ++ spec.root_faults operation.now (selections_of roots.now)) }
{
    list_subscription_uses_multiple_fields(alloc, operation, roots, faults)?;
    list_subscription_uses_introspection(alloc, operation, roots, faults)?;
    list_subscription_uses_conditional_selection(alloc, operation, roots, faults)
}
