//! The rules that look at one node, as what looks at the nodes of a document.

ghost use Rattle.std.specs.Prelude.{◌≡◌, ◌++◌, OnOk};
ghost use Rattle.gql_rules_nodes.specs.DocumentNodes as spec;
ghost use Rattle.gql_rules_nodes.specs.bridge.DocumentNodes as spec_bridge;

use crate::invalid_fragment_spread::{list_invalid_fragment_spread, list_invalid_spread};
use crate::invalid_fragment_target::list_invalid_fragment_target;
use crate::known_types::KnownTypes;
use crate::missing_subselection::list_missing_subselection;
use crate::variables::list_variables;
use crate::visitor::Visitor;
use gql_ast::DirectiveLocation;
use gql_ast_base::{Directive, Name, OperationType};
use gql_diag_messages::DiagnosticData;
use gql_document_types::{Field, Fragment, FragmentSpread, InlineFragment, Operation};
use gql_rules_values::{Call, Defined, list_arguments, list_directives};
use gql_schema_types::Table;
use jb_text::{Listed, Memory};
use std::alloc::Global;

/// The rules on a document of these fragments, by a schema.
#[derive(Clone, Copy)]
pub(crate) struct NodeRules<'d> {
    pub(crate) alloc: Global,
    pub(crate) known: &'d KnownTypes<'d>,
    pub(crate) fragments: &'d Table<Fragment>,
}

impl Visitor for NodeRules<'_> {
    type Found = DiagnosticData;

    ghost use Rattle.gql_rules_nodes.specs.DocumentNodes.{node_faults};

    ghost at = { λ rules. node_faults rules.known.now.schema.now rules.fragments.now };

    fn operation(
        &self,
        operation: &Operation,
        faults: &mut Listed<DiagnosticData>,
    ) -> Result<(), Memory> {
        self.list_directives(
            location_of(operation.operation_type),
            &operation.directives,
            faults,
        )?;
        list_variables(
            self.alloc,
            self.known.schema,
            operation.variables.as_slice(),
            faults,
        )
    }

    fn fragment(
        &self,
        fragment: &Fragment,
        faults: &mut Listed<DiagnosticData>,
    ) -> Result<(), Memory> {
        self.list_directives(
            DirectiveLocation::FragmentDefinition,
            &fragment.directives,
            faults,
        )?;
        list_invalid_fragment_target(
            self.alloc,
            &self.known.schema.types,
            fragment.name.as_str(),
            fragment.selection_set.ty.as_str(),
            fragment.location,
            faults,
        )
    }

    fn field(
        &self,
        _ty: &Name,
        field: &Field,
        faults: &mut Listed<DiagnosticData>,
    ) -> Result<(), Memory> {
        self.list_directives(DirectiveLocation::Field, &field.directives, faults)?;
        self.list_arguments(field, faults)?;
        list_missing_subselection(self.alloc, &self.known.schema.types, field, faults)
    }

    fn spread(
        &self,
        ty: &Name,
        spread: &FragmentSpread,
        faults: &mut Listed<DiagnosticData>,
    ) -> Result<(), Memory> {
        self.list_directives(
            DirectiveLocation::FragmentSpread,
            &spread.directives,
            faults,
        )?;
        list_invalid_spread(
            self.alloc,
            self.known,
            self.fragments,
            ty.as_str(),
            spread,
            faults,
        )
    }

    fn inline_fragment(
        &self,
        ty: &Name,
        fragment: &InlineFragment,
        faults: &mut Listed<DiagnosticData>,
    ) -> Result<(), Memory> {
        self.list_directives(
            DirectiveLocation::InlineFragment,
            &fragment.directives,
            faults,
        )?;
        self.list_condition(ty, fragment, faults)
    }
}

impl NodeRules<'_> {
    /// Lists what is wrong with the directives at a place of this kind.
    fn list_directives(
        &self,
        location: DirectiveLocation,
        directives: &Listed<Directive>,
        faults: &mut Listed<DiagnosticData>,
    ) -> Result<(), Memory>
        ensures { OnOk result (faults.new ≡ faults.old ++ spec.directives_at self.now.known.now.schema.now location directives.now) }
    {
        list_directives(
            self.alloc,
            Defined::Types,
            self.known.schema,
            location,
            directives.as_slice(),
            faults,
        )
    }

    /// Lists what is wrong with the arguments of a field.
    fn list_arguments(
        &self,
        field: &Field,
        faults: &mut Listed<DiagnosticData>,
    ) -> Result<(), Memory>
        ensures { OnOk result (faults.new ≡ faults.old ++ spec_bridge.arguments_at self.now.known.now.schema.now field.now) }
    {
        let call = Call {
            directive: false,
            name: field.name.as_str(),
            location: field.location,
        };
        list_arguments(
            self.alloc,
            Defined::Types,
            &self.known.schema.types,
            &call,
            field.definition.arguments.as_slice(),
            field.arguments.as_slice(),
            faults,
        )
    }

    /// Lists what is wrong with the condition of an inline fragment in a set on this type, where it has one.
    fn list_condition(
        &self,
        ty: &Name,
        fragment: &InlineFragment,
        faults: &mut Listed<DiagnosticData>,
    ) -> Result<(), Memory>
        ensures { OnOk result (faults.new ≡ faults.old ++ spec_bridge.condition_at self.now.known.now.schema.now.types ty.now fragment.now) }
    {
        match &fragment.type_condition {
            Some(condition) => self.list_present_condition(ty, fragment, condition, faults),
            None => Ok(()),
        }
    }

    /// Lists what is wrong with an inline fragment whose condition is this one.
    fn list_present_condition(
        &self,
        ty: &Name,
        fragment: &InlineFragment,
        condition: &Name,
        faults: &mut Listed<DiagnosticData>,
    ) -> Result<(), Memory>
        ensures { OnOk result (faults.new ≡ faults.old ++ spec_bridge.one_condition self.now.known.now.schema.now.types ty.now fragment.now.location condition.now) }
    {
        list_invalid_fragment_target(
            self.alloc,
            &self.known.schema.types,
            "",
            condition.as_str(),
            fragment.location,
            faults,
        )?;
        list_invalid_fragment_spread(
            self.alloc,
            self.known,
            "",
            ty.as_str(),
            condition.as_str(),
            fragment.location,
            faults,
        )
    }
}

/// Where the directives of such an operation stand.
fn location_of(operation_type: OperationType) -> DirectiveLocation
    ensures { result ≡ spec.operation_location operation_type }
{
    match operation_type {
        OperationType::Query => DirectiveLocation::Query,
        OperationType::Mutation => DirectiveLocation::Mutation,
        OperationType::Subscription => DirectiveLocation::Subscription,
    }
}
