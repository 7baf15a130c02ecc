//! At each node of a document, an argument is given once (GraphQL October 2021, section 5.4.2).

ghost use Rattle.std.specs.Prelude.{◌≡◌, ◌++◌, OnOk};
ghost use Rattle.std.specs.List.{flat_map};
ghost use Rattle.gql_rules_nodes.specs.Nodes.{nodes};
ghost use Rattle.gql_rules.specs.UniqueArguments as spec;

use gql_ast::VariableDefinition;
use gql_ast_base::{Directive, Name};
use gql_diag_messages::DiagnosticData;
use gql_document_types::{
    ExecutableDocument, Field, Fragment, FragmentSpread, InlineFragment, Operation,
};
use gql_rules_nodes::{Visitor, walk_document};
use gql_rules_values::list_unique_argument;
use jb_text::{Listed, Memory};
use std::alloc::Global;

/// Lists each argument of a field or of a directive whose name came before in the same list, in the order of the nodes.
pub(crate) fn list_unique_arguments(
    alloc: Global,
    document: &ExecutableDocument,
    faults: &mut Listed<DiagnosticData>,
) -> Result<(), Memory>
    ensures { OnOk result (faults.new ≡ faults.old ++ flat_map spec.node_arguments (nodes document.now)) }
{
    walk_document(&UniqueArguments { alloc }, document, faults)
}

/// The rule, as what looks at the nodes of a document.
#[derive(Clone, Copy)]
struct UniqueArguments {
    alloc: Global,
}

impl Visitor for UniqueArguments {
    type Found = DiagnosticData;

    ghost use Rattle.gql_rules.specs.UniqueArguments.{node_arguments};

    ghost at = { λ _. node_arguments };

    fn operation(
        &self,
        operation: &Operation,
        faults: &mut Listed<DiagnosticData>,
    ) -> Result<(), Memory> {
        self.list_directives(operation.directives.as_slice(), faults)?;
        self.list_variables(operation.variables.as_slice(), faults)
    }

    fn fragment(
        &self,
        fragment: &Fragment,
        faults: &mut Listed<DiagnosticData>,
    ) -> Result<(), Memory> {
        self.list_directives(fragment.directives.as_slice(), faults)
    }

    fn field(
        &self,
        _ty: &Name,
        field: &Field,
        faults: &mut Listed<DiagnosticData>,
    ) -> Result<(), Memory> {
        list_unique_argument(self.alloc, field.arguments.as_slice(), faults)?;
        self.list_directives(field.directives.as_slice(), faults)
    }

    fn spread(
        &self,
        _ty: &Name,
        spread: &FragmentSpread,
        faults: &mut Listed<DiagnosticData>,
    ) -> Result<(), Memory> {
        self.list_directives(spread.directives.as_slice(), faults)
    }

    fn inline_fragment(
        &self,
        _ty: &Name,
        fragment: &InlineFragment,
        faults: &mut Listed<DiagnosticData>,
    ) -> Result<(), Memory> {
        self.list_directives(fragment.directives.as_slice(), faults)
    }
}

impl UniqueArguments {
    /// Lists the arguments of these directives whose names came before.
    fn list_directives(
        &self,
        directives: &[Directive],
        faults: &mut Listed<DiagnosticData>,
    ) -> Result<(), Memory>
        ensures { OnOk result (faults.new ≡ faults.old ++ spec.directives_arguments directives.now) }
    {
        for used in directives {
            list_unique_argument(self.alloc, used.arguments.as_slice(), faults)?;
        }
        Ok(())
    }

    /// The same of the directives of variables.
    fn list_variables(
        &self,
        variables: &[VariableDefinition],
        faults: &mut Listed<DiagnosticData>,
    ) -> Result<(), Memory>
        ensures { OnOk result (faults.new ≡ faults.old ++ spec.variables_arguments variables.now) }
    {
        for variable in variables {
            self.list_directives(variable.directives.as_slice(), faults)?;
        }
        Ok(())
    }
}
