//! A variable is of an input type (GraphQL October 2021, section 5.8.2).

ghost use Rattle.std.specs.Prelude.{◌≡◌, ◌++◌, OnOk, ◌∷◌, [], None};
ghost use Rattle.gql_diag_messages.specs.declared.rule.Rule.TheVariants.{VariableInputType};
ghost use Rattle.gql_rules_nodes.specs.VariableInputType as spec;

use crate::composite::is_composite;
use gql_ast::{VariableDefinition, print_type};
use gql_diag_messages::{DiagnosticData, Rule};
use gql_rules_values::list_fault;
use gql_schema_types::{ExtendedType, Table};
use jb_text::{Listed, Memory};
use std::alloc::Global;

/// Lists a variable whose type is an object, an interface or a union.
pub(crate) fn list_variable_input_type(
    alloc: Global,
    types: &Table<ExtendedType>,
    variable: &VariableDefinition,
    faults: &mut Listed<DiagnosticData>,
) -> Result<(), Memory>
    ensures { OnOk result (faults.new ≡ faults.old ++ spec.variable_input_type types.now variable.now) }
{
    if is_composite(types, variable.ty.inner_named_type().as_str()) {
        list_output_type(alloc, variable, faults)
    } else {
        Ok(())
    }
}

/// Lists a variable with its type.
fn list_output_type(
    alloc: Global,
    variable: &VariableDefinition,
    faults: &mut Listed<DiagnosticData>,
) -> Result<(), Memory>
    ensures { OnOk result (faults.new ≡ faults.old ++ spec.output_type variable.now ∷ []) }
{
    let ty = print_type(alloc, &variable.ty)?;
    list_fault(
        alloc,
        Rule::VariableInputType,
        &[variable.name.as_str(), ty.as_str()],
        variable.location,
        None,
        faults,
    )
}
