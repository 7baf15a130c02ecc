//! The rules on the variables that an operation defines (GraphQL October 2021, sections 5.6, 5.7 and 5.8).

ghost use Rattle.std.specs.Prelude.{◌≡◌, ◌++◌, OnOk};
ghost use Rattle.std.specs.List.{flat_map};
ghost use Rattle.gql_rules_nodes.specs.Variables as spec;

use crate::unique_variable::list_unique_variable;
use crate::variable_input_type::list_variable_input_type;
use crate::variable_type::list_undefined_variable_type;
use gql_ast::{DirectiveLocation, VariableDefinition};
use gql_diag_messages::DiagnosticData;
use gql_rules_values::{Defined, list_directives, list_literal};
use gql_schema_types::Schema;
use jb_text::{Listed, Memory};
use std::alloc::Global;

/// Lists what is wrong with the variables of an operation. One that comes second of its name is looked into as well.
pub(crate) fn list_variables(
    alloc: Global,
    schema: &Schema,
    variables: &[VariableDefinition],
    faults: &mut Listed<DiagnosticData>,
) -> Result<(), Memory>
    ensures { OnOk result (faults.new ≡ faults.old ++ spec.variables_faults schema.now variables.now) }
{
    list_unique_variable(alloc, variables, faults)?;
    list_each(alloc, schema, variables, faults)
}

/// Lists what is wrong with each variable by itself.
fn list_each(
    alloc: Global,
    schema: &Schema,
    variables: &[VariableDefinition],
    faults: &mut Listed<DiagnosticData>,
) -> Result<(), Memory>
    ensures { OnOk result (faults.new ≡ faults.old ++ flat_map (spec.variable_faults schema.now) variables.now) }
{
    for variable in variables {
        list_variable(alloc, schema, variable, faults)?;
    }
    Ok(())
}

/// Lists what is wrong with a variable by itself.
fn list_variable(
    alloc: Global,
    schema: &Schema,
    variable: &VariableDefinition,
    faults: &mut Listed<DiagnosticData>,
) -> Result<(), Memory>
    ensures { OnOk result (faults.new ≡ faults.old ++ spec.variable_faults schema.now variable.now) }
{
    list_type(alloc, schema, variable, faults)?;
    list_default(alloc, schema, variable, faults)?;
    list_directives(
        alloc,
        Defined::Types,
        schema,
        DirectiveLocation::VariableDefinition,
        variable.directives.as_slice(),
        faults,
    )
}

/// Lists what is wrong with the type of a variable.
fn list_type(
    alloc: Global,
    schema: &Schema,
    variable: &VariableDefinition,
    faults: &mut Listed<DiagnosticData>,
) -> Result<(), Memory>
    ensures { OnOk result (faults.new ≡ faults.old ++ spec.type_faults schema.now variable.now) }
{
    list_undefined_variable_type(alloc, &schema.types, variable, faults)?;
    list_variable_input_type(alloc, &schema.types, variable, faults)
}

/// Lists what is wrong with the default of a variable.
fn list_default(
    alloc: Global,
    schema: &Schema,
    variable: &VariableDefinition,
    faults: &mut Listed<DiagnosticData>,
) -> Result<(), Memory>
    ensures { OnOk result (faults.new ≡ faults.old ++ spec.default_faults schema.now variable.now) }
{
    match &variable.default_value {
        Some(default) => list_literal(
            alloc,
            Defined::Types,
            &schema.types,
            default,
            &variable.ty,
            faults,
        ),
        None => Ok(()),
    }
}
