//! What is wrong with arguments and input fields where they are defined (GraphQL October 2021, sections 3.6.1 and 3.10).

ghost use Rattle.std.specs.Prelude.{◌≡◌, ◌++◌, OnOk};
ghost use Rattle.std.specs.List.{flat_map};
ghost use Rattle.gql_ast.specs.declared.schema_definition.DirectiveLocation.TheVariants.{ArgumentDefinition};
ghost use Rattle.gql_schema_rules_parts.specs.InputValues as spec;

use crate::input_type::list_input_type;
use crate::reserved_name::list_reserved_name;
use crate::undefined_definition::list_undefined_definition;
use gql_ast::{DirectiveLocation, InputValueDefinition};
use gql_diag_messages::DiagnosticData;
use gql_rules_values::{
    Defined, is_written, list_directives, list_literal, list_unique_definitions,
};
use gql_schema_types::Schema;
use jb_text::{Listed, Memory};
use std::alloc::Global;

/// Lists what is wrong with the arguments of a field or a directive. One that comes second of its name is looked into as well.
pub(crate) fn list_arguments_definition(
    alloc: Global,
    schema: &Schema,
    values: &[InputValueDefinition],
    faults: &mut Listed<DiagnosticData>,
) -> Result<(), Memory>
    ensures { OnOk result (faults.new ≡ faults.old ++ spec.arguments_faults schema.now values.now) }
{
    list_unique_definitions(alloc, values, faults)?;
    list_arguments(alloc, schema, values, faults)
}

/// Lists what is wrong with each argument by itself.
fn list_arguments(
    alloc: Global,
    schema: &Schema,
    values: &[InputValueDefinition],
    faults: &mut Listed<DiagnosticData>,
) -> Result<(), Memory>
    ensures { OnOk result (faults.new ≡ faults.old ++ flat_map (spec.input_value_faults schema.now ArgumentDefinition) values.now) }
{
    for value in values {
        list_input_value(
            alloc,
            schema,
            DirectiveLocation::ArgumentDefinition,
            value,
            faults,
        )?;
    }
    Ok(())
}

/// Lists what is wrong with the fields of an input object that are not built in.
pub(crate) fn list_input_fields(
    alloc: Global,
    schema: &Schema,
    values: &[InputValueDefinition],
    faults: &mut Listed<DiagnosticData>,
) -> Result<(), Memory>
    ensures { OnOk result (faults.new ≡ faults.old ++ spec.input_fields_faults schema.now values.now) }
{
    for value in values {
        list_input_field(alloc, schema, value, faults)?;
    }
    Ok(())
}

/// Lists what is wrong with a field of an input object, if it is not built in.
fn list_input_field(
    alloc: Global,
    schema: &Schema,
    value: &InputValueDefinition,
    faults: &mut Listed<DiagnosticData>,
) -> Result<(), Memory>
    ensures { OnOk result (faults.new ≡ faults.old ++ spec.input_field_faults schema.now value.now) }
{
    if is_written(value.location) {
        list_input_value(
            alloc,
            schema,
            DirectiveLocation::InputFieldDefinition,
            value,
            faults,
        )
    } else {
        Ok(())
    }
}

/// Lists what is wrong with an argument or an input field by itself.
fn list_input_value(
    alloc: Global,
    schema: &Schema,
    location: DirectiveLocation,
    value: &InputValueDefinition,
    faults: &mut Listed<DiagnosticData>,
) -> Result<(), Memory>
    ensures { OnOk result (faults.new ≡ faults.old ++ spec.input_value_faults schema.now location value.now) }
{
    list_reserved_name(alloc, &value.name, faults)?;
    list_type(alloc, schema, value, faults)?;
    list_default(alloc, schema, value, faults)?;
    list_directives(
        alloc,
        Defined::TypesAndScalars,
        schema,
        location,
        value.directives.as_slice(),
        faults,
    )
}

/// Lists what is wrong with the type of an argument or an input field.
fn list_type(
    alloc: Global,
    schema: &Schema,
    value: &InputValueDefinition,
    faults: &mut Listed<DiagnosticData>,
) -> Result<(), Memory>
    ensures { OnOk result (faults.new ≡ faults.old ++ spec.type_faults schema.now value.now) }
{
    list_undefined_definition(alloc, &schema.types, value.ty.inner_named_type(), faults)?;
    list_input_type(alloc, &schema.types, value, faults)
}

/// Lists what is wrong with the default of an argument or an input field.
fn list_default(
    alloc: Global,
    schema: &Schema,
    value: &InputValueDefinition,
    faults: &mut Listed<DiagnosticData>,
) -> Result<(), Memory>
    ensures { OnOk result (faults.new ≡ faults.old ++ spec.default_faults schema.now value.now) }
{
    match &value.default_value {
        Some(default) => list_literal(
            alloc,
            Defined::TypesAndScalars,
            &schema.types,
            default,
            &value.ty,
            faults,
        ),
        None => Ok(()),
    }
}
