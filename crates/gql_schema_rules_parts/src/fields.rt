//! What is wrong with fields and with values of enums where they are defined (GraphQL October 2021, sections 3.6, 3.7 and
//! 3.9).

ghost use Rattle.std.specs.Prelude.{◌≡◌, ◌++◌, OnOk};
ghost use Rattle.gql_schema_rules_parts.specs.Fields as spec;

use crate::input_values::list_arguments_definition;
use crate::output_type::list_output_type;
use crate::reserved_name::list_reserved_name;
use crate::undefined_definition::list_undefined_definition;
use gql_ast::{DirectiveLocation, EnumValueDefinition, FieldDefinition};
use gql_diag_messages::DiagnosticData;
use gql_rules_values::{Defined, is_written, list_directives};
use gql_schema_types::{Schema, Shared};
use jb_text::{Listed, Memory};
use std::alloc::Global;

/// Lists what is wrong with the fields that are not built in.
pub(crate) fn list_fields(
    alloc: Global,
    schema: &Schema,
    fields: &[Shared<FieldDefinition>],
    faults: &mut Listed<DiagnosticData>,
) -> Result<(), Memory>
    ensures { OnOk result (faults.new ≡ faults.old ++ spec.fields_faults schema.now fields.now) }
{
    for field in fields {
        list_field(alloc, schema, field, faults)?;
    }
    Ok(())
}

/// Lists what is wrong with a field, if it is not built in.
fn list_field(
    alloc: Global,
    schema: &Schema,
    field: &FieldDefinition,
    faults: &mut Listed<DiagnosticData>,
) -> Result<(), Memory>
    ensures { OnOk result (faults.new ≡ faults.old ++ spec.field_faults schema.now field.now) }
{
    if is_written(field.location) {
        list_written_field(alloc, schema, field, faults)
    } else {
        Ok(())
    }
}

/// Lists what is wrong with a field.
fn list_written_field(
    alloc: Global,
    schema: &Schema,
    field: &FieldDefinition,
    faults: &mut Listed<DiagnosticData>,
) -> Result<(), Memory>
    ensures { OnOk result (faults.new ≡ faults.old ++ spec.written_field_faults schema.now field.now) }
{
    list_reserved_name(alloc, &field.name, faults)?;
    list_type(alloc, schema, field, faults)?;
    list_parts(alloc, schema, field, faults)
}

/// Lists what is wrong with the type of a field.
fn list_type(
    alloc: Global,
    schema: &Schema,
    field: &FieldDefinition,
    faults: &mut Listed<DiagnosticData>,
) -> Result<(), Memory>
    ensures { OnOk result (faults.new ≡ faults.old ++ spec.type_faults schema.now field.now) }
{
    list_undefined_definition(alloc, &schema.types, field.ty.inner_named_type(), faults)?;
    list_output_type(alloc, &schema.types, field, faults)
}

/// Lists what is wrong with the arguments and the directives of a field.
fn list_parts(
    alloc: Global,
    schema: &Schema,
    field: &FieldDefinition,
    faults: &mut Listed<DiagnosticData>,
) -> Result<(), Memory>
    ensures { OnOk result (faults.new ≡ faults.old ++ spec.parts_faults schema.now field.now) }
{
    list_arguments_definition(alloc, schema, field.arguments.as_slice(), faults)?;
    list_directives(
        alloc,
        Defined::TypesAndScalars,
        schema,
        DirectiveLocation::FieldDefinition,
        field.directives.as_slice(),
        faults,
    )
}

/// Lists what is wrong with the values of an enum that are not built in.
pub(crate) fn list_values(
    alloc: Global,
    schema: &Schema,
    values: &[EnumValueDefinition],
    faults: &mut Listed<DiagnosticData>,
) -> Result<(), Memory>
    ensures { OnOk result (faults.new ≡ faults.old ++ spec.values_faults schema.now values.now) }
{
    for value in values {
        list_value(alloc, schema, value, faults)?;
    }
    Ok(())
}

/// Lists what is wrong with a value of an enum, if it is not built in.
fn list_value(
    alloc: Global,
    schema: &Schema,
    value: &EnumValueDefinition,
    faults: &mut Listed<DiagnosticData>,
) -> Result<(), Memory>
    ensures { OnOk result (faults.new ≡ faults.old ++ spec.value_faults schema.now value.now) }
{
    if !is_written(value.location) {
        return Ok(());
    }
    list_reserved_name(alloc, &value.value, faults)?;
    list_directives(
        alloc,
        Defined::TypesAndScalars,
        schema,
        DirectiveLocation::EnumValue,
        value.directives.as_slice(),
        faults,
    )
}
