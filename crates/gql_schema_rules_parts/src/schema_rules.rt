//! What is wrong with a schema as a whole, and with its directives (GraphQL October 2021, sections 3.3 and 3.13).

ghost use Rattle.std.specs.Prelude.{◌≡◌, ◌++◌, OnOk};
ghost use Rattle.gql_schema_rules_parts.specs.SchemaRules as spec;

use crate::duplicate_root_operation_type::list_duplicate_root_operation_type;
use crate::input_values::list_arguments_definition;
use crate::query_root_operation_type::list_query_root_operation_type;
use crate::reserved_name::list_reserved_name;
use crate::root_operation_object_type::list_root_operation_object_type;
use crate::undefined_definition::list_undefined_definition;
use gql_ast::{DirectiveDefinition, DirectiveLocation};
use gql_ast_base::{Name, OperationType};
use gql_diag_messages::DiagnosticData;
use gql_rules_values::{Defined, is_written, list_directives};
use gql_schema_types::Schema;
use jb_text::{Listed, Memory};
use std::alloc::Global;

/// Lists what is wrong with the schema as a whole: its directives and its root types. `Err` only when out of memory.
pub fn list_schema_definition(
    alloc: Global,
    schema: &Schema,
    faults: &mut Listed<DiagnosticData>,
) -> Result<(), Memory>
    ensures { OnOk result (faults.new ≡ faults.old ++ spec.schema_definition_faults schema.now) }
{
    list_directives(
        alloc,
        Defined::TypesAndScalars,
        schema,
        DirectiveLocation::Schema,
        schema.schema_definition.directives.as_slice(),
        faults,
    )?;
    list_query_root_operation_type(alloc, &schema.schema_definition, faults)?;
    list_roots(alloc, schema, faults)?;
    list_duplicate_root_operation_type(alloc, schema, faults)
}

/// Lists what is wrong with the root types, each by itself.
fn list_roots(
    alloc: Global,
    schema: &Schema,
    faults: &mut Listed<DiagnosticData>,
) -> Result<(), Memory>
    ensures { OnOk result (faults.new ≡ faults.old ++ spec.roots_faults schema.now) }
{
    list_root(alloc, schema, OperationType::Query, faults)?;
    list_root(alloc, schema, OperationType::Mutation, faults)?;
    list_root(alloc, schema, OperationType::Subscription, faults)
}

/// Lists what is wrong with the root type of such operations, if there is one.
fn list_root(
    alloc: Global,
    schema: &Schema,
    operation_type: OperationType,
    faults: &mut Listed<DiagnosticData>,
) -> Result<(), Memory>
    ensures { OnOk result (faults.new ≡ faults.old ++ spec.root_faults schema.now operation_type) }
{
    match schema.schema_definition.root_operation(operation_type) {
        Some(name) => list_root_name(alloc, schema, name, faults),
        None => Ok(()),
    }
}

fn list_root_name(
    alloc: Global,
    schema: &Schema,
    name: &Name,
    faults: &mut Listed<DiagnosticData>,
) -> Result<(), Memory>
    ensures { OnOk result (faults.new ≡ faults.old ++ spec.root_name_faults schema.now name.now) }
{
    list_undefined_definition(alloc, &schema.types, name, faults)?;
    list_root_operation_object_type(alloc, &schema.types, name, faults)
}

/// Lists what is wrong with the definitions of directives that are not built in. `Err` only when out of memory.
pub fn list_directive_definitions(
    alloc: Global,
    schema: &Schema,
    faults: &mut Listed<DiagnosticData>,
) -> Result<(), Memory>
    ensures { OnOk result (faults.new ≡ faults.old ++ spec.directive_definitions_faults schema.now) }
{
    for definition in schema.directive_definitions.as_slice() {
        list_directive_definition(alloc, schema, definition, faults)?;
    }
    Ok(())
}

fn list_directive_definition(
    alloc: Global,
    schema: &Schema,
    definition: &DirectiveDefinition,
    faults: &mut Listed<DiagnosticData>,
) -> Result<(), Memory>
    ensures { OnOk result (faults.new ≡ faults.old ++ spec.directive_definition_faults schema.now definition.now) }
{
    if !is_written(definition.location) {
        return Ok(());
    }
    list_reserved_name(alloc, &definition.name, faults)?;
    list_arguments_definition(alloc, schema, definition.arguments.as_slice(), faults)
}
