//! All that is wrong with a schema.

ghost use Rattle.std.specs.Prelude.{◌≡◌, List, IfOk};
ghost use Rattle.gql_schema_rules.specs.SchemaFaults as spec;

use crate::recursive_directive_definition::list_recursive_directives;
use crate::recursive_input_object_definition::list_recursive_input_objects;
use crate::recursive_interface_definition::list_recursive_interfaces;
use gql_diag_messages::DiagnosticData;
use gql_schema_rules_parts::{
    list_directive_definitions, list_interfaces, list_schema_definition, list_types,
};
use gql_schema_types::Schema;
use jb_text::{Listed, Memory};
use std::alloc::Global;

/// What is wrong with a schema: one diagnostic for each fault of each rule. `Err` only when out of memory.
pub(crate) fn schema_faults(
    alloc: Global,
    schema: &Schema,
) -> Result<Listed<DiagnosticData>, Memory>
    ensures { IfOk result (λ faults. spec.AreSchemaFaults schema.now faults) }
{
    let mut faults = parts_faults(alloc, schema)?;
    list_recursive_interfaces(alloc, &schema.types, &mut faults)?;
    list_recursive_input_objects(alloc, &schema.types, &mut faults)?;
    list_recursive_directives(
        alloc,
        &schema.directive_definitions,
        &schema.types,
        &mut faults,
    )?;
    Ok(faults)
}

/// What is wrong with the parts of a schema, each by itself or beside the interfaces that it lists.
fn parts_faults(alloc: Global, schema: &Schema) -> Result<Listed<DiagnosticData>, Memory>
    ensures { IfOk result (λ faults. faults ≡ spec.parts_faults schema.now) }
{
    let mut faults = Listed::new(alloc);
    list_schema_definition(alloc, schema, &mut faults)?;
    list_directive_definitions(alloc, schema, &mut faults)?;
    list_types(alloc, schema, &mut faults)?;
    list_interfaces(alloc, &schema.types, &mut faults)?;
    Ok(faults)
}
