//! A schema is defined once (GraphQL October 2021, section 3.3).

ghost use Rattle.std.specs.Prelude.{◌≡◌, ◌++◌, IfOk, OnOk};
ghost use Rattle.gql_schema_build.specs.SchemaDefinitionCollision as spec;

use crate::fault::list_nameless;
use gql_ast::SchemaDefinition;
use gql_diag_messages::{DiagnosticData, Rule};
use jb_text::{Listed, Memory};
use std::alloc::Global;

/// The first `schema`, where there is one, and a fault for each other.
pub(crate) fn first_schema(
    alloc: Global,
    schemas: Listed<SchemaDefinition>,
    faults: &mut Listed<DiagnosticData>,
) -> Result<Option<SchemaDefinition>, Memory>
    ensures first { IfOk result (λ first. first ≡ spec.first_schema schemas) }
    ensures faults { OnOk result (faults.new ≡ faults.old ++ spec.schema_definition_collisions schemas) }
{
    let mut first = None;
    for schema in schemas {
        add_schema(alloc, &mut first, schema, faults)?;
    }
    Ok(first)
}

/// Takes a `schema` for the first, unless there is one: then it is a fault.
fn add_schema(
    alloc: Global,
    first: &mut Option<SchemaDefinition>,
    schema: SchemaDefinition,
    faults: &mut Listed<DiagnosticData>,
) -> Result<(), Memory>
    ensures first { OnOk result (first.new ≡ spec.with_schema first.old schema) }
    ensures faults { OnOk result (faults.new ≡ faults.old ++ spec.schema_definition_collision first.old schema) }
{
    match first {
        Some(known) => list_nameless(
            alloc,
            Rule::SchemaDefinitionCollision,
            schema.location,
            known.location,
            faults,
        ),
        None => {
            *first = Some(schema);
            Ok(())
        }
    }
}
