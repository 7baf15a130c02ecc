//! An operation type has one root type (GraphQL October 2021, section 3.3.1).

ghost use Rattle.std.specs.Prelude.{◌≡◌, ◌++◌, OnOk, fold};
ghost use Rattle.gql_schema_build.specs.DuplicateRootOperation as spec;
ghost use Rattle.gql_schema_build.specs.Roots.{root_put, with_root};

use crate::fault::list_word;
use gql_ast_base::{Name, OperationType};
use gql_diag_messages::{DiagnosticData, Rule};
use gql_schema_types::SchemaDefinition;
use jb_text::{Listed, Memory};
use std::alloc::Global;

/// Adds root types to the definition of a schema, of each operation type the first, and a fault for each other.
pub(crate) fn add_roots(
    alloc: Global,
    definition: &mut SchemaDefinition,
    roots: Listed<(OperationType, Name)>,
    faults: &mut Listed<DiagnosticData>,
) -> Result<(), Memory>
    ensures definition { OnOk result (definition.new ≡ fold with_root definition.old roots) }
    ensures faults { OnOk result (faults.new ≡ faults.old ++ spec.duplicate_root_operations definition.old roots) }
{
    for (operation_type, name) in roots {
        add_root(alloc, definition, operation_type, name, faults)?;
    }
    Ok(())
}

/// Adds a root type, unless its operation type has one: then it is a fault.
fn add_root(
    alloc: Global,
    definition: &mut SchemaDefinition,
    operation_type: OperationType,
    name: Name,
    faults: &mut Listed<DiagnosticData>,
) -> Result<(), Memory>
    ensures definition { OnOk result (definition.new ≡ with_root definition.old (operation_type, name)) }
    ensures faults { OnOk result (faults.new ≡ faults.old ++ spec.duplicate_root_operation definition.old (operation_type, name)) }
{
    match definition.root_operation(operation_type) {
        Some(first) => list_word(
            alloc,
            Rule::DuplicateRootOperation,
            keyword(operation_type),
            name.location(),
            first.location(),
            faults,
        ),
        None => {
            put_root(definition, operation_type, name);
            Ok(())
        }
    }
}

/// Makes this the root type of the operation type.
fn put_root(definition: &mut SchemaDefinition, operation_type: OperationType, name: Name)
    ensures { definition.new ≡ root_put operation_type name definition.old }
{
    match operation_type {
        OperationType::Query => definition.query = Some(name),
        OperationType::Mutation => definition.mutation = Some(name),
        OperationType::Subscription => definition.subscription = Some(name),
    }
}

/// The word of the operation type.
fn keyword(operation_type: OperationType) -> &'static str
    ensures { result.now ≡ spec.keyword operation_type }
{
    match operation_type {
        OperationType::Query => "query",
        OperationType::Mutation => "mutation",
        OperationType::Subscription => "subscription",
    }
}
