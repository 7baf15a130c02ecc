//! The operations of a document, made of those of its text.

ghost use Rattle.std.specs.Prelude.{◌≡◌, ◌++◌, IfOk, OnOk};
ghost use Rattle.gql_document.specs.Build as spec;

use crate::ambiguous_anonymous_operation::{are_several, is_ambiguous};
use crate::built_selections::built_set;
use gql_ast::OperationDefinition;
use gql_ast_base::{Copying, Name};
use gql_document_types::Operation;
use gql_schema_types::Schema;
use jb_text::{Listed, Memory};
use std::alloc::Global;

/// The operations that distinct ones make: not one without a name among several, and not one without a root type.
pub(crate) fn built_operations(
    alloc: Global,
    schema: &Schema,
    operations: Listed<OperationDefinition>,
) -> Result<Listed<Operation>, Memory>
    ensures { IfOk result (λ made. made ≡ spec.built_operations schema.now operations) }
{
    let several = are_several(&operations);
    let mut made = Listed::new(alloc);
    for operation in operations {
        add_operation(alloc, schema, several, operation, &mut made)?;
    }
    Ok(made)
}

/// Adds what an operation makes, of which there may be several.
fn add_operation(
    alloc: Global,
    schema: &Schema,
    several: bool,
    operation: OperationDefinition,
    made: &mut Listed<Operation>,
) -> Result<(), Memory>
    ensures { OnOk result (made.new ≡ made.old ++ spec.built_operation schema.now several operation) }
{
    if is_ambiguous(several, &operation) {
        return Ok(());
    }
    match schema
        .schema_definition
        .root_operation(operation.operation_type)
    {
        Some(root) => made.push(operation_on(alloc, schema, root, operation)?),
        None => Ok(()),
    }
}

/// What an operation makes on its root type.
fn operation_on(
    alloc: Global,
    schema: &Schema,
    root: &Name,
    operation: OperationDefinition,
) -> Result<Operation, Memory>
    ensures { IfOk result (λ made. made ≡ spec.operation_on schema.now root.now operation) }
{
    let selection_set = built_set(alloc, schema, root.copy(alloc)?, operation.selection_set)?;
    Ok(Operation {
        operation_type: operation.operation_type,
        name: operation.name,
        variables: operation.variables,
        directives: operation.directives,
        selection_set,
        location: operation.location,
    })
}
