//! Variables in defaults, which no text can have there (GraphQL October 2021, sections 6.1.2 and 6.4.1): each default is a literal
//! that stands as an argument in a query.

use crate::fixtures::{document_of, schema_of};
use crate::inputs::calls::{SCHEMA, arguments_by, variables_of};
use bytes::Bytes;
use gql_ast::{FieldDefinition, VariableDefinition};
use gql_ast_base::{Copying, Value};
use gql_diag::JsonMap;
use gql_document_types::{Field, Operation};
use gql_schema_types::{Schema, Valid};
use gql_source::FileIds;
use jb_text::{Listed, Memory};
use std::alloc::Global;
use std::mem::ManuallyDrop;
use std::test::Fail;

/// Queries that define a variable, and whose field has a literal as its argument.
const QUERIES: &[&str] = &[
    "query($v: S) { f(a: $w) }",
    "query($v: S!) { f(a: [1, $w]) }",
    "query($v: [[S]]) { f(a: [{k: [$w]}]) }",
];

/// What has the default.
#[derive(Clone, Copy)]
enum Holder {
    Variable,
    Argument,
}

/// What is coerced of no values where the literal of a query is this one's default, or why nothing is.
fn coerced(alloc: Global, holder: Holder, query: &str) -> Result<Bytes, Fail> {
    let mut ids = FileIds::new();
    let schema = schema_of(alloc, SCHEMA, &mut ids)?;
    let document = document_of(alloc, &*schema, query, &mut ids)?;
    let document = document.as_ref();
    let operation = document
        .operations
        .as_slice()
        .first()
        .ok_or("no operation")?;
    let fields = operation.root_fields(alloc, document)?;
    let field = fields.as_slice().first().ok_or("no field")?;
    let argument = field.arguments.as_slice().first().ok_or("no argument")?;
    match holder {
        Holder::Variable => coerced_variable(alloc, &*schema, operation, &argument.value),
        Holder::Argument => coerced_argument(alloc, &*schema, field, &argument.value),
    }
}

/// The variables where this is the default of the first.
fn coerced_variable(
    alloc: Global,
    schema: &Valid<Schema>,
    operation: &Operation,
    literal: &Value,
) -> Result<Bytes, Fail> {
    let definition = operation.variables.as_slice().first().ok_or("no variable")?;
    let definitions = defaulting_variable(alloc, definition, literal)?;
    variables_of(alloc, schema, &definitions, &JsonMap::new(alloc))
}

/// This definition alone, with this default.
fn defaulting_variable(
    alloc: Global,
    definition: &VariableDefinition,
    literal: &Value,
) -> Result<ManuallyDrop<Listed<VariableDefinition>>, Memory> {
    let mut definition = definition.copy(alloc)?;
    definition.default_value = Some(literal.copy(alloc)?);
    let mut definitions = Listed::new(alloc);
    definitions.push(definition)?;
    Ok(ManuallyDrop::new(definitions))
}

/// The arguments of the field that is given none, where this is the default of the first.
fn coerced_argument(
    alloc: Global,
    schema: &Valid<Schema>,
    field: &Field,
    literal: &Value,
) -> Result<Bytes, Fail> {
    let definition = defaulting_field(alloc, &field.definition, literal)?;
    let variables = Valid::assume_valid(JsonMap::new(alloc));
    arguments_by(alloc, schema, &definition, &Listed::new(alloc), &variables)
}

/// This definition, with this default of the first argument.
fn defaulting_field(
    alloc: Global,
    definition: &FieldDefinition,
    literal: &Value,
) -> Result<ManuallyDrop<FieldDefinition>, Memory> {
    let mut definition = definition.copy(alloc)?;
    if let Some(argument) = definition.arguments.get_mut(0) {
        argument.default_value = Some(literal.copy(alloc)?);
    }
    Ok(ManuallyDrop::new(definition))
}

#[test]
fn a_default_of_a_variable_has_no_variable(rt: HostRuntime) -> Result<(), Fail> {
    for query in QUERIES {
        let found = coerced(rt.alloc(), Holder::Variable, query)?;
        let wanted = "suspected: variable in default value of default value of variable v.";
        assert_eq!(rt; found.as_slice(), wanted.as_bytes(), "{query:?}");
    }
    Ok(())
}

#[test]
fn a_default_of_an_argument_has_no_variable(rt: HostRuntime) -> Result<(), Fail> {
    for query in QUERIES {
        let found = coerced(rt.alloc(), Holder::Argument, query)?;
        let wanted = "suspected: variable in default value of argument a.";
        assert_eq!(rt; found.as_slice(), wanted.as_bytes(), "{query:?}");
    }
    Ok(())
}
