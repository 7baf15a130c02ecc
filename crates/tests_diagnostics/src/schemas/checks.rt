//! What is wrong with single literals, arguments and directives (GraphQL October 2021, sections 5.4, 5.6 and 5.7).

ghost use Rattle.std.specs.Prelude.{◌^◌, ◌<◌};

use crate::schemas::settling::built;
use crate::schemas::told_list;
use gql_ast::DirectiveLocation;
use gql_ast_base::Argument;
use gql_diag::DiagnosticList;
use gql_document_types::{ExecutableDocument, Field, Selection};
use gql_parser::Parser;
use gql_schema_rules::{check_arguments, check_directives, check_literal};
use gql_schema_types::{Schema, Valid};
use gql_source::{FileIds, SourceMap};
use std::alloc::Global;
use std::mem::{ManuallyDrop, forget};
use std::test::Fail;

const SCHEMA: &str =
    "type Query { f(a: Int, e: E, s: String!): Int } enum E { A } directive @d(x: Int) on FIELD";

const QUERY: &str = "{ f(a: 3000000000 b: 1 e: B) @d(x: \"1\") @d @include(x: $v) }";

/// What is wrong with the first argument's literal at its type, with the arguments of the field, and with its directives.
const WRONG: [&str; 3] = [
    r#"{"errors":[{"message":"int cannot represent value `3000000000`"}]}"#,
    r#"{"errors":[{"message":"the required argument `s` is not provided"},{"message":"int cannot represent value `3000000000`"},{"message":"the argument `b` is not supported by `f`"},{"message":"value `B` does not exist on `E`"}]}"#,
    r#"{"errors":[{"message":"expected value of type Int, found \"1\""},{"message":"non-repeatable directive `@d` is used more than once"},{"message":"the required argument `if` is not provided"},{"message":"the argument `x` is not supported by `include`"}]}"#,
];

/// What the text of a document stands for, whether its rules hold or not.
fn document_of(
    alloc: Global,
    schema: &Valid<Schema>,
    text: &str,
    ids: &mut FileIds,
) -> Result<ManuallyDrop<ExecutableDocument>, Fail>
    requires { ids.old < 2 ^ 63 }
{
    match Parser::new().parse_executable(alloc, schema, text, "query.graphql", ids) {
        Ok(document) => Ok(ManuallyDrop::new(document)),
        Err(refused) => {
            forget(refused);
            Err("the document is not built")?
        }
    }
}

/// The field that a document's first operation selects first.
fn first_field(document: &ExecutableDocument) -> Result<&Field, Fail> {
    match document.operations.as_slice().first() {
        Some(operation) => match operation.selection_set.selections.as_slice().first() {
            Some(Selection::Field(field)) => Ok(field),
            _ => Err("no field")?,
        },
        None => Err("no operation")?,
    }
}

/// Lists what is wrong with the value of an argument at the type of the first argument that the field's definition has.
fn check_value(
    alloc: Global,
    schema: &Schema,
    field: &Field,
    argument: &Argument,
    errors: &mut DiagnosticList,
) -> Result<(), Fail> {
    match field.definition.arguments.as_slice().first() {
        Some(definition) => {
            check_literal(alloc, schema, &definition.ty, &argument.value, errors)?;
            Ok(())
        }
        None => Err("no definition")?,
    }
}

/// Lists what is wrong with the value of the first argument, or with all arguments, or with the directives.
fn check(
    alloc: Global,
    schema: &Schema,
    field: &Field,
    number: usize,
    errors: &mut DiagnosticList,
) -> Result<(), Fail> {
    match (number, field.arguments.as_slice().first()) {
        (0, Some(argument)) => check_value(alloc, schema, field, argument, errors),
        (1, _) => {
            let definitions = &field.definition.arguments;
            check_arguments(
                alloc,
                schema,
                &field.name,
                field.location,
                definitions,
                &field.arguments,
                errors,
            )?;
            Ok(())
        }
        _ => {
            check_directives(
                alloc,
                schema,
                &field.directives,
                DirectiveLocation::Field,
                errors,
            )?;
            Ok(())
        }
    }
}

#[test]
fn parts_are_checked_by_themselves(rt: HostRuntime) -> Result<(), Fail> {
    let alloc = rt.alloc();
    let mut ids = FileIds::new();
    let schema = ManuallyDrop::into_inner(built(alloc, SCHEMA, &mut ids)?);
    let schema = ManuallyDrop::new(Valid::assume_valid(schema));
    let document = document_of(alloc, &schema, QUERY, &mut ids)?;
    let field = first_field(&document)?;
    for number in 0..WRONG.len() {
        let mut errors = DiagnosticList::new(alloc, SourceMap::new(alloc));
        check(alloc, schema.as_ref(), field, number, &mut errors)?;
        let found = told_list(alloc, errors)?;
        assert_eq!(rt; found.as_str(), WRONG[number]);
    }
    Ok(())
}
