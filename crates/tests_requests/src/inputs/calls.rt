//! The calls that coerce variables and arguments, each by itself (GraphQL October 2021, sections 6.1.2 and 6.4.1).

use crate::fixtures::{bytes_of, document_of, object_of, schema_of};
use bytes::Bytes;
use gql_ast::{FieldDefinition, VariableDefinition};
use gql_ast_base::Argument;
use gql_coerce::{ArgumentFault, InputCoercionError, coerce_arguments, coerce_variables};
use gql_collect::coerce_variable_values;
use gql_diag::{JsonMap, RequestError};
use gql_document_types::{ExecutableDocument, Operation};
use gql_schema_types::{Schema, Valid};
use gql_source::FileIds;
use jb_print::append_object;
use jb_text::{Listed, Memory, Refused, Text};
use std::alloc::Global;
use std::test::Fail;

/// There is no type `X`.
pub(crate) const SCHEMA: &str =
    "type Query { f(a: [[Int]], b: Int! = 2, c: S): Int g(x: X): Int } scalar S";

/// Queries, the values that their variables are given, and the variables, or why there are none.
const VARIABLES: &[(&str, &str, &str)] = &[
    ("query($v: [[Int]]) { f }", r#"{"v":1}"#, r#"{"v":[[1]]}"#),
    (
        "query($v: [[Int]]) { f }",
        r#"{"v":[1,2]}"#,
        r#"{"v":[[1],[2]]}"#,
    ),
    (
        "query($a: Int = 3, $b: Int, $c: Int!) { f }",
        r#"{"z":1,"c":4}"#,
        r#"{"a":3,"c":4}"#,
    ),
    (
        "query($v: Int!) { f }",
        "{}",
        "missing value for non-null variable 'v'",
    ),
    (
        "query($v: [Int]) { f }",
        r#"{"v":["x"]}"#,
        r#"could not coerce variable v: "x" to type Int"#,
    ),
    (
        "query($v: X) { f }",
        r#"{"v":1}"#,
        "suspected: undefined type X for variable v",
    ),
];

/// Queries, the values of their variables, and the arguments of the first field, or why there are none.
const ARGUMENTS: &[(&str, &str, &str)] = &[
    ("{ f }", "{}", r#"{"b":2}"#),
    (
        "{ f(c: {k: RED}, b: $v, a: 1) }",
        r#"{"v":5}"#,
        r#"{"a":[[1]],"b":5,"c":{"k":"RED"}}"#,
    ),
    (
        "{ f(b: $v, a: [[$w], $v]) }",
        r#"{"w":7}"#,
        r#"{"a":[[7],null],"b":2}"#,
    ),
    (
        "{ f(b: null) }",
        "{}",
        "null value for non-nullable argument b",
    ),
    (
        "{ f(a: [1.5]) }",
        "{}",
        "float value overflow in argument a",
    ),
    (
        "{ f(c: [$v]) }",
        "{}",
        "suspected: variable in default value of argument c.",
    ),
    (
        "{ g(x: 1) }",
        "{}",
        "suspected: undefined type X for argument x",
    ),
];

/// A sentence, and whether it is told as a suspected fault of validation.
fn told(alloc: Global, message: &Text, suspected: bool) -> Result<Bytes, Memory> {
    let mut text = String::new(alloc);
    if suspected {
        text.push_str("suspected: ")?;
    }
    text.push_str(message.as_str())?;
    bytes_of(alloc, text.as_str())
}

/// Values as they are printed.
fn printed(alloc: Global, values: &JsonMap) -> Result<Bytes, Memory> {
    let mut text = String::new(alloc);
    append_object(&mut text, values)?;
    bytes_of(alloc, text.as_str())
}

/// The variables that definitions make of values, or why there are none.
pub(crate) fn variables_of(
    alloc: Global,
    schema: &Valid<Schema>,
    definitions: &Listed<VariableDefinition>,
    values: &JsonMap,
) -> Result<Bytes, Fail> {
    match coerce_variables(alloc, schema, definitions, values) {
        Ok(made) => Ok(printed(alloc, made.as_ref())?),
        Err(Refused::Fault(InputCoercionError::SuspectedValidationBug { message, .. })) => {
            Ok(told(alloc, &message, true)?)
        }
        Err(Refused::Fault(InputCoercionError::ValueError { message, .. })) => {
            Ok(told(alloc, &message, false)?)
        }
        Err(Refused::Memory) => Err("no memory")?,
    }
}

/// The same of the operation.
fn operation_variables(
    alloc: Global,
    schema: &Valid<Schema>,
    operation: &Operation,
    values: &JsonMap,
) -> Result<Bytes, Fail> {
    match coerce_variable_values(alloc, schema, operation, values) {
        Ok(made) => Ok(printed(alloc, made.as_ref())?),
        Err(Refused::Fault(error)) => Ok(told(
            alloc,
            &error.message,
            error.is_suspected_validation_bug,
        )?),
        Err(Refused::Memory) => Err("no memory")?,
    }
}

/// The arguments of the first field of the operation.
fn arguments_of(
    alloc: Global,
    schema: &Valid<Schema>,
    document: &ExecutableDocument,
    operation: &Operation,
    values: &JsonMap,
) -> Result<Bytes, Fail> {
    let fields = operation.root_fields(alloc, document)?;
    let field = fields.as_slice().first().ok_or("no field")?;
    let values = Valid::assume_valid(values.copy(alloc)?);
    arguments_by(alloc, schema, &field.definition, &field.arguments, &values)
}

/// The arguments that a definition makes of these and of the values of variables, or why there are none.
pub(crate) fn arguments_by(
    alloc: Global,
    schema: &Valid<Schema>,
    definition: &FieldDefinition,
    arguments: &Listed<Argument>,
    values: &Valid<JsonMap>,
) -> Result<Bytes, Fail> {
    match coerce_arguments(alloc, schema, definition, arguments, values) {
        Ok(made) => Ok(printed(alloc, &made)?),
        Err(
            Refused::Fault(
                ArgumentFault {
                    message,
                    suspected,
                    ..
                },
            ),
        ) => Ok(told(alloc, &message, suspected)?),
        Err(Refused::Memory) => Err("no memory")?,
    }
}

/// Which call is made.
#[derive(Clone, Copy)]
enum Call {
    Definitions,
    Operation,
    Arguments,
}

/// What a call makes of a query and values.
fn called(alloc: Global, call: Call, query: &str, values: &str) -> Result<Bytes, Fail> {
    let mut ids = FileIds::new();
    let schema = schema_of(alloc, SCHEMA, &mut ids)?;
    let document = document_of(alloc, &*schema, query, &mut ids)?;
    let values = object_of(alloc, values)?;
    let document = document.as_ref();
    let operation = document
        .operations
        .as_slice()
        .first()
        .ok_or("no operation")?;
    match call {
        Call::Definitions => variables_of(alloc, &*schema, &operation.variables, &values),
        Call::Operation => operation_variables(alloc, &*schema, operation, &values),
        Call::Arguments => arguments_of(alloc, &*schema, document, operation, &values),
    }
}

#[test]
fn definitions_make_variables(rt: HostRuntime) -> Result<(), Fail> {
    for (query, values, answer) in VARIABLES {
        let found = called(rt.alloc(), Call::Definitions, query, values)?;
        assert_eq!(rt; found.as_slice(), answer.as_bytes(), "{query:?}");
    }
    Ok(())
}

#[test]
fn operations_make_variables(rt: HostRuntime) -> Result<(), Fail> {
    for (query, values, answer) in VARIABLES {
        let found = called(rt.alloc(), Call::Operation, query, values)?;
        assert_eq!(rt; found.as_slice(), answer.as_bytes(), "{query:?}");
    }
    Ok(())
}

#[test]
fn fields_have_arguments(rt: HostRuntime) -> Result<(), Fail> {
    for (query, values, answer) in ARGUMENTS {
        let found = called(rt.alloc(), Call::Arguments, query, values)?;
        assert_eq!(rt; found.as_slice(), answer.as_bytes(), "{query:?}");
    }
    Ok(())
}
