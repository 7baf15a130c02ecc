//! Executions that are told their operation, their variables, the implementers of interfaces, and whether introspection is on
//! (GraphQL October 2021, sections 4 and 6.1).

ghost use Rattle.gql_document_types.specs.Spreads.{AreAcyclic};
ghost use Rattle.gql_exec.specs.Execution as spec;

use crate::fixtures::{acyclic, document_of, object_of, printed, schema_of};
use crate::sample::Sample;
use bytes::Bytes;
use gql_diag::JsonMap;
use gql_document_types::ExecutableDocument;
use gql_exec::{Execution, partial_execute};
use gql_schema_types::{Schema, Valid};
use gql_source::FileIds;
use std::alloc::Global;
use std::test::Fail;

const SCHEMA: &str = "type Query { f(a: Int): Int g: Int }";

const QUERY: &str =
    "query A($v: Int!) { f(a: $v) } query B { g } query C { g Query: __type(name: \"Query\") { fields { name } } } query D { __type(name: 1) { name } }";

/// What an execution is told.
#[derive(Clone, Copy)]
enum Setting {
    Nothing,
    /// The operation `B`.
    Operation,
    /// The operation of a name.
    Name(&'static str),
    /// The operation `A`, and values that are coerced already.
    Coerced(&'static str),
    /// The operation `A`, and values that it coerces.
    Raw(&'static str),
    /// The operation of a name, with introspection on.
    Introspected(&'static str),
    /// The operation `C`, of which only what tells of the schema is asked.
    Partial,
}

const ROWS: &[(Setting, &str)] = &[
    (
        Setting::Nothing,
        r#"{"errors":[{"message":"document has 4 operations and no name was given"}]}"#,
    ),
    (Setting::Operation, r#"{"data":{"g":7}}"#),
    (
        Setting::Name("A"),
        r#"{"errors":[{"message":"missing value for non-null variable 'v'","locations":[{"line":1,"column":9}]}]}"#,
    ),
    (Setting::Name("B"), r#"{"data":{"g":7}}"#),
    (
        Setting::Name("E"),
        r#"{"errors":[{"message":"operation `E` is not defined"}]}"#,
    ),
    (
        Setting::Name("C"),
        r#"{"errors":[{"message":"resolver error: schema introspection is disabled","locations":[{"line":1,"column":65}],"path":["Query"]}],"data":{"g":7,"Query":null}}"#,
    ),
    (Setting::Coerced("{}"), r#"{"data":{"f":7}}"#),
    (Setting::Raw(r#"{"v":1}"#), r#"{"data":{"f":7}}"#),
    (
        Setting::Raw("{}"),
        r#"{"errors":[{"message":"missing value for non-null variable 'v'","locations":[{"line":1,"column":9}]}]}"#,
    ),
    (
        Setting::Introspected("C"),
        r#"{"data":{"g":7,"Query":{"fields":[{"name":"f"},{"name":"g"}]}}}"#,
    ),
    (
        Setting::Introspected("D"),
        r#"{"errors":[{"message":"resolver error: expected string argument `name`","locations":[{"line":1,"column":119}],"path":["__type"]}],"data":{"__type":null}}"#,
    ),
    (
        Setting::Partial,
        r#"{"data":{"Query":{"fields":[{"name":"f"},{"name":"g"}]}}}"#,
    ),
];

/// What an execution answers that is told this.
fn told(alloc: Global, setting: Setting) -> Result<Bytes, Fail> {
    let mut ids = FileIds::new();
    let schema = schema_of(alloc, SCHEMA, &mut ids)?;
    let held = document_of(alloc, &*schema, QUERY, &mut ids)?;
    let document = &*held;
    acyclic(alloc, document)?;
    told_on(alloc, &*schema, document, setting)
}

/// The same of this document on this schema.
fn told_on(
    alloc: Global,
    schema: &Valid<Schema>,
    document: &Valid<ExecutableDocument>,
    setting: Setting,
) -> Result<Bytes, Fail>
    requires { AreAcyclic document.now.fragments }
{
    match setting {
        Setting::Nothing => with_nothing(alloc, schema, document),
        Setting::Operation => by_operation(alloc, schema, document),
        Setting::Name(name) => by_name(alloc, schema, document, name),
        Setting::Coerced(values) => with_coerced(alloc, schema, document, values),
        Setting::Raw(values) => with_raw(alloc, schema, document, values),
        Setting::Introspected(name) => introspected(alloc, schema, document, name),
        Setting::Partial => partial(alloc, schema, document),
    }
}

/// What an execution answers that is told nothing.
fn with_nothing(
    alloc: Global,
    schema: &Valid<Schema>,
    document: &Valid<ExecutableDocument>,
) -> Result<Bytes, Fail>
    requires { AreAcyclic document.now.fragments }
{
    let execution = Execution::new(schema, document);
    let answer = execution.execute_sync(alloc, &Sample::Number(7));
    printed(alloc, &document.as_ref().sources, answer)
}

/// What the execution of the operation `B` answers.
fn by_operation(
    alloc: Global,
    schema: &Valid<Schema>,
    document: &Valid<ExecutableDocument>,
) -> Result<Bytes, Fail>
    requires { AreAcyclic document.now.fragments }
{
    let Ok(operation) = document.as_ref().operations_get(alloc, Some("B")) else {
        return Err("no operation")?;
    };
    let execution = Execution::new(schema, document).operation(operation);
    let answer = execution.execute_sync(alloc, &Sample::Number(7));
    printed(alloc, &document.as_ref().sources, answer)
}

/// What the execution answers whose variables have these values. It is told which types implement each interface.
fn with_coerced(
    alloc: Global,
    schema: &Valid<Schema>,
    document: &Valid<ExecutableDocument>,
    values: &str,
) -> Result<Bytes, Fail>
    requires { AreAcyclic document.now.fragments }
{
    let values = Valid::assume_valid(object_of(alloc, values)?);
    let implementers = schema.as_ref().implementers_map(alloc)?;
    let execution = Execution::new(schema, document)
        .implementers_map(&implementers)
        .coerced_variable_values(&values);
    named(alloc, execution, document, "A")
}

/// What the execution answers whose variables are given these values.
fn with_raw(
    alloc: Global,
    schema: &Valid<Schema>,
    document: &Valid<ExecutableDocument>,
    values: &str,
) -> Result<Bytes, Fail>
    requires { AreAcyclic document.now.fragments }
{
    let values = object_of(alloc, values)?;
    let execution = Execution::new(schema, document).raw_variable_values(&values);
    named(alloc, execution, document, "A")
}

/// What the execution of the operation of the name answers, with introspection on.
fn introspected(
    alloc: Global,
    schema: &Valid<Schema>,
    document: &Valid<ExecutableDocument>,
    name: &str,
) -> Result<Bytes, Fail>
    requires { AreAcyclic document.now.fragments }
{
    let execution = Execution::new(schema, document).enable_schema_introspection(true);
    named(alloc, execution, document, name)
}

/// The same with introspection off.
fn by_name(
    alloc: Global,
    schema: &Valid<Schema>,
    document: &Valid<ExecutableDocument>,
    name: &str,
) -> Result<Bytes, Fail>
    requires { AreAcyclic document.now.fragments }
{
    let execution = Execution::new(schema, document);
    named(alloc, execution, document, name)
}

/// What this execution answers where it is of the operation of the name.
fn named(
    alloc: Global,
    execution: Execution<'_>,
    document: &Valid<ExecutableDocument>,
    name: &str,
) -> Result<Bytes, Fail>
    requires no_operation { spec.HasNoOperation execution }
    requires acyclic { AreAcyclic execution.document.now.fragments }
{
    let sources = &document.as_ref().sources;
    match execution.operation_name(alloc, Some(name)) {
        Ok(execution) => printed(
            alloc,
            sources,
            execution.execute_sync(alloc, &Sample::Number(7)),
        ),
        Err(refused) => printed(alloc, sources, Err(refused)),
    }
}

/// What the operation `C` tells of the schema alone.
fn partial(
    alloc: Global,
    schema: &Valid<Schema>,
    document: &Valid<ExecutableDocument>,
) -> Result<Bytes, Fail>
    requires { AreAcyclic document.now.fragments }
{
    let Ok(operation) = document.as_ref().operations_get(alloc, Some("C")) else {
        return Err("no operation")?;
    };
    let implementers = schema.as_ref().implementers_map(alloc)?;
    let variables = Valid::assume_valid(JsonMap::new(alloc));
    let answer = partial_execute(
        alloc,
        schema,
        &implementers,
        document,
        operation,
        &variables,
    );
    printed(alloc, &document.as_ref().sources, answer)
}

/// The first row that is answered otherwise; no text where each row has its response.
fn told_otherwise(alloc: Global) -> Result<String, Fail> {
    for (setting, response) in ROWS {
        let bytes = told(alloc, *setting)?;
        if bytes.as_slice() != response.as_bytes() {
            return Ok(String::from_str(alloc, response)?);
        }
    }
    Ok(String::new(alloc))
}

#[test]
fn an_execution_is_of_what_it_is_told(rt: HostRuntime) -> Result<(), Fail> {
    let wrong = told_otherwise(rt.alloc())?;
    assert_eq!(rt; wrong.as_str(), "");
    Ok(())
}
