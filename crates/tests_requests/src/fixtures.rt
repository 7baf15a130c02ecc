//! Schemas, documents and objects of the tests, and answers as texts.

ghost use Rattle.std.specs.Prelude.{◌≡◌, ◌+◌, ◌^◌, ◌<◌, OnOk};
ghost use Rattle.gql_document_types.specs.Spreads.{AreAcyclic};

use bytes::Bytes;
use gql_diag::{ExecutionResponse, JsonMap, JsonValue, RequestError, refusal_of_request};
use gql_document_types::ExecutableDocument;
use gql_exec::Execution;
use gql_parser::Parser;
use gql_resolvers::ObjectValue;
use gql_schema_types::{Schema, Valid};
use gql_source::{FileIds, SourceMap};
use jb_read::from_str;
use jb_text::{Memory, Refused};
use std::alloc::Global;
use std::mem::{ManuallyDrop, forget};
use std::str::from_utf8;
use std::test::Fail;

/// What the text of a schema stands for, whether its rules hold or not.
pub(crate) fn schema_of(
    alloc: Global,
    text: &str,
    ids: &mut FileIds,
) -> Result<ManuallyDrop<Valid<Schema>>, Fail>
    requires { ids.old < 2 ^ 63 }
    ensures { ids.new ≡ ids.old + 1 }
{
    match Parser::new().parse_schema(alloc, text, "schema.graphql", ids) {
        Ok(schema) => Ok(ManuallyDrop::new(Valid::assume_valid(schema))),
        Err(refused) => {
            forget(refused);
            Err("the schema is not built")?
        }
    }
}

/// What the text of a document stands for, whether its rules hold or not.
pub(crate) fn document_of(
    alloc: Global,
    schema: &Valid<Schema>,
    text: &str,
    ids: &mut FileIds,
) -> Result<ManuallyDrop<Valid<ExecutableDocument>>, Fail>
    requires { ids.old < 2 ^ 63 }
{
    match Parser::new().parse_executable(alloc, schema, text, "query.graphql", ids) {
        Ok(document) => Ok(ManuallyDrop::new(Valid::assume_valid(document))),
        Err(refused) => {
            forget(refused);
            Err("the document is not built")?
        }
    }
}

/// The object that a text spells.
pub(crate) fn object_of(alloc: Global, text: &str) -> Result<JsonMap, Fail> {
    match from_str(alloc, text) {
        Ok(JsonValue::Object(members)) => Ok(members),
        _ => Err("not an object")?,
    }
}

/// What is answered to a query on a schema whose variables are given these values, each field asked of this object, with
/// introspection off.
pub(crate) fn response_to<O: ObjectValue>(
    alloc: Global,
    schema: &str,
    query: &str,
    variables: &str,
    object: &O,
) -> Result<Bytes, Fail> {
    let mut ids = FileIds::new();
    let schema = schema_of(alloc, schema, &mut ids)?;
    let document = document_of(alloc, &*schema, query, &mut ids)?;
    let variables = object_of(alloc, variables)?;
    executed(alloc, &*schema, &*document, &variables, object)
}

/// The same of this document.
fn executed<O: ObjectValue>(
    alloc: Global,
    schema: &Valid<Schema>,
    document: &Valid<ExecutableDocument>,
    variables: &JsonMap,
    object: &O,
) -> Result<Bytes, Fail> {
    acyclic(alloc, document)?;
    let execution = Execution::new(schema, document).raw_variable_values(variables);
    let answer = execution.execute_sync(alloc, object);
    printed(alloc, &document.as_ref().sources, answer)
}

/// Fails where a fragment leads back to itself.
pub(crate) fn acyclic(alloc: Global, document: &Valid<ExecutableDocument>) -> Result<(), Fail>
    ensures { OnOk result (AreAcyclic document.now.fragments) }
{
    if document.as_ref().fragments_acyclic(alloc)? {
        return Ok(());
    }
    Err("a fragment leads back to itself")?
}

/// A response as it is printed, or the refusal, which is `no memory` where memory ran out.
pub(crate) fn printed(
    alloc: Global,
    sources: &SourceMap,
    answer: Result<ExecutionResponse, Refused<RequestError>>,
) -> Result<Bytes, Fail> {
    match answer {
        Ok(response) => Ok(response.to_bytes(alloc)?),
        Err(Refused::Fault(error)) => Ok(refusal_of_request(alloc, &error, sources)?),
        Err(Refused::Memory) => Ok(Bytes::from_static(b"no memory")),
    }
}

/// A query and its answer.
pub(crate) fn told(alloc: Global, query: &str, answer: &Bytes) -> Result<String, Memory> {
    let mut text = String::from_str(alloc, query)?;
    text.push_str(" is answered ")?;
    text.push_str(from_utf8(answer.as_slice()).unwrap_or("with no text"))?;
    Ok(text)
}

/// A text's bytes.
pub(crate) fn bytes_of(alloc: Global, text: &str) -> Result<Bytes, Memory> {
    Ok(Bytes::from_vec(String::from_str(alloc, text)?.into_bytes())?)
}
