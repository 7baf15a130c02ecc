//! Whether a schema gives the data of an answer again.

ghost use Rattle.std.specs.Prelude.{◌≡◌, ◌↔◌, IsTrue, IfOk, Some};
ghost use Rattle.std.specs.Option.{option_copied};
ghost use Rattle.gql_document_types.specs.Spreads.{AreAcyclic};
ghost use Rattle.gql_response.specs.Response.{data_value};
ghost use Rattle.gql_client_schema.specs.Answers as spec;
ghost use Rattle.gql_client_schema.specs.bridge.Answers as spec_bridge;

use crate::full_query::full_query;
use gql_ast_laws::laws as tree_laws;
use gql_document_types::ExecutableDocument;
use gql_exec::partial_execute;
use gql_parser::Parser;
use gql_response::ExecutionResponse;
use gql_schema_types::{Schema, Valid};
use gql_source::FileIds;
use jb_text::{Memory, Refused};
use jb_tree::{Map, Value};
use std::alloc::{AllocError, Global};

/// The number of the query's file: the schema's text has the one before.
const FILE_NUMBER: u64 = 4;

/// Whether the full query, executed on the schema, gives these data without errors, the order of members included (GraphQL October
/// 2021, sections 4 and 6). `Err` only when out of memory.
pub(crate) fn gives_again(
    alloc: Global,
    schema: Valid<Schema>,
    given: Option<&Value>,
) -> Result<bool, Memory>
    ensures { IfOk result (λ again. IsTrue again ↔ spec.GivesAgain schema (option_copied given.entry)) }
{
    tree_laws::texts_have_one_document();
    match query_on(alloc, &schema)? {
        Some(document) => answered_again(alloc, &schema, document, given),
        None => Ok(false),
    }
}

/// The same with the query's document at hand.
fn answered_again(
    alloc: Global,
    schema: &Valid<Schema>,
    document: ExecutableDocument,
    given: Option<&Value>,
) -> Result<bool, Memory>
    requires { spec.IsQueryOn schema.now document }
    ensures { IfOk result (λ again. IsTrue again ↔ spec.GivesAgain schema.now (option_copied given.entry)) }
{
    tree_laws::texts_have_one_document();
    let document = Valid::assume_valid(document);
    match answer_on(alloc, schema, &document)? {
        Some(response) => Ok(is_same(response, given)),
        None => Ok(false),
    }
}

/// The document that the query's text builds against the schema.
fn query_on(alloc: Global, schema: &Valid<Schema>) -> Result<Option<ExecutableDocument>, Memory>
    ensures { IfOk result (spec_bridge.IsQueryIn schema.now) }
{
    match built_query(alloc, schema)? {
        Some(document) => if_acyclic(alloc, schema, document),
        None => Ok(None),
    }
}

/// The document, if no fragment of it leads back to itself.
fn if_acyclic(
    alloc: Global,
    schema: &Valid<Schema>,
    document: ExecutableDocument,
) -> Result<Option<ExecutableDocument>, Memory>
    requires { spec_bridge.IsBuiltIn schema.now (Some document) }
    ensures { IfOk result (spec_bridge.IsQueryIn schema.now) }
{
    tree_laws::texts_have_one_document();
    let acyclic = document.fragments_acyclic(alloc)?;
    if acyclic {
        Ok(Some(document))
    } else {
        Ok(None)
    }
}

/// The same, whether fragments lead back to themselves or not.
fn built_query(alloc: Global, schema: &Valid<Schema>) -> Result<Option<ExecutableDocument>, Memory>
    ensures { IfOk result (spec_bridge.IsBuiltIn schema.now) }
{
    tree_laws::texts_have_one_document();
    let mut parser = Parser::new();
    let mut ids = FileIds::starting_at(FILE_NUMBER);
    match parser.parse_executable(alloc, schema, full_query(), "query.graphql", &mut ids) {
        Ok(document) => Ok(Some(document)),
        Err(Refused::Fault(_)) => Ok(None),
        Err(Refused::Memory) => Err(AllocError),
    }
}

/// The response to the query's operation, if there is one on an object type.
fn answer_on(
    alloc: Global,
    schema: &Valid<Schema>,
    document: &Valid<ExecutableDocument>,
) -> Result<Option<ExecutionResponse>, Memory>
    requires { AreAcyclic document.now.fragments }
    ensures { IfOk result (spec_bridge.IsAnswerIn schema.now document.now) }
{
    let operation = match document.as_ref().operations_get(alloc, None) {
        Ok(operation) => operation,
        Err(Refused::Fault(_)) => return Ok(None),
        Err(Refused::Memory) => return Err(AllocError),
    };
    let implementers = schema.as_ref().implementers_map(alloc)?;
    let variables = Valid::assume_valid(Map::new(alloc));
    match partial_execute(
        alloc,
        schema,
        &implementers,
        document,
        operation,
        &variables,
    ) {
        Ok(response) => Ok(Some(response)),
        Err(Refused::Fault(_)) => Ok(None),
        Err(Refused::Memory) => Err(AllocError),
    }
}

/// Whether the response has these data and no errors.
fn is_same(response: ExecutionResponse, given: Option<&Value>) -> bool
    ensures { IsTrue result ↔ spec_bridge.IsSame response (option_copied given.entry) }
{
    let Some(given) = given else {
        return false;
    };
    if !response.errors.is_empty() {
        return false;
    }
    data_of(response).is_identical(given)
}

fn data_of(response: ExecutionResponse) -> Value
    ensures { result ≡ data_value response.root }
{
    let mut response = response;
    match response.root.take() {
        Some(members) => Value::Object(members),
        None => Value::Null,
    }
}
