//! What a valid request executes.

ghost use Rattle.std.specs.Prelude.{◌↔◌, ℕ, List, IsTrue, IfOk};
ghost use Rattle.gql_document_types.specs.Spreads.{AreAcyclic};
ghost use Rattle.gql_engine.specs.AnswerError.{wanted_with};
ghost use Rattle.gql_engine.specs.Depths.{IsShallow};
ghost use Rattle.gql_engine.specs.Service.{asked_of};
ghost use Rattle.gql_parser.specs.DocumentText.{DocumentText as IsDocumentOfText};
ghost use Rattle.gql_parser.specs.SchemaText.{SchemaText};
ghost use Rattle.gql_rounds.specs.bridge.Ready.{FindsCalled, FindsOperation, FindsReady, IsPassed};

use gql_collect::{Steps, check_max_depth, coerce_variable_values};
use gql_document_types::{ExecutableDocument, Operation};
use gql_engine::phases::read_variables;
use gql_engine::{AnswerError, Question, Service, laws as engine_laws};
use gql_parser::laws as text_laws;
use gql_response::{JsonMap, RequestError};
use gql_schema_types::{ObjectType, Schema, Valid};
use jb_text::{Memory, Refused};
use jb_tree::Map;
use std::alloc::{AllocError, Global};
use std::sync::ledger::Ledger;

/// The operation of a valid request, its root type, and the values of its variables (GraphQL October 2021, section 6.1).
#[derive(Drop)]
pub(crate) struct Ready<'r> {
    pub(crate) operation: &'r Operation,
    pub(crate) root_type: &'r ObjectType,
    pub(crate) variables: Valid<JsonMap>,
}

/// What a request executes over a schema and a document; `None` where it is not valid. `Err` only when out of memory.
pub(crate) fn make_ready<'r, L: Ledger>(
    alloc: Global,
    schema: &'r Valid<Schema>,
    document: &'r Valid<ExecutableDocument>,
    question: &Question<'_>,
    steps: &mut Steps<L>,
) -> Result<Option<Ready<'r>>, Memory>
    requires { IsDocumentOfText schema.now question.now.query.now document.now }
    ensures { (text : List ℕ) → SchemaText text schema.now
        → IfOk result (FindsCalled (asked_of text question.now) schema.now document.now) }
{
    engine_laws::causes_exclude_one_another();
    engine_laws::readiness_is_one();
    match read_variables(alloc, question.variables) {
        Ok(variables) => ready_with(alloc, schema, document, question, &variables, steps),
        Err(AnswerError::Variables(_)) => Ok(None),
        // Variables are refused for nothing else but want of memory.
        Err(_) => Err(AllocError),
    }
}

/// The same where variables are given these values.
fn ready_with<'r, L: Ledger>(
    alloc: Global,
    schema: &'r Valid<Schema>,
    document: &'r Valid<ExecutableDocument>,
    question: &Question<'_>,
    values: &Map,
    steps: &mut Steps<L>,
) -> Result<Option<Ready<'r>>, Memory>
    requires { IsDocumentOfText schema.now question.now.query.now document.now }
    ensures { (text : List ℕ) → SchemaText text schema.now
        → IfOk result (FindsReady (wanted_with (asked_of text question.now) values.now) schema.now document.now) }
{
    text_laws::valid_documents_run();
    text_laws::texts_have_one_schema();
    text_laws::texts_have_one_document_each();
    let chosen = document
        .as_ref()
        .operations_get(alloc, question.operation_name);
    let found = passed(chosen)?;
    let Some(operation) = found else {
        return Ok(None);
    };
    let shallow = is_shallow(alloc, document, operation, question.introspection, steps)?;
    if shallow {
        ready_operation(alloc, schema, operation, values)
    } else {
        Ok(None)
    }
}

/// The same of this operation, which is of a valid document.
fn ready_operation<'r>(
    alloc: Global,
    schema: &'r Valid<Schema>,
    operation: &'r Operation,
    values: &Map,
) -> Result<Option<Ready<'r>>, Memory>
    ensures { IfOk result (FindsOperation schema.now operation.now values.now) }
{
    let coerced = coerce_variable_values(alloc, schema, operation, values);
    let found = passed(coerced)?;
    let Some(variables) = found else {
        return Ok(None);
    };
    match schema.as_ref().get_object(operation.object_type().as_str()) {
        Some(root_type) => Ok(Some(Ready {
            operation,
            root_type,
            variables,
        })),
        // The root type of such an operation is an object type.
        None => Err(AllocError),
    }
}

/// Whether the operation is not too deep, where introspection is on (section 4). `Err` only when out of memory.
fn is_shallow<L: Ledger>(
    alloc: Global,
    document: &Valid<ExecutableDocument>,
    operation: &Operation,
    introspection: bool,
    steps: &mut Steps<L>,
) -> Result<bool, Memory>
    requires { AreAcyclic document.now.fragments }
    ensures { IfOk result (λ shallow. IsTrue shallow ↔ IsShallow introspection document.now operation.now) }
{
    if !introspection {
        return Ok(true);
    }
    let checked = check_max_depth(alloc, document, operation, steps);
    let found = passed(checked)?;
    match found {
        Some(()) => Ok(true),
        None => Ok(false),
    }
}

/// What a step gives, where it does not refuse. `Err` only when out of memory.
fn passed<A>(step: Result<A, Refused<RequestError>>) -> Result<Option<A>, Memory>
    ensures { IfOk result (IsPassed step) }
{
    match step {
        Ok(made) => Ok(Some(made)),
        Err(Refused::Fault(_)) => Ok(None),
        Err(Refused::Memory) => Err(AllocError),
    }
}
