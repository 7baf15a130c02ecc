//! The part of an operation that tells of the schema alone.

ghost use Rattle.gql_document_types.specs.Spreads.{AreAcyclic};
ghost use Rattle.gql_exec.specs.Partial as spec;

use crate::execution::Execution;
use gql_document_types::{ExecutableDocument, Operation};
use gql_resolvers::{ObjectValue, ResolveError, ResolveInfo, ResolvedValue};
use gql_response::{ExecutionResponse, JsonMap, RequestError};
use gql_schema_types::{ImplementersMap, Schema, Valid};
use jb_text::Refused;
use std::alloc::Global;

/// An object that leaves every field out.
#[derive(Drop)]
struct NoFields;

impl ObjectValue for NoFields {
    ghost use Rattle.gql_exec.specs.IntrospectedRequest.{no_name, no_field};

    ghost Seen = { Unit {0} };

    ghost seen = { λ object. tt };

    ghost type_of = { no_name };

    ghost resolves = { no_field };

    fn type_name(&self) -> &str {
        ""
    }

    fn resolve_field(
        &self,
        _alloc: Global,
        _info: &ResolveInfo<'_>,
    ) -> Result<ResolvedValue<NoFields>, ResolveError> {
        Ok(ResolvedValue::SkipForPartialExecution)
    }
}

/// Executes what an operation asks of the schema: with introspection on, on a root object that leaves out every field of its
/// own (GraphQL October 2021, section 4). The implementers are those of the schema, and the values of variables are coerced already.
/// No fragment of the document may lead back to itself.
///
/// # Errors
///
/// `Undefined root operation type`, marked as a suspected fault of validation, exactly where the root type is no object type
/// of the schema. Otherwise only when out of memory.
pub fn partial_execute(
    alloc: Global,
    schema: &Valid<Schema>,
    implementers_map: &ImplementersMap,
    document: &Valid<ExecutableDocument>,
    operation: &Operation,
    variable_values: &Valid<JsonMap>,
) -> Result<ExecutionResponse, Refused<RequestError>>
    requires acyclic { AreAcyclic document.now.fragments }
    ensures { spec.IsPartial schema.now document.now operation.now variable_values.now result }
{
    Execution::new(schema, document)
        .operation(operation)
        .implementers_map(implementers_map)
        .coerced_variable_values(variable_values)
        .enable_schema_introspection(true)
        .execute_sync(alloc, &NoFields)
}
