//! The fields `__schema` and `__type` of the root type of queries.

ghost use Rattle.std.specs.Prelude.{◌≡◌};
ghost use Rattle.std.specs.Option.{option_copied};
ghost use Rattle.gql_resolvers.specs.Meaning.{Answers, meaning_by};
ghost use Rattle.gql_resolvers.specs.bridge.Meaning.{IsFailure};
ghost use Rattle.gql_introspection.specs.RootFields as spec;
ghost use Rattle.gql_introspection.specs.Seen.{stands_for};

use crate::meta_object::MetaObject;
use crate::named_types::named_type;
use gql_resolvers::{FieldError, ResolveError, ResolvedValue};
use gql_response::JsonMap;
use gql_schema_types::{Schema, Valid};
use jb_text::Text;
use std::alloc::Global;

/// What `__schema` gives: the object of the schema (GraphQL October 2021, section 4.2). It takes no memory.
#[must_use]
pub fn schema_field<'a>(schema: &'a Valid<Schema>) -> ResolvedValue<MetaObject<'a>>
    ensures { meaning_by stands_for result ≡ spec.schema_field_meaning schema.now }
{
    ResolvedValue::Object(MetaObject::SchemaMeta { schema })
}

/// What `__type` gives: the object of the type that the argument `name` names, or null where the schema has none
/// (section 4.2). `Field` with ``expected string argument `name` `` exactly where `name` is no text, without the blank at
/// the end; `Memory` only when out of memory.
pub fn type_field<'a>(
    alloc: Global,
    schema: &'a Valid<Schema>,
    arguments: &JsonMap,
) -> Result<ResolvedValue<MetaObject<'a>>, ResolveError>
    ensures { Answers stands_for result (spec.type_field_meaning schema.now arguments.now) }
{
    match name_argument(arguments) {
        Some(name) => Ok(named_type(schema, name)),
        None => Err(failure(alloc, "expected string argument `name`")),
    }
}

/// The argument `name`, where it is a text.
fn name_argument(arguments: &JsonMap) -> Option<&str>
    ensures { option_copied result ≡ spec.name_argument arguments.now }
{
    arguments.get("name")?.as_str()
}

/// A failure with this text.
fn failure(alloc: Global, text: &str) -> ResolveError
    ensures { IsFailure result text.now }
{
    match Text::from_str(alloc, text) {
        Ok(message) => ResolveError::Field(FieldError { message }),
        Err(_) => ResolveError::Memory,
    }
}
