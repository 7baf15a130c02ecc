//! A list or a non-null type, as `__Type`.

ghost use Rattle.std.specs.Prelude.{◌≡◌};
ghost use Rattle.std.specs.Option.{option_copied};
ghost use Rattle.gql_resolvers.specs.Meaning.{meaning_by};
ghost use Rattle.gql_introspection.specs.Seen.{stands_for};
ghost use Rattle.gql_introspection.specs.bridge.Seen.{GivesField};
ghost use Rattle.gql_introspection.specs.Wrapped as spec;

use crate::asked::Asked;
use crate::leaves::{constant_or_null, null_leaf};
use crate::meta_object::MetaObject;
use crate::named_types::{named_type, type_object};
use gql_ast_base::TypeRef;
use gql_resolvers::ResolvedValue;
use gql_schema_types::{Schema, Valid};
use jb_text::Memory;

/// A field of a list or a non-null type (GraphQL October 2021, section 4.2.2): all but `kind` and `ofType` are null.
pub(crate) fn wrapped_field<'a>(
    asked: &Asked<'_>,
    schema: &'a Valid<Schema>,
    ty: &'a TypeRef,
    stripped: bool,
) -> Result<Option<ResolvedValue<MetaObject<'a>>>, Memory>
    ensures { GivesField result (spec.wrapped_row schema.now ty.now stripped asked.now.field.now) }
{
    match asked.field {
        "kind" => constant_or_null(asked.alloc, kind(ty, stripped)).map(Some),
        "ofType" => Ok(Some(inner_type(schema, ty, stripped))),
        other if is_null_field(other) => Ok(Some(null_leaf())),
        _ => Ok(None),
    }
}

/// The value of `__TypeKind`.
fn kind(ty: &TypeRef, stripped: bool) -> Option<&'static str>
    ensures { option_copied result ≡ spec.wrapped_kind ty.now stripped }
{
    match ty {
        TypeRef::NonNullNamed(_) if !stripped => Some("NON_NULL"),
        TypeRef::NonNullList(_) if !stripped => Some("NON_NULL"),
        TypeRef::List(_) | TypeRef::NonNullList(_) => Some("LIST"),
        TypeRef::Named(_) | TypeRef::NonNullNamed(_) => None,
    }
}

/// The type of a list's items, or what is below the `!`.
fn inner_type<'a>(
    schema: &'a Valid<Schema>,
    ty: &'a TypeRef,
    stripped: bool,
) -> ResolvedValue<MetaObject<'a>>
    ensures { meaning_by stands_for result ≡ spec.inner_type schema.now ty.now stripped }
{
    match ty {
        TypeRef::NonNullNamed(name) if !stripped => named_type(schema, name.as_str()),
        TypeRef::NonNullList(_) if !stripped => ResolvedValue::Object(MetaObject::Wrapped {
            schema,
            of: ty,
            stripped: true,
        }),
        TypeRef::List(item) | TypeRef::NonNullList(item) => type_object(schema, item.get()),
        TypeRef::Named(_) | TypeRef::NonNullNamed(_) => null_leaf(),
    }
}

/// Whether it is a field of `__Type` besides `kind` and `ofType`.
fn is_null_field(name: &str) -> bool
    ensures { result ≡ spec.is_null_field name.now }
{
    matches!(
        name,
        "name"
            | "description"
            | "fields"
            | "interfaces"
            | "possibleTypes"
            | "enumValues"
            | "inputFields"
            | "specifiedByURL"
            | "isOneOf"
    )
}
