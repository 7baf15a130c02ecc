//! What a schema says of the types that selections are on.

ghost use Rattle.std.specs.Prelude.{◌≡◌};
ghost use Rattle.gql_document.specs.bridge.Leaves as leaves;
ghost use Rattle.gql_document.specs.Nodes as spec;

use gql_ast_base::{Name, TypeRef};
use gql_schema_types::{ExtendedType, Schema};

/// The kind of a type that has no fields.
#[derive(Clone, Copy)]
pub(crate) enum Leaf {
    Scalar,
    Enum,
    /// It is of another kind, or not defined.
    Neither,
}

/// Whether the type of a reference is a scalar or an enum (GraphQL October 2021, sections 3.5 and 3.9).
pub(crate) fn leaf_of(schema: &Schema, ty: &TypeRef) -> Leaf
    ensures { result ≡ leaves.leaf_of schema.now ty.now }
{
    match schema.type_named_by(ty) {
        Some(ty) => leaf_kind(ty),
        None => Leaf::Neither,
    }
}

fn leaf_kind(ty: &ExtendedType) -> Leaf
    ensures { result ≡ leaves.leaf_kind ty.now }
{
    match ty {
        ExtendedType::Scalar(_) => Leaf::Scalar,
        ExtendedType::Enum(_) => Leaf::Enum,
        _ => Leaf::Neither,
    }
}

/// Whether a type of the name is defined.
pub(crate) fn is_defined(schema: &Schema, name: &Name) -> bool
    ensures { result ≡ spec.is_defined schema.now name.now }
{
    schema.types.get(name.as_str()).is_some()
}

/// Whether the condition of an inline fragment is defined, where it has one.
pub(crate) fn is_open(schema: &Schema, condition: &Option<Name>) -> bool
    ensures { result ≡ spec.is_open schema.now condition.now }
{
    match condition {
        Some(name) => is_defined(schema, name),
        None => true,
    }
}

/// The type of what is inside an inline fragment: its condition, or that of the set around it.
pub(crate) fn type_inside<'n>(ty: &'n Name, condition: &'n Option<Name>) -> &'n Name
    ensures { result.now ≡ spec.type_inside ty.now condition.now }
{
    match condition {
        Some(name) => name,
        None => ty,
    }
}
