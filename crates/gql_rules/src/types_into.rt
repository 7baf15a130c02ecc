//! Which variables go into a place (GraphQL October 2021, section 5.8.5).

ghost use Rattle.std.specs.Prelude.{◌≡◌};
ghost use Rattle.gql_rules.specs.TypesInto as spec;

use gql_ast::VariableDefinition;
use gql_ast_base::{TypeRef, Value, ValueKind};

/// Whether a use of the variable is allowed where this type is wanted and the argument or input field may have a default.
pub(crate) fn is_allowed(variable: &VariableDefinition, has_default: bool, ty: &TypeRef) -> bool
    ensures { result ≡ spec.is_allowed variable.now has_default ty.now }
{
    goes_into(&variable.ty, ty) || is_allowed_by_default(variable, has_default, ty)
}

/// Whether the use is allowed since null does not come there from a variable that is not given.
fn is_allowed_by_default(variable: &VariableDefinition, has_default: bool, ty: &TypeRef) -> bool
    ensures { result ≡ spec.is_allowed_by_default variable.now has_default ty.now }
{
    (has_default || has_value(&variable.default_value))
        && (ty.is_non_null() && !variable.ty.is_non_null())
        && goes_into_nullable(&variable.ty, ty)
}

/// Whether a variable of the type may stand where the other one is wanted.
fn goes_into(variable: &TypeRef, place: &TypeRef) -> bool
    ensures { result ≡ spec.goes_into variable.now place.now }
{
    match variable {
        TypeRef::Named(name) => match place {
            TypeRef::Named(other) => name.as_str() == other.as_str(),
            _ => false,
        },
        TypeRef::NonNullNamed(name) => match place {
            TypeRef::Named(other) => name.as_str() == other.as_str(),
            TypeRef::NonNullNamed(other) => name.as_str() == other.as_str(),
            _ => false,
        },
        TypeRef::List(item) => match place {
            TypeRef::List(other) => goes_into(item.get(), other.get()),
            _ => false,
        },
        TypeRef::NonNullList(item) => match place {
            TypeRef::List(other) => goes_into(item.get(), other.get()),
            TypeRef::NonNullList(other) => goes_into(item.get(), other.get()),
            _ => false,
        },
    }
}

/// Whether a variable of the type may stand where the other one without its `!` is wanted.
fn goes_into_nullable(variable: &TypeRef, place: &TypeRef) -> bool
    ensures { result ≡ spec.goes_into variable.now (spec.nullable place.now) }
{
    match place {
        TypeRef::Named(_) => goes_into(variable, place),
        TypeRef::List(_) => goes_into(variable, place),
        TypeRef::NonNullNamed(other) => match variable {
            TypeRef::Named(name) => name.as_str() == other.as_str(),
            TypeRef::NonNullNamed(name) => name.as_str() == other.as_str(),
            _ => false,
        },
        TypeRef::NonNullList(other) => match variable {
            TypeRef::List(item) => goes_into(item.get(), other.get()),
            TypeRef::NonNullList(item) => goes_into(item.get(), other.get()),
            _ => false,
        },
    }
}

/// Whether there is a default that is not null.
fn has_value(default: &Option<Value>) -> bool
    ensures { result ≡ spec.has_value default.now }
{
    match default {
        Some(value) => !matches!(&value.kind, ValueKind::Null),
        None => false,
    }
}
