//! The parts of a reference to a type.

ghost use Rattle.std.specs.Prelude.{◌≡◌};
ghost use Rattle.gql_rules_values.specs.TypeShape as spec;

use gql_ast::InputValueDefinition;
use gql_ast_base::TypeRef;

/// The type within all lists (GraphQL October 2021, section 2.11).
#[must_use]
pub(crate) fn single_type(ty: &TypeRef) -> &TypeRef
    ensures { result.now ≡ spec.single_type ty.now }
{
    match ty {
        TypeRef::Named(_) | TypeRef::NonNullNamed(_) => ty,
        TypeRef::List(item) | TypeRef::NonNullList(item) => single_type(item.get()),
    }
}

/// Whether an argument or an input field has to be given: it is not null and has no default (sections 5.4.2.1 and 5.6.4).
#[must_use]
pub fn is_required(value: &InputValueDefinition) -> bool
    ensures { result ≡ spec.is_required value.now }
{
    value.ty.is_non_null() && value.default_value.is_none()
}
