//! Does a fragment's type condition hold of an object type?

ghost use Rattle.std.specs.Prelude.{◌≡◌};
ghost use Rattle.std.specs.Option.{option_copied};
ghost use Rattle.gql_collect.specs.Applies as spec;

use gql_ast_base::Name;
use gql_schema_types::{ExtendedType, ObjectType, Table, is_among};

/// Whether a fragment on the type of this name applies to the object type (GraphQL October 2021, section 6.3.2,
/// DoesFragmentTypeApply): it is the type itself, an interface that the type lists, or a union that has it.
pub(crate) fn applies(types: &Table<ExtendedType>, object: &ObjectType, condition: &str) -> bool
    ensures { result ≡ spec.applies types.now object.now condition.now }
{
    condition == object.name.as_str()
        || (is_listed(
            types.get(condition),
            condition,
            object.implements_interfaces.as_slice(),
        ) || has_member(types.get(condition), object.name.as_str()))
}

/// The same of an inline fragment, whose condition may be missing: then it applies.
pub(crate) fn applies_if(
    types: &Table<ExtendedType>,
    object: &ObjectType,
    condition: &Option<Name>,
) -> bool
    ensures { result ≡ spec.applies_if types.now object.now condition.now }
{
    match condition {
        Some(name) => applies(types, object, name.as_str()),
        None => true,
    }
}

/// Whether this is an interface, of the name, among those that are listed.
fn is_listed(ty: Option<&ExtendedType>, name: &str, listed: &[Name]) -> bool
    ensures { result ≡ spec.is_listed (option_copied ty.entry) name.now listed.now }
{
    match ty {
        Some(ExtendedType::Interface(_)) => is_among(name, listed),
        _ => false,
    }
}

/// Whether this is a union that has the type of the name.
fn has_member(ty: Option<&ExtendedType>, name: &str) -> bool
    ensures { result ≡ spec.has_member (option_copied ty.entry) name.now }
{
    match ty {
        Some(ExtendedType::Union(union)) => is_among(name, union.members.as_slice()),
        _ => false,
    }
}
