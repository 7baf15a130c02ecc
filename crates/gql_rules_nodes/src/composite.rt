//! Which types are objects, interfaces or unions (GraphQL October 2021, section 3.4).

ghost use Rattle.std.specs.Prelude.{◌≡◌};
ghost use Rattle.gql_rules_nodes.specs.Composite as spec;

use gql_schema_types::{ExtendedType, Table};

/// Whether the type of the name is one, if it is defined.
pub(crate) fn is_composite(types: &Table<ExtendedType>, name: &str) -> bool
    ensures { result ≡ spec.is_composite_name types.now name.now }
{
    match types.get(name) {
        Some(ty) => ty.is_composite(),
        None => false,
    }
}

/// Whether the type of the name is of another kind, if it is defined.
pub(crate) fn is_of_other_kind(types: &Table<ExtendedType>, name: &str) -> bool
    ensures { result ≡ spec.is_of_other_kind types.now name.now }
{
    match types.get(name) {
        Some(ty) => !ty.is_composite(),
        None => false,
    }
}
