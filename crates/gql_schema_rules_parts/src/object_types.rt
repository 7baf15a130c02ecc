//! Names of object types.

ghost use Rattle.std.specs.Prelude.{◌≡◌, false};
ghost use Rattle.std.specs.Option.{option_map_or};
ghost use Rattle.gql_schema_types.specs.Implementers.{is_object};
ghost use Rattle.gql_schema_types.specs.Types.{type_called};
ghost use Rattle.gql_schema_rules_parts.specs.ObjectTypes as spec;

use gql_rules_values::is_known;
use gql_schema_types::{ExtendedType, Table};

/// Whether the name is that of a type which is defined and no object type.
pub(crate) fn is_another_kind(types: &Table<ExtendedType>, name: &str) -> bool
    ensures { result ≡ spec.is_another_kind types.now name.now }
{
    is_known(types, name) && !names_object(types, name)
}

/// Whether the name is that of an object type.
fn names_object(types: &Table<ExtendedType>, name: &str) -> bool
    ensures { result ≡ option_map_or is_object (type_called name.now types.now) false }
{
    match types.get(name) {
        Some(ExtendedType::Object(_)) => true,
        Some(_) => false,
        None => false,
    }
}
