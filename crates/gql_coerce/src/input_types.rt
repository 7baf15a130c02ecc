//! Input types of a schema and their parts by name (GraphQL October 2021, sections 3.9 and 3.10).

ghost use Rattle.std.specs.Prelude.{◌≡◌};
ghost use Rattle.std.specs.Option.{option_copied};
ghost use Rattle.gql_coerce.specs.InputTypes as spec;

use gql_ast::{EnumValueDefinition, InputValueDefinition};
use gql_schema_types::{ExtendedType, InputObjectType, Table};

/// The input object type itself, where the type is one.
pub(crate) fn as_input_object(ty: &ExtendedType) -> Option<&InputObjectType>
    ensures { option_copied result ≡ spec.as_input_object ty.now }
{
    match ty {
        ExtendedType::InputObject(it) => Some(it),
        _ => None,
    }
}

/// The input object type of the name; `None` exactly where there is no type of it, or one of another kind.
pub(crate) fn input_object_called<'t>(
    types: &'t Table<ExtendedType>,
    name: &str,
) -> Option<&'t InputObjectType>
    ensures { option_copied result ≡ spec.input_object_called name.now types.now }
{
    match types.get(name) {
        Some(ty) => as_input_object(ty),
        None => None,
    }
}

/// Whether it is the name of one of the fields.
pub(crate) fn is_field(fields: &Table<InputValueDefinition>, key: &str) -> bool
    ensures { result ≡ spec.is_field fields.now key.now }
{
    fields.get(key).is_some()
}

/// Whether it is the name of one of the values.
pub(crate) fn is_enum_value(values: &Table<EnumValueDefinition>, name: &str) -> bool
    ensures { result ≡ spec.is_enum_value values.now name.now }
{
    values.get(name).is_some()
}
