//! Which types are defined.

ghost use Rattle.std.specs.Prelude.{◌≡◌};
ghost use Rattle.gql_rules_values.specs.Known as spec;

use gql_schema_types::{ExtendedType, Table};

/// Which types count as defined.
#[derive(Clone, Copy)]
pub enum Defined {
    /// The types that a schema has.
    Types,
    /// These and each built-in scalar, even where the schema leaves it out: so it is while a schema is validated.
    TypesAndScalars,
}

/// Whether this is the name of a scalar that each GraphQL service has (GraphQL October 2021, section 3.5).
#[must_use]
pub(crate) fn is_built_in_scalar(name: &str) -> bool
    ensures { result ≡ spec.is_built_in_scalar name.now }
{
    name == "Int" || name == "Float" || name == "String" || name == "Boolean" || name == "ID"
}

/// Whether a type of this name is defined, or is a built-in scalar.
#[must_use]
pub fn is_known(types: &Table<ExtendedType>, name: &str) -> bool
    ensures { result ≡ spec.is_known types.now name.now }
{
    types.get(name).is_some() || is_built_in_scalar(name)
}

/// Whether a type of this name is among those that count as defined.
#[must_use]
pub fn is_defined(defined: Defined, types: &Table<ExtendedType>, name: &str) -> bool
    ensures { result ≡ spec.is_defined defined types.now name.now }
{
    match defined {
        Defined::Types => types.get(name).is_some(),
        Defined::TypesAndScalars => is_known(types, name),
    }
}
