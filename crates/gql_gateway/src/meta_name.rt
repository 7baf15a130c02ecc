//! The names of the fields that are answered here.

ghost use Rattle.std.specs.Prelude.{◌≡◌};
ghost use Rattle.gql_exec.specs.Restricted.{is_meta_name};

/// Whether a field of the name asks for the schema: `__typename`, `__schema` or `__type` (GraphQL October 2021, sections 4.1 and 4.2).
pub(crate) fn is_meta_name(name: &str) -> bool
    ensures { result ≡ is_meta_name name.now }
{
    name == "__typename" || (name == "__schema" || name == "__type")
}
