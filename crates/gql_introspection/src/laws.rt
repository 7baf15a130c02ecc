//! Laws of introspection.

ghost use Rattle.std.specs.Prelude.{ℕ, List};
ghost use Rattle.gql_introspection.specs.Meta.{Meta};
ghost use Rattle.gql_introspection.specs.MetaMeaning.{meta_meaning};
ghost use Rattle.gql_introspection.specs.RootFields.{schema_field_meaning, type_field_meaning};
ghost use Rattle.gql_resolvers.specs.Meaning.{Members};
ghost use Rattle.gql_resolvers.specs.Skips.{SkipsNothing};
ghost use Rattle.gql_schema_types.specs.declared.schema.Schema.{Schema as TheSchema};

/// The objects of introspection leave nothing out, nor do the two fields that give them (GraphQL October 2021, section 4).
pub fn introspection_never_skips()
    ensures objects { (object : Meta) (f : List ℕ) (arguments : Members) → SkipsNothing (meta_meaning object f arguments) }
    ensures schema_field { (schema : TheSchema) → SkipsNothing (schema_field_meaning schema) }
    ensures type_field { (schema : TheSchema) (arguments : Members) → SkipsNothing (type_field_meaning schema arguments) }
{}
