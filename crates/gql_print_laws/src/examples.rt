//! What the definitions say of a small schema.

ghost use Rattle.std.specs.Prelude.{◌≡◌, ◌∷◌, ◌++◌, [], codes};
ghost use Rattle.gql_sdl.specs.Schemas.{schema_text};
ghost use Rattle.gql_print_laws.specs.Examples.{sides, roots_of_sides, directive_of_sides, type_of_sides};
ghost use Rattle.gql_print_laws.specs.Printable.{IsSchema};
ghost use Rattle.gql_print_laws.specs.Told.{schema_told};

/// A schema with a directive, an enum type with a deprecated value, and `Int`, which is built in: the laws speak of it, and it is
/// written in three lines, which say three things.
pub fn built_in_types_are_not_written()
    ensures printable { IsSchema sides }
    ensures written { schema_text sides ≡ codes "schema { query: Q }\n" ++ (codes "\"Any\" directive @d on FIELD\n"
        ++ codes "enum Side { LEFT @deprecated(reason: \"late\") RIGHT }\n") }
    ensures told { schema_told sides ≡ roots_of_sides ∷ directive_of_sides ∷ type_of_sides ∷ [] }
{}
