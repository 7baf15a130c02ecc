//! What the definitions give of small examples.

ghost use Rattle.std.specs.Prelude.{◌≡◌, List};
ghost use Rattle.gql_ast_base.specs.Names.{Named};
ghost use Rattle.gql_ast_base.specs.declared.type_ref.TypeRef.{List as ListOf, NonNullList};
ghost use Rattle.gql_ast_base.specs.declared.type_ref.TypeRef.TheVariants.{Named as NamedType};
ghost use Rattle.gql_collect.specs.Kept.{Variables};
ghost use Rattle.gql_document_types.specs.declared.fragment.Fragment.{Fragment};
ghost use Rattle.gql_document_types.specs.declared.selection.Field.{Field};
ghost use Rattle.gql_schema_types.specs.declared.schema.Schema.{Schema as SchemaOf};
ghost use Rattle.gql_schema_types.specs.declared.types.ObjectType.{ObjectType};
ghost use Rattle.gql_valid_laws.specs.Covariant.{lists_in};
ghost use Rattle.gql_valid_laws.specs.Examples.{AreOfTwoNames, both};
ghost use Rattle.gql_valid_laws.specs.Merge.{HaveOneName, Merge};

/// `{ a: b  a: c }` does not merge with itself, on any object type (GraphQL October 2021, section 5.3.2).
pub fn two_names_of_one_key_do_not_merge()
    ensures { (schema : SchemaOf) (fragments : List Fragment) (variables : Variables) (T : ObjectType) (f g : Field)
        → AreOfTwoNames f g → Merge HaveOneName schema fragments variables T (both f g) (both f g) → ⊥ }
{}

/// In `[[T]!]` two lists are inside one another.
pub fn two_lists_are_inside_one_another()
    ensures { (name : Named) → lists_in (ListOf (NonNullList (NamedType name))) ≡ 2 }
{}
