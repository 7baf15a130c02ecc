//! A schema beside its possible types (GraphQL October 2021, section 5.5.2.3).

ghost use Rattle.std.specs.Prelude.{◌≡◌, ℕ, List, true, Some};
ghost use Rattle.std.specs.List.{list_any};
ghost use Rattle.std.specs.Map.{lookup};
ghost use Rattle.std.specs.Option.{option_copied, option_map, option_map_or};
ghost use Rattle.std.specs.Str.{bytes_eq};
ghost use Rattle.gql_schema_types.specs.Implementers.{implementers_of};
ghost use Rattle.gql_schema_types.specs.Types.{type_called};
ghost use Rattle.gql_rules_nodes.specs.PossibleTable.{ArePossibleIn};
ghost use Rattle.gql_rules_nodes.specs.PossibleTypes as spec;

use crate::possible_types::{PossibleTypes, is_any_in, names_of};
use gql_ast_base::Name;
use gql_schema_types::Schema;
use jb_map::KeyTable;

/// A schema, and the table of its possible types.
#[derive(Drop)]
pub(crate) struct KnownTypes<'s> {
    pub(crate) schema: &'s Schema,
    possible: &'s PossibleTypes,
    ghost implementers_known: { (name : List ℕ) → lookup (bytes_eq name) possible.now.implementers ≡ implementers_of name schema.now.types },
    ghost tables_known: { possible.now.tables ≡ spec.tables_in possible.now.implementers schema.now.types },
}

impl<'s> KnownTypes<'s> {
    /// The schema with its table.
    pub(crate) fn new(schema: &'s Schema, possible: &'s PossibleTypes) -> KnownTypes<'s>
        requires { ArePossibleIn schema.now.types possible.now }
        ensures { result.schema.now ≡ schema.now }
    {
        KnownTypes { schema, possible }
    }

    /// Whether an object type is possible for both types, or one of them is not defined.
    pub(crate) fn can_meet(&self, first: &str, second: &str) -> bool
        ensures { result ≡ spec.can_meet self.now.schema.now.types first.now second.now }
    {
        match self.names(first) {
            Some(names) => self.can_meet_names(first, names, second),
            None => true,
        }
    }

    /// The same, where these are the names of the objects that are possible for the first type: the fewer names are gone
    /// through.
    fn can_meet_names(&self, first: &str, names: &[Name], second: &str) -> bool
        requires { option_map (spec.possible_names self.now.schema.now.types) (type_called first.now self.now.schema.now.types) ≡ Some names.now }
        ensures { result ≡ spec.can_meet self.now.schema.now.types first.now second.now }
    {
        match self.names(second) {
            Some(others) if others.len() < names.len() => self.is_any_possible(others, first),
            Some(_) => self.is_any_possible(names, second),
            None => true,
        }
    }

    /// Whether one of these names is that of an object that is possible for the type of the name, or that is not defined.
    fn is_any_possible(&self, names: &[Name], name: &str) -> bool
        ensures { result ≡ option_map_or (λ ty. list_any (spec.is_among (spec.possible_texts self.now.schema.now.types ty)) (spec.texts_of names.now)) (type_called name.now self.now.schema.now.types) true }
    {
        match self.table(name) {
            Some(table) => is_any_in(names, table),
            None => true,
        }
    }

    /// The names of the objects that are possible for the type of the name, if that is defined.
    fn names(&self, name: &str) -> Option<&[Name]>
        ensures { option_copied result ≡ option_map (spec.possible_names self.now.schema.now.types) (type_called name.now self.now.schema.now.types) }
    {
        match self.schema.types.get(name) {
            Some(ty) => Some(names_of(&self.possible.implementers, ty)),
            None => None,
        }
    }

    /// The table of these names.
    fn table(&self, name: &str) -> Option<&KeyTable>
        ensures { option_copied result ≡ option_map (λ ty. spec.distinct_texts (spec.possible_names self.now.schema.now.types ty)) (type_called name.now self.now.schema.now.types) }
    {
        match self.schema.types.find(name) {
            Some(at) => self.possible.tables.get(at),
            None => None,
        }
    }
}
