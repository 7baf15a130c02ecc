//! Fragments as they were read, in tables.

ghost use Rattle.std.specs.Prelude.{◌≡◌};

use gql_ast::FragmentDefinition;
use gql_ast_base::Name;
use gql_schema_types::Named;
use std::marker::Model;

/// What was read, in a type of this crate. A contract sees the value itself.
#[derive(Drop)]
pub(crate) struct Parsed<T> {
    tree: T,
}

/// A fragment as it was read, which a table finds by its name.
pub(crate) type FragmentTree = Parsed<FragmentDefinition>;

impl<T> Model for Parsed<T> {
    ghost Value = { T };

    ghost coded = { T.code };

    ghost view = { λ parsed. parsed.tree };
}

impl<T> Parsed<T> {
    /// What was read.
    pub(crate) fn new(tree: T) -> Parsed<T>
        ensures { result ≡ tree }
    {
        Parsed { tree }
    }

    /// What was read.
    pub(crate) fn get(&self) -> &T
        ensures { result.now ≡ self.now }
    {
        &self.tree
    }

    /// Takes out what was read.
    pub(crate) fn into_inner(self) -> T
        ensures { result ≡ self }
    {
        let Parsed { tree } = self;
        tree
    }
}

impl Named for Parsed<FragmentDefinition> {
    ghost own = { λ fragment. fragment.name };

    fn own_name(&self) -> &Name {
        &self.get().name
    }
}
