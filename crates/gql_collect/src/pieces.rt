//! Selection sets that are collected together.

ghost use Rattle.std.specs.Prelude.{◌≡◌, [], ◌∷◌, ◌++◌, OnOk, OnErr};

use gql_document_types::SelectionSet;
use jb_text::{Listed, Memory};
use std::alloc::Global;
use std::marker::Model;

/// Selection sets that are collected as one, in order (GraphQL October 2021, section 6.4.3, MergeSelectionSets).
///
/// A contract sees the list of the sets.
#[derive(Drop)]
pub struct Pieces<'d> {
    sets: Listed<&'d SelectionSet>,
}

impl<'d> Model for Pieces<'d> {
    ghost use Rattle.std.specs.Prelude.{List};
    ghost use Rattle.std.specs.Borrow.{Bor};
    ghost use Rattle.std.specs.Coded.{codes};
    ghost use Rattle.gql_document_types.specs.contracts.selection.Selection as selection;
    ghost use Rattle.gql_document_types.specs.declared.selection.SelectionSet.{SelectionSet};

    ghost Value = { List (Bor SelectionSet) };

    ghost coded = { Prim.hlevel (codes, selection.the_row.coded) };

    ghost view = { λ pieces. pieces.sets };
}

impl<'d> Pieces<'d> {
    /// No set. It allocates nothing until the first [`Pieces::add`].
    #[must_use]
    pub fn new(alloc: Global) -> Pieces<'d>
        ensures { result ≡ [] }
    {
        Pieces {
            sets: Listed::new(alloc),
        }
    }

    /// Adds a set at the end. `Err` only when out of memory: the pieces are then as they were.
    pub fn add(&mut self, set: &'d SelectionSet) -> Result<(), Memory>
        ensures added { OnOk result (self.new ≡ self.old ++ set.entry ∷ []) }
        ensures unchanged { OnErr result (self.new ≡ self.old) }
    {
        self.sets.push(set)
    }

    /// The sets in order.
    pub(crate) fn as_slice(&self) -> &[&'d SelectionSet]
        ensures { result.now ≡ self.now }
    {
        self.sets.as_slice()
    }
}
