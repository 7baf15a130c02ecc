//! The pairs that an exploration has found.

ghost use Rattle.std.specs.Prelude.{◌≡◌, ◌<◌, [], OnOk, slice_get};
ghost use Rattle.std.specs.List.{IsDistinct, list_any};
ghost use Rattle.gql_graph.specs.bridge.Steps as step;

use crate::pair::Pair;
use indexmap::IndexSet;
use jb_text::Memory;
use std::alloc::Global;
use std::marker::Model;

/// Pairs in the order in which they are found, each once. Contracts see the list of them. Looking one up is expected to take
/// constant time.
#[derive(Drop)]
pub struct Seen {
    pairs: IndexSet<Pair>,
}

impl Model for Seen {
    ghost use Rattle.std.specs.Prelude.{List};
    ghost use Rattle.gql_graph.specs.declared.pair.Pair.{Pair};

    ghost Value = { List Pair };

    ghost view = { λ s. s.pairs.keys };
}

impl Seen {
    /// No pair.
    pub(crate) fn new(alloc: Global) -> Seen
        ensures { result ≡ [] }
    {
        Seen {
            pairs: IndexSet::new(alloc),
        }
    }

    /// Adds a pair last, if it is new.
    pub(crate) fn insert(&mut self, pair: Pair) -> Result<(), Memory>
        ensures { OnOk result (self.new ≡ step.inserted self.old pair) }
    {
        self.pairs.insert(pair)?;
        Ok(())
    }

    /// The pair of a number.
    pub(crate) fn at(&self, number: usize) -> Option<Pair>
        ensures { result ≡ slice_get self.now number }
    {
        match self.pairs.get_index(number) {
            Some(pair) => Some(*pair),
            None => None,
        }
    }

    /// Whether a pair is among them.
    #[must_use]
    pub fn contains(&self, pair: Pair) -> bool
        ensures { result ≡ list_any (step.is_pair pair) self.now }
    {
        self.pairs.contains(&pair)
    }

    /// The pairs.
    #[must_use]
    pub fn as_slice(&self) -> &[Pair]
        ensures pairs { result.now ≡ self.now }
        ensures distinct { IsDistinct step.is_pair self.now }
    {
        self.pairs.as_slice()
    }
}
