//! Growing lists, and the walk over one by value.
ghost use Rattle.std.specs.Prelude.{◌≡◌, ◌↔◌, ◌+◌, [], ◌∷◌, ◌++◌, length, IsTrue, IfOk, OnOk, OnErr, IfNone, option_to_list, slice_get, slice_set};
ghost use Rattle.std.specs.Hash as fed;
ghost use Rattle.std.specs.Hash.{items_Alike};
ghost use Rattle.std.specs.Cmp.Lexicographic.{pointwise, lists_per, lists_equiv};
ghost use Rattle.std.specs.Option.{option_copied, option_copied_mut};
ghost use Rattle.std.specs.Iterator.{at_most};
ghost use Rattle.std.specs.Map.Iter.{TakesFirst, TakesLast};

use crate::refused::Memory;
use std::alloc::Global;
use std::hash::{Hash, Hasher};
use std::iter::FusedIterator;
use std::marker::Model;
use std::vec::IntoIter;

/// A growing list, which contracts see as the list of its items.
#[derive(Debug)]
pub struct Listed<T> {
    held: Vec<T>,
}

impl<T: Drop> Drop for Listed<T> {
    fn drop(self) {
        let Listed { held: _ } = self;
    }
}

impl<T> Model for Listed<T> {
    ghost use Rattle.std.specs.Prelude.{List};
    ghost use Rattle.std.specs.Coded.{coded_list};

    ghost Value = { List T };

    ghost coded = { coded_list T.code };

    ghost view = { λ l. l.held.items };
}

impl<T> Listed<T> {
    /// An empty list. It allocates nothing until the first `push`.
    pub fn new(alloc: Global) -> Listed<T>
        ensures { result ≡ [] }
    {
        Listed {
            held: Vec::new(alloc),
        }
    }

    /// An empty list with room for `capacity` items. `Err` only when out of memory.
    pub fn with_capacity(alloc: Global, capacity: usize) -> Result<Listed<T>, Memory>
        ensures { IfOk result (λ made. made ≡ []) }
    {
        Ok(Listed {
            held: Vec::with_capacity(alloc, capacity)?,
        })
    }

    /// Takes the last item off. `None` exactly where there is none.
    pub fn pop(&mut self) -> Option<T>
        ensures last { self.old ≡ self.new ++ option_to_list result }
        ensures empty { IfNone result (self.old ≡ []) }
    {
        self.held.pop()
    }

    /// How many items there are.
    pub fn len(&self) -> usize
        ensures { result ≡ length self.now }
    {
        self.held.len()
    }

    /// Whether there is no item.
    pub fn is_empty(&self) -> bool
        ensures { IsTrue result ↔ (self.now ≡ []) }
    {
        self.held.is_empty()
    }

    /// The item at `index`, or `None` at the length and past it.
    pub fn get(&self, index: usize) -> Option<&T>
        ensures { option_copied result ≡ slice_get self.now index }
    {
        self.held.get(index)
    }

    /// The items in order, lent.
    pub fn as_slice(&self) -> &[T]
        ensures { result.now ≡ self.now }
    {
        self.held.as_slice()
    }
}

impl<T: Drop> Listed<T> {
    /// Adds `item` at the end. `Err` only when out of memory: the list is then as it was, and `item` is dropped.
    pub fn push(&mut self, item: T) -> Result<(), Memory>
        ensures pushed { OnOk result (self.new ≡ self.old ++ item ∷ []) }
        ensures refused { OnErr result (self.new ≡ self.old) }
    {
        self.held.push(item)?;
        Ok(())
    }
}

impl<T> Listed<T> {
    ghost use Rattle.std.specs.Borrow.{LendsIf, sem};
    ghost use Rattle.jb_text.specs.contracts.listed.Listed.{the_row};

    /// The item at `index`, to be changed in place, or `None` at the length and past it. What is written there
    /// changes that item alone.
    pub fn get_mut(&mut self, index: usize) -> Option<&mut T>
        ensures* writes_back { sem 𝓛 (LendsIf (the_row T.row) T.row self.entry result (slice_set self.old index) self.old) }
        ensures value { option_copied_mut result ≡ slice_get self.old index }
    {
        self.held.get_mut(index)
    }
}

/// Lists are compared and hashed item by item.
impl<T: PartialEq> PartialEq for Listed<T> {
    ghost eq = { pointwise T.eq };

    ghost laws = { lists_per T.laws };

    fn eq(&self, other: &Listed<T>) -> bool {
        self.as_slice() == other.as_slice()
    }
}

impl<T: Eq> Eq for Listed<T> {
    ghost laws = { lists_equiv T.Eq.laws };
}

impl<T: Hash> Hash for Listed<T> {
    ghost hash_input = { fed.slice T.hash_input };

    ghost respects_eq = { (items_Alike (record { fed = T.respects_eq })).fed };

    fn hash<H: Hasher>(&self, state: &mut H) {
        self.as_slice().hash(state);
    }
}

/// The items of a [`Listed`], from the front and from the back.
#[derive(Drop)]
pub struct ListedIter<T> {
    left: IntoIter<T>,
}

impl<T> Model for ListedIter<T> {
    ghost use Rattle.std.specs.Prelude.{List};
    ghost use Rattle.std.specs.Coded.{coded_list};
    ghost use Rattle.std.specs.Vec.Iter.{into_iter_items};

    ghost Value = { List T };

    ghost coded = { coded_list T.code };

    ghost view = { λ l. into_iter_items l.left };
}

impl<T: Drop> Iterator for ListedIter<T> {
    type Item = T;

    ghost next_gives = { TakesFirst (λ p. p) };

    ghost remaining = { λ s. at_most (length s) };

    fn next(&mut self) -> Option<T> {
        self.left.next()
    }

    fn size_hint(&self) -> (usize, Option<usize>)
        ensures { result ≡ (length self.now, Some (length self.now)) }
    {
        let len = self.len();
        (len, Some(len))
    }
}

impl<T: Drop> DoubleEndedIterator for ListedIter<T> {
    ghost next_back_gives = { TakesLast (λ p. p) };

    fn next_back(&mut self) -> Option<T> {
        self.left.next_back()
    }
}

impl<T: Drop> ExactSizeIterator for ListedIter<T> {
    fn len(&self) -> usize {
        self.left.len()
    }
}

impl<T: Drop> FusedIterator for ListedIter<T> {}

impl<T: Drop> IntoIterator for Listed<T> {
    type Item = T;

    type IntoIter = ListedIter<T>;

    ghost into_iter_gives = { λ l r. r ≡ l };

    fn into_iter(self) -> ListedIter<T> {
        let Listed { held } = self;
        ListedIter {
            left: held.into_iter(),
        }
    }
}
