//! The walks of a map that give pairs. Each is seen as the list of what it has left, and ends for good, from whichever
//! ends it is taken.
ghost use Rattle.std.specs.Prelude.{◌≡◌, ◌≤◌, IfSome, length, zip};
ghost use Rattle.std.specs.Iterator.{UpTo, at_most};
ghost use Rattle.std.specs.Map.Iter.{TakesFirst, TakesLast, deref_pair};

use crate::byte_string::ByteString;
use std::iter::FusedIterator;
use std::marker::Model;
use std::{slice, vec};

/// The pairs of a map in order.
#[derive(Drop)]
pub struct Iter<'a, V> {
    keys: slice::Iter<'a, ByteString>,
    values: slice::Iter<'a, V>,
}

impl<'a, V> Model for Iter<'a, V> {
    ghost use Rattle.std.specs.Prelude.{◌≡◌, List, ℕ, length, zip};
    ghost use Rattle.std.specs.Coded.{coded_list, coded×, coded_ℕ};
    ghost use Rattle.std.specs.Slice.Iter.{iter_rest};

    ghost Value = { List (List ℕ × V) };

    ghost coded = { coded_list (coded× (coded_list coded_ℕ) V.code) };

    ghost view = { λ s. zip (iter_rest s.keys) (iter_rest s.values) };

    ghost invariant = { λ s. length (iter_rest s.values) ≡ length (iter_rest s.keys) };
}

impl<'a, V> Iter<'a, V> {
    /// The walk along these keys and the values at the same places.
    pub fn new(keys: &'a [ByteString], values: &'a [V]) -> Iter<'a, V>
        requires { length values.now ≡ length keys.now }
        ensures { result ≡ zip keys.now values.now }
    {
        Iter {
            keys: keys.iter(),
            values: values.iter(),
        }
    }
}

impl<'a, V> Iterator for Iter<'a, V> {
    type Item = (&'a ByteString, &'a V);

    ghost next_gives = { TakesFirst deref_pair };

    ghost remaining = { λ s. at_most (length s) };

    fn next(&mut self) -> Option<(&'a ByteString, &'a V)> {
        let key = self.keys.next()?;
        Some((key, self.values.next().unwrap()))
    }

    fn size_hint(&self) -> (usize, Option<usize>)
        ensures lower { result.0 ≤ length self.now }
        ensures upper { IfSome result.1 (UpTo (at_most (length self.now))) }
        ensures exact { result ≡ (length self.now, Some (length self.now)) }
    {
        let len = self.len();
        (len, Some(len))
    }
}

impl<'a, V> DoubleEndedIterator for Iter<'a, V> {
    ghost next_back_gives = { TakesLast deref_pair };

    fn next_back(&mut self) -> Option<(&'a ByteString, &'a V)> {
        let key = self.keys.next_back()?;
        Some((key, self.values.next_back().unwrap()))
    }
}

impl<'a, V> ExactSizeIterator for Iter<'a, V> {
    fn len(&self) -> usize {
        self.keys.len()
    }
}

impl<'a, V> FusedIterator for Iter<'a, V> {}

/// The pairs of a map in order, each by value.
#[derive(Drop)]
pub struct IntoIter<V> {
    keys: vec::IntoIter<ByteString>,
    values: vec::IntoIter<V>,
}

impl<V> Model for IntoIter<V> {
    ghost use Rattle.std.specs.Prelude.{◌≡◌, List, ℕ, length, zip};
    ghost use Rattle.std.specs.Coded.{coded_list, coded×, coded_ℕ};
    ghost use Rattle.std.specs.Vec.Iter.{into_iter_items};

    ghost Value = { List (List ℕ × V) };

    ghost coded = { coded_list (coded× (coded_list coded_ℕ) V.code) };

    ghost view = { λ s. zip (into_iter_items s.keys) (into_iter_items s.values) };

    ghost invariant = { λ s. length (into_iter_items s.values) ≡ length (into_iter_items s.keys) };
}

impl<V> IntoIter<V> {
    /// The walk along these keys and the values at the same places.
    pub fn new(keys: Vec<ByteString>, values: Vec<V>) -> IntoIter<V>
        requires { length values.items ≡ length keys.items }
        ensures { result ≡ zip keys.items values.items }
    {
        IntoIter {
            keys: keys.into_iter(),
            values: values.into_iter(),
        }
    }
}

impl<V: Drop> Iterator for IntoIter<V> {
    type Item = (ByteString, V);

    ghost next_gives = { TakesFirst (λ p. p) };

    ghost remaining = { λ s. at_most (length s) };

    fn next(&mut self) -> Option<(ByteString, V)> {
        let key = self.keys.next()?;
        Some((key, self.values.next().unwrap()))
    }

    fn size_hint(&self) -> (usize, Option<usize>)
        ensures { result ≡ (length self.now, Some (length self.now)) }
    {
        let len = self.len();
        (len, Some(len))
    }
}

impl<V: Drop> DoubleEndedIterator for IntoIter<V> {
    ghost next_back_gives = { TakesLast (λ p. p) };

    fn next_back(&mut self) -> Option<(ByteString, V)> {
        let key = self.keys.next_back()?;
        Some((key, self.values.next_back().unwrap()))
    }
}

impl<V: Drop> ExactSizeIterator for IntoIter<V> {
    fn len(&self) -> usize {
        self.keys.len()
    }
}

impl<V: Drop> FusedIterator for IntoIter<V> {}
