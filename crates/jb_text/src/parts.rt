//! The walks of a map that give keys alone or values alone. Each is seen as the list of what it has left, and ends for
//! good, from whichever ends it is taken.
ghost use Rattle.std.specs.Prelude.{◌≡◌, ◌≤◌, IfSome, length};
ghost use Rattle.std.specs.Iterator.{UpTo, at_most};
ghost use Rattle.std.specs.Map.Iter.{TakesFirst, TakesLast, deref};

use crate::byte_string::ByteString;
use std::iter::FusedIterator;
use std::marker::Model;
use std::slice;

/// The keys of a map in order.
#[derive(Drop)]
pub struct Keys<'a, V> {
    left: slice::Iter<'a, ByteString>,
    // Empty: it only names the type of the map's values.
    values: &'a [V],
}

impl<'a, V> Model for Keys<'a, V> {
    ghost use Rattle.std.specs.Prelude.{List, ℕ};
    ghost use Rattle.std.specs.Slice.Iter.{iter_rest};

    ghost Value = { List (List ℕ) };

    ghost view = { λ s. iter_rest s.left };
}

impl<'a, V> Keys<'a, V> {
    /// The walk along these keys.
    pub fn new(keys: &'a [ByteString]) -> Keys<'a, V>
        ensures { result ≡ keys.now }
    {
        Keys {
            left: keys.iter(),
            values: &[],
        }
    }
}

impl<'a, V> Iterator for Keys<'a, V> {
    type Item = &'a ByteString;

    ghost next_gives = { TakesFirst deref };

    ghost remaining = { λ s. at_most (length s) };

    fn next(&mut self) -> Option<&'a ByteString> {
        self.left.next()
    }

    fn size_hint(&self) -> (usize, Option<usize>)
        ensures lower { result.0 ≤ length self.now }
        ensures upper { IfSome result.1 (UpTo (at_most (length self.now))) }
        ensures exact { result ≡ (length self.now, Some (length self.now)) }
    {
        let len = self.len();
        (len, Some(len))
    }
}

impl<'a, V> DoubleEndedIterator for Keys<'a, V> {
    ghost next_back_gives = { TakesLast deref };

    fn next_back(&mut self) -> Option<&'a ByteString> {
        self.left.next_back()
    }
}

impl<'a, V> ExactSizeIterator for Keys<'a, V> {
    fn len(&self) -> usize {
        self.left.len()
    }
}

impl<'a, V> FusedIterator for Keys<'a, V> {}

/// The values of a map in order.
#[derive(Drop)]
pub struct Values<'a, V> {
    left: slice::Iter<'a, V>,
}

impl<'a, V> Model for Values<'a, V> {
    ghost use Rattle.std.specs.Prelude.{List};
    ghost use Rattle.std.specs.Coded.{coded_list};
    ghost use Rattle.std.specs.Slice.Iter.{iter_rest};

    ghost Value = { List V };

    ghost coded = { coded_list V.code };

    ghost view = { λ s. iter_rest s.left };
}

impl<'a, V> Values<'a, V> {
    /// The walk along these values.
    pub fn new(values: &'a [V]) -> Values<'a, V>
        ensures { result ≡ values.now }
    {
        Values {
            left: values.iter(),
        }
    }
}

impl<'a, V> Iterator for Values<'a, V> {
    type Item = &'a V;

    ghost next_gives = { TakesFirst deref };

    ghost remaining = { λ s. at_most (length s) };

    fn next(&mut self) -> Option<&'a V> {
        self.left.next()
    }

    fn size_hint(&self) -> (usize, Option<usize>)
        ensures lower { result.0 ≤ length self.now }
        ensures upper { IfSome result.1 (UpTo (at_most (length self.now))) }
        ensures exact { result ≡ (length self.now, Some (length self.now)) }
    {
        let len = self.len();
        (len, Some(len))
    }
}

impl<'a, V> DoubleEndedIterator for Values<'a, V> {
    ghost next_back_gives = { TakesLast deref };

    fn next_back(&mut self) -> Option<&'a V> {
        self.left.next_back()
    }
}

impl<'a, V> ExactSizeIterator for Values<'a, V> {
    fn len(&self) -> usize {
        self.left.len()
    }
}

impl<'a, V> FusedIterator for Values<'a, V> {}
