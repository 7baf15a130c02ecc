//! The walks of a map whose values may be changed in place. They have no model, so that contracts can follow the loan:
//! they show what they have left, and end for good, from whichever ends they are taken.
ghost use Rattle.std.specs.Prelude.{◌≡◌, ◌≤◌, IfSome, length, zip};
ghost use Rattle.std.specs.Iterator.{UpTo, at_most};
ghost use Rattle.std.specs.Map.Iter.{LendsFirst, LendsLast};
ghost use Rattle.std.specs.Slice.Iter.{iter_rest, iter_mut_rest};

use crate::byte_string::ByteString;
use std::iter::FusedIterator;
use std::slice;

/// The pairs of a map in order, the values to be changed in place.
#[derive(Drop)]
pub struct IterMut<'a, V> {
    keys: slice::Iter<'a, ByteString>,
    values: slice::IterMut<'a, V>,
    ghost even: { length (iter_mut_rest values) ≡ length (iter_rest keys) },
}

impl<'a, V> IterMut<'a, V> {
    ghost use Rattle.jb_text.specs.WalkMut.{pairs_left, pairs_name};

    /// The walk along these keys and the values at the same places.
    pub fn new(keys: &'a [ByteString], values: &'a mut [V]) -> IterMut<'a, V>
        requires { length values.old ≡ length keys.now }
        ensures left { pairs_left result ≡ zip keys.now values.old }
        ensures name { pairs_name result ≡ values.entry.ghost_name }
    {
        IterMut {
            keys: keys.iter(),
            values: values.iter_mut(),
        }
    }
}

impl<'a, V> Iterator for IterMut<'a, V> {
    ghost use Rattle.jb_text.specs.WalkMut.{pairs_left};

    type Item = (&'a ByteString, &'a mut V);

    ghost next_gives = { LendsFirst pairs_left };

    ghost remaining = { λ s. at_most (length (pairs_left s)) };

    fn next(&mut self) -> Option<(&'a ByteString, &'a mut V)> {
        let key = self.keys.next()?;
        Some((key, self.values.next().unwrap()))
    }

    fn size_hint(&self) -> (usize, Option<usize>)
        ensures lower { result.0 ≤ length (pairs_left self.now) }
        ensures upper { IfSome result.1 (UpTo (at_most (length (pairs_left self.now)))) }
        ensures exact { result ≡ (length (pairs_left self.now), Some (length (pairs_left self.now))) }
    {
        let len = self.len();
        (len, Some(len))
    }
}

impl<'a, V> DoubleEndedIterator for IterMut<'a, V> {
    ghost use Rattle.jb_text.specs.WalkMut.{pairs_left};

    ghost next_back_gives = { LendsLast pairs_left };

    fn next_back(&mut self) -> Option<(&'a ByteString, &'a mut V)> {
        let key = self.keys.next_back()?;
        Some((key, self.values.next_back().unwrap()))
    }
}

impl<'a, V> ExactSizeIterator for IterMut<'a, V> {
    fn len(&self) -> usize {
        self.keys.len()
    }
}

impl<'a, V> FusedIterator for IterMut<'a, V> {}

/// The values of a map in order, to be changed in place.
#[derive(Drop)]
pub struct ValuesMut<'a, V> {
    left: slice::IterMut<'a, V>,
}

impl<'a, V> ValuesMut<'a, V> {
    ghost use Rattle.jb_text.specs.WalkMut.{values_left, values_name};

    /// The walk along these values.
    pub fn new(values: &'a mut [V]) -> ValuesMut<'a, V>
        ensures left { values_left result ≡ values.old }
        ensures name { values_name result ≡ values.entry.ghost_name }
    {
        ValuesMut {
            left: values.iter_mut(),
        }
    }
}

impl<'a, V> Iterator for ValuesMut<'a, V> {
    ghost use Rattle.jb_text.specs.WalkMut.{values_left, values_step};

    type Item = &'a mut V;

    ghost next_gives = { values_step };

    ghost remaining = { λ s. at_most (length (values_left s)) };

    fn next(&mut self) -> Option<&'a mut V> {
        self.left.next()
    }

    fn size_hint(&self) -> (usize, Option<usize>)
        ensures lower { result.0 ≤ length (values_left self.now) }
        ensures upper { IfSome result.1 (UpTo (at_most (length (values_left self.now)))) }
        ensures exact { result ≡ (length (values_left self.now), Some (length (values_left self.now))) }
    {
        let len = self.len();
        (len, Some(len))
    }
}

impl<'a, V> DoubleEndedIterator for ValuesMut<'a, V> {
    ghost use Rattle.jb_text.specs.WalkMut.{values_step_back};

    ghost next_back_gives = { values_step_back };

    fn next_back(&mut self) -> Option<&'a mut V> {
        self.left.next_back()
    }
}

impl<'a, V> ExactSizeIterator for ValuesMut<'a, V> {
    fn len(&self) -> usize {
        self.left.len()
    }
}

impl<'a, V> FusedIterator for ValuesMut<'a, V> {}
