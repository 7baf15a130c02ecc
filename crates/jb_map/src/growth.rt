//! Many pairs put into a map at once.
ghost use Rattle.std.specs.Prelude.{◌≡◌, [], IfOk, OnOk, OnErr, MatchOption, length, reverse, zip, vec_len};
ghost use Rattle.std.specs.Str.{bytes_eq};
ghost use Rattle.indexmap.specs.IndexMap.{insert_entry, insert_all};
ghost use Rattle.jb_map.specs.Moved.{InsertsSome, MovesSome};

use crate::columns::pop_pair;
use crate::key_column::KeyColumn;
use crate::key_list::KeyList;
use crate::pairs::Pairs;
use jb_text::{ByteString, Listed, Memory};
use std::alloc::{AllocError, Global};
use std::mem;

impl<V: Drop> Pairs<V> {
    /// A map of these pairs, inserted in order: of pairs with one key the first gives the place and the last the
    /// value. `Err` only when out of memory.
    pub fn from_pairs(alloc: Global, pairs: Listed<(ByteString, V)>) -> Result<Pairs<V>, Memory>
        ensures { IfOk result (λ made. made ≡ insert_all bytes_eq [] pairs) }
    {
        let mut made = Pairs::with_capacity(alloc, pairs.len())?;
        made.extend(pairs)?;
        Ok(made)
    }

    /// Inserts these pairs in order. `Err` only when out of memory: the pairs that went in before stay, and the others
    /// are dropped.
    pub fn extend(&mut self, pairs: Listed<(ByteString, V)>) -> Result<(), Memory>
        ensures pairs { OnOk result (self.new ≡ insert_all bytes_eq self.old pairs) }
        ensures refused { OnErr result (InsertsSome self.old pairs self.new) }
    {
        for (key, value) in pairs {
            match self.put(key, value) {
                None => {}
                Some(_) => return Err(AllocError),
            }
        }
        Ok(())
    }

    /// Inserts the pairs of `other` in order, and leaves `other` empty. `Err` only when out of memory: the pairs that
    /// went in before stay, and `other` keeps the others in order.
    pub fn append(&mut self, other: &mut Pairs<V>) -> Result<(), Memory>
        ensures pairs { OnOk result (self.new ≡ insert_all bytes_eq self.old other.old) }
        ensures emptied { OnOk result (other.new ≡ []) }
        ensures refused { OnErr result (MovesSome self.old other.old self.new other.new) }
    {
        match mem::replace(&mut other.keys, KeyColumn::new()).into_list() {
            Some(mut list) => {
                let moved = self.take_pairs(&mut list, &mut other.values);
                other.keys = KeyColumn::from_list(list);
                moved
            }
            None => Ok(()),
        }
    }

    /// Inserts the pairs of these keys and values in order, as [`Pairs::append`] does.
    fn take_pairs(&mut self, list: &mut KeyList, values: &mut Vec<V>) -> Result<(), Memory>
        requires { length values.old.items ≡ length list.old }
        ensures pairs { OnOk result (self.new ≡ insert_all bytes_eq self.old (zip list.old values.old.items)) }
        ensures emptied { OnOk result (zip list.new values.new.items ≡ []) }
        ensures refused { OnErr result (MovesSome self.old (zip list.old values.old.items) self.new (zip list.new values.new.items)) }
        ensures even { length values.new.items ≡ length list.new }
    {
        let mut texts = list.take_texts(*values.allocator());
        texts.reverse();
        values.reverse();
        let moved = self.take_back_to_front(&mut texts, values);
        texts.reverse();
        values.reverse();
        list.put_texts(texts);
        moved
    }

    /// Inserts pairs that are taken from the back of a list of keys and one of values.
    fn take_back_to_front(
        &mut self,
        texts: &mut Vec<ByteString>,
        values: &mut Vec<V>,
    ) -> Result<(), Memory>
        requires { vec_len values.old ≡ vec_len texts.old }
        ensures pairs { OnOk result (self.new ≡ insert_all bytes_eq self.old (reverse (zip texts.old.items values.old.items))) }
        ensures emptied { OnOk result (zip texts.new.items values.new.items ≡ []) }
        ensures refused { OnErr result (MovesSome self.old (reverse (zip texts.old.items values.old.items)) self.new (reverse (zip texts.new.items values.new.items))) }
        ensures even { vec_len values.new ≡ vec_len texts.new }
    {
        while let Some((key, value)) = pop_pair(texts, values) {
            if let Some((key, value)) = self.put(key, value) {
                texts.push_reserved(key);
                values.push_reserved(value);
                return Err(AllocError);
            }
        }
        Ok(())
    }

    /// Inserts a pair and drops the value that it replaces. When out of memory it gives the pair back.
    #[inline(always)]
    fn put(&mut self, key: ByteString, value: V) -> Option<(ByteString, V)>
        ensures { MatchOption result (self.new ≡ insert_entry bytes_eq self.old key value) (λ pair. (pair ≡ (key, value)) × (self.new ≡ self.old)) }
    {
        match self.insert(key, value) {
            Ok(_) => None,
            Err(pair) => Some(pair),
        }
    }
}
