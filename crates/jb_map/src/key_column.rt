//! The keys of a map, as small as a pointer.
ghost use Rattle.std.specs.Prelude.{◌≡◌, ◌<◌, None, Some, [], ◌∷◌, ◌++◌, IfOk, IfErr, OnOk, OnErr, length, position, slice_get, swap_remove};
ghost use Rattle.std.specs.Option.{option_map_or};
ghost use Rattle.std.specs.Str.{bytes_eq};
ghost use Rattle.std.specs.List.{IsDistinct};

use crate::key_list::KeyList;
use jb_text::{ByteString, Memory};
use std::alloc::Global;
use std::marker::Model;

/// The keys of a map in order. Contracts see the list of their texts. It is as small as a pointer, and takes no
/// memory before the first key.
pub struct KeyColumn {
    pub(crate) list: Option<Box<KeyList>>,
}

impl Drop for KeyColumn {
    fn drop(self) {
        let KeyColumn { list: _ } = self;
    }
}

impl Model for KeyColumn {
    ghost use Rattle.std.specs.Prelude.{ℕ, List, []};
    ghost use Rattle.std.specs.Option.{option_map_or};

    ghost Value = { List (List ℕ) };

    ghost view = { λ c. option_map_or (λ l. l.value) c.list [] };
}

impl KeyColumn {
    /// No keys. It takes no memory.
    pub fn new() -> KeyColumn
        ensures { result ≡ [] }
    {
        KeyColumn { list: None }
    }

    /// No keys, with room for `capacity` of them. `Err` only when out of memory.
    pub fn with_capacity(alloc: Global, capacity: usize) -> Result<KeyColumn, Memory>
        ensures { IfOk result (λ made. made ≡ []) }
    {
        if capacity == 0 {
            return Ok(KeyColumn::new());
        }
        let list = KeyList::with_capacity(alloc, capacity)?;
        Ok(KeyColumn::from_list(Box::new(alloc, list)?))
    }

    /// The column of these keys.
    pub fn from_list(list: Box<KeyList>) -> KeyColumn
        ensures { result ≡ list.value }
    {
        KeyColumn { list: Some(list) }
    }

    /// The keys, where there is memory for some.
    pub fn into_list(self) -> Option<Box<KeyList>>
        ensures { option_map_or (λ l. l.value) result [] ≡ self }
    {
        let KeyColumn { list } = self;
        list
    }

    /// How many keys there are.
    pub fn len(&self) -> usize
        ensures value { result ≡ length self.now }
        ensures distinct { IsDistinct bytes_eq self.now }
    {
        match &self.list {
            Some(list) => list.len(),
            None => 0,
        }
    }

    /// The keys in order.
    pub fn as_slice(&self) -> &[ByteString]
        ensures { result.now ≡ self.now }
    {
        match &self.list {
            Some(list) => list.as_slice(),
            None => &[],
        }
    }

    /// The key at `index`.
    pub fn at(&self, index: usize) -> &ByteString
        requires { index < length self.now }
        ensures { slice_get self.now index ≡ Some result.now }
    {
        match &self.list {
            Some(list) => list.at(index),
            None => unreachable!(),
        }
    }

    /// The place of `key`.
    #[inline(always)]
    pub fn find(&self, key: &str) -> Option<usize>
        ensures { result ≡ position (bytes_eq key.now) self.now }
    {
        match &self.list {
            Some(list) => list.find(key),
            None => None,
        }
    }

    /// Adds a key that is not there, last. `Err` only when out of memory: it hands the key back, with nothing changed.
    #[inline(always)]
    pub fn push(&mut self, alloc: Global, key: ByteString) -> Result<(), ByteString>
        requires { position (bytes_eq key) self.old ≡ None }
        ensures pushed { OnOk result (self.new ≡ self.old ++ key ∷ []) }
        ensures returned { IfErr result (λ refused. refused ≡ key) }
        ensures unchanged { OnErr result (self.new ≡ self.old) }
    {
        match &mut self.list {
            Some(list) => list.push(alloc, key),
            None => match first_key(alloc, key) {
                Ok(list) => {
                    self.list = Some(list);
                    Ok(())
                }
                Err(key) => Err(key),
            },
        }
    }

    /// Takes the key at `index` out. The last key moves into the gap.
    pub fn swap_remove(&mut self, index: usize) -> ByteString
        requires { index < length self.old }
        ensures key { slice_get self.old index ≡ Some result }
        ensures keys { self.new ≡ swap_remove self.old index result }
    {
        match &mut self.list {
            Some(list) => list.swap_remove(index),
            None => unreachable!(),
        }
    }

    /// Takes all keys out. The room for them stays.
    pub fn clear(&mut self)
        ensures { self.new ≡ [] }
    {
        if let Some(list) = &mut self.list {
            list.clear();
        }
    }

    /// The keys themselves. It takes no memory.
    pub fn into_texts(self, alloc: Global) -> Vec<ByteString>
        ensures { result.items ≡ self }
    {
        match self.into_list() {
            Some(list) => Box::into_inner(list).into_texts(),
            None => Vec::new(alloc),
        }
    }
}

/// A list of one key. `Err` only when out of memory: it hands the key back.
fn first_key(alloc: Global, key: ByteString) -> Result<Box<KeyList>, ByteString>
    ensures made { IfOk result (λ list. list.value ≡ key ∷ []) }
    ensures returned { IfErr result (λ refused. refused ≡ key) }
{
    match Box::new(alloc, KeyList::new(alloc)) {
        Ok(mut list) => match list.push(alloc, key) {
            Ok(()) => Ok(list),
            Err(key) => Err(key),
        },
        Err(_) => Err(key),
    }
}
