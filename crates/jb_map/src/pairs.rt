//! The map: its pairs read, found and inserted.
ghost use Rattle.std.specs.Prelude.{◌≡◌, ◌<◌, ℕ, Some, None, [], ◌∷◌, ◌++◌, length, IfOk, IfErr, OnOk, OnErr, position, slice_get, ◌==◌, is_some, zip};
ghost use Rattle.std.specs.Option.{option_copied, option_map};
ghost use Rattle.std.specs.Str.{bytes_eq};
ghost use Rattle.std.specs.List.{IsDistinct};
ghost use Rattle.std.specs.Map.{keys_of, values_of, lookup, lookup_entry};
ghost use Rattle.std.specs.Map.Iter.{deref_pair};
ghost use Rattle.indexmap.specs.IndexMap.{insert_entry, set_value_at};

use crate::key_column::KeyColumn;
use jb_text::{ByteString, Iter, Keys, Memory, Values};
use std::alloc::{AllocError, Global};
use std::marker::Model;
use std::mem;

/// A map from texts to values that keeps the order of insertion. Contracts see the list of its pairs, whose keys
/// are distinct.
///
/// A new key goes last, and a key that is there keeps its place. Finding, and so inserting, is expected to take
/// constant time; a map of at most sixteen pairs has no hash table.
pub struct Pairs<V> {
    pub(crate) keys: KeyColumn,
    pub(crate) values: Vec<V>,
}

impl<V: Drop> Drop for Pairs<V> {
    fn drop(self) {
        let Pairs { keys: _, values: _ } = self;
    }
}

impl<V> Model for Pairs<V> {
    ghost use Rattle.std.specs.Prelude.{◌≡◌, ℕ, List, length, zip};
    ghost use Rattle.std.specs.Coded.{coded_list, coded×, coded_ℕ};

    ghost Value = { List (List ℕ × V) };

    ghost coded = { coded_list (coded× (coded_list coded_ℕ) V.code) };

    ghost view = { λ m. zip m.keys m.values.items };

    ghost invariant = { λ m. length m.values.items ≡ length m.keys };
}

impl<V> Pairs<V> {
    /// An empty map. It allocates nothing until the first `insert`.
    pub fn new(alloc: Global) -> Pairs<V>
        ensures { result ≡ [] }
    {
        Pairs {
            keys: KeyColumn::new(),
            values: Vec::new(alloc),
        }
    }

    /// An empty map with room for `capacity` pairs. `Err` only when out of memory.
    pub fn with_capacity(alloc: Global, capacity: usize) -> Result<Pairs<V>, Memory>
        ensures { IfOk result (λ made. made ≡ []) }
    {
        Ok(Pairs {
            keys: KeyColumn::with_capacity(alloc, capacity)?,
            values: Vec::with_capacity(alloc, capacity)?,
        })
    }

    /// How many pairs there are.
    pub fn len(&self) -> usize
        ensures value { result ≡ length self.now }
        ensures distinct { IsDistinct bytes_eq (keys_of self.now) }
    {
        self.keys.len()
    }

    /// Whether there is no pair.
    pub fn is_empty(&self) -> bool
        ensures { result ≡ (length self.now == 0) }
    {
        self.len() == 0
    }

    /// The place of `key` among the pairs, `None` exactly where it is not there.
    #[inline(always)]
    pub fn find(&self, key: &str) -> Option<usize>
        ensures { result ≡ position (bytes_eq key.now) (keys_of self.now) }
    {
        self.keys.find(key)
    }

    /// Whether `key` is there.
    pub fn contains_key(&self, key: &str) -> bool
        ensures { result ≡ is_some (lookup (bytes_eq key.now) self.now) }
    {
        self.find(key).is_some()
    }

    /// The stored key and the value at `key`, `None` exactly where it is not there.
    pub fn get_key_value(&self, key: &str) -> Option<(&ByteString, &V)>
        ensures { option_map deref_pair result ≡ lookup_entry (bytes_eq key.now) self.now }
    {
        match self.find(key) {
            Some(at) => Some((self.key_at(at), self.value_at(at))),
            None => None,
        }
    }

    /// The value at `key`, `None` exactly where it is not there.
    pub fn get(&self, key: &str) -> Option<&V>
        ensures { option_copied result ≡ lookup (bytes_eq key.now) self.now }
    {
        match self.find(key) {
            Some(at) => Some(self.value_at(at)),
            None => None,
        }
    }

    /// The pairs in order.
    pub fn iter(&self) -> Iter<'_, V>
        ensures { result ≡ self.now }
    {
        Iter::new(self.keys.as_slice(), self.values.as_slice())
    }

    /// The keys in order.
    pub fn keys(&self) -> Keys<'_, V>
        ensures { result ≡ keys_of self.now }
    {
        Keys::new(self.keys.as_slice())
    }

    /// The values in order.
    pub fn values(&self) -> Values<'_, V>
        ensures { result ≡ values_of self.now }
    {
        Values::new(self.values.as_slice())
    }

    /// The key of the pair at `index`, which is below the number of pairs.
    pub fn key_at(&self, index: usize) -> &ByteString
        requires { index < length self.now }
        ensures { slice_get (keys_of self.now) index ≡ Some result.now }
    {
        self.keys.at(index)
    }

    /// The value of the pair at `index`, which is below the number of pairs.
    pub fn value_at(&self, index: usize) -> &V
        requires { index < length self.now }
        ensures { slice_get (values_of self.now) index ≡ Some result.now }
    {
        &self.values[index]
    }

    /// The keys and the values, each in order.
    pub(crate) fn into_columns(self) -> (KeyColumn, Vec<V>)
        ensures pairs { zip result.0 result.1.items ≡ self }
        ensures sizes { length result.1.items ≡ length result.0 }
    {
        let Pairs { keys, values } = self;
        (keys, values)
    }
}

impl<V: Drop> Pairs<V> {
    /// Takes all pairs out. The room for them stays.
    pub fn clear(&mut self)
        ensures { self.new ≡ [] }
    {
        self.keys.clear();
        self.values.clear();
    }

    /// Puts `value` at `key`. A new key goes last, and the answer is `Ok(None)`; a key that is there keeps its place
    /// and its stored text, and the answer is its old value: this is never refused. `Err` only when out of memory:
    /// it hands the pair back, and the map is as it was.
    #[inline(always)]
    pub fn insert(&mut self, key: ByteString, value: V) -> Result<Option<V>, (ByteString, V)>
        ensures old { IfOk result (λ old. old ≡ lookup (bytes_eq key) self.old) }
        ensures pairs { OnOk result (self.new ≡ insert_entry bytes_eq self.old key value) }
        ensures absent { OnErr result (lookup (bytes_eq key) self.old ≡ None) }
        ensures returned { IfErr result (λ pair. pair ≡ (key, value)) }
        ensures unchanged { OnErr result (self.new ≡ self.old) }
    {
        match self.find(key.as_str()) {
            Some(at) => Ok(Some(self.replace_at(at, value))),
            None => match self.append_new(key, value) {
                Ok(()) => Ok(None),
                Err(pair) => Err(pair),
            },
        }
    }

    /// Adds a pair, last. Its key must not be there. `Err` only when out of memory: the pair is then dropped, and the map
    /// is as it was.
    pub fn insert_new(&mut self, key: ByteString, value: V) -> Result<(), Memory>
        requires { position (bytes_eq key) (keys_of self.old) ≡ None }
        ensures pairs { OnOk result (self.new ≡ self.old ++ (key, value) ∷ []) }
        ensures unchanged { OnErr result (self.new ≡ self.old) }
    {
        match self.append_new(key, value) {
            Ok(()) => Ok(()),
            Err(_) => Err(AllocError),
        }
    }

    /// Puts `value` in the place of the value at `index`, and gives that.
    #[inline(always)]
    fn replace_at(&mut self, index: usize, value: V) -> V
        requires { index < length self.old }
        ensures old { slice_get (values_of self.old) index ≡ Some result }
        ensures pairs { self.new ≡ set_value_at self.old index value }
    {
        mem::replace(&mut self.values[index], value)
    }

    /// Adds a pair whose key is not there.
    #[inline(always)]
    fn append_new(&mut self, key: ByteString, value: V) -> Result<(), (ByteString, V)>
        requires { position (bytes_eq key) (keys_of self.old) ≡ None }
        ensures pairs { OnOk result (self.new ≡ self.old ++ (key, value) ∷ []) }
        ensures returned { IfErr result (λ pair. pair ≡ (key, value)) }
        ensures unchanged { OnErr result (self.new ≡ self.old) }
    {
        if self.values.reserve(1).is_err() {
            return Err((key, value));
        }
        let alloc = *self.values.allocator();
        match self.keys.push(alloc, key) {
            Ok(()) => {
                self.values.push_reserved(value);
                Ok(())
            }
            Err(key) => Err((key, value)),
        }
    }
}
