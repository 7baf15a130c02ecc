//! The entry of a key: its place in a map, whether it is there or not.
ghost use Rattle.std.specs.Prelude.{◌≡◌, ◌<◌, None, Some, IfOk, IsSome, OnErr, length, position, unwrap_or};
ghost use Rattle.std.specs.Borrow.{sem, MutBor};
ghost use Rattle.std.specs.Option.{UnwrapsOrElse};
ghost use Rattle.std.specs.Map.Calls.{ModifiesValue};
ghost use Rattle.std.specs.Str.{bytes_eq};
ghost use Rattle.std.specs.Map.{keys_of, lookup};
ghost use Rattle.indexmap.specs.IndexMap.{insert_entry, swap_remove_entry};

use crate::pairs::Pairs;
use jb_text::{ByteString, Memory};
use std::mem;

/// The place of a key in a map, which has the key or lacks it.
#[derive(Drop)]
pub enum Entry<'a, V> {
    Vacant(VacantEntry<'a, V>),
    Occupied(OccupiedEntry<'a, V>),
}

/// The place of a key that the map lacks.
#[derive(Drop)]
pub struct VacantEntry<'a, V> {
    map: &'a mut Pairs<V>,
    key: ByteString,
    ghost absent: { position (bytes_eq key) (keys_of map.now) ≡ None },
}

/// The place of a key that the map has.
#[derive(Drop)]
pub struct OccupiedEntry<'a, V> {
    map: &'a mut Pairs<V>,
    index: usize,
    ghost within: { index < length map.now },
}

impl<V> Pairs<V> {
    ghost use Rattle.jb_map.specs.Entry.{MatchEntry, entry_map_ref, entry_map, entry_key, entry_value, with_value, without_entry};

    /// The place of `key`: what is written there is what `insert` writes, and what is removed there is what `remove`
    /// removes.
    pub fn entry(&mut self, key: ByteString) -> Entry<'_, V>
        ensures same_map { (entry_map_ref result).ghost_name ≡ self.entry.ghost_name }
        ensures unchanged { entry_map result ≡ self.old }
        ensures found { MatchEntry result (IsSome (lookup (bytes_eq key) self.old)) (lookup (bytes_eq key) self.old ≡ None) }
        ensures key { entry_key result ≡ Some key }
        ensures value { entry_value result ≡ lookup (bytes_eq key) self.old }
        ensures writes { (w : V) → with_value result w ≡ insert_entry bytes_eq self.old key w }
        ensures removes { without_entry result ≡ swap_remove_entry (bytes_eq key) self.old }
    {
        match self.find(key.as_str()) {
            Some(index) => Entry::Occupied(OccupiedEntry { map: self, index }),
            None => Entry::Vacant(VacantEntry { map: self, key }),
        }
    }
}

impl<'a, V: Drop> Entry<'a, V> {
    ghost use Rattle.jb_map.specs.Entry.{entry_map_ref, entry_map, entry_key, entry_value, with_value, without_entry, entry_lends_ok};

    /// The stored key where there is one, else the key that was asked for.
    pub fn key(&self) -> &ByteString
        ensures { entry_key self.now ≡ Some result.now }
    {
        match self {
            Entry::Occupied(entry) => entry.key(),
            Entry::Vacant(entry) => entry.key(),
        }
    }

    /// The key's value, after `value` was inserted where there was none. `Err` only when out of memory, and never where
    /// the key is there: the map is then as it was.
    pub fn or_insert(self, value: V) -> Result<&'a mut V, Memory>
        ensures* writes_back { sem 𝓛 (entry_lends_ok V.row self.entry result) }
        ensures value { IfOk result (λ place. place.now ≡ unwrap_or (entry_value self.entry) value) }
        ensures absent { OnErr result (entry_value self.entry ≡ None) }
    {
        match self {
            Entry::Occupied(entry) => Ok(entry.into_mut()),
            Entry::Vacant(entry) => entry.insert(value),
        }
    }

    /// As [`Entry::or_insert`], with what `make` gives. It is called only where there is no value.
    pub fn or_insert_with<F: FnOnce() -> V>(self, make: F) -> Result<&'a mut V, Memory>
        requires { entry_value self ≡ None → F.pre make }
        ensures* writes_back { sem 𝓛 (entry_lends_ok V.row self.entry result) }
        ensures value { IfOk result (λ place. UnwrapsOrElse (entry_value self.entry) (F.post make) place.now) }
        ensures absent { OnErr result (entry_value self.entry ≡ None) }
    {
        match self {
            Entry::Occupied(entry) => Ok(entry.into_mut()),
            Entry::Vacant(entry) => entry.insert(make()),
        }
    }

    /// Calls `change` on the value, where there is one.
    pub fn and_modify<F: FnOnce(&mut V)>(self, change: F) -> Entry<'a, V>
        requires { (place : MutBor V) → entry_value self ≡ Some place.now → F.pre change place }
        ensures same_map { (entry_map_ref result).ghost_name ≡ (entry_map_ref self.entry).ghost_name }
        ensures same_key { entry_key result ≡ entry_key self.entry }
        ensures same_writes { (w : V) → with_value result w ≡ with_value self.entry w }
        ensures changed { ModifiesValue F.FnOnce change (entry_value self.entry) (entry_value result) }
    {
        match self {
            Entry::Occupied(mut entry) => {
                change(entry.get_mut());
                Entry::Occupied(entry)
            }
            Entry::Vacant(entry) => Entry::Vacant(entry),
        }
    }
}

impl<'a, V: Drop> VacantEntry<'a, V> {
    ghost use Rattle.jb_map.specs.Entry.{Vacant, entry_key, entry_lends_ok};

    /// The key that would go in.
    pub fn key(&self) -> &ByteString
        ensures { entry_key (Vacant self.now) ≡ Some result.now }
    {
        &self.key
    }

    /// Inserts the key last, with `value`. `Err` only when out of memory, with the map as it was.
    pub fn insert(self, value: V) -> Result<&'a mut V, Memory>
        ensures* writes_back { sem 𝓛 (entry_lends_ok V.row (Vacant self.entry) result) }
        ensures value { IfOk result (λ place. place.now ≡ value) }
    {
        let VacantEntry { map, key } = self;
        let index = map.len();
        match map.insert_new(key, value) {
            Ok(()) => Ok(map.value_mut_at(index)),
            Err(refused) => Err(refused),
        }
    }
}

impl<'a, V: Drop> OccupiedEntry<'a, V> {
    ghost use Rattle.jb_map.specs.Entry.{Occupied, entry_map_ref, entry_key, entry_value, with_value, without_entry, entry_lends, occupied_lends};

    /// The stored key.
    pub fn key(&self) -> &ByteString
        ensures { entry_key (Occupied self.now) ≡ Some result.now }
    {
        self.map.key_at(self.index)
    }

    /// The value.
    pub fn get(&self) -> &V
        ensures { entry_value (Occupied self.now) ≡ Some result.now }
    {
        self.map.value_at(self.index)
    }

    /// The value, to be changed in place. What is written there changes that value alone.
    pub fn get_mut(&mut self) -> &mut V
        ensures* writes_back { sem 𝓛 (occupied_lends V.row self.entry result) }
        ensures value { entry_value (Occupied self.old) ≡ Some result.now }
    {
        let index = self.index;
        self.map.value_mut_at(index)
    }

    /// The value, to be changed in place for as long as the map is lent.
    pub fn into_mut(self) -> &'a mut V
        ensures* writes_back { sem 𝓛 (entry_lends V.row (Occupied self.entry) result) }
        ensures value { entry_value (Occupied self.entry) ≡ Some result.now }
    {
        let OccupiedEntry { map, index } = self;
        map.value_mut_at(index)
    }

    /// Puts `value` in the place of the value, and gives that.
    pub fn insert(&mut self, value: V) -> V
        ensures old { entry_value (Occupied self.old) ≡ Some result }
        ensures same_map { self.new.map.ghost_name ≡ self.old.map.ghost_name }
        ensures written { self.new.map.now ≡ with_value (Occupied self.old) value }
        ensures same_index { self.new.index ≡ self.old.index }
    {
        let index = self.index;
        mem::replace(self.map.value_mut_at(index), value)
    }

    /// Takes the pair out and gives its value. The last pair moves into the gap.
    pub fn remove(self) -> V
        ensures value { entry_value (Occupied self.entry) ≡ Some result }
        ensures removed { self.exit.0.now ≡ without_entry (Occupied self.entry) }
    {
        let index = self.index;
        let (_key, value) = self.map.remove_at(index);
        value
    }
}
