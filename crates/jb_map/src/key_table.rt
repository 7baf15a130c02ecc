//! A table of keys, found by hash.
ghost use Rattle.std.specs.Prelude.{◌≡◌, ◌<◌, ℕ, List, None, [], ◌∷◌, ◌++◌, IfOk, OnOk, OnErr, length, position, remove, swap_remove, swap, take, slice_index_or, true, false};
ghost use Rattle.std.specs.Str.{bytes_eq};
ghost use Rattle.std.specs.List.{IsDistinct, list_any};
ghost use Rattle.jb_map.specs.bridge.Covers.{Covers};

use indexmap::IndexSet;
use jb_text::{ByteString, Memory};
use std::alloc::Global;
use std::marker::Model;

/// The texts of keys in order, found by hash. Contracts see the list of the texts.
///
/// A map of many members and a table of many names keep one beside their entries. Finding, adding and taking the last
/// key into a gap are expected to take constant time; [`KeyTable::remove`] goes through the keys behind the gap.
pub struct KeyTable {
    texts: IndexSet<String>,
}

impl Drop for KeyTable {
    fn drop(self) {
        let KeyTable { texts: _ } = self;
    }
}

impl Model for KeyTable {
    ghost use Rattle.std.specs.Prelude.{List, ℕ, map, string_bytes};

    ghost Value = { List (List ℕ) };

    ghost view = { λ k. map string_bytes k.texts.keys };
}

impl KeyTable {
    /// A table without keys. It allocates nothing until the first `push`.
    #[must_use]
    pub fn new(alloc: Global) -> KeyTable
        ensures { result ≡ [] }
    {
        KeyTable {
            texts: IndexSet::new(alloc),
        }
    }

    /// A table without keys, with room for `capacity` of them. `Err` only when out of memory.
    pub fn with_capacity(alloc: Global, capacity: usize) -> Result<KeyTable, Memory>
        ensures { IfOk result (λ made. made ≡ []) }
    {
        Ok(KeyTable {
            texts: IndexSet::with_capacity(alloc, capacity)?,
        })
    }

    /// The place of `key`; `None` exactly where it is not there. It takes no memory.
    #[must_use]
    #[inline(always)]
    pub fn find(&self, key: &str) -> Option<usize>
        ensures { result ≡ position (bytes_eq key.now) self.now }
    {
        self.texts.get_index_of(key)
    }

    /// Adds a key, last. It must not be there. `Err` only when out of memory, with nothing changed.
    pub fn push(&mut self, alloc: Global, key: &str) -> Result<(), Memory>
        requires { position (bytes_eq key.now) self.old ≡ None }
        ensures pushed { OnOk result (self.new ≡ self.old ++ key.now ∷ []) }
        ensures refused { OnErr result (self.new ≡ self.old) }
    {
        let text = String::from_str(alloc, key)?;
        self.texts.insert(text)?;
        Ok(())
    }

    /// Takes the key at `index`, which is below the number of keys, out; the later ones close up. It takes no memory.
    pub fn remove(&mut self, index: usize)
        requires { index < length self.old }
        ensures { self.new ≡ remove self.old index }
    {
        let _key = self.texts.shift_remove_index(index);
    }

    /// Takes the key at `index` out. The last key moves into the gap.
    pub(crate) fn swap_remove(&mut self, index: usize)
        requires { index < length self.old }
        ensures { (d : List ℕ) → self.new ≡ swap_remove self.old index d }
    {
        let _key = self.texts.swap_remove_index(index);
    }

    /// Brings the keys into the order of these texts, and takes out those that are not among them. It takes no memory.
    pub(crate) fn align(&mut self, texts: &[ByteString])
        requires distinct { IsDistinct bytes_eq texts.now }
        requires covered { Covers self.old texts.now }
        ensures { self.new ≡ texts.now }
    {
        for index in 0..texts.len() {
            self.bring(texts[index].as_str(), index);
        }
        self.cut(texts.len());
    }

    /// Moves a key that is at `index` or later to `index`.
    fn bring(&mut self, key: &str, index: usize)
        requires there { list_any (bytes_eq key.now) self.old ≡ true }
        requires later { (k : ℕ) (d : List ℕ) → k < index → bytes_eq key.now (slice_index_or self.old k d) ≡ false }
        ensures within { index < length self.new }
        ensures placed { (d : List ℕ) → slice_index_or self.new index d ≡ key.now }
        ensures others { (k : ℕ) (d : List ℕ) → k < index → slice_index_or self.new k d ≡ slice_index_or self.old k d }
        ensures same_keys { (k : List ℕ) → list_any (bytes_eq k) self.new ≡ list_any (bytes_eq k) self.old }
    {
        match self.find(key) {
            Some(at) => self.exchange(index, at),
            None => {}
        }
    }

    /// Puts two keys in each other's place.
    fn exchange(&mut self, first: usize, second: usize)
        requires first { first < length self.old }
        requires second { second < length self.old }
        ensures { self.new ≡ swap self.old first second }
    {
        self.texts.swap_indices(first, second);
    }

    /// Keeps the first `len` keys.
    fn cut(&mut self, len: usize)
        ensures { self.new ≡ take len self.old }
    {
        self.texts.truncate(len);
    }
}
