//! The keys of a map in order, with a table of their hashes where they are many.
ghost use Rattle.std.specs.Prelude.{◌≡◌, ◌<◌, ℕ, List, None, Some, [], ◌∷◌, ◌++◌, IfOk, IfErr, IfSome, OnOk, OnErr, length, position, slice_get, swap_remove};
ghost use Rattle.std.specs.Str.{bytes_eq};
ghost use Rattle.std.specs.List.{IsDistinct};

use crate::key_table::KeyTable;
use crate::same_text::is_same_text;
use jb_text::{ByteString, Memory};
use std::alloc::Global;
use std::marker::Model;
use std::mem;

/// Up to this many keys a look-up goes through them; past it a table of their hashes is kept.
const MOST_SCANNED: usize = 16;

/// The keys of a map in order, with a table of their hashes where they are many. Contracts see the list of their
/// texts, which are distinct.
pub struct KeyList {
    pub(crate) texts: Vec<ByteString>,
    pub(crate) table: Option<Box<KeyTable>>,
}

impl Drop for KeyList {
    fn drop(self) {
        let KeyList { texts: _, table: _ } = self;
    }
}

impl Model for KeyList {
    ghost use Rattle.std.specs.Prelude.{◌≡◌, ℕ, List, IfSome};
    ghost use Rattle.std.specs.Str.{bytes_eq};
    ghost use Rattle.std.specs.List.{IsDistinct};

    ghost Value = { List (List ℕ) };

    ghost view = { λ l. l.texts.items };

    ghost invariant = { λ l. IsDistinct bytes_eq l.texts.items × IfSome l.table (λ t. t.value ≡ l.texts.items) };
}

impl KeyList {
    /// No keys. It allocates nothing until the first `push`.
    pub fn new(alloc: Global) -> KeyList
        ensures { result ≡ [] }
    {
        KeyList {
            texts: Vec::new(alloc),
            table: None,
        }
    }

    /// No keys, with room for `capacity` of them. `Err` only when out of memory.
    pub fn with_capacity(alloc: Global, capacity: usize) -> Result<KeyList, Memory>
        ensures { IfOk result (λ made. made ≡ []) }
    {
        Ok(KeyList {
            texts: Vec::with_capacity(alloc, capacity)?,
            table: None,
        })
    }

    /// How many keys there are.
    pub fn len(&self) -> usize
        ensures value { result ≡ length self.now }
        ensures distinct { IsDistinct bytes_eq self.now }
    {
        self.texts.len()
    }

    /// The keys in order.
    pub fn as_slice(&self) -> &[ByteString]
        ensures { result.now ≡ self.now }
    {
        self.texts.as_slice()
    }

    /// The key at `index`.
    pub fn at(&self, index: usize) -> &ByteString
        requires { index < length self.now }
        ensures { slice_get self.now index ≡ Some result.now }
    {
        &self.texts[index]
    }

    /// The place of `key`.
    #[inline(always)]
    pub fn find(&self, key: &str) -> Option<usize>
        ensures { result ≡ position (bytes_eq key.now) self.now }
    {
        match &self.table {
            Some(table) => table.find(key),
            None => scan(self.texts.as_slice(), key),
        }
    }

    /// Adds a key that is not there, last. `Err` only when out of memory: it hands the key back, with nothing changed.
    #[inline(always)]
    pub fn push(&mut self, alloc: Global, key: ByteString) -> Result<(), ByteString>
        requires { position (bytes_eq key) self.old ≡ None }
        ensures pushed { OnOk result (self.new ≡ self.old ++ key ∷ []) }
        ensures returned { IfErr result (λ refused. refused ≡ key) }
        ensures unchanged { OnErr result (self.new ≡ self.old) }
    {
        if self.texts.reserve(1).is_err() {
            return Err(key);
        }
        match note_key(alloc, &mut self.table, self.texts.as_slice(), key.as_str()) {
            Ok(()) => {
                self.texts.push_reserved(key);
                Ok(())
            }
            Err(_) => Err(key),
        }
    }

    /// Takes the key at `index` out. The last key moves into the gap.
    pub fn swap_remove(&mut self, index: usize) -> ByteString
        requires { index < length self.old }
        ensures key { slice_get self.old index ≡ Some result }
        ensures keys { self.new ≡ swap_remove self.old index result }
    {
        forget_key(&mut self.table, self.texts.as_slice(), index);
        self.texts.swap_remove(index)
    }

    /// Takes all keys out. The room for them stays.
    pub fn clear(&mut self)
        ensures { self.new ≡ [] }
    {
        self.table = None;
        self.texts.clear();
    }

    /// Takes all keys out, with the room for them.
    pub fn take_texts(&mut self, alloc: Global) -> Vec<ByteString>
        ensures taken { result.items ≡ self.old }
        ensures distinct { IsDistinct bytes_eq self.old }
        ensures emptied { self.new ≡ [] }
    {
        self.table = None;
        mem::replace(&mut self.texts, Vec::new(alloc))
    }

    /// Puts distinct texts in the place of the keys.
    pub fn put_texts(&mut self, texts: Vec<ByteString>)
        requires { IsDistinct bytes_eq texts.items }
        ensures { self.new ≡ texts.items }
    {
        self.table = None;
        self.texts = texts;
    }

    /// The keys themselves. It takes no memory.
    pub fn into_texts(self) -> Vec<ByteString>
        ensures { result.items ≡ self }
    {
        let KeyList {
            table: _table,
            texts,
        } = self;
        texts
    }
}

/// The place of the first of these texts that is `key`.
#[inline(always)]
fn scan(texts: &[ByteString], key: &str) -> Option<usize>
    ensures { result ≡ position (bytes_eq key.now) texts.now }
{
    texts
        .iter()
        .position(|text| is_same_text(key, text.as_str()))
}

/// Notes in the table, where there is one, that `key` comes last; makes the table where there are now too many
/// keys to go through. `Err` only when out of memory, with the table as it was.
#[inline(always)]
fn note_key(
    alloc: Global,
    table: &mut Option<Box<KeyTable>>,
    texts: &[ByteString],
    key: &str,
) -> Result<(), Memory>
    requires distinct { IsDistinct bytes_eq texts.now }
    requires fits { IfSome table.old (λ t. t.value ≡ texts.now) }
    requires absent { position (bytes_eq key.now) texts.now ≡ None }
    ensures noted { OnOk result (IfSome table.new (λ t. t.value ≡ texts.now ++ key.now ∷ [])) }
    ensures refused { OnErr result (IfSome table.new (λ t. t.value ≡ texts.now)) }
{
    match table {
        Some(keys) => keys.push(alloc, key),
        None if texts.len() < MOST_SCANNED => Ok(()),
        None => {
            let mut keys = table_of(alloc, texts)?;
            keys.push(alloc, key)?;
            *table = Some(Box::new(alloc, keys)?);
            Ok(())
        }
    }
}

/// The table of these texts.
fn table_of(alloc: Global, texts: &[ByteString]) -> Result<KeyTable, Memory>
    requires { IsDistinct bytes_eq texts.now }
    ensures { IfOk result (λ keys. keys ≡ texts.now) }
{
    let mut keys = KeyTable::with_capacity(alloc, texts.len().saturating_mul(2))?;
    for text in texts {
        keys.push(alloc, text.as_str())?;
    }
    Ok(keys)
}

/// Takes the key at `index` out of the table, where there is one.
fn forget_key(table: &mut Option<Box<KeyTable>>, texts: &[ByteString], index: usize)
    requires within { index < length texts.now }
    requires fits { IfSome table.old (λ t. t.value ≡ texts.now) }
    ensures { (d : List ℕ) → IfSome table.new (λ t. t.value ≡ swap_remove texts.now index d) }
{
    if let Some(keys) = table {
        keys.swap_remove(index);
    }
}
