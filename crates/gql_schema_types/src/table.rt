//! Tables: lists of things with names of their own, no two of one name.

ghost use Rattle.std.specs.Prelude.{◌≡◌, ◌<◌, ◌==◌, ℕ, List, Some, None, [], ◌∷◌, ◌++◌, ◌↔◌, IsTrue, length, map, IfOk, IfErr, IfSome, OnOk, OnErr, position, remove, slice_get, slice_set};
ghost use Rattle.std.specs.Option.{option_copied};
ghost use Rattle.std.specs.Str.{bytes_eq};
ghost use Rattle.std.specs.List.{IsDistinct};
ghost use Rattle.gql_schema_types.specs.Entries.{texts, is_called, entry, put, without};

use crate::named::Named;
use jb_map::KeyTable;
use jb_text::Memory;
use std::alloc::Global;
use std::marker::Model;
use std::mem;

/// Up to this many entries a look-up goes through them; past it an index of their names is kept. A
/// schema's table of types always passes it, by the built-in ones alone.
const MOST_SCANNED: usize = 12;

/// Things in order, no two of one name. Contracts see the list of them.
///
/// A new name goes last. Finding is expected to take constant time; a table of at most twelve entries has no index.
pub struct Table<T: Named> {
    entries: Vec<T>,
    index: Option<Box<KeyTable>>,
}

impl<T: Named + Drop> Drop for Table<T> {
    fn drop(self) {
        let Table {
            entries: _,
            index: _,
        } = self;
    }
}

impl<T: Named> Model for Table<T> {
    ghost use Rattle.std.specs.Prelude.{◌≡◌, List, IfSome};
    ghost use Rattle.std.specs.Coded.{coded_list};
    ghost use Rattle.std.specs.Str.{bytes_eq};
    ghost use Rattle.std.specs.List.{IsDistinct};
    ghost use Rattle.gql_schema_types.specs.Entries.{texts};

    ghost Value = { List T };

    ghost coded = { coded_list T.code };

    ghost view = { λ t. t.entries.items };

    ghost invariant = { λ t. IsDistinct bytes_eq (texts T.own t.entries.items) × IfSome t.index (λ i. i.value ≡ texts T.own t.entries.items) };
}

impl<T: Named> Table<T> {
    /// No entries. It allocates nothing until the first is added.
    #[must_use]
    pub fn new(alloc: Global) -> Table<T>
        ensures { result ≡ [] }
    {
        Table {
            entries: Vec::new(alloc),
            index: None,
        }
    }

    /// No entries, with room for `capacity` of them. `Err` only when out of memory.
    pub fn with_capacity(alloc: Global, capacity: usize) -> Result<Table<T>, Memory>
        ensures { IfOk result (λ made. made ≡ []) }
    {
        Ok(Table {
            entries: Vec::with_capacity(alloc, capacity)?,
            index: None,
        })
    }

    /// How many entries there are.
    #[must_use]
    pub fn len(&self) -> usize
        ensures value { result ≡ length self.now }
        ensures distinct { IsDistinct bytes_eq (texts T.own self.now) }
    {
        self.entries.len()
    }

    /// The entries in order.
    #[must_use]
    pub fn as_slice(&self) -> &[T]
        ensures entries { result.now ≡ self.now }
        ensures distinct { IsDistinct bytes_eq (texts T.own self.now) }
    {
        self.entries.as_slice()
    }

    /// The entry at `index`, or `None` at the length and past it.
    #[must_use]
    pub fn at(&self, index: usize) -> Option<&T>
        ensures { option_copied result ≡ slice_get self.now index }
    {
        self.entries.get(index)
    }

    /// Whether there are no entries.
    #[must_use]
    pub fn is_empty(&self) -> bool
        ensures { IsTrue result ↔ (self.now ≡ []) }
    {
        self.entries.is_empty()
    }

    /// The place of the entry of the name; `None` exactly where there is none.
    #[must_use]
    pub fn find(&self, name: &str) -> Option<usize>
        ensures { result ≡ position (is_called T.own name.now) self.now }
    {
        match &self.index {
            Some(index) => index.find(name),
            None => scan(self.entries.as_slice(), name),
        }
    }

    /// The entry of the name; `None` exactly where there is none. It takes no memory.
    #[must_use]
    pub fn get(&self, name: &str) -> Option<&T>
        ensures { option_copied result ≡ entry T.own name.now self.now }
    {
        match self.find(name) {
            Some(at) => Some(&self.entries[at]),
            None => None,
        }
    }

    /// Puts an entry in the place of the one of its name, which it hands out, or else last. `Err` only when out of
    /// memory, and never over a name that is there: it hands the entry back, and the table is as it was.
    pub fn insert(&mut self, item: T) -> Result<Option<T>, T>
        ensures replaced { IfOk result (λ old. old ≡ entry T.own (T.own item).text self.old) }
        ensures entries { OnOk result (self.new ≡ put T.own self.old item) }
        ensures returned { IfErr result (λ back. back ≡ item) }
        ensures unchanged { OnErr result (self.new ≡ self.old) }
        ensures absent { OnErr result (entry T.own (T.own item).text self.old ≡ None) }
    {
        match self.find(item.own_name().as_str()) {
            Some(at) => Ok(Some(self.replace_at(at, item))),
            None => match self.insert_new(item) {
                Ok(()) => Ok(None),
                Err(item) => Err(item),
            },
        }
    }

    /// Adds an entry whose name is not there, last. `Err` only when out of memory: it hands the entry back, and the
    /// table is as it was.
    pub fn insert_new(&mut self, item: T) -> Result<(), T>
        requires { entry T.own (T.own item).text self.old ≡ None }
        ensures entries { OnOk result (self.new ≡ self.old ++ item ∷ []) }
        ensures returned { IfErr result (λ back. back ≡ item) }
        ensures unchanged { OnErr result (self.new ≡ self.old) }
    {
        if self.entries.reserve(1).is_err() {
            return Err(item);
        }
        let alloc = *self.entries.allocator();
        match note_name(
            alloc,
            &mut self.index,
            self.entries.as_slice(),
            item.own_name().as_str(),
        ) {
            Ok(()) => {
                self.entries.push_reserved(item);
                Ok(())
            }
            Err(_) => Err(item),
        }
    }

    /// Takes the entry of the name out; the later ones close up. It takes no memory.
    pub fn remove(&mut self, name: &str) -> Option<T>
        ensures removed { result ≡ entry T.own name.now self.old }
        ensures entries { self.new ≡ without T.own name.now self.old }
    {
        let _count = self.len();
        match self.find(name) {
            Some(at) => Some(self.remove_at(at)),
            None => None,
        }
    }

    /// The entries. It takes no memory.
    pub fn into_vec(self) -> Vec<T>
        ensures entries { result.items ≡ self }
        ensures distinct { IsDistinct bytes_eq (texts T.own self) }
    {
        let Table {
            entries,
            index: _index,
        } = self;
        entries
    }

    /// Puts an entry in the place of the one at `at`, which has its name.
    fn replace_at(&mut self, at: usize, item: T) -> T
        requires { position (is_called T.own (T.own item).text) self.old ≡ Some at }
        ensures old { slice_get self.old at ≡ Some result }
        ensures entries { self.new ≡ slice_set self.old at item }
    {
        mem::replace(&mut self.entries[at], item)
    }

    /// Takes the entry at `at` out.
    fn remove_at(&mut self, at: usize) -> T
        requires { at < length self.old }
        ensures old { slice_get self.old at ≡ Some result }
        ensures entries { self.new ≡ remove self.old at }
    {
        forget_name(&mut self.index, at);
        self.entries.remove(at)
    }
}

/// The place of the first of these entries that has the name.
fn scan<T: Named>(entries: &[T], name: &str) -> Option<usize>
    ensures { result ≡ position (is_called T.own name.now) entries.now }
{
    entries.iter().position(|entry| {
        let own = entry.own_name().as_str();
        name.len() == own.len() && name == own
    })
}

/// Notes in the index, where there is one, that the name comes last; makes the index where there are now too many
/// entries to go through. `Err` only when out of memory, with the index as it was.
fn note_name<T: Named>(
    alloc: Global,
    index: &mut Option<Box<KeyTable>>,
    entries: &[T],
    name: &str,
) -> Result<(), Memory>
    requires distinct { IsDistinct bytes_eq (texts T.own entries.now) }
    requires fits { IfSome index.old (λ i. i.value ≡ texts T.own entries.now) }
    requires absent { position (bytes_eq name.now) (texts T.own entries.now) ≡ None }
    ensures noted { OnOk result (IfSome index.new (λ i. i.value ≡ texts T.own entries.now ++ name.now ∷ [])) }
    ensures refused { OnErr result (IfSome index.new (λ i. i.value ≡ texts T.own entries.now)) }
{
    match index {
        Some(names) => names.push(alloc, name),
        None if entries.len() < MOST_SCANNED => Ok(()),
        None => {
            let mut names = index_of(alloc, entries)?;
            names.push(alloc, name)?;
            *index = Some(Box::new(alloc, names)?);
            Ok(())
        }
    }
}

/// The index of these entries.
fn index_of<T: Named>(alloc: Global, entries: &[T]) -> Result<KeyTable, Memory>
    requires { IsDistinct bytes_eq (texts T.own entries.now) }
    ensures { IfOk result (λ names. names ≡ texts T.own entries.now) }
{
    let mut names = KeyTable::with_capacity(alloc, entries.len().saturating_mul(2))?;
    for entry in entries {
        names.push(alloc, entry.own_name().as_str())?;
    }
    Ok(names)
}

/// Takes the name at `at` out of the index, where there is one.
fn forget_name(index: &mut Option<Box<KeyTable>>, at: usize)
    requires { IfSome index.old (λ i. at < length i.value) }
    ensures { (names : List (List ℕ)) → IfSome index.old (λ i. i.value ≡ names) → IfSome index.new (λ i. i.value ≡ remove names at) }
{
    if let Some(names) = index {
        names.remove(at);
    }
}
