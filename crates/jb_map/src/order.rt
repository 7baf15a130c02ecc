//! The calls of a map that keep some pairs or sort all.
ghost use Rattle.std.specs.Prelude.{◌≡◌, IfSome, OnOk, OnErr, length, zip, vec_len};
ghost use Rattle.std.specs.Str.{bytes_eq};
ghost use Rattle.std.specs.List.{IsDistinct};
ghost use Rattle.std.specs.List.Sorted.{IsPermutation};
ghost use Rattle.std.specs.Ordering.{nat_cmp};
ghost use Rattle.std.specs.Cmp.Lexicographic.{slice_cmp};
ghost use Rattle.std.specs.Map.{keys_of};
ghost use Rattle.jb_map.specs.ByKey.{by_key};
ghost use Rattle.jb_map.specs.bridge.Covers.{Covers};
ghost use Rattle.jb_map.specs.Retained.{Keeps, Retains};

use crate::columns::{join, keep_pairs, split};
use crate::key_column::KeyColumn;
use crate::key_list::KeyList;
use crate::key_table::KeyTable;
use crate::pairs::Pairs;
use jb_text::{ByteString, Memory};
use std::alloc::Global;
use std::cmp::Ordering;

impl<V: Drop> Pairs<V> {
    /// Keeps the pairs for which `keep` gives true, in their order. It takes no memory.
    pub fn retain<F: Fn(&ByteString, &V) -> bool>(&mut self, keep: F)
        requires { F.IsAlwaysCallable keep }
        ensures { Retains (Keeps F.Fn keep) self.old self.new }
    {
        self.keys.retain(&mut self.values, keep);
    }

    /// Puts the pairs into the order of their keys' bytes. `Err` only when out of memory, with the map as it was.
    pub fn sort_keys(&mut self) -> Result<(), Memory>
        ensures sorted { OnOk result (self.new ≡ by_key self.old) }
        ensures refused { OnErr result (self.new ≡ self.old) }
    {
        let alloc = *self.values.allocator();
        self.keys.sort(alloc, &mut self.values)
    }
}

impl KeyColumn {
    /// Keeps the keys and the values for which `keep` gives true.
    fn retain<V: Drop, F: Fn(&ByteString, &V) -> bool>(&mut self, values: &mut Vec<V>, keep: F)
        requires callable { F.IsAlwaysCallable keep }
        requires even { length values.old.items ≡ length self.old }
        ensures kept { Retains (Keeps F.Fn keep) (zip self.old values.old.items) (zip self.new values.new.items) }
        ensures even { length values.new.items ≡ length self.new }
    {
        if let Some(list) = &mut self.list {
            list.retain(values, keep);
        }
    }

    /// Puts the keys and the values into the order of the keys' bytes. `Err` only when out of memory, with both as
    /// they were.
    fn sort<V: Drop>(&mut self, alloc: Global, values: &mut Vec<V>) -> Result<(), Memory>
        requires { length values.old.items ≡ length self.old }
        ensures sorted { OnOk result (zip self.new values.new.items ≡ by_key (zip self.old values.old.items)) }
        ensures refused { OnErr result (zip self.new values.new.items ≡ zip self.old values.old.items) }
        ensures even { length values.new.items ≡ length self.new }
    {
        match &mut self.list {
            Some(list) => list.sort(alloc, values),
            None => Ok(()),
        }
    }
}

impl KeyList {
    /// As [`KeyColumn::retain`].
    fn retain<V: Drop, F: Fn(&ByteString, &V) -> bool>(&mut self, values: &mut Vec<V>, keep: F)
        requires callable { F.IsAlwaysCallable keep }
        requires even { length values.old.items ≡ length self.old }
        ensures kept { Retains (Keeps F.Fn keep) (zip self.old values.old.items) (zip self.new values.new.items) }
        ensures even { length values.new.items ≡ length self.new }
    {
        keep_pairs(&mut self.texts, values, keep);
        align_table(&mut self.table, self.texts.as_slice());
    }

    /// As [`KeyColumn::sort`].
    fn sort<V: Drop>(&mut self, alloc: Global, values: &mut Vec<V>) -> Result<(), Memory>
        requires { length values.old.items ≡ length self.old }
        ensures sorted { OnOk result (zip self.new values.new.items ≡ by_key (zip self.old values.old.items)) }
        ensures refused { OnErr result (zip self.new values.new.items ≡ zip self.old values.old.items) }
        ensures even { length values.new.items ≡ length self.new }
    {
        let sorted = sort_columns(alloc, &mut self.texts, values);
        align_table(&mut self.table, self.texts.as_slice());
        sorted
    }
}

/// Brings the keys of the table, where there is one, into the order of these texts.
fn align_table(table: &mut Option<Box<KeyTable>>, texts: &[ByteString])
    requires distinct { IsDistinct bytes_eq texts.now }
    requires covered { IfSome table.old (λ t. Covers t.value texts.now) }
    ensures { IfSome table.new (λ t. t.value ≡ texts.now) }
{
    if let Some(keys) = table {
        keys.align(texts);
    }
}

/// Puts distinct keys, and the values in step, into the order of the keys.
fn sort_columns<V: Drop>(
    alloc: Global,
    texts: &mut Vec<ByteString>,
    values: &mut Vec<V>,
) -> Result<(), Memory>
    requires distinct { IsDistinct bytes_eq texts.old.items }
    requires even { vec_len values.old ≡ vec_len texts.old }
    ensures permutation { IsPermutation (zip texts.old.items values.old.items) (zip texts.new.items values.new.items) }
    ensures sorted { OnOk result (zip texts.new.items values.new.items ≡ by_key (zip texts.old.items values.old.items)) }
    ensures refused { OnErr result (zip texts.new.items values.new.items ≡ zip texts.old.items values.old.items) }
    ensures even { vec_len values.new ≡ vec_len texts.new }
{
    let mut pairs = join(alloc, texts, values)?;
    let sorted = sort_pairs(&mut pairs);
    split(pairs, texts, values);
    sorted
}

/// Puts pairs with distinct keys into the order of these.
fn sort_pairs<V>(held: &mut Vec<(ByteString, V)>) -> Result<(), Memory>
    requires { IsDistinct bytes_eq (keys_of held.old.items) }
    ensures permutation { IsPermutation held.old.items held.new.items }
    ensures sorted { OnOk result (held.new.items ≡ by_key held.old.items) }
    ensures refused { OnErr result (held.new.items ≡ held.old.items) }
{
    held.sort_by(
        |left: &(ByteString, V), right: &(ByteString, V)| -> Ordering
            ensures { result ≡ slice_cmp nat_cmp left.now.0 right.now.0 }
        { left.0.as_str().cmp(right.0.as_str()) },
    )?;
    Ok(())
}
