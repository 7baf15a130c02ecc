//! Lists of diagnostics.

ghost use Rattle.std.specs.Prelude.{◌≡◌, ◌↔◌, [], ◌∷◌, ◌++◌, length, map, IsTrue, IfOk, OnOk, OnErr};
ghost use Rattle.gql_source.specs.File.{joined};
ghost use Rattle.gql_diag.specs.Order.{by_place, list_order};
ghost use Rattle.gql_diag.specs.Taken.{HasTakenSome};
ghost use Rattle.gql_diag.specs.List.{IsStableSort};
ghost use Rattle.gql_diag.specs.Walk.{left_of};

use crate::diagnostics::Diagnostics;
use crate::order::{sort_by_place, sort_in_order};
use crate::taken::add_items;
use gql_diag_messages::DiagnosticData;
use gql_source::SourceMap;
use jb_text::{Listed, Memory};
use std::alloc::Global;
use std::marker::Model;

/// Diagnostics, and the files that they are of.
///
/// A contract sees a record with `sources` and `items`.
#[derive(Debug)]
pub struct DiagnosticList {
    sources: SourceMap,
    items: Vec<DiagnosticData>,
}

impl Drop for DiagnosticList {
    fn drop(self) {
        let DiagnosticList {
            sources: _,
            items: _,
        } = self;
    }
}

impl Model for DiagnosticList {
    ghost use Rattle.gql_diag.specs.List.{Diagnostics};

    ghost Value = { Diagnostics };

    ghost view = { λ list. record { sources = list.sources; items = list.items.items } };
}

impl DiagnosticList {
    /// No diagnostics, of these files.
    #[must_use]
    pub fn new(alloc: Global, sources: SourceMap) -> DiagnosticList
        ensures { result ≡ record { sources = sources; items = [] } }
    {
        DiagnosticList {
            sources,
            items: Vec::new(alloc),
        }
    }

    /// These diagnostics as [`DiagnosticList::sort`] sorts them, with copies of these files. `Err` only when out of memory.
    pub fn sorted(
        alloc: Global,
        sources: &SourceMap,
        items: Listed<DiagnosticData>,
    ) -> Result<DiagnosticList, Memory>
        ensures items { IfOk result (λ list. IsStableSort list_order items list.items) }
        ensures sources { IfOk result (λ list. list.sources ≡ sources.now) }
    {
        let mut list = listed(alloc, sources, items)?;
        list.sort()?;
        Ok(list)
    }

    /// Adds a diagnostic at the end. Where memory has run out, the list is as it was.
    pub fn push(&mut self, item: DiagnosticData) -> Result<(), Memory>
        ensures pushed { OnOk result (self.new ≡ record self.old { items = self.old.items ++ item ∷ [] }) }
        ensures unchanged { OnErr result (self.new ≡ self.old) }
    {
        self.items.push(item)?;
        Ok(())
    }

    /// Adds the files to these files, and the diagnostics at the end of these. A file whose number is taken is left out. `Err` only
    /// when out of memory: then the files are as they were, and of the diagnostics the first are added, or all.
    pub fn move_into(
        self,
        sources: &mut SourceMap,
        items: &mut Listed<DiagnosticData>,
    ) -> Result<(), Memory>
        ensures sources { OnOk result (sources.new ≡ joined sources.old self.sources) }
        ensures items { OnOk result (items.new ≡ items.old ++ self.items) }
        ensures same_sources { OnErr result (sources.new ≡ sources.old) }
        ensures some_items { OnErr result (HasTakenSome items.old self.items items.new) }
    {
        let (files, faults) = self.into_parts();
        add_items(faults, items)?;
        sources.merge(files)
    }

    /// Adds these diagnostics at the end, in their order. Where memory has run out, the list is as it was.
    pub fn append(&mut self, mut items: Vec<DiagnosticData>) -> Result<(), Memory>
        ensures appended { OnOk result (self.new ≡ record self.old { items = self.old.items ++ items.items }) }
        ensures unchanged { OnErr result (self.new ≡ self.old) }
    {
        self.items.append(&mut items)?;
        Ok(())
    }

    /// Sorts the diagnostics by their places: by file and offset, those without a place first. At one place they go
    /// by the rows of the tables of rules, then by their names as bytes, then by the place of the other definition or
    /// field. A text that is no sentence, and a limit of the parser, come before all rows, and a chain that is too
    /// long behind them. Ties stay as they stand. Where memory has run out, nothing is moved.
    pub fn sort(&mut self) -> Result<(), Memory>
        ensures sorted { OnOk result (IsStableSort list_order self.old.items self.new.items) }
        ensures sources { self.new.sources ≡ self.old.sources }
        ensures unchanged { OnErr result (self.new ≡ self.old) }
    {
        sort_in_order(&mut self.items)
    }

    /// Whether there is no diagnostic.
    #[must_use]
    pub fn is_empty(&self) -> bool
        ensures { IsTrue result ↔ (self.now.items ≡ []) }
    {
        self.items.is_empty()
    }

    /// How many diagnostics there are.
    #[must_use]
    pub fn len(&self) -> usize
        ensures { result ≡ length self.now.items }
    {
        self.items.len()
    }

    /// The diagnostics, from either end.
    #[must_use]
    pub fn iter(&self) -> Diagnostics<'_>
        ensures { left_of result ≡ map (λ item. (self.now.sources, item)) self.now.items }
    {
        Diagnostics {
            sources: &self.sources,
            left: self.items.as_slice(),
        }
    }

    /// The files that the diagnostics are of.
    #[must_use]
    pub fn sources(&self) -> &SourceMap
        ensures { result.now ≡ self.now.sources }
    {
        &self.sources
    }

    /// The files and the diagnostics themselves. It takes no memory.
    #[must_use]
    pub fn into_parts(self) -> (SourceMap, Vec<DiagnosticData>)
        ensures sources { result.0 ≡ self.sources }
        ensures items { result.1.items ≡ self.items }
    {
        let DiagnosticList { sources, items } = self;
        (sources, items)
    }

    /// Takes the diagnostics and the files of another list too. All diagnostics are then sorted by their places, by
    /// file and offset, those without a place first, where at one place they stay as they stand, its own before the
    /// others. Where both have a file of one number, its own stays. Where memory has run out, the list is as it was.
    pub fn merge(&mut self, other: DiagnosticList) -> Result<(), Memory>
        ensures items { OnOk result (IsStableSort by_place (self.old.items ++ other.items) self.new.items) }
        ensures sources { OnOk result (self.new.sources ≡ joined self.old.sources other.sources) }
        ensures unchanged { OnErr result (self.new ≡ self.old) }
    {
        let DiagnosticList { sources, items } = other;
        let count = self.sources.len();
        self.sources.merge(sources)?;
        match join(&mut self.items, items) {
            Ok(()) => Ok(()),
            Err(want) => {
                self.sources.truncate(count);
                Err(want)
            }
        }
    }
}

/// Puts the others behind the items, and sorts all by place. Where memory has run out, the items are as they were.
fn join(items: &mut Vec<DiagnosticData>, mut others: Vec<DiagnosticData>) -> Result<(), Memory>
    ensures sorted { OnOk result (IsStableSort by_place (items.old.items ++ others.items) items.new.items) }
    ensures unchanged { OnErr result (items.new.items ≡ items.old.items) }
{
    let count = items.len();
    items.append(&mut others)?;
    match sort_by_place(items) {
        Ok(()) => Ok(()),
        Err(want) => {
            items.truncate(count);
            Err(want)
        }
    }
}

/// These diagnostics as they stand, with copies of these files.
fn listed(
    alloc: Global,
    sources: &SourceMap,
    faults: Listed<DiagnosticData>,
) -> Result<DiagnosticList, Memory>
    ensures { IfOk result (λ list. list ≡ record { sources = sources.now; items = faults }) }
{
    let mut list = DiagnosticList::new(alloc, sources.copy(alloc)?);
    for fault in faults {
        list.push(fault)?;
    }
    Ok(list)
}
