//! The sets of families: what their fields select, taken together.

ghost use Rattle.std.specs.Prelude.{◌≡◌, ◌++◌, length, IfOk, OnOk};
ghost use Rattle.gql_rules_merging.specs.bridge.Families as spec;
ghost use Rattle.gql_rules_merging.specs.FieldSelectionMerging.{items};
ghost use Rattle.gql_rules_merging.specs.bridge.Gathering.{fields_of, numbered_of};

use crate::classes::class_of;
use crate::numbering::{Numbered, Selected};
use gql_graph::Graph;
use jb_text::{Listed, Memory};
use std::alloc::Global;

/// At each number what the family of that number selects, and behind those what operations select.
pub(crate) fn gathered(
    alloc: Global,
    numbered: &Numbered<'_>,
    families: &[usize],
) -> Result<Graph, Memory>
    requires { spec.AreWithin (length numbered.now.fields) families.now }
    ensures { IfOk result (λ rows. spec.IsGathered (numbered_of numbered.now) families.now rows) }
{
    let mut rows = empty_rows(alloc, numbered.fields.len())?;
    gather_all(numbered.fields.as_slice(), families, &mut rows)?;
    add_rows(alloc, numbered.operations.as_slice(), &mut rows)?;
    Ok(rows)
}

/// So many empty rows.
fn empty_rows(alloc: Global, count: usize) -> Result<Graph, Memory>
    ensures { IfOk result (λ made. length made ≡ count) }
{
    let mut made = Listed::new(alloc);
    for _row in 0..count {
        made.push(Listed::new(alloc))?;
    }
    Ok(made)
}

/// Adds what each of these fields selects to the row of its family.
fn gather_all(fields: &[Selected<'_>], families: &[usize], rows: &mut Graph) -> Result<(), Memory>
    requires as_many { length rows.old ≡ length fields.now }
    requires within { spec.AreWithin (length fields.now) families.now }
    ensures { OnOk result (spec.AreSelected (fields_of fields.now) families.now rows.new) }
{
    for number in 0..fields.len() {
        add_to_row(class_of(families, number), items_of(fields, number), rows)?;
    }
    Ok(())
}

/// What is selected in the field of a number.
fn items_of<'f>(fields: &'f [Selected<'_>], number: usize) -> &'f [usize]
    ensures { result.now ≡ items (fields_of fields.now) number }
{
    match fields.get(number) {
        Some(field) => field.items.as_slice(),
        None => &[],
    }
}

/// Adds these to a row.
fn add_to_row(row: usize, items: &[usize], rows: &mut Graph) -> Result<(), Memory>
    ensures { OnOk result (rows.new ≡ spec.with_items rows.old row items.now) }
{
    match rows.get_mut(row) {
        Some(row) => add_all(items, row),
        None => Ok(()),
    }
}

/// Adds these last.
fn add_all(items: &[usize], row: &mut Listed<usize>) -> Result<(), Memory>
    ensures { OnOk result (row.new ≡ row.old ++ items.now) }
{
    for item in items {
        row.push(*item)?;
    }
    Ok(())
}

/// Adds copies of these rows last.
fn add_rows(alloc: Global, others: &[Listed<usize>], rows: &mut Graph) -> Result<(), Memory>
    ensures { OnOk result (rows.new ≡ rows.old ++ others.now) }
{
    for other in others {
        let mut row = Listed::new(alloc);
        add_all(other.as_slice(), &mut row)?;
        rows.push(row)?;
    }
    Ok(())
}
