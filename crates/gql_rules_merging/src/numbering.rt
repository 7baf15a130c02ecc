//! The fields of a document by numbers, and its sets of selections.

ghost use Rattle.std.specs.Prelude.{◌≡◌, ◌++◌, IfOk, OnOk};
ghost use Rattle.gql_rules_merging.specs.bridge.Gathering as seen;
ghost use Rattle.gql_rules_merging.specs.Numbering as spec;
ghost use Rattle.gql_rules_merging.specs.ResponseKeys.{key_of};

use gql_ast_base::{Argument, Name};
use gql_document_types::{ExecutableDocument, Field, Fragment, Operation, Selection, SelectionSet};
use gql_graph::Graph;
use gql_rules_values::ByName;
use gql_schema_types::Table;
use jb_text::{Listed, Memory};
use std::alloc::Global;

/// A field, with the type of the set that it stands in, its arguments by their names, and what its own set selects.
pub(crate) struct Selected<'d> {
    pub(crate) parent: &'d Name,
    pub(crate) field: &'d Field,
    pub(crate) arguments: ByName<'d, Argument>,
    pub(crate) items: Listed<usize>,
}

impl Drop for Selected<'_> {
    fn drop(self) {
        let Selected {
            parent: _,
            field: _,
            arguments: _,
            items: _,
        } = self;
    }
}

impl Selected<'_> {
    /// The response key: the alias, or else the name (GraphQL October 2021, section 2.7).
    pub(crate) fn key(&self) -> &Name
        ensures { result.now.text ≡ key_of (seen.selected_of self.now) }
    {
        match &self.field.alias {
            Some(alias) => alias,
            None => &self.field.name,
        }
    }
}

/// A document's sets of selections, and its fields, each by its number. A set selects fragments by their numbers and fields by
/// their own numbers behind those of all fragments.
pub(crate) struct Numbered<'d> {
    pub(crate) fragments: Graph,
    pub(crate) operations: Graph,
    pub(crate) fields: Listed<Selected<'d>>,
}

impl Drop for Numbered<'_> {
    fn drop(self) {
        let Numbered {
            fragments: _,
            operations: _,
            fields: _,
        } = self;
    }
}

/// Numbers the fields of a document: each comes after those that are selected in it. `Err` only when out of memory. The time is
/// linear in the document.
pub(crate) fn number_fields<'d>(
    alloc: Global,
    document: &'d ExecutableDocument,
) -> Result<Numbered<'d>, Memory>
    ensures { IfOk result (λ made. seen.numbered_of made ≡ spec.numbered document.now) }
{
    let mut fields = Listed::new(alloc);
    let fragments = in_fragments(alloc, &document.fragments, &mut fields)?;
    let operations = in_operations(
        alloc,
        &document.fragments,
        document.operations.as_slice(),
        &mut fields,
    )?;
    Ok(Numbered {
        fragments,
        operations,
        fields,
    })
}

/// The sets of all fragments.
fn in_fragments<'d>(
    alloc: Global,
    fragments: &'d Table<Fragment>,
    fields: &mut Listed<Selected<'d>>,
) -> Result<Graph, Memory>
    ensures { IfOk result (λ sets. seen.sets_of sets fields.new ≡ spec.with_sets fragments.now (seen.fragment_sets fragments.now) (seen.no_sets fields.old)) }
{
    let mut sets = Listed::new(alloc);
    for fragment in fragments.as_slice() {
        add_set(alloc, fragments, &fragment.selection_set, fields, &mut sets)?;
    }
    Ok(sets)
}

/// The sets of these operations.
fn in_operations<'d>(
    alloc: Global,
    fragments: &Table<Fragment>,
    operations: &'d [Operation],
    fields: &mut Listed<Selected<'d>>,
) -> Result<Graph, Memory>
    ensures { IfOk result (λ sets. seen.sets_of sets fields.new ≡ spec.with_sets fragments.now (seen.operation_sets operations.now) (seen.no_sets fields.old)) }
{
    let mut sets = Listed::new(alloc);
    for operation in operations {
        add_set(
            alloc,
            fragments,
            &operation.selection_set,
            fields,
            &mut sets,
        )?;
    }
    Ok(sets)
}

/// Adds one set to others.
fn add_set<'d>(
    alloc: Global,
    fragments: &Table<Fragment>,
    set: &'d SelectionSet,
    fields: &mut Listed<Selected<'d>>,
    sets: &mut Graph,
) -> Result<(), Memory>
    ensures { OnOk result (seen.sets_of sets.new fields.new ≡ spec.with_one fragments.now set.now (seen.sets_of sets.old fields.old)) }
{
    let mut items = Listed::new(alloc);
    gather_set(alloc, fragments, set, fields, &mut items)?;
    sets.push(items)
}

/// Adds what a set selects.
#[cycle(gather)]
fn gather_set<'d>(
    alloc: Global,
    fragments: &Table<Fragment>,
    set: &'d SelectionSet,
    fields: &mut Listed<Selected<'d>>,
    items: &mut Listed<usize>,
) -> Result<(), Memory>
    ensures { OnOk result (seen.gathered fields.new items.new ≡ spec.with_set fragments.now set.now (seen.gathered fields.old items.old)) }
{
    gather_selections(alloc, fragments, &set.ty, &set.selections, fields, items)
}

#[cycle(gather)]
fn gather_selections<'d>(
    alloc: Global,
    fragments: &Table<Fragment>,
    ty: &'d Name,
    selections: &'d Listed<Selection>,
    fields: &mut Listed<Selected<'d>>,
    items: &mut Listed<usize>,
) -> Result<(), Memory>
    ensures { OnOk result (seen.gathered fields.new items.new ≡ spec.with_selections fragments.now ty.now selections.now (seen.gathered fields.old items.old)) }
{
    for selection in selections.as_slice() {
        gather_selection(alloc, fragments, ty, selection, fields, items)?;
    }
    Ok(())
}

#[cycle(gather)]
fn gather_selection<'d>(
    alloc: Global,
    fragments: &Table<Fragment>,
    ty: &'d Name,
    selection: &'d Selection,
    fields: &mut Listed<Selected<'d>>,
    items: &mut Listed<usize>,
) -> Result<(), Memory>
    ensures { OnOk result (seen.gathered fields.new items.new ≡ spec.with_selection fragments.now selection.now ty.now (seen.gathered fields.old items.old)) }
{
    match selection {
        Selection::Field(field) => gather_field(alloc, fragments, ty, field, fields, items),
        Selection::FragmentSpread(spread) => {
            gather_spread(fragments, &spread.fragment_name, items)
        }
        Selection::InlineFragment(fragment) => {
            gather_set(alloc, fragments, &fragment.selection_set, fields, items)
        }
    }
}

#[cycle(gather)]
fn gather_field<'d>(
    alloc: Global,
    fragments: &Table<Fragment>,
    parent: &'d Name,
    field: &'d Field,
    fields: &mut Listed<Selected<'d>>,
    items: &mut Listed<usize>,
) -> Result<(), Memory>
    ensures { OnOk result (seen.gathered fields.new items.new ≡ seen.with_field fragments.now parent.now field.now (seen.gathered fields.old items.old)) }
{
    let mut inner = Listed::new(alloc);
    gather_set(alloc, fragments, &field.selection_set, fields, &mut inner)?;
    let number = fragments.as_slice().len() + fields.as_slice().len();
    let arguments = field.arguments.as_slice();
    let arguments = ByName::new(alloc, arguments, arguments.len())?;
    fields.push(Selected {
        parent,
        field,
        arguments,
        items: inner,
    })?;
    items.push(number)
}

/// Adds the fragment of the name, if there is one.
fn gather_spread(
    fragments: &Table<Fragment>,
    name: &Name,
    items: &mut Listed<usize>,
) -> Result<(), Memory>
    ensures { OnOk result (items.new ≡ items.old ++ spec.number_of fragments.now name.now) }
{
    match fragments.find(name.as_str()) {
        Some(number) => items.push(number),
        None => Ok(()),
    }
}
