//! A fragment that is spread is defined (GraphQL October 2021, section 5.5.2.1).

ghost use Rattle.std.specs.Prelude.{◌≡◌, ◌++◌, OnOk};
ghost use Rattle.std.specs.List.{flat_map};
ghost use Rattle.gql_rules_nodes.specs.UndefinedFragment as spec;

use gql_diag_messages::{DiagnosticData, Rule};
use gql_document_types::{ExecutableDocument, Fragment, FragmentSpread, Operation, Selection};
use gql_rules_values::list_fault;
use gql_schema_types::Table;
use jb_text::{Listed, Memory};
use std::alloc::Global;

/// Lists each spread of a fragment that is not defined, in operations and in fragments.
pub(crate) fn list_undefined_fragments(
    alloc: Global,
    document: &ExecutableDocument,
    faults: &mut Listed<DiagnosticData>,
) -> Result<(), Memory>
    ensures { OnOk result (faults.new ≡ faults.old ++ spec.undefined_fragments document.now) }
{
    let fragments = &document.fragments;
    list_in_operations(alloc, fragments, document.operations.as_slice(), faults)?;
    list_in_fragments(alloc, fragments, fragments.as_slice(), faults)
}

fn list_in_operations(
    alloc: Global,
    fragments: &Table<Fragment>,
    operations: &[Operation],
    faults: &mut Listed<DiagnosticData>,
) -> Result<(), Memory>
    ensures { OnOk result (faults.new ≡ faults.old ++ flat_map (spec.in_operation fragments.now) operations.now) }
{
    for operation in operations {
        list_in(
            alloc,
            fragments,
            &operation.selection_set.selections,
            faults,
        )?;
    }
    Ok(())
}

fn list_in_fragments(
    alloc: Global,
    fragments: &Table<Fragment>,
    walked: &[Fragment],
    faults: &mut Listed<DiagnosticData>,
) -> Result<(), Memory>
    ensures { OnOk result (faults.new ≡ faults.old ++ flat_map (spec.in_fragment fragments.now) walked.now) }
{
    for fragment in walked {
        list_in(alloc, fragments, &fragment.selection_set.selections, faults)?;
    }
    Ok(())
}

#[cycle(undefined)]
fn list_in(
    alloc: Global,
    fragments: &Table<Fragment>,
    selections: &Listed<Selection>,
    faults: &mut Listed<DiagnosticData>,
) -> Result<(), Memory>
    ensures { OnOk result (faults.new ≡ faults.old ++ spec.in_selections fragments.now selections.now) }
{
    for selection in selections.as_slice() {
        list_at(alloc, fragments, selection, faults)?;
    }
    Ok(())
}

#[cycle(undefined)]
fn list_at(
    alloc: Global,
    fragments: &Table<Fragment>,
    selection: &Selection,
    faults: &mut Listed<DiagnosticData>,
) -> Result<(), Memory>
    ensures { OnOk result (faults.new ≡ faults.old ++ spec.in_spreads fragments.now (spec.spreads_at selection.now)) }
{
    match selection {
        Selection::Field(field) => {
            list_in(alloc, fragments, &field.selection_set.selections, faults)
        }
        Selection::FragmentSpread(spread) => list_spread(alloc, fragments, spread, faults),
        Selection::InlineFragment(fragment) => list_in(
            alloc,
            fragments,
            &fragment.selection_set.selections,
            faults,
        ),
    }
}

/// Lists a spread, if its fragment is not defined.
fn list_spread(
    alloc: Global,
    fragments: &Table<Fragment>,
    spread: &FragmentSpread,
    faults: &mut Listed<DiagnosticData>,
) -> Result<(), Memory>
    ensures { OnOk result (faults.new ≡ faults.old ++ spec.undefined_fragment fragments.now spread.now) }
{
    let name = spread.fragment_name.as_str();
    if fragments.get(name).is_some() {
        Ok(())
    } else {
        list_fault(
            alloc,
            Rule::UndefinedFragment,
            &[name],
            spread.location,
            None,
            faults,
        )
    }
}
