//! Which fragments are spread where, by their numbers.

ghost use Rattle.std.specs.Prelude.{◌≡◌, ◌++◌, IfOk, OnOk};
ghost use Rattle.gql_document_types.specs.Spreads as spec;

use crate::fragment::Fragment;
use crate::selection::Selection;
use gql_ast_base::Name;
use gql_graph::Graph;
use gql_schema_types::Table;
use jb_text::{Listed, Memory};
use std::alloc::Global;

/// At each fragment the fragments that are spread in it, at every depth. A spread of a fragment that is not defined leads
/// nowhere. `Err` only when out of memory.
pub fn spread_graph(alloc: Global, fragments: &Table<Fragment>) -> Result<Graph, Memory>
    ensures { IfOk result (λ graph. graph ≡ spec.spread_graph fragments.now) }
{
    let mut graph = Listed::new(alloc);
    for fragment in fragments.as_slice() {
        graph.push(spreads_in(alloc, fragments, fragment)?)?;
    }
    Ok(graph)
}

/// The fragments that are spread in a fragment.
fn spreads_in(
    alloc: Global,
    fragments: &Table<Fragment>,
    fragment: &Fragment,
) -> Result<Listed<usize>, Memory>
    ensures { IfOk result (λ numbers. numbers ≡ spec.spreads_in fragments.now fragment.now) }
{
    let mut numbers = Listed::new(alloc);
    add_spreads(fragments, &fragment.selection_set.selections, &mut numbers)?;
    Ok(numbers)
}

/// Adds the numbers of the fragments that are spread in these selections, at every depth and in order. `Err` only when out of
/// memory.
#[cycle(spreads)]
pub fn add_spreads(
    fragments: &Table<Fragment>,
    selections: &Listed<Selection>,
    numbers: &mut Listed<usize>,
) -> Result<(), Memory>
    ensures { OnOk result (numbers.new ≡ numbers.old ++ spec.spread_numbers fragments.now selections.now) }
{
    for selection in selections.as_slice() {
        add_selection(fragments, selection, numbers)?;
    }
    Ok(())
}

#[cycle(spreads)]
fn add_selection(
    fragments: &Table<Fragment>,
    selection: &Selection,
    numbers: &mut Listed<usize>,
) -> Result<(), Memory>
    ensures { OnOk result (numbers.new ≡ numbers.old ++ spec.numbers_at fragments.now selection.now) }
{
    match selection {
        Selection::Field(field) => add_spreads(fragments, &field.selection_set.selections, numbers),
        Selection::FragmentSpread(spread) => add_number(fragments, &spread.fragment_name, numbers),
        Selection::InlineFragment(fragment) => {
            add_spreads(fragments, &fragment.selection_set.selections, numbers)
        }
    }
}

/// Adds the number of the fragment of the name, if there is one.
fn add_number(
    fragments: &Table<Fragment>,
    name: &Name,
    numbers: &mut Listed<usize>,
) -> Result<(), Memory>
    ensures { OnOk result (numbers.new ≡ numbers.old ++ spec.number_of fragments.now name.now) }
{
    match fragments.find(name.as_str()) {
        Some(number) => numbers.push(number),
        None => Ok(()),
    }
}
