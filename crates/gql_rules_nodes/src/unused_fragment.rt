//! A fragment is used by an operation, if only through others (GraphQL October 2021, section 5.5.1.4).

ghost use Rattle.std.specs.Prelude.{◌≡◌, ◌++◌, List, IfOk, OnOk};
ghost use Rattle.gql_diag_messages.specs.declared.diagnostic_data.DiagnosticData as item;
ghost use Rattle.gql_rules_nodes.specs.UnusedFragment as spec;

use crate::reaching::{is_reached, reached};
use gql_diag_messages::{DiagnosticData, Rule};
use gql_document_types::{ExecutableDocument, Fragment, add_spreads, spread_graph};
use gql_rules_values::list_fault;
use jb_text::{Listed, Memory};
use std::alloc::Global;

/// Lists each fragment that no operation spreads, be it through others. `Err` only when out of memory.
pub fn list_unused_fragments(
    alloc: Global,
    document: &ExecutableDocument,
    faults: &mut Listed<DiagnosticData>,
) -> Result<(), Memory>
    ensures { OnOk result ((told : List item.DiagnosticData) × spec.AreUnused document.now told × (faults.new ≡ faults.old ++ told)) }
{
    let graph = spread_graph(alloc, &document.fragments)?;
    let starts = operation_spreads(alloc, document)?;
    let states = reached(alloc, &graph, starts.as_slice())?;
    list_unreached(
        alloc,
        states.as_slice(),
        document.fragments.as_slice(),
        faults,
    )
}

/// The fragments that operations spread.
fn operation_spreads(alloc: Global, document: &ExecutableDocument) -> Result<Listed<usize>, Memory>
    ensures { IfOk result (λ numbers. numbers ≡ spec.operation_spreads document.now) }
{
    let mut numbers = Listed::new(alloc);
    for operation in document.operations.as_slice() {
        add_spreads(
            &document.fragments,
            &operation.selection_set.selections,
            &mut numbers,
        )?;
    }
    Ok(numbers)
}

/// Lists each of these fragments that is not marked.
fn list_unreached(
    alloc: Global,
    states: &[usize],
    fragments: &[Fragment],
    faults: &mut Listed<DiagnosticData>,
) -> Result<(), Memory>
    ensures { OnOk result (faults.new ≡ faults.old ++ spec.unreached_from states.now 0 fragments.now) }
{
    let mut node = 0;
    for fragment in fragments {
        list_unless(alloc, is_reached(states, node), fragment, faults)?;
        node += 1;
    }
    Ok(())
}

/// Lists a fragment, unless it is used.
fn list_unless(
    alloc: Global,
    used: bool,
    fragment: &Fragment,
    faults: &mut Listed<DiagnosticData>,
) -> Result<(), Memory>
    ensures { OnOk result (faults.new ≡ faults.old ++ spec.unless_used used fragment.now) }
{
    if used {
        Ok(())
    } else {
        list_fault(
            alloc,
            Rule::UnusedFragment,
            &[fragment.name.as_str()],
            fragment.location,
            None,
            faults,
        )
    }
}
