//! No fragment spreads itself, not even through others (GraphQL October 2021, section 5.5.2.2).

ghost use Rattle.std.specs.Prelude.{◌≡◌, ◌++◌, ◌∷◌, [], None, List, OnOk};
ghost use Rattle.gql_diag_messages.specs.declared.diagnostic_data.DiagnosticData as item;
ghost use Rattle.gql_rules_nodes.specs.RecursiveFragmentDefinition as spec;
ghost use Rattle.gql_rules_nodes.specs.WayRound as way;

use crate::ways::{first_recursive, way_round, way_text};
use gql_diag_messages::{DiagnosticData, Rule};
use gql_document_types::{Fragment, spread_graph};
use gql_graph::{is_marked, judge};
use gql_rules_values::{list_fault, list_long_chain};
use gql_schema_types::Table;
use jb_text::{Listed, Memory};
use std::alloc::Global;

/// Lists each fragment that spreads itself, be it through others, with the first way round, and each from which a chain of more
/// than 32 begins though it reaches none of these.
pub(crate) fn list_recursive_fragments(
    alloc: Global,
    fragments: &Table<Fragment>,
    faults: &mut Listed<DiagnosticData>,
) -> Result<(), Memory>
    ensures { OnOk result ((told : List item.DiagnosticData) × spec.AreRecursive fragments.now told × (faults.new ≡ faults.old ++ told)) }
{
    let graph = spread_graph(alloc, fragments)?;
    let judged = judge(alloc, &graph, fragments.len())?;
    let recursive = judged.recursive.as_slice();
    let nexts = first_recursive(alloc, &graph, recursive)?;
    list_recursive(alloc, fragments, recursive, nexts.as_slice(), faults)?;
    list_long(judged.long.as_slice(), fragments.as_slice(), faults)
}

/// Lists each fragment that is marked as recursive.
fn list_recursive(
    alloc: Global,
    fragments: &Table<Fragment>,
    recursive: &[bool],
    nexts: &[Option<usize>],
    faults: &mut Listed<DiagnosticData>,
) -> Result<(), Memory>
    ensures { OnOk result (faults.new ≡ faults.old ++ spec.recursive_from fragments.now recursive.now nexts.now 0 fragments.now) }
{
    let mut node = 0;
    for fragment in fragments.as_slice() {
        if is_marked(recursive, node) {
            list_one(alloc, fragments.as_slice(), nexts, node, fragment, faults)?;
        }
        node += 1;
    }
    Ok(())
}

/// Lists a fragment that spreads itself.
fn list_one(
    alloc: Global,
    fragments: &[Fragment],
    nexts: &[Option<usize>],
    node: usize,
    fragment: &Fragment,
    faults: &mut Listed<DiagnosticData>,
) -> Result<(), Memory>
    ensures { OnOk result (faults.new ≡ faults.old ++ spec.recursive_fault fragments.now nexts.now node fragment.now ∷ []) }
{
    let way = way_round(alloc, nexts, node)?;
    let text = way_text(alloc, fragments, way.as_slice())?;
    list_fault(
        alloc,
        Rule::RecursiveFragmentDefinition,
        &[fragment.name.as_str(), text.as_str()],
        fragment.location,
        None,
        faults,
    )
}

/// Lists each fragment that is marked as the first of a chain that is too long.
fn list_long(
    long: &[bool],
    fragments: &[Fragment],
    faults: &mut Listed<DiagnosticData>,
) -> Result<(), Memory>
    ensures { OnOk result (faults.new ≡ faults.old ++ spec.long_from long.now 0 fragments.now) }
{
    let mut node = 0;
    for fragment in fragments {
        if is_marked(long, node) {
            list_long_chain(&fragment.name, faults)?;
        }
        node += 1;
    }
    Ok(())
}
