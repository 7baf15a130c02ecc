//! The cost of an operation, within a limit.

ghost use Rattle.std.specs.Prelude.{◌≡◌, ◌≤◌, ◌+◌, IfErr, IfOk, OnOk};
ghost use Rattle.gql_cost.specs.Sum.{cost as the_cost};
ghost use Rattle.gql_cost.specs.Refusal.{IsTooCostly};
ghost use Rattle.gql_collect.specs.Room.{all_selections};
ghost use Rattle.gql_document_types.specs.Spreads.{AreAcyclic};

use crate::walk::CostWalk;
use gql_collect::Steps;
use gql_document_types::{ExecutableDocument, Operation, laws as document_laws};
use gql_graph::laws as graph_laws;
use gql_schema_types::Valid;
use jb_text::Refused;
use std::alloc::Global;
use std::sync::ledger::Ledger;

/// Why an operation has no cost within a limit.
#[derive(Clone, Copy, Debug, PartialEq, Eq, Drop)]
pub enum CostFault {
    /// Its cost is above the limit.
    TooCostly,
}

/// The cost of an operation: how many nodes its data can have at most, where no list has more than `items` items. `steps` rises by at
/// most the number of selections of the operation and of all fragments.
///
/// # Errors
///
/// - [`CostFault::TooCostly`] exactly where the cost is above `limit`.
/// - [`Refused::Memory`] when out of memory.
pub fn cost<L: Ledger>(
    alloc: Global,
    document: &Valid<ExecutableDocument>,
    operation: &Operation,
    items: u32,
    limit: u32,
    steps: &mut Steps<L>,
) -> Result<u32, Refused<CostFault>>
    requires acyclic { AreAcyclic document.now.fragments }
    ensures is { IfOk result (λ n. n ≡ the_cost items document.now.fragments operation.now.selection_set.selections) }
    ensures within { OnOk result (the_cost items document.now.fragments operation.now.selection_set.selections ≤ limit) }
    ensures refused { IfErr result (IsTooCostly items document.now.fragments operation.now.selection_set.selections limit) }
    ensures looks { steps.new ≤ steps.old + all_selections document.now.fragments operation.now.selection_set.selections }
    ensures rises { steps.old ≤ steps.new }
{
    document_laws::acyclic_fragments_have_contents();
    graph_laws::acyclic_graphs_have_ranks();
    let fragments = &document.as_ref().fragments;
    let mut memo = vec![in alloc; None; fragments.len()]?;
    let walk = CostWalk {
        fragments,
        items,
        limit,
    };
    let sum = walk.all(
        &operation.selection_set.selections,
        memo.as_mut_slice(),
        steps,
    );
    let Ok(cost) = u32::try_from(sum + 1) else {
        return Err(Refused::Fault(CostFault::TooCostly));
    };
    if cost <= limit {
        Ok(cost)
    } else {
        Err(Refused::Fault(CostFault::TooCostly))
    }
}
