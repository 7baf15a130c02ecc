//! The check of an operation's depth.

ghost use Rattle.std.specs.Prelude.{◌<◌, ◌≤◌, ◌+◌, IfErr, IfOk, MatchOption, OnOk};
ghost use Rattle.gql_document_types.specs.Spreads.{AreAcyclic};
ghost use Rattle.gql_collect.specs.Check.{total, total_fragments};
ghost use Rattle.gql_collect.specs.Expanded.{expanded_depth};
ghost use Rattle.gql_collect.specs.Refusal.{IsFoundDeep, IsTooDeep};
ghost use Rattle.gql_collect.specs.View.{fragments_nested, nested};

use crate::depth::DepthCheck;
use crate::steps::Steps;
use gql_document_types::{ExecutableDocument, Fragment, Operation, Selection};
use gql_graph::laws;
use gql_response::RequestError;
use gql_schema_types::{Table, Valid};
use gql_source::SourceSpan;
use jb_text::{Listed, Memory, Refused, Text};
use std::alloc::Global;
use std::sync::ledger::Ledger;

/// Accepts an operation exactly where its expanded depth is below three: the greatest number of fields named `fields`,
/// `interfaces`, `possibleTypes` and `inputFields` on one chain of nested selections, where each spread stands for what its
/// fragment selects. Fields that `@skip` leaves out count too.
///
/// Each fragment is walked once, at its first spread, so fragments that double cost no more than their text: `steps` rises
/// by at most the number of selections of the operation and of all fragments.
///
/// # Errors
///
/// - [`Refused::Fault`] exactly where the expanded depth is three or more: `Maximum introspection depth exceeded`, at the name
///   of the first field that is the third on its chain, or at the first later spread whose chain has three with the
///   fragment's own depth.
/// - [`Refused::Memory`] when out of memory.
pub fn check_max_depth<L: Ledger>(
    alloc: Global,
    document: &Valid<ExecutableDocument>,
    operation: &Operation,
    steps: &mut Steps<L>,
) -> Result<(), Refused<RequestError>>
    requires acyclic { AreAcyclic document.now.fragments }
    ensures accepted { OnOk result (expanded_depth (fragments_nested document.now.fragments) (nested document.now.fragments operation.now.selection_set.selections) < 3) }
    ensures refused { IfErr result (IsTooDeep document.now.fragments operation.now.selection_set.selections) }
    ensures looks { steps.new ≤ steps.old +
        (total (nested document.now.fragments operation.now.selection_set.selections) + total_fragments (fragments_nested document.now.fragments)) }
    ensures rises { steps.old ≤ steps.new }
{
    let fragments = &document.as_ref().fragments;
    match found_deep(alloc, fragments, &operation.selection_set.selections, steps)? {
        None => Ok(()),
        Some(location) => Err(Refused::Fault(RequestError {
            message: Text::from_str(alloc, "Maximum introspection depth exceeded")?,
            location,
            is_suspected_validation_bug: false,
        })),
    }
}

/// Where a chain is found to have three counted fields, if one has. `Err` only when out of memory.
fn found_deep<L: Ledger>(
    alloc: Global,
    fragments: &Table<Fragment>,
    selections: &Listed<Selection>,
    steps: &mut Steps<L>,
) -> Result<Option<Option<SourceSpan>>, Memory>
    requires acyclic { AreAcyclic fragments.now }
    ensures found { IfOk result (λ found. MatchOption found
        (expanded_depth (fragments_nested fragments.now) (nested fragments.now selections.now) < 3)
        (IsFoundDeep fragments.now selections.now)) }
    ensures looks { steps.new ≤ steps.old + (total (nested fragments.now selections.now) + total_fragments (fragments_nested fragments.now)) }
    ensures rises { steps.old ≤ steps.new }
{
    laws::acyclic_graphs_have_ranks();
    let mut memo = vec![in alloc; None; fragments.len()]?;
    let check = DepthCheck { fragments };
    match check.selection_set(selections, 0, memo.as_mut_slice(), steps) {
        Ok(_) => Ok(None),
        Err(place) => Ok(Some(place)),
    }
}
