//! What a response may cost.

ghost use Rattle.std.specs.Prelude.{◌≡◌, ◌≤◌, ◌+◌, IfErr, IfOk};
ghost use Rattle.gql_cost.specs.Costing.{IsAboveLimit};
ghost use Rattle.gql_cost.specs.Sum.{cost as the_cost};
ghost use Rattle.gql_engine.specs.Depths.{all_selections};
ghost use Rattle.gql_engine.specs.Phases.{IsReadyForSome};

use crate::cost;
use crate::limited_error::LimitedError;
use gql_engine::phases::ReadyOperation;
use gql_engine::{AnswerError, Steps};
use gql_parser::laws as text_laws;
use jb_tree::Refused;
use std::alloc::Global;
use std::sync::ledger::Ledger;

/// How many nodes a response may have, where no list has more than so many items.
#[derive(Clone, Copy, Debug, PartialEq, Eq)]
pub struct CostLimit {
    /// The most items that a list is taken to have.
    pub items: u32,
    /// The most nodes: one for the data, and one for each value in them.
    pub nodes: u32,
}

impl CostLimit {
    /// The cost of an operation that is ready to be executed. It looks at each selection of the operation and of the fragments once
    /// at most, and counts these looks on `steps`.
    ///
    /// # Errors
    ///
    /// - [`LimitedError::TooCostly`] exactly where it is above the limit.
    /// - [`LimitedError::Answer`] with [`AnswerError::Memory`] when out of memory.
    pub fn cost<L: Ledger>(
        &self,
        alloc: Global,
        ready: &ReadyOperation<'_>,
        steps: &mut Steps<L>,
    ) -> Result<u32, LimitedError>
        requires { IsReadyForSome ready.now }
        ensures is { IfOk result (λ n. n ≡ the_cost self.now.items ready.now.document.now.fragments ready.now.operation.now.selection_set.selections) }
        ensures within { IfOk result (λ n. n ≤ self.now.nodes) }
        ensures refused { IfErr result (IsAboveLimit self.now.nodes
            (the_cost self.now.items ready.now.document.now.fragments ready.now.operation.now.selection_set.selections)) }
        ensures looks { steps.new ≤ steps.old + all_selections ready.now.document.now ready.now.operation.now }
        ensures rises { steps.old ≤ steps.new }
    {
        text_laws::valid_documents_run();
        match cost(
            alloc,
            ready.document,
            ready.operation,
            self.items,
            self.nodes,
            steps,
        ) {
            Ok(cost) => Ok(cost),
            Err(Refused::Fault(_)) => Err(LimitedError::TooCostly),
            Err(Refused::Memory) => Err(LimitedError::Answer(AnswerError::Memory)),
        }
    }
}
