//! What an operation asks for that was not told.

ghost use Rattle.std.specs.Prelude.{◌≡◌, [], ◌∷◌, ℕ, false, IfOk};
ghost use Rattle.gql_rounds.specs.Asked.{AreAsked};
ghost use Rattle.gql_rounds.specs.bridge.Asked.{AreFound};
ghost use Rattle.gql_rounds.specs.Walked.{request_in};
ghost use Rattle.gql_rounds.specs.bridge.Walked.{stands_of};
ghost use Rattle.gql_rounds.specs.Wanted.{root_stand};
ghost use Rattle.gql_document_types.specs.Ranks.{AreRanked};
ghost use Rattle.gql_document_types.specs.Spreads.{AreAcyclic};

use crate::answers::Answers;
use crate::ask::Asks;
use crate::walk::{Visit, Walk};
use gql_collect::{Pieces, Steps};
use gql_exec::Executing;
use gql_graph::laws as graph_laws;
use gql_schema_types::ObjectType;
use jb_text::{Listed, Memory};
use std::alloc::AllocError;
use std::sync::ledger::Ledger;

/// What the objects that are reached by these answers ask for that is not among them, each once. The root type is that of the
/// operation. No field that tells of the schema is asked for. `Err` only when out of memory.
pub fn asks<'s, L: Ledger>(
    executing: &Executing<'s>,
    root_type: &'s ObjectType,
    answers: &'s Answers,
    steps: &mut Steps<L>,
) -> Result<Asks, Memory>
    requires acyclic { AreAcyclic executing.now.request.document.now.fragments }
    requires hidden { executing.now.introspection ≡ false }
    ensures { IfOk result (AreAsked (request_in executing.now answers.now) root_type.now executing.now.operation.now.selection_set.selections) }
{
    graph_laws::acyclic_graphs_have_ranks();
    let found = walked(executing, root_type, answers, steps)?;
    // The keys of a map are distinct.
    let _count = found.len();
    Ok(found)
}

/// The same, level by level.
fn walked<'s, L: Ledger>(
    executing: &Executing<'s>,
    root_type: &'s ObjectType,
    answers: &'s Answers,
    steps: &mut Steps<L>,
) -> Result<Asks, Memory>
    requires ranked { (rank : ℕ → ℕ) × AreRanked executing.now.request.document.now.fragments rank }
    requires hidden { executing.now.introspection ≡ false }
    ensures { IfOk result (AreFound (request_in executing.now answers.now) root_type.now executing.now.operation.now.selection_set.selections) }
{
    let walk = Walk {
        executing: *executing,
        answers,
    };
    let mut asks = Asks::new(executing.alloc);
    let mut level = root_level(executing, root_type)?;
    // Selections are not nested so deep that this ends before the last level.
    for _depth in 0..u64::MAX {
        if level.is_empty() {
            return Ok(asks);
        }
        level = walk.next_level(&level, &mut asks, steps)?;
    }
    Err(AllocError)
}

/// The root alone.
fn root_level<'s>(
    executing: &Executing<'s>,
    root_type: &'s ObjectType,
) -> Result<Listed<Visit<'s>>, Memory>
    ensures { IfOk result (λ level. stands_of level ≡ root_stand root_type.now executing.now.operation.now.selection_set.selections ∷ []) }
{
    let mut pieces = Pieces::new(executing.alloc);
    pieces.add(&executing.operation.selection_set)?;
    let mut level = Listed::new(executing.alloc);
    level.push(Visit {
        object_type: root_type,
        number: 0,
        type_name: "",
        pieces,
    })?;
    Ok(level)
}
