//! An operation that is divided between here and a remote.

ghost use Rattle.std.specs.Prelude.{◌≡◌, ◌≢◌, ◌≤◌, [], None, IfErr, IfOk, suc};
ghost use Rattle.gql_document_types.specs.Spreadless.{HasNoSpread};
ghost use Rattle.gql_document_types.specs.Spreads.{AreAcyclic};
ghost use Rattle.gql_gateway.specs.Concrete.{concrete, concrete_operation};
ghost use Rattle.gql_gateway.specs.Divided.{DividesTo, IsBeforeRemote, IsOfHere, LeavesNothing};
ghost use Rattle.gql_gateway.specs.bridge.Divided.{AsksFor, JoinsTo};
ghost use Rattle.gql_schema_types.specs.Schemas.{object_of};
ghost use Rattle.jb_io.specs.Stream.{HasFailed};

use crate::joining::join;
use crate::part::concrete_part;
use crate::part_laws;
use crate::remote::{Remote, RemoteError};
use crate::root_key::root_keys;
use gql_ast_base::Name;
use gql_collect::Steps;
use gql_document_types::{
    ExecutableDocument, ExpandFault, Operation, expand_fragments, laws as expansion_laws,
};
use gql_exec::partial_execute;
use gql_response::{ExecutionResponse, JsonMap};
use gql_schema_types::{ImplementersMap, Schema, Valid};
use jb_text::{Listed, Memory, Refused};
use jb_tree::Map;
use std::alloc::{AllocError, Global};
use std::sync::ledger::Ledger;

/// The most selections that an operation may have, at every depth, once each spread is replaced by what its fragment selects.
pub const MOST_SELECTIONS: usize = 100_000;

/// Why an operation has no joined response.
#[derive(Drop)]
pub enum DivideFault {
    /// It has more selections than [`MOST_SELECTIONS`] once each spread is replaced by what its fragment selects.
    TooLarge,
    /// The other place met a fault.
    Remote,
    /// Both responses have data, and that of the other place lacks this response key, the first such.
    MissingKey(Name),
}

/// An operation of a document that is to be divided, with its coerced variables. The implementers are those of the schema.
#[derive(Clone, Copy)]
pub struct Division<'t> {
    pub schema: &'t Valid<Schema>,
    pub implementers: &'t ImplementersMap,
    pub document: &'t Valid<ExecutableDocument>,
    pub operation: &'t Operation,
    pub variables: &'t Valid<JsonMap>,
}

/// The response to an operation that is divided: each spread is replaced by what its fragment selects; the root fields named
/// `__typename`, `__schema` and `__type` are executed here; what is left, if anything is, is executed by the remote; and both responses
/// are joined by [`join`]. No fragment may lead back to itself, and the root type is an object type. `steps` counts the looks at
/// selections while the response keys of the root are collected.
///
/// # Errors
///
/// - [`DivideFault::TooLarge`] exactly where the operation is too large. The remote is not asked then.
/// - [`DivideFault::Remote`] only where the remote's count of faults rose.
/// - [`DivideFault::MissingKey`] exactly where both responses have data and the remote's lacks a key.
/// - [`Refused::Memory`] when out of memory, also where the remote says so.
pub fn divide<R: Remote, L: Ledger>(
    alloc: Global,
    division: &Division<'_>,
    remote: &mut R,
    steps: &mut Steps<L>,
) -> Result<ExecutionResponse, Refused<DivideFault>>
    requires acyclic { AreAcyclic division.now.document.now.fragments }
    requires root { object_of division.now.schema.now division.now.operation.now.selection_set.ty.text ≢ None }
    ensures divides { DividesTo (R.tells remote.old) (HasFailed (R.faults remote.old) (R.faults remote.new))
        division.now.schema.now division.now.document.now division.now.operation.now division.now.variables.now result }
    ensures later { R.faults remote.old ≤ R.faults remote.new }
    ensures unasked { IfErr result (λ refused. IsBeforeRemote refused → remote.new ≡ remote.old) }

    // It is asked once at most, and not where nothing is left for it.
    ensures once { R.asked remote.new ≤ suc (R.asked remote.old) }
    ensures left { LeavesNothing division.now.document.now division.now.operation.now → remote.new ≡ remote.old }
{
    expansion_laws::expansions_have_no_spread();
    match expand_fragments(
        alloc,
        division.document.as_ref(),
        division.operation,
        MOST_SELECTIONS,
    ) {
        Ok(whole) => divide_whole(alloc, division, &whole, remote, steps),
        Err(Refused::Fault(ExpandFault::TooLarge)) => Err(Refused::Fault(DivideFault::TooLarge)),
        Err(Refused::Memory) => Err(Refused::Memory),
    }
}

/// The same of an operation that names no fragments, in place of that of the division.
fn divide_whole<R: Remote, L: Ledger>(
    alloc: Global,
    division: &Division<'_>,
    whole: &Operation,
    remote: &mut R,
    steps: &mut Steps<L>,
) -> Result<ExecutionResponse, Refused<DivideFault>>
    requires acyclic { AreAcyclic division.now.document.now.fragments }
    requires root { object_of division.now.schema.now whole.now.selection_set.ty.text ≢ None }
    requires spreadless { HasNoSpread whole.now.selection_set.selections }
    ensures joins { JoinsTo (R.tells remote.old) (HasFailed (R.faults remote.old) (R.faults remote.new))
        division.now.schema.now division.now.document.now whole.now division.now.variables.now result }
    ensures later { R.faults remote.old ≤ R.faults remote.new }
    ensures once { R.asked remote.new ≤ suc (R.asked remote.old) }
    ensures left { concrete whole.now.selection_set.selections ≡ [] → remote.new ≡ remote.old }
{
    let here = execute_here(alloc, division, whole)?;
    let keys = root_keys(
        alloc,
        division.schema.as_ref(),
        division.document.as_ref(),
        whole,
        division.variables.as_ref(),
        steps,
    )?;
    let there = execute_there(alloc, division, whole, remote)?;
    match join(alloc, keys, here, there) {
        Ok(response) => Ok(response),
        Err(Refused::Fault(key)) => Err(Refused::Fault(DivideFault::MissingKey(key))),
        Err(Refused::Memory) => Err(Refused::Memory),
    }
}

/// The response to what asks for the schema. `Err` only when out of memory.
fn execute_here(
    alloc: Global,
    division: &Division<'_>,
    whole: &Operation,
) -> Result<ExecutionResponse, Memory>
    requires acyclic { AreAcyclic division.now.document.now.fragments }
    requires root { object_of division.now.schema.now whole.now.selection_set.ty.text ≢ None }
    ensures { IfOk result (IsOfHere division.now.schema.now division.now.document.now whole.now division.now.variables.now) }
{
    match partial_execute(
        alloc,
        division.schema,
        division.implementers,
        division.document,
        whole,
        division.variables,
    ) {
        Ok(response) => Ok(response),
        Err(Refused::Fault(_)) => unreachable!(),
        Err(Refused::Memory) => Err(AllocError),
    }
}

/// The response of the remote to what is left, if anything is.
fn execute_there<R: Remote>(
    alloc: Global,
    division: &Division<'_>,
    whole: &Operation,
    remote: &mut R,
) -> Result<ExecutionResponse, Refused<DivideFault>>
    requires acyclic { AreAcyclic division.now.document.now.fragments }
    requires root { object_of division.now.schema.now whole.now.selection_set.ty.text ≢ None }
    requires spreadless { HasNoSpread whole.now.selection_set.selections }
    ensures asked { AsksFor (R.tells remote.old) (HasFailed (R.faults remote.old) (R.faults remote.new))
        division.now.schema.now division.now.document.now whole.now division.now.variables.now result }
    ensures later { R.faults remote.old ≤ R.faults remote.new }
    ensures once { R.asked remote.new ≤ suc (R.asked remote.old) }
    ensures left { concrete whole.now.selection_set.selections ≡ [] → remote.new ≡ remote.old }
{
    part_laws::concrete_parts_have_no_spread();
    match concrete_part(alloc, whole)? {
        Some(part) => ask(alloc, division, whole, &part, remote),
        None => Ok(ExecutionResponse {
            errors: Listed::new(alloc),
            root: Some(Map::new(alloc)),
        }),
    }
}

/// The response of the remote to what is left. `_whole` is what contracts see it is left of.
fn ask<R: Remote>(
    alloc: Global,
    division: &Division<'_>,
    _whole: &Operation,
    part: &Operation,
    remote: &mut R,
) -> Result<ExecutionResponse, Refused<DivideFault>>
    requires acyclic { AreAcyclic division.now.document.now.fragments }
    requires root { object_of division.now.schema.now _whole.now.selection_set.ty.text ≢ None }
    requires spreadless { HasNoSpread (concrete _whole.now.selection_set.selections) }
    requires part { part.now ≡ concrete_operation _whole.now }
    requires some { concrete _whole.now.selection_set.selections ≢ [] }
    ensures asked { AsksFor (R.tells remote.old) (HasFailed (R.faults remote.old) (R.faults remote.new))
        division.now.schema.now division.now.document.now _whole.now division.now.variables.now result }
    ensures later { R.faults remote.old ≤ R.faults remote.new }
    ensures once { R.asked remote.new ≤ suc (R.asked remote.old) }
{
    match remote.execute(
        alloc,
        division.schema,
        division.document,
        part,
        division.variables,
    ) {
        Ok(response) => Ok(response),
        Err(RemoteError::Fault) => Err(Refused::Fault(DivideFault::Remote)),
        Err(RemoteError::Memory) => Err(Refused::Memory),
    }
}
