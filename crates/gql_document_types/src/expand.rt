//! An operation that names no fragments.

ghost use Rattle.std.specs.Prelude.{◌≡◌, ◌≤◌, IfErr, IfOk, OnOk};
ghost use Rattle.gql_document_types.specs.Contents.{HaveContents};
ghost use Rattle.gql_document_types.specs.Count.{count};
ghost use Rattle.gql_document_types.specs.Expanded.{expanded, expanded_operation};
ghost use Rattle.gql_document_types.specs.Refusal.{IsTooLarge};
ghost use Rattle.gql_document_types.specs.Spreads.{AreAcyclic};

use crate::counting::fits;
use crate::document::ExecutableDocument;
use crate::expansion::Expansion;
use crate::laws;
use crate::operation::Operation;
use gql_ast_base::{Copying, all_four};
use jb_text::{Memory, Refused};
use std::alloc::Global;

/// Why an operation is not expanded.
#[derive(Clone, Copy, Debug, PartialEq, Eq, Drop)]
pub enum ExpandFault {
    /// More selections would stand in it than the limit allows.
    TooLarge,
}

/// The operation with each spread, at every depth, replaced by an inline fragment (GraphQL October 2021, section 2.8.2): it
/// has the condition of the spread's fragment, its selections, replaced in the same way, and the directives and the place of
/// the spread. A spread of a fragment that is not defined is left out. All else stays as it is.
///
/// The selections are counted first, each fragment once, so an operation that is refused costs no more time than its text
/// and that of the fragments.
///
/// # Errors
///
/// - [`ExpandFault::TooLarge`] exactly where the operation would have more selections than `limit`, at all depths: fields and
///   inline fragments.
/// - [`Refused::Memory`] when out of memory.
pub fn expand_fragments(
    alloc: Global,
    document: &ExecutableDocument,
    operation: &Operation,
    limit: usize,
) -> Result<Operation, Refused<ExpandFault>>
    requires acyclic { AreAcyclic document.now.fragments }
    ensures made { IfOk result (λ made. made ≡ expanded_operation document.now.fragments operation.now) }
    ensures within { OnOk result (count (expanded document.now.fragments operation.now.selection_set.selections) ≤ limit) }
    ensures refused { IfErr result (IsTooLarge document.now.fragments operation.now.selection_set.selections limit) }
{
    laws::acyclic_fragments_have_contents();
    let fragments = &document.fragments;
    if fits(alloc, fragments, &operation.selection_set.selections, limit)? {
        Ok(replaced(Expansion { alloc, fragments }, operation)?)
    } else {
        Err(Refused::Fault(ExpandFault::TooLarge))
    }
}

/// The operation with each spread replaced.
fn replaced(expansion: Expansion, operation: &Operation) -> Result<Operation, Memory>
    requires contents { HaveContents expansion.fragments.now }
    ensures { IfOk result (λ made. made ≡ expanded_operation expansion.entry.fragments.now operation.now) }
{
    let alloc = expansion.alloc;
    let (name, variables, directives, selection_set) = all_four(
        operation.name.copy(alloc),
        operation.variables.copy(alloc),
        operation.directives.copy(alloc),
        expansion.selection_set(&operation.selection_set),
    )?;
    Ok(Operation {
        operation_type: operation.operation_type,
        name,
        variables,
        directives,
        selection_set,
        location: operation.location,
    })
}
