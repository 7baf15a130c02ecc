//! What an operation asks of its root type itself.

ghost use Rattle.std.specs.Prelude.{◌≡◌, ◌++◌, ◌<◌, ◌≤◌, ℕ, IfOk, OnOk};
ghost use Rattle.gql_gateway.specs.Concrete.{concrete_at, concrete_within, filled};
ghost use Rattle.gql_gateway.specs.Part.{IsConcretePart};
ghost use Rattle.gql_document_types.specs.declared.selection.Selection.{out-Selection};
ghost use Rattle.gql_collect.specs.Sizes.{own, size};

use crate::meta_name::is_meta_name;
use gql_ast_base::{Copying, all_four};
use gql_document_types::{InlineFragment, Operation, Selection, SelectionSet};
use jb_text::{Listed, Memory};
use std::alloc::Global;

/// The operation without the fields named `__typename`, `__schema` and `__type` of its outermost set, inline fragments included, and
/// without the inline fragments that this leaves empty; or none where nothing is left. `Err` only when out of memory.
pub fn concrete_part(alloc: Global, operation: &Operation) -> Result<Option<Operation>, Memory>
    ensures { IfOk result (IsConcretePart operation.now) }
{
    let selections = all(alloc, &operation.selection_set.selections)?;
    if selections.is_empty() {
        return Ok(None);
    }
    let (name, variables, directives, ty) = all_four(
        operation.name.copy(alloc),
        operation.variables.copy(alloc),
        operation.directives.copy(alloc),
        operation.selection_set.ty.copy(alloc),
    )?;
    Ok(Some(Operation {
        operation_type: operation.operation_type,
        name,
        variables,
        directives,
        selection_set: SelectionSet { ty, selections },
        location: operation.location,
    }))
}

/// What is left of selections.
#[cycle(parting)]
fn all(alloc: Global, selections: &Listed<Selection>) -> Result<Listed<Selection>, Memory>
    ensures { IfOk result (λ made. (n : ℕ) → size selections.now < n → made ≡ concrete_within n selections.now) }
{
    let mut made = Listed::new(alloc);
    for selection in selections.as_slice() {
        add(alloc, selection, &mut made)?;
    }
    Ok(made)
}

/// Adds what is left of one selection.
#[cycle(parting)]
fn add(alloc: Global, selection: &Selection, made: &mut Listed<Selection>) -> Result<(), Memory>
    ensures { OnOk result ((n : ℕ) → own selection.now ≤ n → made.new ≡ made.old ++ concrete_at (concrete_within n) (out-Selection selection.now)) }
{
    match selection {
        Selection::Field(field) => {
            if is_meta_name(field.name.as_str()) {
                Ok(())
            } else {
                made.push(Selection::Field(field.copy(alloc)?))
            }
        }
        Selection::FragmentSpread(spread) => {
            made.push(Selection::FragmentSpread(spread.copy(alloc)?))
        }
        Selection::InlineFragment(fragment) => add_inline(alloc, fragment, made),
    }
}

/// Adds an inline fragment with what is left in it, if anything is.
#[cycle(parting)]
fn add_inline(
    alloc: Global,
    fragment: &InlineFragment,
    made: &mut Listed<Selection>,
) -> Result<(), Memory>
    ensures { OnOk result ((n : ℕ) → size fragment.now.selection_set.selections < n
        → made.new ≡ made.old ++ filled fragment.now (concrete_within n fragment.now.selection_set.selections)) }
{
    let selections = all(alloc, &fragment.selection_set.selections)?;
    if selections.is_empty() {
        return Ok(());
    }
    let type_condition = fragment.type_condition.copy(alloc)?;
    let directives = fragment.directives.copy(alloc)?;
    let ty = fragment.selection_set.ty.copy(alloc)?;
    made.push(Selection::InlineFragment(InlineFragment {
        type_condition,
        directives,
        selection_set: SelectionSet { ty, selections },
        location: fragment.location,
    }))
}
