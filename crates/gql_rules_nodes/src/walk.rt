//! The walk over the nodes of a document.

ghost use Rattle.std.specs.Prelude.{◌≡◌, ◌++◌, OnOk};
ghost use Rattle.std.specs.List.{flat_map};
ghost use Rattle.gql_rules_nodes.specs.Nodes as spec;
ghost use Rattle.gql_rules_nodes.specs.bridge.Nodes as spec_bridge;

use crate::visitor::Visitor;
use gql_ast_base::Name;
use gql_document_types::{
    ExecutableDocument, Field, Fragment, InlineFragment, Operation, Selection, SelectionSet,
};
use jb_text::{Listed, Memory};

/// Adds what the visitor finds at each node of a document, in the order of the nodes. `Err` only when out of memory. The time
/// is linear in the number of nodes, apart from the visitor's.
pub fn walk_document<V: Visitor>(
    visitor: &V,
    document: &ExecutableDocument,
    found: &mut Listed<V::Found>,
) -> Result<(), Memory>
    ensures { OnOk result (found.new ≡ found.old ++ flat_map (V.at visitor.now) (spec.nodes document.now)) }
{
    walk_operations(visitor, document.operations.as_slice(), found)?;
    walk_fragments(visitor, document.fragments.as_slice(), found)
}

fn walk_operations<V: Visitor>(
    visitor: &V,
    operations: &[Operation],
    found: &mut Listed<V::Found>,
) -> Result<(), Memory>
    ensures { OnOk result (found.new ≡ found.old ++ flat_map (V.at visitor.now) (flat_map spec.operation_nodes operations.now)) }
{
    for operation in operations {
        walk_operation(visitor, operation, found)?;
    }
    Ok(())
}

fn walk_operation<V: Visitor>(
    visitor: &V,
    operation: &Operation,
    found: &mut Listed<V::Found>,
) -> Result<(), Memory>
    ensures { OnOk result (found.new ≡ found.old ++ flat_map (V.at visitor.now) (spec.operation_nodes operation.now)) }
{
    visitor.operation(operation, found)?;
    walk_set(visitor, &operation.selection_set, found)
}

fn walk_fragments<V: Visitor>(
    visitor: &V,
    fragments: &[Fragment],
    found: &mut Listed<V::Found>,
) -> Result<(), Memory>
    ensures { OnOk result (found.new ≡ found.old ++ flat_map (V.at visitor.now) (flat_map spec.fragment_nodes fragments.now)) }
{
    for fragment in fragments {
        walk_fragment(visitor, fragment, found)?;
    }
    Ok(())
}

fn walk_fragment<V: Visitor>(
    visitor: &V,
    fragment: &Fragment,
    found: &mut Listed<V::Found>,
) -> Result<(), Memory>
    ensures { OnOk result (found.new ≡ found.old ++ flat_map (V.at visitor.now) (spec.fragment_nodes fragment.now)) }
{
    visitor.fragment(fragment, found)?;
    walk_set(visitor, &fragment.selection_set, found)
}

/// Adds what the visitor finds at each node of a selection set, in the order of the nodes. `Err` only when out of memory.
#[cycle(walk)]
pub(crate) fn walk_set<V: Visitor>(
    visitor: &V,
    set: &SelectionSet,
    found: &mut Listed<V::Found>,
) -> Result<(), Memory>
    ensures { OnOk result (found.new ≡ found.old ++ flat_map (V.at visitor.now) (spec.set_nodes set.now)) }
{
    walk_selections(visitor, &set.ty, &set.selections, found)
}

#[cycle(walk)]
fn walk_selections<V: Visitor>(
    visitor: &V,
    ty: &Name,
    selections: &Listed<Selection>,
    found: &mut Listed<V::Found>,
) -> Result<(), Memory>
    ensures { OnOk result (found.new ≡ found.old ++ flat_map (V.at visitor.now) (spec.selections_nodes ty.now selections.now)) }
{
    for selection in selections.as_slice() {
        walk_selection(visitor, ty, selection, found)?;
    }
    Ok(())
}

#[cycle(walk)]
fn walk_selection<V: Visitor>(
    visitor: &V,
    ty: &Name,
    selection: &Selection,
    found: &mut Listed<V::Found>,
) -> Result<(), Memory>
    ensures { OnOk result (found.new ≡ found.old ++ flat_map (V.at visitor.now) (spec.selection_nodes selection.now ty.now)) }
{
    match selection {
        Selection::Field(field) => walk_field(visitor, ty, field, found),
        Selection::FragmentSpread(spread) => visitor.spread(ty, spread, found),
        Selection::InlineFragment(fragment) => walk_inline_fragment(visitor, ty, fragment, found),
    }
}

#[cycle(walk)]
fn walk_field<V: Visitor>(
    visitor: &V,
    ty: &Name,
    field: &Field,
    found: &mut Listed<V::Found>,
) -> Result<(), Memory>
    ensures { OnOk result (found.new ≡ found.old ++ flat_map (V.at visitor.now) (spec_bridge.field_nodes ty.now field.now)) }
{
    visitor.field(ty, field, found)?;
    walk_set(visitor, &field.selection_set, found)
}

#[cycle(walk)]
fn walk_inline_fragment<V: Visitor>(
    visitor: &V,
    ty: &Name,
    fragment: &InlineFragment,
    found: &mut Listed<V::Found>,
) -> Result<(), Memory>
    ensures { OnOk result (found.new ≡ found.old ++ flat_map (V.at visitor.now) (spec_bridge.inline_nodes ty.now fragment.now)) }
{
    visitor.inline_fragment(ty, fragment, found)?;
    walk_set(visitor, &fragment.selection_set, found)
}
