//! The uses of variables in operations and fragments.

ghost use Rattle.std.specs.Prelude.{◌≡◌, ◌++◌, IfOk, OnOk};
ghost use Rattle.std.specs.List.{flat_map};
ghost use Rattle.gql_rules_nodes.specs.Nodes as nodes;
ghost use Rattle.gql_rules_nodes.specs.bridge.Nodes as nodes_bridge;
ghost use Rattle.gql_rules.specs.Uses as spec;
ghost use Rattle.gql_rules.specs.bridge.Views as seen;

use crate::uses::Use;
use crate::value_uses::{add_arguments, add_directives};
use gql_ast_base::Name;
use gql_document_types::{Field, Fragment, InlineFragment, Operation, Selection, SelectionSet};
use gql_schema_types::Schema;
use jb_text::{Listed, Memory};
use std::alloc::Global;

/// The uses in an operation, without those in the fragments that it spreads.
pub(crate) fn operation_uses<'d>(
    alloc: Global,
    schema: &'d Schema,
    operation: &'d Operation,
) -> Result<Listed<Use<'d>>, Memory>
    ensures { IfOk result (λ uses. seen.uses_of uses ≡ spec.operation_uses schema.now operation.now) }
{
    let mut uses = Listed::new(alloc);
    add_directives(alloc, schema, &operation.directives, &mut uses)?;
    add_set(alloc, schema, &operation.selection_set, &mut uses)?;
    Ok(uses)
}

/// The uses in a fragment, without those in the fragments that it spreads.
pub(crate) fn fragment_uses<'d>(
    alloc: Global,
    schema: &'d Schema,
    fragment: &'d Fragment,
) -> Result<Listed<Use<'d>>, Memory>
    ensures { IfOk result (λ uses. seen.uses_of uses ≡ spec.fragment_uses schema.now fragment.now) }
{
    let mut uses = Listed::new(alloc);
    add_directives(alloc, schema, &fragment.directives, &mut uses)?;
    add_set(alloc, schema, &fragment.selection_set, &mut uses)?;
    Ok(uses)
}

/// Adds the uses in a selection set.
#[cycle(selected)]
fn add_set<'d>(
    alloc: Global,
    schema: &'d Schema,
    set: &'d SelectionSet,
    uses: &mut Listed<Use<'d>>,
) -> Result<(), Memory>
    ensures { OnOk result (seen.uses_of uses.new ≡ seen.uses_of uses.old ++ flat_map (spec.node_uses schema.now) (nodes.set_nodes set.now)) }
{
    add_selections(alloc, schema, &set.ty, &set.selections, uses)
}

/// Adds the uses in selections in a set on this type.
#[cycle(selected)]
fn add_selections<'d>(
    alloc: Global,
    schema: &'d Schema,
    ty: &Name,
    selections: &'d Listed<Selection>,
    uses: &mut Listed<Use<'d>>,
) -> Result<(), Memory>
    ensures { OnOk result (seen.uses_of uses.new ≡ seen.uses_of uses.old ++ flat_map (spec.node_uses schema.now) (nodes.selections_nodes ty.now selections.now)) }
{
    for selection in selections.as_slice() {
        add_selection(alloc, schema, ty, selection, uses)?;
    }
    Ok(())
}

#[cycle(selected)]
fn add_selection<'d>(
    alloc: Global,
    schema: &'d Schema,
    ty: &Name,
    selection: &'d Selection,
    uses: &mut Listed<Use<'d>>,
) -> Result<(), Memory>
    ensures { OnOk result (seen.uses_of uses.new ≡ seen.uses_of uses.old ++ flat_map (spec.node_uses schema.now) (nodes.selection_nodes selection.now ty.now)) }
{
    match selection {
        Selection::Field(field) => add_field(alloc, schema, ty, field, uses),
        Selection::FragmentSpread(spread) => add_directives(
            alloc,
            schema,
            &spread.directives,
            uses,
        ),
        Selection::InlineFragment(fragment) => add_inline_fragment(
            alloc, schema, ty, fragment, uses,
        ),
    }
}

#[cycle(selected)]
fn add_field<'d>(
    alloc: Global,
    schema: &'d Schema,
    ty: &Name,
    field: &'d Field,
    uses: &mut Listed<Use<'d>>,
) -> Result<(), Memory>
    ensures { OnOk result (seen.uses_of uses.new ≡ seen.uses_of uses.old ++ flat_map (spec.node_uses schema.now) (nodes_bridge.field_nodes ty.now field.now)) }
{
    add_arguments(
        alloc,
        &schema.types,
        field.definition.arguments.as_slice(),
        &field.arguments,
        uses,
    )?;
    add_directives(alloc, schema, &field.directives, uses)?;
    add_set(alloc, schema, &field.selection_set, uses)
}

#[cycle(selected)]
fn add_inline_fragment<'d>(
    alloc: Global,
    schema: &'d Schema,
    ty: &Name,
    fragment: &'d InlineFragment,
    uses: &mut Listed<Use<'d>>,
) -> Result<(), Memory>
    ensures { OnOk result (seen.uses_of uses.new ≡ seen.uses_of uses.old ++ flat_map (spec.node_uses schema.now) (nodes_bridge.inline_nodes ty.now fragment.now)) }
{
    add_directives(alloc, schema, &fragment.directives, uses)?;
    add_set(alloc, schema, &fragment.selection_set, uses)
}
