//! The selections of a document in which no type is known.

ghost use Rattle.std.specs.Prelude.{◌≡◌, map, IfOk};
ghost use Rattle.gql_rules.specs.UntypedSelections as spec;
ghost use Rattle.gql_rules.specs.bridge.UntypedSelections as spec_bridge;

use crate::no_schema::{unknown_field, unknown_type};
use gql_ast as ast;
use gql_ast_base::both;
use gql_document_types::{Field, FragmentSpread, InlineFragment, Selection, SelectionSet};
use jb_text::{Listed, Memory};
use std::alloc::Global;

/// The set of these selections, on a type that is not known: all of them, each field with a definition that says nothing. `Err`
/// only when out of memory.
#[cycle(untyped)]
pub(crate) fn untyped_set(
    alloc: Global,
    selections: Listed<ast::Selection>,
) -> Result<SelectionSet, Memory>
    ensures { IfOk result (λ set. set ≡ spec.untyped_set selections) }
{
    let (ty, selections) = both(unknown_type(alloc), untyped_selections(alloc, selections))?;
    Ok(SelectionSet { ty, selections })
}

#[cycle(untyped)]
fn untyped_selections(
    alloc: Global,
    selections: Listed<ast::Selection>,
) -> Result<Listed<Selection>, Memory>
    ensures { IfOk result (λ made. made ≡ map spec.untyped_selection selections) }
{
    let mut made = Listed::new(alloc);
    for selection in selections {
        made.push(untyped_selection(alloc, selection)?)?;
    }
    Ok(made)
}

#[cycle(untyped)]
fn untyped_selection(alloc: Global, selection: ast::Selection) -> Result<Selection, Memory>
    ensures { IfOk result (λ made. made ≡ spec.untyped_selection selection) }
{
    match selection {
        ast::Selection::Field(field) => Ok(Selection::Field(untyped_field(alloc, field)?)),
        ast::Selection::FragmentSpread(spread) => Ok(Selection::FragmentSpread(FragmentSpread {
            fragment_name: spread.fragment_name,
            directives: spread.directives,
            location: spread.location,
        })),
        ast::Selection::InlineFragment(fragment) => {
            Ok(Selection::InlineFragment(untyped_inline(alloc, fragment)?))
        }
    }
}

#[cycle(untyped)]
fn untyped_field(alloc: Global, field: ast::Field) -> Result<Field, Memory>
    ensures { IfOk result (λ made. made ≡ spec_bridge.untyped_field field) }
{
    let (selection_set, definition) = both(
        untyped_set(alloc, field.selection_set),
        unknown_field(alloc),
    )?;
    Ok(Field {
        alias: field.alias,
        name: field.name,
        arguments: field.arguments,
        directives: field.directives,
        selection_set,
        location: field.location,
        definition,
    })
}

#[cycle(untyped)]
fn untyped_inline(alloc: Global, fragment: ast::InlineFragment) -> Result<InlineFragment, Memory>
    ensures { IfOk result (λ made. made ≡ spec_bridge.untyped_inline fragment) }
{
    let selection_set = untyped_set(alloc, fragment.selection_set)?;
    Ok(InlineFragment {
        type_condition: fragment.type_condition,
        directives: fragment.directives,
        selection_set,
        location: fragment.location,
    })
}
