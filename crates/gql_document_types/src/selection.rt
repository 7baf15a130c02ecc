//! Selections whose fields have their definitions.

ghost use Rattle.std.specs.Prelude.{◌≡◌, IfOk};

use gql_ast::FieldDefinition;
use gql_ast_base::{Argument, Copying, Directive, Name, all_four, all_three, both};
use gql_schema_types::Shared;
use gql_source::SourceSpan;
use jb_text::{Listed, Memory};
use std::alloc::Global;

/// Selections on a type (GraphQL October 2021, section 2.4). A field that asks for nothing below it has none.
#[cycle(selection)]
pub struct SelectionSet {
    pub ty: Name,
    pub selections: Listed<Selection>,
}

impl Drop for SelectionSet {
    #[cycle(drop_selections)]
    fn drop(self) {
        let SelectionSet {
            ty: _,
            selections: _,
        } = self;
    }
}

/// One selection of a selection set (section 2.4).
#[derive(Drop)]
#[cycle(selection)]
pub enum Selection {
    Field(Field),
    FragmentSpread(FragmentSpread),
    InlineFragment(InlineFragment),
}

/// A field that is asked for (section 2.5), under its alias if it has one (section 2.7), with its definition.
#[cycle(selection)]
pub struct Field {
    pub alias: Option<Name>,
    pub name: Name,
    pub arguments: Listed<Argument>,
    pub directives: Listed<Directive>,
    pub selection_set: SelectionSet,
    pub location: Option<SourceSpan>,
    pub definition: Shared<FieldDefinition>,
}

impl Drop for Field {
    #[cycle(drop_selections)]
    fn drop(self) {
        let Field {
            alias: _,
            name: _,
            arguments: _,
            directives: _,
            selection_set: _,
            location: _,
            definition: _,
        } = self;
    }
}

/// A fragment that is named in a selection set (section 2.8).
pub struct FragmentSpread {
    pub fragment_name: Name,
    pub directives: Listed<Directive>,
    pub location: Option<SourceSpan>,
}

impl Drop for FragmentSpread {
    fn drop(self) {
        let FragmentSpread {
            fragment_name: _,
            directives: _,
            location: _,
        } = self;
    }
}

/// A fragment that stands in a selection set (section 2.8.2). The type of its set is its condition, or without one that of
/// the set around it.
#[cycle(selection)]
pub struct InlineFragment {
    pub type_condition: Option<Name>,
    pub directives: Listed<Directive>,
    pub selection_set: SelectionSet,
    pub location: Option<SourceSpan>,
}

impl Drop for InlineFragment {
    #[cycle(drop_selections)]
    fn drop(self) {
        let InlineFragment {
            type_condition: _,
            directives: _,
            selection_set: _,
            location: _,
        } = self;
    }
}

impl Copying for SelectionSet {
    fn copy(&self, alloc: Global) -> Result<SelectionSet, Memory> {
        copy_set(self, alloc)
    }
}

impl Copying for Selection {
    fn copy(&self, alloc: Global) -> Result<Selection, Memory> {
        copy_selection(self, alloc)
    }
}

impl Copying for Field {
    fn copy(&self, alloc: Global) -> Result<Field, Memory> {
        copy_field(self, alloc)
    }
}

impl Copying for FragmentSpread {
    fn copy(&self, alloc: Global) -> Result<FragmentSpread, Memory> {
        let (fragment_name, directives) = both(
            self.fragment_name.copy(alloc),
            self.directives.copy(alloc),
        )?;
        Ok(FragmentSpread {
            fragment_name,
            directives,
            location: self.location,
        })
    }
}

impl Copying for InlineFragment {
    fn copy(&self, alloc: Global) -> Result<InlineFragment, Memory> {
        copy_inline_fragment(self, alloc)
    }
}

#[cycle(copy_selection)]
fn copy_selection(selection: &Selection, alloc: Global) -> Result<Selection, Memory>
    ensures { IfOk result (λ copy. copy ≡ selection.now) }
{
    match selection {
        Selection::Field(field) => Ok(Selection::Field(copy_field(field, alloc)?)),
        Selection::FragmentSpread(spread) => Ok(Selection::FragmentSpread(spread.copy(alloc)?)),
        Selection::InlineFragment(fragment) => {
            Ok(Selection::InlineFragment(copy_inline_fragment(fragment, alloc)?))
        }
    }
}

#[cycle(copy_selection)]
fn copy_field(field: &Field, alloc: Global) -> Result<Field, Memory>
    ensures { IfOk result (λ copy. copy ≡ field.now) }
{
    let (selection_set, definition) = both(
        copy_set(&field.selection_set, alloc),
        field.definition.copy(alloc),
    )?;
    let (alias, name, arguments, directives) = all_four(
        field.alias.copy(alloc),
        field.name.copy(alloc),
        field.arguments.copy(alloc),
        field.directives.copy(alloc),
    )?;
    Ok(Field {
        alias,
        name,
        arguments,
        directives,
        selection_set,
        location: field.location,
        definition,
    })
}

#[cycle(copy_selection)]
fn copy_inline_fragment(fragment: &InlineFragment, alloc: Global) -> Result<InlineFragment, Memory>
    ensures { IfOk result (λ copy. copy ≡ fragment.now) }
{
    let (type_condition, directives, selection_set) = all_three(
        fragment.type_condition.copy(alloc),
        fragment.directives.copy(alloc),
        copy_set(&fragment.selection_set, alloc),
    )?;
    Ok(InlineFragment {
        type_condition,
        directives,
        selection_set,
        location: fragment.location,
    })
}

#[cycle(copy_selection)]
fn copy_set(set: &SelectionSet, alloc: Global) -> Result<SelectionSet, Memory>
    ensures { IfOk result (λ copy. copy ≡ set.now) }
{
    let (ty, selections) = both(set.ty.copy(alloc), copy_selections(&set.selections, alloc))?;
    Ok(SelectionSet { ty, selections })
}

#[cycle(copy_selection)]
fn copy_selections(
    selections: &Listed<Selection>,
    alloc: Global,
) -> Result<Listed<Selection>, Memory>
    ensures { IfOk result (λ copy. copy ≡ selections.now) }
{
    let mut copies = Listed::new(alloc);
    for selection in selections.as_slice() {
        copies.push(copy_selection(selection, alloc)?)?;
    }
    Ok(copies)
}
