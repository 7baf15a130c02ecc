//! Selections.

ghost use Rattle.std.specs.Prelude.{◌≡◌, IfOk};

use gql_ast_base::{Argument, Copying, Directive, Name, all_four, all_three, both};
use gql_source::SourceSpan;
use jb_text::{Listed, Memory};
use std::alloc::Global;

mod conversion;

pub(crate) use conversion::{selection_set, type_condition};

/// One selection of a selection set (GraphQL October 2021, section 2.4).
#[derive(Drop)]
#[cycle(selection)]
pub enum Selection {
    Field(Field),
    FragmentSpread(FragmentSpread),
    InlineFragment(InlineFragment),
}

/// A field that is asked for (section 2.5), under its alias if it has one (section 2.7).
#[derive(Drop)]
#[cycle(selection)]
pub struct Field {
    pub alias: Option<Name>,
    pub name: Name,
    pub arguments: Listed<Argument>,
    pub directives: Listed<Directive>,
    pub selection_set: Listed<Selection>,
    pub location: Option<SourceSpan>,
}

/// A fragment that is named in a selection set (section 2.8).
#[derive(Drop)]
pub struct FragmentSpread {
    pub fragment_name: Name,
    pub directives: Listed<Directive>,
    pub location: Option<SourceSpan>,
}

/// A fragment that stands in a selection set (section 2.8.2).
#[derive(Drop)]
#[cycle(selection)]
pub struct InlineFragment {
    pub type_condition: Option<Name>,
    pub directives: Listed<Directive>,
    pub selection_set: Listed<Selection>,
    pub location: Option<SourceSpan>,
}

impl Copying for Selection {
    fn copy(&self, alloc: Global) -> Result<Selection, Memory> {
        copy_selection(self, alloc)
    }
}

impl Copying for Field {
    fn copy(&self, alloc: Global) -> Result<Field, Memory> {
        copy_field(self, alloc)
    }
}

impl Copying for FragmentSpread {
    fn copy(&self, alloc: Global) -> Result<FragmentSpread, Memory> {
        let (fragment_name, directives) = both(
            self.fragment_name.copy(alloc),
            self.directives.copy(alloc),
        )?;
        Ok(FragmentSpread {
            fragment_name,
            directives,
            location: self.location,
        })
    }
}

impl Copying for InlineFragment {
    fn copy(&self, alloc: Global) -> Result<InlineFragment, Memory> {
        copy_inline_fragment(self, alloc)
    }
}

#[cycle(copy_selection)]
fn copy_selection(selection: &Selection, alloc: Global) -> Result<Selection, Memory>
    ensures { IfOk result (λ copy. copy ≡ selection.now) }
{
    match selection {
        Selection::Field(field) => Ok(Selection::Field(copy_field(field, alloc)?)),
        Selection::FragmentSpread(spread) => Ok(Selection::FragmentSpread(spread.copy(alloc)?)),
        Selection::InlineFragment(fragment) => {
            Ok(Selection::InlineFragment(copy_inline_fragment(fragment, alloc)?))
        }
    }
}

#[cycle(copy_selection)]
fn copy_field(field: &Field, alloc: Global) -> Result<Field, Memory>
    ensures { IfOk result (λ copy. copy ≡ field.now) }
{
    let selection_set = copy_selections(&field.selection_set, alloc)?;
    let (alias, name, arguments, directives) = all_four(
        field.alias.copy(alloc),
        field.name.copy(alloc),
        field.arguments.copy(alloc),
        field.directives.copy(alloc),
    )?;
    Ok(Field {
        alias,
        name,
        arguments,
        directives,
        selection_set,
        location: field.location,
    })
}

#[cycle(copy_selection)]
fn copy_inline_fragment(fragment: &InlineFragment, alloc: Global) -> Result<InlineFragment, Memory>
    ensures { IfOk result (λ copy. copy ≡ fragment.now) }
{
    let (type_condition, directives, selection_set) = all_three(
        fragment.type_condition.copy(alloc),
        fragment.directives.copy(alloc),
        copy_selections(&fragment.selection_set, alloc),
    )?;
    Ok(InlineFragment {
        type_condition,
        directives,
        selection_set,
        location: fragment.location,
    })
}

#[cycle(copy_selection)]
fn copy_selections(
    selections: &Listed<Selection>,
    alloc: Global,
) -> Result<Listed<Selection>, Memory>
    ensures { IfOk result (λ copy. copy ≡ selections.now) }
{
    let mut copies = Listed::new(alloc);
    for selection in selections.as_slice() {
        copies.push(copy_selection(selection, alloc)?)?;
    }
    Ok(copies)
}
