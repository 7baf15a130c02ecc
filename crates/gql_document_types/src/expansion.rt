//! Copies of selections in which each spread is replaced by an inline fragment.

ghost use Rattle.std.specs.Prelude.{◌≡◌, ◌++◌, ◌<◌, length, IfOk, OnOk};
ghost use Rattle.gql_document_types.specs.Contents.{HaveContents};
ghost use Rattle.gql_document_types.specs.Expanded as spec;
ghost use Rattle.gql_document_types.specs.bridge.Expanded as spec_bridge;

use crate::fragment::Fragment;
use crate::selection::{Field, FragmentSpread, InlineFragment, Selection, SelectionSet};
use gql_ast_base::{Copying, all_four, all_three, both};
use gql_schema_types::Table;
use jb_text::{Listed, Memory};
use std::alloc::Global;

/// What stays the same while selections are copied: where the copies go, and the fragments.
#[derive(Clone, Copy)]
pub(crate) struct Expansion<'a> {
    pub alloc: Global,
    pub fragments: &'a Table<Fragment>,
}

impl<'a> Expansion<'a> {
    /// The set with each spread replaced. `Err` only when out of memory, here and below.
    #[cycle(expanding)]
    pub(crate) fn selection_set(&self, set: &SelectionSet) -> Result<SelectionSet, Memory>
        requires contents { HaveContents self.now.fragments.now }
        ensures { IfOk result (λ made. made ≡ spec.expanded_set self.now.fragments.now set.now) }
    {
        let (ty, selections) = both(set.ty.copy(self.alloc), self.all(&set.selections))?;
        Ok(SelectionSet { ty, selections })
    }

    /// The selections with each spread replaced.
    #[cycle(expanding)]
    fn all(&self, selections: &Listed<Selection>) -> Result<Listed<Selection>, Memory>
        requires contents { HaveContents self.now.fragments.now }
        ensures { IfOk result (λ made. made ≡ spec.expanded self.now.fragments.now selections.now) }
    {
        let mut made = Listed::new(self.alloc);
        for selection in selections.as_slice() {
            self.add(selection, &mut made)?;
        }
        Ok(made)
    }

    /// Adds what stands in the place of a selection.
    #[cycle(expanding)]
    fn add(&self, selection: &Selection, made: &mut Listed<Selection>) -> Result<(), Memory>
        requires contents { HaveContents self.now.fragments.now }
        ensures { OnOk result (made.new ≡ made.old ++ spec_bridge.expanded_one self.now.fragments.now selection.now) }
    {
        match selection {
            Selection::Field(field) => made.push(Selection::Field(self.field(field)?)),
            Selection::FragmentSpread(spread) => self.add_spread(spread, made),
            Selection::InlineFragment(fragment) => {
                made.push(Selection::InlineFragment(self.inline(fragment)?))
            }
        }
    }

    /// The field with each spread inside it replaced.
    #[cycle(expanding)]
    fn field(&self, field: &Field) -> Result<Field, Memory>
        requires contents { HaveContents self.now.fragments.now }
        ensures { IfOk result (λ made. made ≡ spec_bridge.expanded_field self.now.fragments.now field.now) }
    {
        let (selection_set, definition) = both(
            self.selection_set(&field.selection_set),
            field.definition.copy(self.alloc),
        )?;
        let (alias, name, arguments, directives) = all_four(
            field.alias.copy(self.alloc),
            field.name.copy(self.alloc),
            field.arguments.copy(self.alloc),
            field.directives.copy(self.alloc),
        )?;
        Ok(Field {
            alias,
            name,
            arguments,
            directives,
            selection_set,
            location: field.location,
            definition,
        })
    }

    /// The inline fragment with each spread inside it replaced.
    #[cycle(expanding)]
    fn inline(&self, fragment: &InlineFragment) -> Result<InlineFragment, Memory>
        requires contents { HaveContents self.now.fragments.now }
        ensures { IfOk result (λ made. made ≡ spec_bridge.expanded_inline self.now.fragments.now fragment.now) }
    {
        let (type_condition, directives, selection_set) = all_three(
            fragment.type_condition.copy(self.alloc),
            fragment.directives.copy(self.alloc),
            self.selection_set(&fragment.selection_set),
        )?;
        Ok(InlineFragment {
            type_condition,
            directives,
            selection_set,
            location: fragment.location,
        })
    }

    /// Adds the inline fragment that a spread becomes, if its fragment is defined.
    #[cycle(expanding)]
    fn add_spread(
        &self,
        spread: &FragmentSpread,
        made: &mut Listed<Selection>,
    ) -> Result<(), Memory>
        requires contents { HaveContents self.now.fragments.now }
        ensures { OnOk result (made.new ≡ made.old ++ spec_bridge.expanded_spread self.now.fragments.now spread.now) }
    {
        match self.fragments.find(spread.fragment_name.as_str()) {
            Some(number) => made.push(Selection::InlineFragment(self.in_place(spread, number)?)),
            None => Ok(()),
        }
    }

    /// The inline fragment for a spread of the fragment of the number.
    #[cycle(expanding)]
    fn in_place(&self, spread: &FragmentSpread, number: usize) -> Result<InlineFragment, Memory>
        requires contents { HaveContents self.now.fragments.now }
        requires within { number < length self.now.fragments.now }
        ensures { IfOk result (λ made. spec_bridge.IsInPlace self.now.fragments.now spread.now number made) }
    {
        let body = &self.fragments.as_slice()[number].selection_set;
        let (condition, directives, selection_set) = all_three(
            body.ty.copy(self.alloc),
            spread.directives.copy(self.alloc),
            self.selection_set(body),
        )?;
        Ok(InlineFragment {
            type_condition: Some(condition),
            directives,
            selection_set,
            location: spread.location,
        })
    }
}
