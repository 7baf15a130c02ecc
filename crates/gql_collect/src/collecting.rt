//! Walks through selections that enter each fragment once.

ghost use Rattle.std.specs.Prelude.{◌≡◌, ◌≤◌, ℕ, ◌+◌, ◌++◌, IfOk, OnOk};
ghost use Rattle.gql_collect.specs.Flat.{flat_sets};
ghost use Rattle.gql_document_types.specs.Ranks.{AreRanked};
ghost use Rattle.gql_collect.specs.Same.{SameFirst};
ghost use Rattle.gql_collect.specs.Sizes.{fragments_size, outer_size, sets_size};
ghost use Rattle.gql_collect.specs.Standing.{NoneMoreOften, fields_in_all, fields_in_fragments};
ghost use Rattle.gql_collect.specs.Walk as walk;
ghost use Rattle.gql_collect.specs.bridge.Walk as walk_bridge;
ghost use Rattle.gql_collect.specs.Collected.{setting, sets_of};
ghost use Rattle.gql_collect.specs.bridge.Collected.{setting_of};

use crate::applies::{applies, applies_if};
use crate::directives::is_kept;
use crate::pieces::Pieces;
use crate::steps::Steps;
use gql_document_types::{
    ExecutableDocument, Field, Fragment, FragmentSpread, InlineFragment, Selection,
};
use gql_schema_types::{ObjectType, Schema, Table};
use jb_text::{Listed, Memory};
use jb_tree::Map;
use std::alloc::Global;
use std::sync::ledger::Ledger;

/// The fields that selection sets ask of an object type, in order (GraphQL October 2021, section 6.3.2): those that are kept
/// by `@skip` and `@include`, those of fragments that apply among them. Each fragment is entered once, so they are the
/// fields of the sets with each fragment written out, repeats aside. A fragment that is not defined has no fields. `Err`
/// only when out of memory. Each selection that is looked at counts one step.
pub(crate) fn selected_fields<'d, L: Ledger>(
    alloc: Global,
    schema: &Schema,
    document: &'d ExecutableDocument,
    object_type: &ObjectType,
    pieces: &Pieces<'d>,
    variables: &Map,
    steps: &mut Steps<L>,
) -> Result<Listed<&'d Field>, Memory>
    requires { (rank : ℕ → ℕ) × AreRanked document.now.fragments rank }
    ensures fields { IfOk result (λ fields. SameFirst (walk.fields_of fields)
        (flat_sets (setting document.now.fragments schema.now object_type.now variables.now) (sets_of pieces.now))) }
    ensures once { IfOk result (λ fields. NoneMoreOften (walk.fields_of fields)
        (fields_in_all (sets_of pieces.now) ++ fields_in_fragments document.now.fragments)) }
    ensures looks { steps.new ≤ steps.old + (sets_size (sets_of pieces.now) + fragments_size document.now.fragments) }
    ensures rises { steps.old ≤ steps.new }
    ensures counted { OnOk result (steps.old + outer_size (sets_of pieces.now) ≤ steps.new) }
{
    let collector = Collector {
        fragments: &document.fragments,
        schema,
        object: object_type,
        variables,
    };
    let mut marks = vec![in alloc; false; document.fragments.len()]?;
    let pending = laid_aside(alloc, pieces)?;
    collector.collect(alloc, pending, marks.as_mut_slice(), steps)
}

/// The selections of these sets, the first one last.
fn laid_aside<'d>(alloc: Global, pieces: &Pieces<'d>) -> Result<Listed<&'d [Selection]>, Memory>
    ensures { IfOk result (λ pending. walk_bridge.lists_of pending ≡ sets_of pieces.now) }
{
    let mut pending = Listed::new(alloc);
    for set in pieces.as_slice().iter().rev() {
        pending.push(set.selections.as_slice())?;
    }
    Ok(pending)
}

/// What stays the same while fields are collected.
#[derive(Clone, Copy)]
struct Collector<'d, 'v> {
    fragments: &'d Table<Fragment>,
    schema: &'v Schema,
    object: &'v ObjectType,
    variables: &'v Map,
}

impl<'d, 'v> Collector<'d, 'v> {
    /// The fields of lists that are laid aside.
    fn collect<L: Ledger>(
        &self,
        alloc: Global,
        mut pending: Listed<&'d [Selection]>,
        marks: &mut [bool],
        steps: &mut Steps<L>,
    ) -> Result<Listed<&'d Field>, Memory>
        ensures fields { IfOk result (λ fields. walk_bridge.WalksAll (setting_of self.now) marks.old (walk_bridge.lists_of pending.entry) (walk.fields_of fields)) }
        ensures looks { steps.new ≤ steps.old + (sets_size (walk_bridge.lists_of pending.entry) + fragments_size self.now.fragments.now) }
        ensures rises { steps.old ≤ steps.new }
        ensures counted { OnOk result (steps.old + outer_size (walk_bridge.lists_of pending.entry) ≤ steps.new) }
    {
        let mut fields = Listed::new(alloc);
        while let Some(list) = pending.pop() {
            self.take_first(list, marks, &mut pending, &mut fields, steps)?;
        }
        Ok(fields)
    }

    /// Looks at the first of these selections, if there is one, and lays the others aside.
    fn take_first<L: Ledger>(
        &self,
        selections: &'d [Selection],
        marks: &mut [bool],
        pending: &mut Listed<&'d [Selection]>,
        fields: &mut Listed<&'d Field>,
        steps: &mut Steps<L>,
    ) -> Result<(), Memory>
        ensures walk { OnOk result (walk_bridge.walk_of marks.new pending.new fields.new ≡ walk_bridge.with_first (setting_of self.now) selections.now (walk_bridge.walk_of marks.old pending.old fields.old)) }
        ensures looks { steps.new ≡ steps.old + walk_bridge.looks_at selections.now }
    {
        match selections.split_first() {
            Some((first, others)) => {
                steps.tick();
                lay_aside(others, pending)?;
                self.meet(first, marks, pending, fields)
            }
            None => Ok(()),
        }
    }

    /// Notes a field, and goes on to what is inside a fragment.
    fn meet(
        &self,
        selection: &'d Selection,
        marks: &mut [bool],
        pending: &mut Listed<&'d [Selection]>,
        fields: &mut Listed<&'d Field>,
    ) -> Result<(), Memory>
        ensures { OnOk result (walk_bridge.walk_of marks.new pending.new fields.new ≡ walk_bridge.with_selection (setting_of self.now) selection.now (walk_bridge.walk_of marks.old pending.old fields.old)) }
    {
        match selection {
            Selection::Field(field) => self.note_field(field, fields),
            Selection::InlineFragment(fragment) => self.open(fragment, pending),
            Selection::FragmentSpread(spread) => self.follow(spread, marks, pending),
        }
    }

    /// Notes a field that is kept.
    fn note_field(&self, field: &'d Field, fields: &mut Listed<&'d Field>) -> Result<(), Memory>
        ensures { OnOk result (walk.fields_of fields.new ≡ walk_bridge.with_field (setting_of self.now) field.now (walk.fields_of fields.old)) }
    {
        if is_kept(self.variables, field.directives.as_slice()) {
            fields.push(field)
        } else {
            Ok(())
        }
    }

    /// Goes on to what is inside an inline fragment that is kept and applies.
    fn open(
        &self,
        fragment: &'d InlineFragment,
        pending: &mut Listed<&'d [Selection]>,
    ) -> Result<(), Memory>
        ensures { OnOk result (walk_bridge.lists_of pending.new ≡ walk_bridge.with_inline (setting_of self.now) fragment.now (walk_bridge.lists_of pending.old)) }
    {
        if is_kept(self.variables, fragment.directives.as_slice())
            && applies_if(&self.schema.types, self.object, &fragment.type_condition)
        {
            lay_aside(fragment.selection_set.selections.as_slice(), pending)
        } else {
            Ok(())
        }
    }

    /// Goes on to what is inside the fragment of a spread that is kept, if it was not entered before.
    fn follow(
        &self,
        spread: &FragmentSpread,
        marks: &mut [bool],
        pending: &mut Listed<&'d [Selection]>,
    ) -> Result<(), Memory>
        ensures { OnOk result (walk_bridge.IsFollowed (setting_of self.now) spread.now marks.old (walk_bridge.lists_of pending.old) marks.new (walk_bridge.lists_of pending.new)) }
    {
        if !is_kept(self.variables, spread.directives.as_slice()) {
            return Ok(());
        }
        match self.fragments.find(spread.fragment_name.as_str()) {
            Some(number) => self.enter(number, marks, pending),
            None => Ok(()),
        }
    }

    /// Enters the fragment of the number, if it was not entered before.
    fn enter(
        &self,
        number: usize,
        marks: &mut [bool],
        pending: &mut Listed<&'d [Selection]>,
    ) -> Result<(), Memory>
        ensures { OnOk result (walk_bridge.IsEntered (setting_of self.now) number marks.old (walk_bridge.lists_of pending.old) marks.new (walk_bridge.lists_of pending.new)) }
    {
        match marks.get(number) {
            Some(false) => {
                marks[number] = true;
                self.go_inside(number, pending)
            }
            _ => Ok(()),
        }
    }

    /// Goes on to what is inside the fragment of the number, if it applies.
    fn go_inside(&self, number: usize, pending: &mut Listed<&'d [Selection]>) -> Result<(), Memory>
        ensures { OnOk result (walk_bridge.lists_of pending.new ≡ walk_bridge.with_contents (setting_of self.now) number (walk_bridge.lists_of pending.old)) }
    {
        match self.fragments.at(number) {
            Some(fragment)
                if applies(
                    &self.schema.types,
                    self.object,
                    fragment.selection_set.ty.as_str(),
                ) => { lay_aside(fragment.selection_set.selections.as_slice(), pending) }
            _ => Ok(()),
        }
    }
}

/// Lays these selections aside, if there are any.
fn lay_aside<'d>(
    selections: &'d [Selection],
    pending: &mut Listed<&'d [Selection]>,
) -> Result<(), Memory>
    ensures { OnOk result (walk_bridge.lists_of pending.new ≡ walk_bridge.put_before selections.now (walk_bridge.lists_of pending.old)) }
{
    if selections.is_empty() {
        return Ok(());
    }
    pending.push(selections)
}
