//! The selections at the root of a subscription.

ghost use Rattle.std.specs.Prelude.{◌≡◌, IfOk, OnOk};
ghost use Rattle.gql_document.specs.bridge.OperationNameCollision as names;
ghost use Rattle.gql_document.specs.RootSelections as spec;
ghost use Rattle.gql_document.specs.bridge.RootWalk as walk;

use crate::fragment_tree::FragmentTree;
use crate::type_kind::{is_defined, is_open};
use gql_ast::{FragmentSpread, Selection};
use gql_ast_base::{Copying, Name};
use gql_schema_types::{Schema, Table};
use jb_text::{Listed, Memory};
use std::alloc::{AllocError, Global};

/// These selections and those inside their fragments, in order. Each fragment is entered at its first spread; one whose
/// condition is not defined is not. GraphQL October 2021, section 6.3.2, enters those alone that apply to the root type. `Err`
/// only when out of memory.
pub(crate) fn root_selections<'d>(
    alloc: Global,
    schema: &'d Schema,
    fragments: &'d Table<FragmentTree>,
    selections: &'d Listed<Selection>,
) -> Result<Listed<&'d Selection>, Memory>
    ensures { IfOk result (λ roots. walk.selections_of roots ≡ spec.root_selections schema.now fragments.now selections.now) }
{
    let root = Root {
        alloc,
        schema,
        fragments,
    };
    let mut entered = Table::new(alloc);
    let mut roots = Listed::new(alloc);
    let mut pending = Listed::new(alloc);
    pending.push(selections.as_slice())?;
    while let Some(list) = pending.pop() {
        root.take_first(list, &mut entered, &mut pending, &mut roots)?;
    }
    Ok(roots)
}

/// What stays the same throughout.
#[derive(Clone, Copy)]
struct Root<'d> {
    alloc: Global,
    schema: &'d Schema,
    fragments: &'d Table<FragmentTree>,
}

impl<'d> Root<'d> {
    /// Notes the first of these selections, and lays what is inside it and the others aside.
    fn take_first(
        &self,
        selections: &'d [Selection],
        entered: &mut Table<Name>,
        pending: &mut Listed<&'d [Selection]>,
        roots: &mut Listed<&'d Selection>,
    ) -> Result<(), Memory>
        ensures { OnOk result (walk.walk_of entered.new pending.new roots.new ≡ walk.with_first self.now.schema.now self.now.fragments.now selections.now (walk.walk_of entered.old pending.old roots.old)) }
    {
        match selections.split_first() {
            Some((first, others)) => {
                let inside = self.inside(first, entered)?;
                pending.push(others)?;
                pending.push(inside)?;
                roots.push(first)
            }
            None => Ok(()),
        }
    }

    /// What is inside a selection, if it is not entered already.
    fn inside(
        &self,
        selection: &'d Selection,
        entered: &mut Table<Name>,
    ) -> Result<&'d [Selection], Memory>
        ensures inside { IfOk result (λ inside. inside.now ≡ walk.inside self.now.schema.now self.now.fragments.now entered.old selection.now) }
        ensures entered { OnOk result (entered.new ≡ walk.entered_behind entered.old selection.now) }
    {
        match selection {
            Selection::Field(_) => Ok(&[]),
            Selection::FragmentSpread(spread) => self.enter(spread, entered),
            Selection::InlineFragment(fragment) => {
                if is_open(self.schema, &fragment.type_condition) {
                    Ok(fragment.selection_set.as_slice())
                } else {
                    Ok(&[])
                }
            }
        }
    }

    /// What is inside the fragment that is spread, if this is its first spread.
    fn enter(
        &self,
        spread: &FragmentSpread,
        entered: &mut Table<Name>,
    ) -> Result<&'d [Selection], Memory>
        ensures inside { IfOk result (λ inside. inside.now ≡ walk.inside_spread self.now.schema.now self.now.fragments.now entered.old spread.now) }
        ensures entered { OnOk result (entered.new ≡ walk.entered_spread entered.old spread.now) }
    {
        match entered.get(spread.fragment_name.as_str()) {
            Some(_) => Ok(&[]),
            None => {
                mark_entered(entered, spread.fragment_name.copy(self.alloc)?)?;
                Ok(self.body(&spread.fragment_name))
            }
        }
    }

    /// What is inside the fragment of the name, if there is one whose condition is defined.
    fn body(&self, name: &Name) -> &'d [Selection]
        ensures { result.now ≡ spec.body self.now.schema.now self.now.fragments.now name.now }
    {
        match self.fragments.get(name.as_str()) {
            Some(fragment) => self.body_of(fragment),
            None => &[],
        }
    }

    /// What is inside a fragment, if its condition is defined.
    fn body_of(&self, fragment: &'d FragmentTree) -> &'d [Selection]
        ensures { result.now ≡ spec.body_of self.now.schema.now self.now.fragments.now fragment.now }
    {
        if is_defined(self.schema, &fragment.get().type_condition) {
            fragment.get().selection_set.as_slice()
        } else {
            &[]
        }
    }
}

/// Notes that the fragment of the name is entered.
fn mark_entered(entered: &mut Table<Name>, name: Name) -> Result<(), Memory>
    requires { names.is_new entered.old name }
    ensures { OnOk result (entered.new ≡ names.added entered.old name) }
{
    match entered.insert_new(name) {
        Ok(()) => Ok(()),
        Err(_) => Err(AllocError),
    }
}
