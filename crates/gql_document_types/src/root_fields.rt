//! The fields that an operation asks of its root type.

ghost use Rattle.std.specs.Prelude.{◌≡◌, List, [], IfOk, OnOk};
ghost use Rattle.std.specs.Borrow.{Bor};
ghost use Rattle.gql_document_types.specs.RootFields.{AreRootFields, fields_of};
ghost use Rattle.gql_document_types.specs.bridge.RootWalk as walk;
ghost use Rattle.gql_document_types.specs.declared.selection.Field.{Field};

use crate::document::ExecutableDocument;
use crate::fragment::Fragment;
use crate::operation::Operation;
use crate::selection::{Field, FragmentSpread, Selection};
use gql_ast_base::{Copying, Name};
use gql_schema_types::Table;
use jb_text::{Listed, Memory};
use std::alloc::{AllocError, Global};

impl Operation {
    /// The fields that the operation asks of its root type, in order, those inside fragments too. Each fragment is entered
    /// at its first spread; directives and type conditions are not looked at, and a fragment that is not defined has no
    /// fields (GraphQL October 2021, section 6.3.2). `Err` only when out of memory. The time is linear in the selections.
    pub fn root_fields<'d>(
        &'d self,
        alloc: Global,
        document: &'d ExecutableDocument,
    ) -> Result<Listed<&'d Field>, Memory>
        ensures { IfOk result (λ fields. AreRootFields document.now.fragments [] self.now.selection_set.selections (fields_of fields)) }
    {
        fields_at_root(alloc, &document.fragments, &self.selection_set.selections)
    }
}

/// The fields among these selections and inside their fragments.
fn fields_at_root<'d>(
    alloc: Global,
    fragments: &'d Table<Fragment>,
    selections: &'d Listed<Selection>,
) -> Result<Listed<&'d Field>, Memory>
    ensures { IfOk result (λ fields. AreRootFields fragments.now [] selections.now (fields_of fields)) }
{
    let mut entered = Table::new(alloc);
    let mut fields = Listed::new(alloc);
    let mut pending = Listed::new(alloc);
    pending.push(selections.as_slice())?;
    while let Some(list) = pending.pop() {
        take_first(
            alloc,
            fragments,
            list,
            &mut entered,
            &mut pending,
            &mut fields,
        )?;
    }
    Ok(fields)
}

/// Goes on to the first of these selections, and lays the others aside.
fn take_first<'d>(
    alloc: Global,
    fragments: &'d Table<Fragment>,
    selections: &'d [Selection],
    entered: &mut Table<Name>,
    pending: &mut Listed<&'d [Selection]>,
    fields: &mut Listed<&'d Field>,
) -> Result<(), Memory>
    ensures { OnOk result (walk.walk_of entered.new pending.new fields.new ≡ walk.with_first fragments.now selections.now (walk.walk_of entered.old pending.old fields.old)) }
{
    match selections.split_first() {
        Some((first, others)) => {
            pending.push(others)?;
            meet(alloc, fragments, first, entered, pending, fields)
        }
        None => Ok(()),
    }
}

/// Notes a field, and goes on to what is inside a fragment.
fn meet<'d>(
    alloc: Global,
    fragments: &'d Table<Fragment>,
    selection: &'d Selection,
    entered: &mut Table<Name>,
    pending: &mut Listed<&'d [Selection]>,
    fields: &mut Listed<&'d Field>,
) -> Result<(), Memory>
    ensures { OnOk result (walk.walk_of entered.new pending.new fields.new ≡ walk.with_selection fragments.now selection.now (walk.walk_of entered.old pending.old fields.old)) }
{
    match selection {
        Selection::Field(field) => fields.push(field),
        Selection::InlineFragment(fragment) => {
            pending.push(fragment.selection_set.selections.as_slice())
        }
        Selection::FragmentSpread(spread) => enter(alloc, fragments, spread, entered, pending),
    }
}

/// Goes on to what is inside the fragment that is spread, if this is its first spread.
fn enter<'d>(
    alloc: Global,
    fragments: &'d Table<Fragment>,
    spread: &FragmentSpread,
    entered: &mut Table<Name>,
    pending: &mut Listed<&'d [Selection]>,
) -> Result<(), Memory>
    ensures { OnOk result ((fields : List (Bor Field)) → walk.walk_of entered.new pending.new fields ≡ walk.with_spread fragments.now spread.now (walk.walk_of entered.old pending.old fields)) }
{
    match entered.get(spread.fragment_name.as_str()) {
        Some(_) => Ok(()),
        None => {
            mark_entered(entered, spread.fragment_name.copy(alloc)?)?;
            go_inside(fragments, &spread.fragment_name, pending)
        }
    }
}

/// Notes that the fragment of the name is entered.
fn mark_entered(entered: &mut Table<Name>, name: Name) -> Result<(), Memory>
    requires { walk.is_new name entered.old }
    ensures { OnOk result (entered.new ≡ walk.noted entered.old name) }
{
    match entered.insert_new(name) {
        Ok(()) => Ok(()),
        Err(_) => Err(AllocError),
    }
}

/// Goes on to what is inside the fragment of the name, if there is one.
fn go_inside<'d>(
    fragments: &'d Table<Fragment>,
    name: &Name,
    pending: &mut Listed<&'d [Selection]>,
) -> Result<(), Memory>
    ensures { OnOk result (walk.lists_of pending.new ≡ walk.with_body fragments.now name.now.text (walk.lists_of pending.old)) }
{
    match fragments.get(name.as_str()) {
        Some(fragment) => pending.push(fragment.selection_set.selections.as_slice()),
        None => Ok(()),
    }
}
