//! What stays of a slot or a list where something more is found.

ghost use Rattle.std.specs.Prelude.{◌≡◌, [], None, Some, OnOk};
ghost use Rattle.gql_ast_reader.specs.bridge.Taking as taking;

use jb_text::{Listed, Memory};
use std::alloc::Global;

/// Keeps the first that is found.
#[inline(always)]
pub(crate) fn keep_first<T: Drop>(slot: &mut Option<T>, found: Option<T>)
    ensures { slot.new ≡ taking.kept slot.old found }
{
    if slot.is_none() {
        *slot = found;
    }
}

/// Keeps the first, where one is found.
#[inline(always)]
pub(crate) fn keep_some<T: Drop>(slot: &mut Option<T>, found: T)
    ensures { slot.new ≡ taking.kept slot.old (Some found) }
{
    if slot.is_none() {
        *slot = Some(found);
    }
}

/// Keeps all that is found. `Err` only where memory runs out.
#[inline(always)]
pub(crate) fn add<T: Drop>(
    list: &mut Listed<T>,
    alloc: Global,
    found: Option<T>,
) -> Result<(), Memory>
    ensures { OnOk result (list.new ≡ taking.added list.old found) }
{
    match found {
        Some(found) => {
            if list.is_empty() {
                make_room(list, alloc)?;
            }
            list.push(found)
        }
        None => Ok(()),
    }
}

/// Gives a list with nothing in it room for two, since many have no more: left to itself it would begin with four. `Err` only where
/// memory runs out.
#[inline(never)]
fn make_room<T: Drop>(list: &mut Listed<T>, alloc: Global) -> Result<(), Memory>
    requires { list.old ≡ [] }
    ensures { list.new ≡ [] }
{
    *list = Listed::with_capacity(alloc, 2)?;
    Ok(())
}

/// Takes out what is there. Where nothing is, nothing is written: most rows fill few of their slots.
#[inline(always)]
pub(crate) fn clear_slot<T: Drop>(slot: &mut Option<T>)
    ensures { slot.new ≡ None }
{
    if slot.is_some() {
        *slot = None;
    }
}

/// Takes all out of a list. The room for it stays.
#[inline(always)]
pub(crate) fn clear<T: Drop>(list: &mut Listed<T>)
    ensures { list.new ≡ [] }
{
    while let Some(_taken) = list.pop() {}
}
