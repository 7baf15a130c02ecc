//! Diagnostics that a list takes.

ghost use Rattle.std.specs.Prelude.{◌≡◌, ◌++◌, List, OnOk, OnErr};
ghost use Rattle.gql_diag.specs.List.{IsStableSort};
ghost use Rattle.gql_diag.specs.Order.{list_order};
ghost use Rattle.gql_diag.specs.Taken.{HasTakenSome};

use crate::diagnostic_list::DiagnosticList;
use gql_diag_messages::DiagnosticData;
use jb_text::{Listed, Memory};

/// Takes these faults, and sorts the list. `Err` only when out of memory: then the list has taken some of them.
pub fn take_faults(
    faults: Listed<DiagnosticData>,
    errors: &mut DiagnosticList,
) -> Result<(), Memory>
    ensures items { OnOk result (IsStableSort list_order (errors.old.items ++ faults) errors.new.items) }
    ensures sources { errors.new.sources ≡ errors.old.sources }
    ensures refused { OnErr result (HasTakenSome errors.old.items faults errors.new.items) }
{
    push_faults(faults, errors)?;
    errors.sort()
}

/// Adds these diagnostics at the end, in their order. `Err` only when out of memory: then some of them are added.
pub fn add_items(
    items: Vec<DiagnosticData>,
    faults: &mut Listed<DiagnosticData>,
) -> Result<(), Memory>
    ensures items { OnOk result (faults.new ≡ faults.old ++ items.items) }
    ensures refused { OnErr result (HasTakenSome faults.old items.items faults.new) }
{
    for item in items {
        faults.push(item)?;
    }
    Ok(())
}

/// Takes these faults last. Where memory has run out, it has taken some of them.
fn push_faults(faults: Listed<DiagnosticData>, errors: &mut DiagnosticList) -> Result<(), Memory>
    ensures items { OnOk result (errors.new.items ≡ errors.old.items ++ faults) }
    ensures sources { errors.new.sources ≡ errors.old.sources }
    ensures refused { OnErr result (HasTakenSome errors.old.items faults errors.new.items) }
{
    for fault in faults {
        errors.push(fault)?;
    }
    Ok(())
}
