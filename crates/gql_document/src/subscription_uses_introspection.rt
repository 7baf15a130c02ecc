//! The root field of a subscription is no field of introspection (GraphQL October 2021, section 5.2.3.1).

ghost use Rattle.std.specs.Prelude.{◌≡◌, ◌++◌, OnOk};
ghost use Rattle.gql_document.specs.bridge.RootWalk.{selections_of};
ghost use Rattle.gql_document.specs.SubscriptionUsesIntrospection as spec;

use crate::fault::{list_word, operation_text};
use gql_ast::{Field, OperationDefinition, Selection};
use gql_diag_messages::{DiagnosticData, Rule};
use jb_text::{Listed, Memory};
use std::alloc::Global;

/// Lists each field at the root whose name begins with two underscores.
pub(crate) fn list_subscription_uses_introspection(
    alloc: Global,
    operation: &OperationDefinition,
    roots: &Listed<&Selection>,
    faults: &mut Listed<DiagnosticData>,
) -> Result<(), Memory>
    ensures { OnOk result (faults.new ≡ faults.old ++ spec.subscription_uses_introspection operation.now (selections_of roots.now)) }
{
    for root in roots.as_slice() {
        list_selection(alloc, operation, root, faults)?;
    }
    Ok(())
}

fn list_selection(
    alloc: Global,
    operation: &OperationDefinition,
    selection: &Selection,
    faults: &mut Listed<DiagnosticData>,
) -> Result<(), Memory>
    ensures { OnOk result (faults.new ≡ faults.old ++ spec.introspection_at operation.now selection.now) }
{
    match selection {
        Selection::Field(field) => list_field(alloc, operation, field, faults),
        _ => Ok(()),
    }
}

fn list_field(
    alloc: Global,
    operation: &OperationDefinition,
    field: &Field,
    faults: &mut Listed<DiagnosticData>,
) -> Result<(), Memory>
    ensures { OnOk result (faults.new ≡ faults.old ++ spec.introspection_field operation.now field.now) }
{
    if field.name.as_str().starts_with("__") {
        list_word(
            alloc,
            Rule::SubscriptionUsesIntrospection,
            operation_text(operation),
            field.location,
            None,
            faults,
        )
    } else {
        Ok(())
    }
}
