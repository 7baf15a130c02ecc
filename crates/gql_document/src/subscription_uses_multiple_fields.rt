//! A subscription has one root field (GraphQL October 2021, section 5.2.3.1).

ghost use Rattle.std.specs.Prelude.{◌≡◌, ◌++◌, ℕ, List, not, IfOk, OnOk};
ghost use Rattle.std.specs.Borrow.{Bor};
ghost use Rattle.std.specs.List.{list_any};
ghost use Rattle.std.specs.Str.{bytes_eq};
ghost use Rattle.gql_document.specs.bridge.RootWalk.{selections_of};
ghost use Rattle.gql_document.specs.SubscriptionUsesMultipleFields as spec;
ghost use Rattle.gql_document.specs.bridge.SubscriptionUsesMultipleFields as spec_bridge;

use crate::fault::{list_word, operation_text};
use gql_ast::{Field, OperationDefinition, Selection};
use gql_diag_messages::{DiagnosticData, Rule};
use jb_text::{Listed, Memory};
use std::alloc::Global;

/// Lists a subscription whose selections at the root have more than one response key.
pub(crate) fn list_subscription_uses_multiple_fields(
    alloc: Global,
    operation: &OperationDefinition,
    roots: &Listed<&Selection>,
    faults: &mut Listed<DiagnosticData>,
) -> Result<(), Memory>
    ensures { OnOk result (faults.new ≡ faults.old ++ spec.subscription_uses_multiple_fields operation.now (selections_of roots.now)) }
{
    let keys = response_keys(alloc, roots)?;
    if are_different(keys.as_slice()) {
        list_word(
            alloc,
            Rule::SubscriptionUsesMultipleFields,
            operation_text(operation),
            operation.location,
            None,
            faults,
        )
    } else {
        Ok(())
    }
}

/// The response keys of the fields among these selections.
fn response_keys<'d>(
    alloc: Global,
    roots: &Listed<&'d Selection>,
) -> Result<Listed<&'d str>, Memory>
    ensures { IfOk result (λ keys. spec_bridge.texts_of keys ≡ spec.response_keys (selections_of roots.now)) }
{
    let mut keys = Listed::new(alloc);
    for root in roots.as_slice() {
        add_key(root, &mut keys)?;
    }
    Ok(keys)
}

/// Adds the response key of a selection, if it is a field.
fn add_key<'d>(selection: &'d Selection, keys: &mut Listed<&'d str>) -> Result<(), Memory>
    ensures { OnOk result (spec_bridge.texts_of keys.new ≡ spec_bridge.texts_of keys.old ++ spec.key_of selection.now) }
{
    match selection {
        Selection::Field(field) => keys.push(response_key(field)),
        _ => Ok(()),
    }
}

/// The key of a field in a response: its alias, or else its name (section 2.7).
fn response_key(field: &Field) -> &str
    ensures { result.now ≡ spec.response_key field.now }
{
    match &field.alias {
        Some(alias) => alias.as_str(),
        None => field.name.as_str(),
    }
}

/// Whether the keys are not all the same.
fn are_different(keys: &[&str]) -> bool
    ensures { result ≡ spec.are_different (spec_bridge.texts_of keys.now) }
{
    match keys.split_first() {
        Some((first, others)) => has_another(first, others),
        None => false,
    }
}

/// Whether one of the others is not this key.
fn has_another(key: &str, others: &[&str]) -> bool
    ensures { result ≡ list_any (λ (other : Bor (List ℕ)). not (bytes_eq key.now other.now)) others.now }
{
    others.iter().any(|other| !(key == *other))
}
