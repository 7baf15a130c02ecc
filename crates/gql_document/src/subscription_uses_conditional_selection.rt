//! No selection at the root of a subscription is left out on a condition, as later versions of the standard have it (GraphQL
//! October 2021, section 5.2.3.1).

ghost use Rattle.std.specs.Prelude.{◌≡◌, ◌++◌, OnOk};
ghost use Rattle.std.specs.List.{list_any};
ghost use Rattle.gql_document.specs.bridge.RootWalk.{selections_of};
ghost use Rattle.gql_document.specs.SubscriptionUsesConditionalSelection as spec;

use crate::fault::{list_word, operation_text};
use gql_ast::{OperationDefinition, Selection};
use gql_ast_base::Directive;
use gql_diag_messages::{DiagnosticData, Rule};
use gql_source::SourceSpan;
use jb_text::{Listed, Memory};
use std::alloc::Global;

/// Lists each selection at the root that has `@skip` or `@include`.
pub(crate) fn list_subscription_uses_conditional_selection(
    alloc: Global,
    operation: &OperationDefinition,
    roots: &Listed<&Selection>,
    faults: &mut Listed<DiagnosticData>,
) -> Result<(), Memory>
    ensures { OnOk result (faults.new ≡ faults.old ++ spec.subscription_uses_conditional_selection operation.now (selections_of roots.now)) }
{
    for root in roots.as_slice() {
        list_selection(alloc, operation, root, faults)?;
    }
    Ok(())
}

fn list_selection(
    alloc: Global,
    operation: &OperationDefinition,
    selection: &Selection,
    faults: &mut Listed<DiagnosticData>,
) -> Result<(), Memory>
    ensures { OnOk result (faults.new ≡ faults.old ++ spec.conditional_at operation.now selection.now) }
{
    match selection {
        Selection::Field(it) => {
            list_conditional(alloc, operation, &it.directives, it.location, faults)
        }
        Selection::FragmentSpread(it) => {
            list_conditional(alloc, operation, &it.directives, it.location, faults)
        }
        Selection::InlineFragment(it) => {
            list_conditional(alloc, operation, &it.directives, it.location, faults)
        }
    }
}

/// Lists a selection with these directives, if one of them is `@skip` or `@include`.
fn list_conditional(
    alloc: Global,
    operation: &OperationDefinition,
    directives: &Listed<Directive>,
    location: Option<SourceSpan>,
    faults: &mut Listed<DiagnosticData>,
) -> Result<(), Memory>
    ensures { OnOk result (faults.new ≡ faults.old ++ spec.conditional operation.now directives.now location) }
{
    if has_condition(directives) {
        list_word(
            alloc,
            Rule::SubscriptionUsesConditionalSelection,
            operation_text(operation),
            location,
            None,
            faults,
        )
    } else {
        Ok(())
    }
}

/// Whether one of the directives is `@skip` or `@include`.
fn has_condition(directives: &Listed<Directive>) -> bool
    ensures { result ≡ list_any spec.is_conditional directives.now }
{
    directives.as_slice().iter().any(is_conditional)
}

/// Whether a directive is `@skip` or `@include` (section 3.13).
fn is_conditional(directive: &Directive) -> bool
    ensures { result ≡ spec.is_conditional directive.now }
{
    directive.name.as_str() == "skip" || directive.name.as_str() == "include"
}
