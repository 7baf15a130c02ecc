//! An operation without a name is the only one (GraphQL October 2021, section 5.2.2.1).

ghost use Rattle.std.specs.Prelude.{◌≡◌, ◌++◌, OnOk};
ghost use Rattle.gql_document.specs.AmbiguousAnonymousOperation as spec;

use crate::fault::list_nameless;
use gql_ast::OperationDefinition;
use gql_diag_messages::{DiagnosticData, Rule};
use jb_text::{Listed, Memory};
use std::alloc::Global;

/// Whether there is more than one operation.
pub(crate) fn are_several(operations: &Listed<OperationDefinition>) -> bool
    ensures { result ≡ spec.are_several operations.now }
{
    operations.len() > 1
}

/// Whether an operation has no name though there are several.
pub(crate) fn is_ambiguous(several: bool, operation: &OperationDefinition) -> bool
    ensures { result ≡ spec.is_ambiguous several operation.now }
{
    several && operation.name.is_none()
}

/// Lists an operation that has no name though there are several.
pub(crate) fn list_ambiguous_anonymous_operation(
    alloc: Global,
    several: bool,
    operation: &OperationDefinition,
    faults: &mut Listed<DiagnosticData>,
) -> Result<(), Memory>
    ensures { OnOk result (faults.new ≡ faults.old ++ spec.ambiguous_anonymous_operation several operation.now) }
{
    if is_ambiguous(several, operation) {
        list_nameless(
            alloc,
            Rule::AmbiguousAnonymousOperation,
            operation.location,
            faults,
        )
    } else {
        Ok(())
    }
}
