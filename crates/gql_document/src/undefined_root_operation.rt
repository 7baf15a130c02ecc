//! An operation has a root type (GraphQL October 2021, section 3.3.1). It is asked in `operation_faults.rt`.

ghost use Rattle.std.specs.Prelude.{◌≡◌, ◌++◌, ◌∷◌, [], OnOk};
ghost use Rattle.gql_document.specs.UndefinedRootOperation as spec;

use crate::fault::list_word;
use gql_ast::OperationDefinition;
use gql_ast_base::OperationType;
use gql_diag_messages::{DiagnosticData, Rule};
use jb_text::{Listed, Memory};
use std::alloc::Global;

/// Lists an operation that has no root type.
pub(crate) fn list_undefined_root_operation(
    alloc: Global,
    operation: &OperationDefinition,
    faults: &mut Listed<DiagnosticData>,
) -> Result<(), Memory>
    ensures { OnOk result (faults.new ≡ faults.old ++ spec.undefined_root_operation operation.now ∷ []) }
{
    list_word(
        alloc,
        Rule::UndefinedRootOperation,
        keyword(operation.operation_type),
        operation.location,
        None,
        faults,
    )
}

/// The word of the operation type.
fn keyword(operation_type: OperationType) -> &'static str
    ensures { result.now ≡ spec.keyword operation_type }
{
    match operation_type {
        OperationType::Query => "query",
        OperationType::Mutation => "mutation",
        OperationType::Subscription => "subscription",
    }
}
