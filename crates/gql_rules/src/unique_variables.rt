//! Variables of each operation have distinct names (GraphQL October 2021, section 5.8.1).

ghost use Rattle.std.specs.Prelude.{◌≡◌, ◌++◌, OnOk};
ghost use Rattle.gql_rules.specs.UniqueVariables as spec;

use gql_diag_messages::DiagnosticData;
use gql_document_types::Operation;
use gql_rules_nodes::list_unique_variable;
use jb_text::{Listed, Memory};
use std::alloc::Global;

/// Lists each variable whose name came before in its operation.
pub(crate) fn list_unique_variables(
    alloc: Global,
    operations: &[Operation],
    faults: &mut Listed<DiagnosticData>,
) -> Result<(), Memory>
    ensures { OnOk result (faults.new ≡ faults.old ++ spec.unique_variables operations.now) }
{
    for operation in operations {
        list_unique_variable(alloc, operation.variables.as_slice(), faults)?;
    }
    Ok(())
}
