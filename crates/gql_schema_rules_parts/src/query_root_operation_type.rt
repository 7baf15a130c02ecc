//! There is a root type of queries (GraphQL October 2021, section 3.3.1).

ghost use Rattle.std.specs.Prelude.{◌≡◌, ◌++◌, OnOk};
ghost use Rattle.gql_schema_rules_parts.specs.QueryRootOperationType as spec;

use gql_diag_messages::{DiagnosticData, Rule};
use gql_rules_values::list_fault;
use gql_schema_types::SchemaDefinition;
use jb_text::{Listed, Memory};
use std::alloc::Global;

/// Lists that there is no root type of queries.
pub(crate) fn list_query_root_operation_type(
    alloc: Global,
    definition: &SchemaDefinition,
    faults: &mut Listed<DiagnosticData>,
) -> Result<(), Memory>
    ensures { OnOk result (faults.new ≡ faults.old ++ spec.query_root_operation_type definition.now) }
{
    if definition.query.is_none() {
        list_fault(alloc, Rule::QueryRootOperationType, &[], None, None, faults)
    } else {
        Ok(())
    }
}
