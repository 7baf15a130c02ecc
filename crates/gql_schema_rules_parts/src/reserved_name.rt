//! No name that a user gives begins with two underscores (GraphQL October 2021, sections 2.1.9, 3.3, 3.6, 3.7, 3.10 and 3.13).

ghost use Rattle.std.specs.Prelude.{◌≡◌, ◌++◌, OnOk};
ghost use Rattle.gql_schema_rules_parts.specs.ReservedName as spec;

use gql_ast_base::Name;
use gql_diag_messages::{DiagnosticData, Rule};
use gql_rules_values::list_name;
use jb_text::{Listed, Memory};
use std::alloc::Global;

/// Lists a name that begins with two underscores.
pub(crate) fn list_reserved_name(
    alloc: Global,
    name: &Name,
    faults: &mut Listed<DiagnosticData>,
) -> Result<(), Memory>
    ensures { OnOk result (faults.new ≡ faults.old ++ spec.reserved_name name.now) }
{
    if name.is_reserved() {
        list_name(alloc, Rule::ReservedName, name, faults)
    } else {
        Ok(())
    }
}
