//! A union has members (GraphQL October 2021, section 3.8).

ghost use Rattle.std.specs.Prelude.{◌≡◌, ◌++◌, OnOk};
ghost use Rattle.gql_schema_rules_parts.specs.EmptyMemberSet as spec;

use gql_ast_base::Name;
use gql_diag_messages::{DiagnosticData, Rule};
use gql_rules_values::list_name;
use jb_text::{Listed, Memory};
use std::alloc::Global;

/// Lists the name of a type that has none of these.
pub(crate) fn list_empty_member_set(
    alloc: Global,
    name: &Name,
    members: &[Name],
    faults: &mut Listed<DiagnosticData>,
) -> Result<(), Memory>
    ensures { OnOk result (faults.new ≡ faults.old ++ spec.empty_member_set name.now members.now) }
{
    match members {
        [] => list_name(alloc, Rule::EmptyMemberSet, name, faults),
        [_, ..] => Ok(()),
    }
}
