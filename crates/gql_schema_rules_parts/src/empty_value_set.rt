//! An enum has values (GraphQL October 2021, section 3.9).

ghost use Rattle.std.specs.Prelude.{◌≡◌, ◌++◌, OnOk};
ghost use Rattle.gql_schema_rules_parts.specs.EmptyValueSet as spec;

use gql_ast::EnumValueDefinition;
use gql_ast_base::Name;
use gql_diag_messages::{DiagnosticData, Rule};
use gql_rules_values::list_name;
use jb_text::{Listed, Memory};
use std::alloc::Global;

/// Lists the name of a type that has none of these.
pub(crate) fn list_empty_value_set(
    alloc: Global,
    name: &Name,
    values: &[EnumValueDefinition],
    faults: &mut Listed<DiagnosticData>,
) -> Result<(), Memory>
    ensures { OnOk result (faults.new ≡ faults.old ++ spec.empty_value_set name.now values.now) }
{
    match values {
        [] => list_name(alloc, Rule::EmptyValueSet, name, faults),
        [_, ..] => Ok(()),
    }
}
