//! An input object type has fields (GraphQL October 2021, section 3.10).

ghost use Rattle.std.specs.Prelude.{◌≡◌, ◌++◌, OnOk};
ghost use Rattle.gql_schema_rules_parts.specs.EmptyInputValueSet as spec;

use gql_ast::InputValueDefinition;
use gql_ast_base::Name;
use gql_diag_messages::{DiagnosticData, Rule};
use gql_rules_values::list_name;
use jb_text::{Listed, Memory};
use std::alloc::Global;

/// Lists the name of a type that has none of these.
pub(crate) fn list_empty_input_value_set(
    alloc: Global,
    name: &Name,
    fields: &[InputValueDefinition],
    faults: &mut Listed<DiagnosticData>,
) -> Result<(), Memory>
    ensures { OnOk result (faults.new ≡ faults.old ++ spec.empty_input_value_set name.now fields.now) }
{
    match fields {
        [] => list_name(alloc, Rule::EmptyInputValueSet, name, faults),
        [_, ..] => Ok(()),
    }
}
