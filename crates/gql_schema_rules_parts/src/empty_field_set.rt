//! An object type or an interface has fields (GraphQL October 2021, sections 3.6 and 3.7).

ghost use Rattle.std.specs.Prelude.{◌≡◌, ◌++◌, OnOk};
ghost use Rattle.gql_schema_rules_parts.specs.EmptyFieldSet as spec;

use gql_ast::FieldDefinition;
use gql_ast_base::Name;
use gql_diag_messages::{DiagnosticData, Rule};
use gql_rules_values::list_name;
use gql_schema_types::Shared;
use jb_text::{Listed, Memory};
use std::alloc::Global;

/// Lists the name of a type that has none of these.
pub(crate) fn list_empty_field_set(
    alloc: Global,
    name: &Name,
    fields: &[Shared<FieldDefinition>],
    faults: &mut Listed<DiagnosticData>,
) -> Result<(), Memory>
    ensures { OnOk result (faults.new ≡ faults.old ++ spec.empty_field_set name.now fields.now) }
{
    match fields {
        [] => list_name(alloc, Rule::EmptyFieldSet, name, faults),
        [_, ..] => Ok(()),
    }
}
