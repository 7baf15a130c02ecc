//! A type that is named is defined (GraphQL October 2021, section 3.3 and the validation of types in section 3).

ghost use Rattle.std.specs.Prelude.{◌≡◌, ◌++◌, OnOk};
ghost use Rattle.gql_schema_rules_parts.specs.UndefinedDefinition as spec;

use gql_ast_base::Name;
use gql_diag_messages::{DiagnosticData, Rule};
use gql_rules_values::{is_known, list_name};
use gql_schema_types::{ExtendedType, Table};
use jb_text::{Listed, Memory};
use std::alloc::Global;

/// Lists the name of a type that is not defined.
pub(crate) fn list_undefined_definition(
    alloc: Global,
    types: &Table<ExtendedType>,
    name: &Name,
    faults: &mut Listed<DiagnosticData>,
) -> Result<(), Memory>
    ensures { OnOk result (faults.new ≡ faults.old ++ spec.undefined_definition types.now name.now) }
{
    if is_known(types, name.as_str()) {
        Ok(())
    } else {
        list_name(alloc, Rule::UndefinedDefinition, name, faults)
    }
}
