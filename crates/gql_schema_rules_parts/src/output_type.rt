//! A field is of an output type (GraphQL October 2021, sections 3.4.2, 3.6 and 3.7).

ghost use Rattle.std.specs.Prelude.{◌≡◌, ◌++◌, OnOk, false};
ghost use Rattle.std.specs.Option.{option_map_or};
ghost use Rattle.gql_schema_types.specs.Types.{type_called};
ghost use Rattle.gql_schema_rules_parts.specs.OutputType as spec;

use gql_ast::FieldDefinition;
use gql_diag_messages::{DiagnosticData, Rule};
use gql_rules_values::list_fault;
use gql_schema_types::{ExtendedType, Table};
use jb_text::{Listed, Memory};
use std::alloc::Global;

/// Lists a field of an input object type.
pub(crate) fn list_output_type(
    alloc: Global,
    types: &Table<ExtendedType>,
    field: &FieldDefinition,
    faults: &mut Listed<DiagnosticData>,
) -> Result<(), Memory>
    ensures { OnOk result (faults.new ≡ faults.old ++ spec.output_type types.now field.now) }
{
    if names_input_object(types, field.ty.inner_named_type().as_str()) {
        list_fault(
            alloc,
            Rule::OutputType,
            &[field.name.as_str()],
            field.location,
            None,
            faults,
        )
    } else {
        Ok(())
    }
}

/// Whether the name is that of an input object type.
fn names_input_object(types: &Table<ExtendedType>, name: &str) -> bool
    ensures { result ≡ option_map_or spec.is_input_object (type_called name.now types.now) false }
{
    match types.get(name) {
        Some(ExtendedType::InputObject(_)) => true,
        Some(_) => false,
        None => false,
    }
}
