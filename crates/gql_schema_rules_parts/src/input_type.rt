//! An argument or an input field is of an input type (GraphQL October 2021, sections 3.4.2, 3.6.1, 3.7, 3.10 and 3.13).

ghost use Rattle.std.specs.Prelude.{◌≡◌, ◌++◌, OnOk, false};
ghost use Rattle.std.specs.Option.{option_map_or};
ghost use Rattle.gql_schema_types.specs.Types.{type_called, is_composite};
ghost use Rattle.gql_schema_rules_parts.specs.InputType as spec;

use gql_ast::InputValueDefinition;
use gql_diag_messages::{DiagnosticData, Rule};
use gql_rules_values::list_fault;
use gql_schema_types::{ExtendedType, Table};
use jb_text::{Listed, Memory};
use std::alloc::Global;

/// Lists an argument or an input field of a type that is no input type.
pub(crate) fn list_input_type(
    alloc: Global,
    types: &Table<ExtendedType>,
    value: &InputValueDefinition,
    faults: &mut Listed<DiagnosticData>,
) -> Result<(), Memory>
    ensures { OnOk result (faults.new ≡ faults.old ++ spec.input_type types.now value.now) }
{
    if names_composite(types, value.ty.inner_named_type().as_str()) {
        list_fault(
            alloc,
            Rule::InputType,
            &[value.name.as_str()],
            value.location,
            None,
            faults,
        )
    } else {
        Ok(())
    }
}

/// Whether the name is that of an object, an interface or a union.
fn names_composite(types: &Table<ExtendedType>, name: &str) -> bool
    ensures { result ≡ option_map_or is_composite (type_called name.now types.now) false }
{
    match types.get(name) {
        Some(ty) => ty.is_composite(),
        None => false,
    }
}
