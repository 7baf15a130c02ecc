//! A field has each argument of the field of an interface (GraphQL October 2021, sections 3.6 and 3.7, "IsValidImplementation"). It
//! is asked in `fields.rt`.

ghost use Rattle.std.specs.Prelude.{◌≡◌, ◌++◌, ◌∷◌, [], OnOk};
ghost use Rattle.gql_schema_rules_parts.specs.MissingInterfaceFieldArgument as spec;

use gql_ast::{FieldDefinition, InputValueDefinition};
use gql_ast_base::Name;
use gql_diag_messages::{DiagnosticData, Rule};
use gql_rules_values::list_fault;
use jb_text::{Listed, Memory};
use std::alloc::Global;

/// Lists an argument of the field of the interface that the field lacks.
pub(crate) fn list_missing_interface_field_argument(
    alloc: Global,
    ty: &Name,
    interface: &Name,
    field: &FieldDefinition,
    wanted: &InputValueDefinition,
    faults: &mut Listed<DiagnosticData>,
) -> Result<(), Memory>
    ensures { OnOk result (faults.new ≡ faults.old ++ spec.missing_interface_field_argument ty.now interface.now field.now wanted.now ∷ []) }
{
    list_fault(
        alloc,
        Rule::MissingInterfaceFieldArgument,
        &[
            ty.as_str(),
            interface.as_str(),
            field.name.as_str(),
            wanted.name.as_str(),
        ],
        field.location,
        None,
        faults,
    )
}
