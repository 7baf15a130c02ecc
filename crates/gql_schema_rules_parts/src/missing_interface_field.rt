//! A type has each field of an interface that it lists (GraphQL October 2021, sections 3.6 and 3.7, "IsValidImplementation"). It is
//! asked in `fields.rt`.

ghost use Rattle.std.specs.Prelude.{◌≡◌, ◌++◌, ◌∷◌, [], OnOk};
ghost use Rattle.gql_schema_rules_parts.specs.MissingInterfaceField as spec;

use gql_ast::FieldDefinition;
use gql_ast_base::Name;
use gql_diag_messages::{DiagnosticData, Rule};
use gql_rules_values::list_fault;
use jb_text::{Listed, Memory};
use std::alloc::Global;

/// Lists a field of the interface that the type lacks.
pub(crate) fn list_missing_interface_field(
    alloc: Global,
    ty: &Name,
    interface: &Name,
    wanted: &FieldDefinition,
    faults: &mut Listed<DiagnosticData>,
) -> Result<(), Memory>
    ensures { OnOk result (faults.new ≡ faults.old ++ spec.missing_interface_field ty.now interface.now wanted.now ∷ []) }
{
    list_fault(
        alloc,
        Rule::MissingInterfaceField,
        &[ty.as_str(), interface.as_str(), wanted.name.as_str()],
        ty.location(),
        None,
        faults,
    )
}
