//! An argument that the field of an interface does not have may be left out (GraphQL October 2021, sections 3.6 and 3.7,
//! "IsValidImplementation").

ghost use Rattle.std.specs.Prelude.{◌≡◌, ◌++◌, OnOk};
ghost use Rattle.gql_schema_rules_parts.specs.ExtraRequiredImplementationFieldArgument as spec;

use gql_ast::{FieldDefinition, InputValueDefinition};
use gql_ast_base::Name;
use gql_diag_messages::{DiagnosticData, Rule};
use gql_rules_values::{ByName, is_required, list_fault};
use jb_text::{Listed, Memory};
use std::alloc::Global;

/// Lists an argument that has to be given and that the field of the interface does not have.
pub(crate) fn list_extra_required_implementation_field_argument(
    alloc: Global,
    ty: &Name,
    interface: &Name,
    wanted: &FieldDefinition,
    known: &ByName<'_, InputValueDefinition>,
    field: &FieldDefinition,
    argument: &InputValueDefinition,
    faults: &mut Listed<DiagnosticData>,
) -> Result<(), Memory>
    requires { known.now ≡ wanted.now.arguments }
    ensures { OnOk result (faults.new ≡ faults.old ++ spec.extra_required_implementation_field_argument ty.now interface.now wanted.now field.now argument.now) }
{
    if is_extra(wanted, known, argument) {
        list_fault(
            alloc,
            Rule::ExtraRequiredImplementationFieldArgument,
            &[
                ty.as_str(),
                interface.as_str(),
                field.name.as_str(),
                argument.name.as_str(),
            ],
            argument.location,
            None,
            faults,
        )
    } else {
        Ok(())
    }
}

/// Whether an argument has to be given, and is not one of the field of the interface.
fn is_extra(
    wanted: &FieldDefinition,
    known: &ByName<'_, InputValueDefinition>,
    argument: &InputValueDefinition,
) -> bool
    requires { known.now ≡ wanted.now.arguments }
    ensures { result ≡ spec.is_extra wanted.now argument.now }
{
    is_required(argument) && known.get(argument.name.as_str()).is_none()
}
