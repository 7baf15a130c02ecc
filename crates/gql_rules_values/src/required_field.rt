//! A literal at an input object type gives each field that has to be given (GraphQL October 2021, section 5.6.4).

ghost use Rattle.std.specs.Prelude.{◌≡◌, ◌++◌, ◌∷◌, [], None, OnOk};
ghost use Rattle.gql_ast.specs.TypeText.{type_text};
ghost use Rattle.gql_diag_messages.specs.declared.rule.Rule.TheVariants.{RequiredField};
ghost use Rattle.gql_rules_values.specs.Faults as told;
ghost use Rattle.gql_rules_values.specs.RequiredField as spec;

use crate::by_name::ByName;
use crate::fault::list_fault;
use crate::type_shape::is_required;
use gql_ast::{InputValueDefinition, print_type};
use gql_ast_base::{Name, Value};
use gql_diag_messages::{DiagnosticData, Rule};
use jb_text::{Listed, Memory};
use std::alloc::Global;

/// Lists each field that has to be given and is not.
pub(crate) fn list_required_fields(
    alloc: Global,
    literal: &Value,
    members: &[(Name, Value)],
    fields: &[InputValueDefinition],
    faults: &mut Listed<DiagnosticData>,
) -> Result<(), Memory>
    ensures { OnOk result (faults.new ≡ faults.old ++ spec.required_fields literal.now members.now fields.now) }
{
    let given = ByName::new(alloc, members, fields.len())?;
    for field in fields {
        list_required_field(alloc, literal, &given, field, faults)?;
    }
    Ok(())
}

/// Lists a field if it has to be given and is not.
fn list_required_field(
    alloc: Global,
    literal: &Value,
    members: &ByName<'_, (Name, Value)>,
    field: &InputValueDefinition,
    faults: &mut Listed<DiagnosticData>,
) -> Result<(), Memory>
    ensures { OnOk result (faults.new ≡ faults.old ++ spec.required_field literal.now members.now field.now) }
{
    if is_required(field) && !members.contains(field.name.as_str()) {
        list_lacking(alloc, literal, field, faults)
    } else {
        Ok(())
    }
}

/// Lists a field that the literal lacks.
fn list_lacking(
    alloc: Global,
    literal: &Value,
    field: &InputValueDefinition,
    faults: &mut Listed<DiagnosticData>,
) -> Result<(), Memory>
    ensures { OnOk result (faults.new ≡ faults.old
        ++ told.fault RequiredField (field.now.name.text ∷ type_text field.now.ty ∷ []) literal.now.location None ∷ []) }
{
    let ty = print_type(alloc, &field.ty)?;
    list_fault(
        alloc,
        Rule::RequiredField,
        &[field.name.as_str(), ty.as_str()],
        literal.location,
        None,
        faults,
    )
}
