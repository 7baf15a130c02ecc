//! A field of a one-of input object is nullable and has no default (GraphQL September 2025, section 3.10.1).

ghost use Rattle.std.specs.Prelude.{◌≡◌, ◌++◌, OnOk};
ghost use Rattle.std.specs.List.{flat_map};
ghost use Rattle.gql_schema_rules_parts.specs.OneOfField as spec;

use gql_ast::InputValueDefinition;
use gql_ast_base::Name;
use gql_diag_messages::{DiagnosticData, Rule};
use gql_rules_values::{is_written, list_fault};
use gql_schema_types::InputObjectType;
use jb_text::{Listed, Memory};
use std::alloc::Global;

/// Lists each field that is not nullable or has a default, if the input object is one-of and the field is not built in.
pub(crate) fn list_one_of_fields(
    alloc: Global,
    it: &InputObjectType,
    faults: &mut Listed<DiagnosticData>,
) -> Result<(), Memory>
    ensures { OnOk result (faults.new ≡ faults.old ++ spec.one_of_fields it.now) }
{
    if it.is_one_of() {
        list_each(alloc, &it.name, it.fields.as_slice(), faults)
    } else {
        Ok(())
    }
}

/// Lists each of these fields of the one-of input object of the name that is not nullable or has a default.
fn list_each(
    alloc: Global,
    owner: &Name,
    fields: &[InputValueDefinition],
    faults: &mut Listed<DiagnosticData>,
) -> Result<(), Memory>
    ensures { OnOk result (faults.new ≡ faults.old ++ flat_map (spec.one_of_field owner.now) fields.now) }
{
    for field in fields {
        list_one_of_field(alloc, owner, field, faults)?;
    }
    Ok(())
}

/// Lists a field of the one-of input object of the name if it is not nullable or has a default.
fn list_one_of_field(
    alloc: Global,
    owner: &Name,
    field: &InputValueDefinition,
    faults: &mut Listed<DiagnosticData>,
) -> Result<(), Memory>
    ensures { OnOk result (faults.new ≡ faults.old ++ spec.one_of_field owner.now field.now) }
{
    if is_written(field.location) && !may_be_left_out(field) {
        list_fault(
            alloc,
            Rule::OneOfField,
            &[owner.as_str(), field.name.as_str()],
            field.location,
            None,
            faults,
        )
    } else {
        Ok(())
    }
}

/// Whether the field is nullable and has no default, so that nothing stands for it where it is not given.
fn may_be_left_out(field: &InputValueDefinition) -> bool
    ensures { result ≡ spec.may_be_left_out field.now }
{
    !field.ty.is_non_null() && field.default_value.is_none()
}
