//! A field is of a subtype of the type of the field of an interface (GraphQL October 2021, sections 3.6 and 3.7,
//! "IsValidImplementation").

ghost use Rattle.std.specs.Prelude.{◌≡◌, ◌++◌, ◌∷◌, [], None, OnOk};
ghost use Rattle.gql_diag_messages.specs.declared.rule.Rule.TheVariants.{InvalidImplementationFieldType};
ghost use Rattle.gql_rules_values.specs.Faults.{fault};
ghost use Rattle.gql_schema_rules_parts.specs.InvalidImplementationFieldType as spec;

use crate::subtypes::{are_known, is_subtype};
use gql_ast::{FieldDefinition, print_type};
use gql_ast_base::{Name, both};
use gql_diag_messages::{DiagnosticData, Rule};
use gql_rules_values::list_fault;
use gql_schema_types::{ExtendedType, Table};
use gql_source::SourceSpan;
use jb_text::{Listed, Memory};
use std::alloc::Global;

/// Lists a field of a type that is no subtype of the type of the field of the interface.
pub(crate) fn list_invalid_implementation_field_type(
    alloc: Global,
    types: &Table<ExtendedType>,
    ty: &Name,
    interface: &Name,
    wanted: &FieldDefinition,
    field: &FieldDefinition,
    faults: &mut Listed<DiagnosticData>,
) -> Result<(), Memory>
    ensures { OnOk result (faults.new ≡ faults.old ++ spec.invalid_implementation_field_type types.now ty.now interface.now wanted.now field.now) }
{
    if are_known(types, &wanted.ty, &field.ty) && !is_subtype(types, &wanted.ty, &field.ty) {
        list_misfit(alloc, ty, interface, wanted, field, faults)
    } else {
        Ok(())
    }
}

/// Lists a field with the type that is wanted and its own.
fn list_misfit(
    alloc: Global,
    ty: &Name,
    interface: &Name,
    wanted: &FieldDefinition,
    field: &FieldDefinition,
    faults: &mut Listed<DiagnosticData>,
) -> Result<(), Memory>
    ensures { OnOk result (faults.new ≡ faults.old ++ spec.misfit ty.now interface.now wanted.now field.now ∷ []) }
{
    let (wanted_type, found_type) = both(
        print_type(alloc, &wanted.ty),
        print_type(alloc, &field.ty),
    )?;
    list_types(
        alloc,
        ty.as_str(),
        interface.as_str(),
        field.name.as_str(),
        wanted_type.as_str(),
        found_type.as_str(),
        field.location,
        faults,
    )
}

/// Lists the rule with these names.
fn list_types<'s>(
    alloc: Global,
    ty: &'s str,
    interface: &'s str,
    field: &'s str,
    wanted: &'s str,
    found: &'s str,
    place: Option<SourceSpan>,
    faults: &mut Listed<DiagnosticData>,
) -> Result<(), Memory>
    ensures { OnOk result (faults.new ≡ faults.old ++ fault InvalidImplementationFieldType (ty.now ∷ interface.now ∷ field.now ∷ wanted.now ∷ found.now ∷ []) place None ∷ []) }
{
    list_fault(
        alloc,
        Rule::InvalidImplementationFieldType,
        &[ty, interface, field, wanted, found],
        place,
        None,
        faults,
    )
}
