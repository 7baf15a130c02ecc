//! A field of a type beside the field of an interface that the type lists (GraphQL October 2021, section 3.6,
//! "IsValidImplementation").

ghost use Rattle.std.specs.Prelude.{◌≡◌, ◌<◌, ◌++◌, [], Some, not, is_some, length, slice_get, take, OnOk};
ghost use Rattle.gql_schema_rules_parts.specs.Arguments.{argument_called};
ghost use Rattle.gql_schema_rules_parts.specs.InterfaceRules as spec;

use crate::extra_required_implementation_field_argument::list_extra_required_implementation_field_argument;
use crate::invalid_implementation_field_argument_type::list_invalid_implementation_field_argument_type;
use crate::invalid_implementation_field_type::list_invalid_implementation_field_type;
use crate::missing_interface_field::list_missing_interface_field;
use crate::missing_interface_field_argument::list_missing_interface_field_argument;
use gql_ast::{FieldDefinition, InputValueDefinition};
use gql_ast_base::Name;
use gql_diag_messages::DiagnosticData;
use gql_rules_values::ByName;
use gql_schema_types::{ExtendedType, Shared, Table};
use jb_text::{Listed, Memory};
use std::alloc::Global;

/// Lists what is wrong with a type of this name that has these fields, by a field of the interface.
pub(crate) fn list_wanted_field(
    alloc: Global,
    types: &Table<ExtendedType>,
    ty: &Name,
    interface: &Name,
    fields: &Table<Shared<FieldDefinition>>,
    wanted: &FieldDefinition,
    faults: &mut Listed<DiagnosticData>,
) -> Result<(), Memory>
    ensures { OnOk result (faults.new ≡ faults.old ++ spec.field_faults types.now ty.now interface.now fields.now wanted.now) }
{
    match fields.get(wanted.name.as_str()) {
        Some(field) => list_both(alloc, types, ty, interface, wanted, field, faults),
        None => list_missing_interface_field(alloc, ty, interface, wanted, faults),
    }
}

/// Lists what is wrong with a field of the type beside the field of the interface.
fn list_both(
    alloc: Global,
    types: &Table<ExtendedType>,
    ty: &Name,
    interface: &Name,
    wanted: &FieldDefinition,
    field: &FieldDefinition,
    faults: &mut Listed<DiagnosticData>,
) -> Result<(), Memory>
    ensures { OnOk result (faults.new ≡ faults.old ++ spec.both_faults types.now ty.now interface.now wanted.now field.now) }
{
    list_invalid_implementation_field_type(alloc, types, ty, interface, wanted, field, faults)?;
    list_arguments(alloc, types, ty, interface, wanted, field, faults)
}

/// Lists what is wrong with the arguments of a field of the type beside those of the field of the interface.
fn list_arguments(
    alloc: Global,
    types: &Table<ExtendedType>,
    ty: &Name,
    interface: &Name,
    wanted: &FieldDefinition,
    field: &FieldDefinition,
    faults: &mut Listed<DiagnosticData>,
) -> Result<(), Memory>
    ensures { OnOk result (faults.new ≡ faults.old ++ spec.arguments_faults types.now ty.now interface.now wanted.now field.now) }
{
    list_wanted_arguments(
        alloc,
        types,
        ty,
        interface,
        field,
        wanted.arguments.as_slice(),
        faults,
    )?;
    list_extra_arguments(
        alloc,
        ty,
        interface,
        wanted,
        field,
        field.arguments.as_slice(),
        faults,
    )
}

/// Lists what is wrong with the arguments that the field of the interface has. It takes time that grows with the arguments of both.
fn list_wanted_arguments(
    alloc: Global,
    types: &Table<ExtendedType>,
    ty: &Name,
    interface: &Name,
    field: &FieldDefinition,
    arguments: &[InputValueDefinition],
    faults: &mut Listed<DiagnosticData>,
) -> Result<(), Memory>
    ensures { OnOk result (faults.new ≡ faults.old ++ spec.wanted_after types.now ty.now interface.now field.now [] arguments.now) }
{
    let all = ByName::new(alloc, arguments, arguments.len())?;
    let given = ByName::new(alloc, field.arguments.as_slice(), arguments.len())?;
    for at in 0..arguments.len() {
        let wanted = &arguments[at];
        list_first_wanted(
            alloc, types, ty, interface, field, &given, &all, at, wanted, faults,
        )?;
    }
    Ok(())
}

/// Lists what is wrong with an argument that the field of the interface has, unless it comes second.
fn list_first_wanted(
    alloc: Global,
    types: &Table<ExtendedType>,
    ty: &Name,
    interface: &Name,
    field: &FieldDefinition,
    given: &ByName<'_, InputValueDefinition>,
    all: &ByName<'_, InputValueDefinition>,
    at: usize,
    wanted: &InputValueDefinition,
    faults: &mut Listed<DiagnosticData>,
) -> Result<(), Memory>
    requires given { given.now ≡ field.now.arguments }
    requires within { at < length all.now }
    requires there { slice_get all.now at ≡ Some wanted.now }
    ensures { OnOk result (faults.new ≡ faults.old ++ spec.wanted_argument_faults types.now ty.now interface.now field.now (take at all.now) wanted.now) }
{
    if !is_first(all, at, wanted) {
        return Ok(());
    }
    list_wanted_argument(alloc, types, ty, interface, field, given, wanted, faults)?;
    Ok(())
}

/// Whether the argument, which is the one at `at`, is the first of its name.
fn is_first(
    all: &ByName<'_, InputValueDefinition>,
    at: usize,
    argument: &InputValueDefinition,
) -> bool
    requires within { at < length all.now }
    requires there { slice_get all.now at ≡ Some argument.now }
    ensures { result ≡ not (is_some (argument_called (take at all.now) argument.now.name.text)) }
{
    all.is_first(at)
}

fn list_wanted_argument(
    alloc: Global,
    types: &Table<ExtendedType>,
    ty: &Name,
    interface: &Name,
    field: &FieldDefinition,
    given: &ByName<'_, InputValueDefinition>,
    wanted: &InputValueDefinition,
    faults: &mut Listed<DiagnosticData>,
) -> Result<(), Memory>
    requires { given.now ≡ field.now.arguments }
    ensures { OnOk result (faults.new ≡ faults.old ++ spec.wanted_argument_faults types.now ty.now interface.now field.now [] wanted.now) }
{
    match given.get(wanted.name.as_str()) {
        Some(argument) => list_invalid_implementation_field_argument_type(
            alloc, types, ty, interface, field, wanted, argument, faults,
        ),
        None => list_missing_interface_field_argument(alloc, ty, interface, field, wanted, faults),
    }
}

/// Lists the arguments that have to be given and that the field of the interface does not have. It takes time that grows with the
/// arguments of both.
fn list_extra_arguments(
    alloc: Global,
    ty: &Name,
    interface: &Name,
    wanted: &FieldDefinition,
    field: &FieldDefinition,
    arguments: &[InputValueDefinition],
    faults: &mut Listed<DiagnosticData>,
) -> Result<(), Memory>
    ensures { OnOk result (faults.new ≡ faults.old ++ spec.extra_after ty.now interface.now wanted.now field.now [] arguments.now) }
{
    let all = ByName::new(alloc, arguments, arguments.len())?;
    let known = ByName::new(alloc, wanted.arguments.as_slice(), arguments.len())?;
    for at in 0..arguments.len() {
        let argument = &arguments[at];
        list_first_extra(
            alloc, ty, interface, wanted, field, &known, &all, at, argument, faults,
        )?;
    }
    Ok(())
}

/// Lists an argument that has to be given and that the field of the interface does not have, unless it comes second.
fn list_first_extra(
    alloc: Global,
    ty: &Name,
    interface: &Name,
    wanted: &FieldDefinition,
    field: &FieldDefinition,
    known: &ByName<'_, InputValueDefinition>,
    all: &ByName<'_, InputValueDefinition>,
    at: usize,
    argument: &InputValueDefinition,
    faults: &mut Listed<DiagnosticData>,
) -> Result<(), Memory>
    requires known { known.now ≡ wanted.now.arguments }
    requires within { at < length all.now }
    requires there { slice_get all.now at ≡ Some argument.now }
    ensures { OnOk result (faults.new ≡ faults.old ++ spec.extra_argument_faults ty.now interface.now wanted.now field.now (take at all.now) argument.now) }
{
    if !is_first(all, at, argument) {
        return Ok(());
    }
    list_extra_required_implementation_field_argument(
        alloc, ty, interface, wanted, known, field, argument, faults,
    )?;
    Ok(())
}
