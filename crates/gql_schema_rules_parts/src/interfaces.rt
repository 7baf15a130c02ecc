//! What is wrong with types as implementations of interfaces (GraphQL October 2021, sections 3.6 and 3.7).

ghost use Rattle.std.specs.Prelude.{◌≡◌, ◌++◌, OnOk};
ghost use Rattle.std.specs.List.{flat_map};
ghost use Rattle.gql_schema_rules_parts.specs.InterfaceRules as spec;

use crate::interface_fields::list_wanted_field;
use crate::transitive_implemented_interfaces::list_transitive_implemented_interfaces;
use gql_ast::FieldDefinition;
use gql_ast_base::Name;
use gql_diag_messages::DiagnosticData;
use gql_rules_values::is_written;
use gql_schema_types::{ExtendedType, InterfaceType, Shared, Table};
use jb_text::{Listed, Memory};
use std::alloc::Global;

/// Lists what is wrong with each type as an implementation of the interfaces that it lists. `Err` only when out of memory.
pub fn list_interfaces(
    alloc: Global,
    types: &Table<ExtendedType>,
    faults: &mut Listed<DiagnosticData>,
) -> Result<(), Memory>
    ensures { OnOk result (faults.new ≡ faults.old ++ spec.interfaces_faults types.now) }
{
    for ty in types.as_slice() {
        list_type(alloc, types, ty, faults)?;
    }
    Ok(())
}

fn list_type(
    alloc: Global,
    types: &Table<ExtendedType>,
    ty: &ExtendedType,
    faults: &mut Listed<DiagnosticData>,
) -> Result<(), Memory>
    ensures { OnOk result (faults.new ≡ faults.old ++ spec.type_faults types.now ty.now) }
{
    match ty {
        ExtendedType::Object(it) => list_implementations(
            alloc,
            types,
            &it.name,
            &it.fields,
            it.implements_interfaces.as_slice(),
            faults,
        ),
        ExtendedType::Interface(it) => list_implementations(
            alloc,
            types,
            &it.name,
            &it.fields,
            it.implements_interfaces.as_slice(),
            faults,
        ),
        ExtendedType::Scalar(_) => Ok(()),
        ExtendedType::Union(_) => Ok(()),
        ExtendedType::Enum(_) => Ok(()),
        ExtendedType::InputObject(_) => Ok(()),
    }
}

/// Lists what is wrong with a type of this name that has these fields and lists these interfaces.
fn list_implementations(
    alloc: Global,
    types: &Table<ExtendedType>,
    ty: &Name,
    fields: &Table<Shared<FieldDefinition>>,
    listed: &[Name],
    faults: &mut Listed<DiagnosticData>,
) -> Result<(), Memory>
    ensures { OnOk result (faults.new ≡ faults.old ++ spec.implementations_faults types.now ty.now fields.now listed.now) }
{
    list_each(alloc, types, ty, fields, listed, faults)?;
    list_transitive_implemented_interfaces(alloc, types, ty, listed, faults)
}

fn list_each(
    alloc: Global,
    types: &Table<ExtendedType>,
    ty: &Name,
    fields: &Table<Shared<FieldDefinition>>,
    listed: &[Name],
    faults: &mut Listed<DiagnosticData>,
) -> Result<(), Memory>
    ensures { OnOk result (faults.new ≡ faults.old ++ flat_map (spec.listed_faults types.now ty.now fields.now) listed.now) }
{
    for name in listed {
        list_listed(alloc, types, ty, fields, name, faults)?;
    }
    Ok(())
}

/// Lists what is wrong with a type as an implementation of an interface that it lists, and not by a built-in definition.
fn list_listed(
    alloc: Global,
    types: &Table<ExtendedType>,
    ty: &Name,
    fields: &Table<Shared<FieldDefinition>>,
    name: &Name,
    faults: &mut Listed<DiagnosticData>,
) -> Result<(), Memory>
    ensures { OnOk result (faults.new ≡ faults.old ++ spec.listed_faults types.now ty.now fields.now name.now) }
{
    if !is_written(name.location()) {
        return Ok(());
    }
    match types.get(name.as_str()) {
        Some(found) => list_implementation(alloc, types, ty, fields, found, faults),
        None => Ok(()),
    }
}

fn list_implementation(
    alloc: Global,
    types: &Table<ExtendedType>,
    ty: &Name,
    fields: &Table<Shared<FieldDefinition>>,
    found: &ExtendedType,
    faults: &mut Listed<DiagnosticData>,
) -> Result<(), Memory>
    ensures { OnOk result (faults.new ≡ faults.old ++ spec.implementation_faults types.now ty.now fields.now found.now) }
{
    match found {
        ExtendedType::Interface(it) => list_fields(alloc, types, ty, fields, it, faults),
        ExtendedType::Scalar(_) => Ok(()),
        ExtendedType::Object(_) => Ok(()),
        ExtendedType::Union(_) => Ok(()),
        ExtendedType::Enum(_) => Ok(()),
        ExtendedType::InputObject(_) => Ok(()),
    }
}

/// Lists what is wrong with a type by each field of the interface.
fn list_fields(
    alloc: Global,
    types: &Table<ExtendedType>,
    ty: &Name,
    fields: &Table<Shared<FieldDefinition>>,
    interface: &InterfaceType,
    faults: &mut Listed<DiagnosticData>,
) -> Result<(), Memory>
    ensures { OnOk result (faults.new ≡ faults.old ++ flat_map (spec.field_faults types.now ty.now interface.now.name fields.now) interface.now.fields) }
{
    for wanted in interface.fields.as_slice() {
        list_wanted_field(alloc, types, ty, &interface.name, fields, wanted, faults)?;
    }
    Ok(())
}
