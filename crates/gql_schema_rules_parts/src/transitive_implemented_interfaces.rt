//! A type lists each interface that an interface which it lists does (GraphQL October 2021, sections 3.6 and 3.7,
//! "IsValidImplementation").

ghost use Rattle.std.specs.Prelude.{◌≡◌, ◌++◌, [], OnOk};
ghost use Rattle.gql_rules_values.specs.Faults.{only_if};
ghost use Rattle.gql_schema_rules_parts.specs.TransitiveImplementedInterfaces as spec;

use crate::subtypes::has_name;
use gql_ast_base::Name;
use gql_diag_messages::{DiagnosticData, Rule};
use gql_rules_values::{is_known, is_written, list_fault};
use gql_schema_types::{ExtendedType, Table};
use jb_map::KeyTable;
use jb_text::{Listed, Memory};
use std::alloc::Global;

/// Lists each interface once that a type of this name, which lists these, has to list as well.
pub(crate) fn list_transitive_implemented_interfaces(
    alloc: Global,
    types: &Table<ExtendedType>,
    ty: &Name,
    listed: &[Name],
    faults: &mut Listed<DiagnosticData>,
) -> Result<(), Memory>
    ensures { OnOk result (faults.new ≡ faults.old ++ spec.transitive_implemented_interfaces types.now ty.now listed.now) }
{
    let mut told = KeyTable::new(alloc);
    for name in listed {
        let interfaces = interfaces_by(types, name);
        list_missing(alloc, types, ty, listed, interfaces, &mut told, faults)?;
    }
    Ok(())
}

/// The interfaces that a listed interface lists, if it was not listed by a built-in definition.
fn interfaces_by<'s>(types: &'s Table<ExtendedType>, name: &Name) -> &'s [Name]
    ensures { result.now ≡ spec.interfaces_by types.now name.now }
{
    if !is_written(name.location()) {
        return &[];
    }
    match types.get(name.as_str()) {
        Some(ty) => interfaces_of(ty),
        None => &[],
    }
}

/// The interfaces that an interface lists.
fn interfaces_of(ty: &ExtendedType) -> &[Name]
    ensures { result.now ≡ spec.interfaces_of ty.now }
{
    match ty {
        ExtendedType::Interface(it) => it.implements_interfaces.as_slice(),
        ExtendedType::Scalar(_) => &[],
        ExtendedType::Object(_) => &[],
        ExtendedType::Union(_) => &[],
        ExtendedType::Enum(_) => &[],
        ExtendedType::InputObject(_) => &[],
    }
}

/// Lists those of these interfaces that the type has to list and that were not told.
fn list_missing(
    alloc: Global,
    types: &Table<ExtendedType>,
    ty: &Name,
    listed: &[Name],
    interfaces: &[Name],
    told: &mut KeyTable,
    faults: &mut Listed<DiagnosticData>,
) -> Result<(), Memory>
    ensures told { OnOk result (told.new ≡ spec.told_after types.now listed.now told.old interfaces.now) }
    ensures faults { OnOk result (faults.new ≡ faults.old ++ spec.missing types.now ty.now listed.now told.old interfaces.now) }
{
    for interface in interfaces {
        list_one(alloc, types, ty, listed, interface, told, faults)?;
    }
    Ok(())
}

/// Lists an interface if the type has to list it and it was not told.
fn list_one(
    alloc: Global,
    types: &Table<ExtendedType>,
    ty: &Name,
    listed: &[Name],
    interface: &Name,
    told: &mut KeyTable,
    faults: &mut Listed<DiagnosticData>,
) -> Result<(), Memory>
    ensures told { OnOk result (told.new ≡ spec.told_with types.now listed.now told.old interface.now) }
    ensures faults { OnOk result (faults.new
        ≡ faults.old ++ only_if (spec.is_new types.now listed.now told.old interface.now) (spec.must_implement ty.now interface.now)) }
{
    if is_new(types, listed, interface, told) {
        told.push(alloc, interface.as_str())?;
        list_fault(
            alloc,
            Rule::TransitiveImplementedInterfaces,
            &[ty.as_str(), interface.as_str()],
            ty.location(),
            None,
            faults,
        )
    } else {
        Ok(())
    }
}

/// Whether an interface is defined, is not among those that are listed and was not told.
fn is_new(types: &Table<ExtendedType>, listed: &[Name], interface: &Name, told: &KeyTable) -> bool
    ensures { result ≡ spec.is_new types.now listed.now told.now interface.now }
{
    is_known(types, interface.as_str())
        && !has_name(listed, interface.as_str())
        && told.find(interface.as_str()).is_none()
}
