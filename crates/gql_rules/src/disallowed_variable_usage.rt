//! A variable stands where values of its type may (GraphQL October 2021, section 5.8.5).

ghost use Rattle.std.specs.Prelude.{◌≡◌, ◌++◌, [], OnOk};
ghost use Rattle.std.specs.Option.{option_copied, option_map_or};
ghost use Rattle.gql_rules.specs.DisallowedVariableUsage as spec;
ghost use Rattle.gql_rules.specs.bridge.Views as seen;

use crate::types_into::is_allowed;
use crate::uses::{Place, Use};
use gql_ast::{VariableDefinition, print_type};
use gql_ast_base::TypeRef;
use gql_diag_messages::{DiagnosticData, Rule};
use gql_rules_values::{Defined, is_defined, list_fault};
use gql_schema_types::{ExtendedType, Table};
use jb_text::{Listed, Memory};
use std::alloc::Global;

/// The type of the variable, if it may not stand there.
pub(crate) fn misfit<'d>(
    types: &Table<ExtendedType>,
    place: &Place<'_>,
    variable: &'d VariableDefinition,
) -> Option<&'d TypeRef>
    ensures { option_copied result ≡ spec.misfit types.now (seen.place_of place.now) variable.now }
{
    if is_disallowed(types, place, variable) {
        Some(&variable.ty)
    } else {
        None
    }
}

/// Whether the variable may not stand there. Where no type is known, nothing is asked.
fn is_disallowed(
    types: &Table<ExtendedType>,
    place: &Place<'_>,
    variable: &VariableDefinition,
) -> bool
    ensures { result ≡ spec.is_disallowed types.now (seen.place_of place.now) variable.now }
{
    match place.ty {
        Some(ty) => breaks(types, variable, place.has_default, ty),
        None => false,
    }
}

/// Whether the variable may not stand at this type. Nothing is asked of a type that is not defined.
fn breaks(
    types: &Table<ExtendedType>,
    variable: &VariableDefinition,
    has_default: bool,
    ty: &TypeRef,
) -> bool
    ensures { result ≡ spec.breaks types.now variable.now has_default ty.now }
{
    are_defined(types, &variable.ty, ty) && !is_allowed(variable, has_default, ty)
}

/// Whether both types are defined.
fn are_defined(types: &Table<ExtendedType>, variable: &TypeRef, place: &TypeRef) -> bool
    ensures { result ≡ spec.are_defined types.now variable.now place.now }
{
    is_defined(Defined::Types, types, variable.inner_named_type().as_str())
        && is_defined(Defined::Types, types, place.inner_named_type().as_str())
}

/// Lists a use, if it is not allowed: then this is the type of the variable.
pub(crate) fn list_disallowed_usage(
    alloc: Global,
    variable: Option<&TypeRef>,
    used: &Use<'_>,
    faults: &mut Listed<DiagnosticData>,
) -> Result<(), Memory>
    ensures { OnOk result (faults.new ≡ faults.old ++ option_map_or (spec.disallowed_fault (seen.use_of used.now)) (option_copied variable.entry) []) }
{
    match variable {
        Some(variable) => list_at_place(alloc, variable, used, faults),
        None => Ok(()),
    }
}

/// Lists a use of a variable of this type where it is not allowed.
fn list_at_place(
    alloc: Global,
    variable: &TypeRef,
    used: &Use<'_>,
    faults: &mut Listed<DiagnosticData>,
) -> Result<(), Memory>
    ensures { OnOk result (faults.new ≡ faults.old ++ spec.disallowed_fault (seen.use_of used.now) variable.now) }
{
    match used.place.ty {
        Some(place) => list_types(alloc, variable, place, used, faults),
        None => Ok(()),
    }
}

/// Lists a use of a variable of the one type where the other is wanted.
fn list_types(
    alloc: Global,
    variable: &TypeRef,
    place: &TypeRef,
    used: &Use<'_>,
    faults: &mut Listed<DiagnosticData>,
) -> Result<(), Memory>
    ensures { OnOk result (faults.new ≡ faults.old ++ spec.types_fault (seen.use_of used.now) variable.now place.now) }
{
    let variable = print_type(alloc, variable)?;
    let place = print_type(alloc, place)?;
    list_fault(
        alloc,
        Rule::DisallowedVariableUsage,
        &[used.name.as_str(), variable.as_str(), place.as_str()],
        used.location,
        None,
        faults,
    )
}
