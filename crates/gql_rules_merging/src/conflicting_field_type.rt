//! Fields of one response key in a set, or in the sets below such fields, have one shape (GraphQL October 2021, section 5.3.2,
//! SameResponseShape). Nothing is asked of a type that is not defined.

ghost use Rattle.std.specs.Prelude.{◌≡◌, ◌++◌, ◌∷◌, [], OnOk};
ghost use Rattle.gql_rules_merging.specs.ConflictingFieldType as spec;
ghost use Rattle.gql_rules_merging.specs.bridge.Gathering.{selected_of};

use crate::numbering::Selected;
use gql_ast::print_type;
use gql_ast_base::TypeRef;
use gql_diag_messages::{DiagnosticData, Rule};
use gql_rules_values::{is_known, list_fault};
use gql_schema_types::{ExtendedType, Table};
use jb_text::{Listed, Memory};
use std::alloc::Global;

/// Whether two fields of types that are defined have different shapes.
pub(crate) fn types_conflict(
    types: &Table<ExtendedType>,
    one: &Selected<'_>,
    other: &Selected<'_>,
) -> bool
    ensures { result ≡ spec.types_conflict types.now (selected_of one.now) (selected_of other.now) }
{
    let ty = &one.field.definition.ty;
    let other = &other.field.definition.ty;
    are_known(types, ty, other) && !same_shape(types, ty, other)
}

/// Whether the types that these name are defined.
fn are_known(types: &Table<ExtendedType>, one: &TypeRef, other: &TypeRef) -> bool
    ensures { result ≡ spec.are_known types.now one.now other.now }
{
    is_known(types, one.inner_named_type().as_str())
        && is_known(types, other.inner_named_type().as_str())
}

/// Whether two types have lists and non-nulls at the same levels, and one name or names of types that have fields.
pub(crate) fn same_shape(types: &Table<ExtendedType>, one: &TypeRef, other: &TypeRef) -> bool
    ensures { result ≡ spec.same_shape types.now one.now other.now }
{
    same_levels(one, other)
        && same_named(
            types,
            one.inner_named_type().as_str(),
            other.inner_named_type().as_str(),
        )
}

/// Whether two types have lists and non-nulls at the same levels.
pub(crate) fn same_levels(one: &TypeRef, other: &TypeRef) -> bool
    ensures { result ≡ spec.same_levels (spec.levels one.now) (spec.levels other.now) }
{
    match one {
        TypeRef::Named(_) => matches!(other, TypeRef::Named(_)),
        TypeRef::NonNullNamed(_) => matches!(other, TypeRef::NonNullNamed(_)),
        TypeRef::List(item) => match other {
            TypeRef::List(other) => same_levels(item.get(), other.get()),
            _ => false,
        },
        TypeRef::NonNullList(item) => match other {
            TypeRef::NonNullList(other) => same_levels(item.get(), other.get()),
            _ => false,
        },
    }
}

/// Whether these name one type, or two that have fields.
fn same_named(types: &Table<ExtendedType>, one: &str, other: &str) -> bool
    ensures { result ≡ spec.same_named types.now one.now other.now }
{
    one == other || (is_composite(types, one) && is_composite(types, other))
}

/// Whether the type of the name is an object, an interface or a union.
fn is_composite(types: &Table<ExtendedType>, name: &str) -> bool
    ensures { result ≡ spec.is_composite_name types.now name.now }
{
    match types.get(name) {
        Some(ty) => ty.is_composite(),
        None => false,
    }
}

/// Lists that two fields of one response key have different shapes.
pub(crate) fn list_conflicting_types<'x>(
    alloc: Global,
    earlier: &'x Selected<'x>,
    later: &'x Selected<'x>,
    faults: &mut Listed<DiagnosticData>,
) -> Result<(), Memory>
    ensures { OnOk result (faults.new ≡ faults.old ++ spec.conflicting_types (selected_of earlier.now) (selected_of later.now) ∷ []) }
{
    let first = print_type(alloc, &earlier.field.definition.ty)?;
    let second = print_type(alloc, &later.field.definition.ty)?;
    list_fault(
        alloc,
        Rule::ConflictingFieldType,
        &[earlier.key().as_str(), first.as_str(), second.as_str()],
        later.field.location,
        earlier.field.location,
        faults,
    )
}
