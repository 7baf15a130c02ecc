//! A name at an enum is one of its values (GraphQL October 2021, sections 3.9 and 5.6.1).

ghost use Rattle.std.specs.Prelude.{◌≡◌, ◌++◌, OnOk};
ghost use Rattle.gql_schema_types.specs.declared.types.ExtendedType.TheVariants.{Enum};
ghost use Rattle.gql_rules_values.specs.UndefinedEnumValue as spec;

use crate::fault::list_fault;
use gql_ast_base::{Name, TypeRef, Value, ValueKind};
use gql_diag_messages::{DiagnosticData, Rule};
use gql_schema_types::{EnumType, ExtendedType, Table};
use jb_text::{Listed, Memory};
use std::alloc::Global;

/// Lists a name at an enum that does not have it.
pub(crate) fn list_undefined_enum_value(
    alloc: Global,
    types: &Table<ExtendedType>,
    ty: &TypeRef,
    literal: &Value,
    faults: &mut Listed<DiagnosticData>,
) -> Result<(), Memory>
    ensures { OnOk result (faults.new ≡ faults.old ++ spec.undefined_enum_value types.now ty.now literal.now) }
{
    match &literal.kind {
        ValueKind::Enum(name) => match types.get(ty.inner_named_type().as_str()) {
            Some(found) => list_not_among(alloc, literal, name, found, faults),
            None => Ok(()),
        },
        ValueKind::Null => Ok(()),
        ValueKind::Variable(_) => Ok(()),
        ValueKind::Int(_) => Ok(()),
        ValueKind::Float(_) => Ok(()),
        ValueKind::String(_) => Ok(()),
        ValueKind::Boolean(_) => Ok(()),
        ValueKind::List(_) => Ok(()),
        ValueKind::Object(_) => Ok(()),
    }
}

/// Lists the name, which is the literal, if the type is an enum without it.
fn list_not_among(
    alloc: Global,
    literal: &Value,
    name: &Name,
    ty: &ExtendedType,
    faults: &mut Listed<DiagnosticData>,
) -> Result<(), Memory>
    ensures { OnOk result (faults.new ≡ faults.old ++ spec.not_among literal.now name.now ty.now) }
{
    match ty {
        ExtendedType::Enum(it) => list_missing_value(alloc, literal, name, it, faults),
        ExtendedType::Scalar(_) => Ok(()),
        ExtendedType::Object(_) => Ok(()),
        ExtendedType::Interface(_) => Ok(()),
        ExtendedType::Union(_) => Ok(()),
        ExtendedType::InputObject(_) => Ok(()),
    }
}

/// Lists the name, which is the literal, if the enum does not have it.
fn list_missing_value(
    alloc: Global,
    literal: &Value,
    name: &Name,
    it: &EnumType,
    faults: &mut Listed<DiagnosticData>,
) -> Result<(), Memory>
    ensures { OnOk result (faults.new ≡ faults.old ++ spec.not_among literal.now name.now (Enum it.now)) }
{
    if it.values.get(name.as_str()).is_some() {
        Ok(())
    } else {
        list_fault(
            alloc,
            Rule::UndefinedEnumValue,
            &[name.as_str(), it.name.as_str()],
            literal.location,
            None,
            faults,
        )
    }
}
