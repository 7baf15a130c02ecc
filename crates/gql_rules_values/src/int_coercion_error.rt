//! A whole number at `Int` is one of 32 bits, with a sign (GraphQL October 2021, sections 3.5.1 and 5.6.1).

ghost use Rattle.std.specs.Prelude.{◌≡◌, ◌++◌, OnOk, true};
ghost use Rattle.std.specs.Option.{option_map_or};
ghost use Rattle.gql_schema_types.specs.Types.{type_called};
ghost use Rattle.gql_rules_values.specs.IntCoercionError as spec;

use crate::fault::list_fault;
use gql_ast_base::{TypeRef, Value, ValueKind};
use gql_diag_messages::{DiagnosticData, Rule};
use gql_schema_types::{ExtendedType, Table};
use jb_text::{Listed, Memory};
use std::alloc::Global;

/// Lists a whole number of more than 32 bits at `Int`.
pub(crate) fn list_int_coercion_error(
    alloc: Global,
    types: &Table<ExtendedType>,
    ty: &TypeRef,
    literal: &Value,
    faults: &mut Listed<DiagnosticData>,
) -> Result<(), Memory>
    ensures { OnOk result (faults.new ≡ faults.old ++ spec.int_coercion_error types.now ty.now literal.now) }
{
    match &literal.kind {
        ValueKind::Int(text) => {
            if is_int_type(types, ty.inner_named_type().as_str()) && !is_32_bits(text.as_str()) {
                list_fault(
                    alloc,
                    Rule::IntCoercionError,
                    &[text.as_str()],
                    literal.location,
                    None,
                    faults,
                )
            } else {
                Ok(())
            }
        }
        ValueKind::Null => Ok(()),
        ValueKind::Variable(_) => Ok(()),
        ValueKind::Float(_) => Ok(()),
        ValueKind::String(_) => Ok(()),
        ValueKind::Boolean(_) => Ok(()),
        ValueKind::Enum(_) => Ok(()),
        ValueKind::List(_) => Ok(()),
        ValueKind::Object(_) => Ok(()),
    }
}

/// Whether this is the built-in scalar `Int`.
fn is_int_type(types: &Table<ExtendedType>, name: &str) -> bool
    ensures { result ≡ spec.is_int_type types.now name.now }
{
    name == "Int" && is_scalar_or_missing(types, name)
}

/// Whether the type of the name is a scalar or not defined.
fn is_scalar_or_missing(types: &Table<ExtendedType>, name: &str) -> bool
    ensures { result ≡ option_map_or spec.is_scalar (type_called name.now types.now) true }
{
    match types.get(name) {
        Some(ExtendedType::Scalar(_)) => true,
        Some(_) => false,
        None => true,
    }
}

/// Whether the text writes a whole number of 32 bits.
fn is_32_bits(text: &str) -> bool
    ensures { result ≡ spec.is_32_bits text.now }
{
    match text.parse::<i32>() {
        Ok(_) => true,
        Err(_) => false,
    }
}
