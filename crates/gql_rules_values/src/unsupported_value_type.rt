//! A literal is written as values of its type are (GraphQL October 2021, section 5.6.1).

ghost use Rattle.std.specs.Prelude.{◌≡◌, ◌++◌, OnOk, ◌∷◌, [], None};
ghost use Rattle.gql_ast.specs.TypeText.{type_text};
ghost use Rattle.gql_ast.specs.ValueText.{value_text};
ghost use Rattle.gql_diag_messages.specs.declared.rule.Rule.TheVariants.{UnsupportedValueType};
ghost use Rattle.gql_rules_values.specs.Faults as told;
ghost use Rattle.gql_rules_values.specs.UnsupportedValueType as spec;

use crate::fault::list_fault;
use crate::type_shape::single_type;
use crate::value_types::{ValueForm, fits, form_of};
use gql_ast::{print_type, print_value};
use gql_ast_base::{TypeRef, Value, both};
use gql_diag_messages::{DiagnosticData, Rule};
use gql_schema_types::{ExtendedType, Table};
use jb_text::{Listed, Memory};
use std::alloc::Global;

/// Lists a literal that is not written as a value of the type.
pub(crate) fn list_unsupported_value_type(
    alloc: Global,
    types: &Table<ExtendedType>,
    ty: &TypeRef,
    literal: &Value,
    faults: &mut Listed<DiagnosticData>,
) -> Result<(), Memory>
    ensures { OnOk result (faults.new ≡ faults.old ++ spec.unsupported_value_type types.now ty.now literal.now) }
{
    let form = form_of(literal);
    if fits(types, ty, form) {
        Ok(())
    } else {
        list_misfit(alloc, told(ty, form), literal, faults)
    }
}

/// The type that is told: of a single value at a list's type that of an item.
fn told(ty: &TypeRef, form: ValueForm) -> &TypeRef
    ensures { result.now ≡ spec.told ty.now form }
{
    match form {
        ValueForm::Null => ty,
        _ => single_type(ty),
    }
}

/// Lists a literal, with the type that it does not fit.
fn list_misfit(
    alloc: Global,
    ty: &TypeRef,
    literal: &Value,
    faults: &mut Listed<DiagnosticData>,
) -> Result<(), Memory>
    ensures { OnOk result (faults.new
        ≡ faults.old ++ told.fault UnsupportedValueType (type_text ty.now ∷ value_text literal.now ∷ []) literal.now.location None ∷ []) }
{
    let (wanted, found) = both(print_type(alloc, ty), print_value(alloc, literal))?;
    list_fault(
        alloc,
        Rule::UnsupportedValueType,
        &[wanted.as_str(), found.as_str()],
        literal.location,
        None,
        faults,
    )
}
