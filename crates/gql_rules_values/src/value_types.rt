//! What the values of types are (GraphQL October 2021, section 3.4).

ghost use Rattle.std.specs.Prelude.{◌≡◌};
ghost use Rattle.gql_rules_values.specs.ValueTypes as spec;

use gql_ast_base::{TypeRef, Value, ValueKind};
use gql_schema_types::{ExtendedType, Table};

/// How a value is written.
#[derive(Clone, Copy)]
pub(crate) enum ValueForm {
    Null,
    Variable,
    Int,
    Float,
    String,
    Boolean,
    Enum,
    List,
    Object,
}

/// How a value is written.
pub(crate) fn form_of(literal: &Value) -> ValueForm
    ensures { result ≡ spec.form_of literal.now }
{
    match &literal.kind {
        ValueKind::Null => ValueForm::Null,
        ValueKind::Variable(_) => ValueForm::Variable,
        ValueKind::Int(_) => ValueForm::Int,
        ValueKind::Float(_) => ValueForm::Float,
        ValueKind::String(_) => ValueForm::String,
        ValueKind::Boolean(_) => ValueForm::Boolean,
        ValueKind::Enum(_) => ValueForm::Enum,
        ValueKind::List(_) => ValueForm::List,
        ValueKind::Object(_) => ValueForm::Object,
    }
}

/// Whether a value that is written so may stand at the type. A single value may stand for a list.
pub(crate) fn fits(types: &Table<ExtendedType>, ty: &TypeRef, form: ValueForm) -> bool
    ensures { result ≡ spec.fits types.now ty.now form }
{
    let name = ty.inner_named_type().as_str();
    match form {
        ValueForm::Null => !ty.is_non_null(),
        ValueForm::Variable => true,
        ValueForm::List => ty.item_type().is_some() || accepts(types, name, ValueForm::List),
        form => accepts(types, name, form),
    }
}

/// Whether the type of the name has values that are written so. A scalar that is not among the types is as if it was.
fn accepts(types: &Table<ExtendedType>, name: &str, form: ValueForm) -> bool
    ensures { result ≡ spec.accepts types.now name.now form }
{
    match types.get(name) {
        Some(ty) => type_accepts(ty, name, form),
        None => scalar_accepts(name, form),
    }
}

/// Whether the type, which has this name, has values that are written so.
fn type_accepts(ty: &ExtendedType, name: &str, form: ValueForm) -> bool
    ensures { result ≡ spec.type_accepts ty.now name.now form }
{
    match ty {
        ExtendedType::Scalar(_) => scalar_accepts(name, form),
        ExtendedType::Enum(_) => matches!(form, ValueForm::Enum),
        ExtendedType::InputObject(_) => matches!(form, ValueForm::Object),
        ExtendedType::Object(_) | ExtendedType::Interface(_) | ExtendedType::Union(_) => false,
    }
}

/// Whether the scalar of the name has values that are written so (section 3.5).
fn scalar_accepts(name: &str, form: ValueForm) -> bool
    ensures { result ≡ spec.scalar_accepts name.now form }
{
    if name == "Int" {
        matches!(form, ValueForm::Int)
    } else if name == "Float" {
        matches!(form, ValueForm::Int | ValueForm::Float)
    } else if name == "String" {
        matches!(form, ValueForm::String)
    } else if name == "Boolean" {
        matches!(form, ValueForm::Boolean)
    } else if name == "ID" {
        matches!(form, ValueForm::Int | ValueForm::String)
    } else {
        true
    }
}
