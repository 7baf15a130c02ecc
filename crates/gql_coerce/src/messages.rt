//! The messages of coercion.

ghost use Rattle.std.specs.Prelude.{◌≡◌, IfOk};
ghost use Rattle.jb_print.specs.Compact.{compact};
ghost use Rattle.gql_ast.specs.ValueText.{value_text};
ghost use Rattle.gql_coerce.specs.Messages as spec;
ghost use Rattle.gql_coerce.specs.bridge.Subject.{subject_text};

use crate::subject::Subject;
use gql_ast::{print_type, print_value};
use gql_ast_base::{TypeRef, Value as Literal};
use jb_print::to_text;
use jb_text::{Memory, Text};
use jb_tree::Value;
use std::alloc::Global;

pub(crate) fn null_value(alloc: Global, subject: &Subject<'_>, ty: &TypeRef) -> Result<Text, Memory>
    ensures { IfOk result (λ text. text ≡ spec.null_value (subject_text subject.now) ty.now) }
{
    let ty = print_type(alloc, ty)?;
    let ty = ty.as_str();
    Ok(Text::from_string(format!(in alloc; "null value for {subject} of non-null type {ty}")?))
}

pub(crate) fn could_not_coerce(
    alloc: Global,
    subject: &Subject<'_>,
    value: &Value,
    ty: &str,
) -> Result<Text, Memory>
    ensures { IfOk result (λ text. text ≡ spec.could_not_coerce (subject_text subject.now) (compact value.now) ty.now) }
{
    let value = to_text(alloc, value)?;
    let value = value.as_str();
    Ok(Text::from_string(format!(in alloc; "could not coerce {subject}: {value} to type {ty}")?))
}

pub(crate) fn undefined_type(alloc: Global, ty: &str, subject: &Subject<'_>) -> Result<Text, Memory>
    ensures { IfOk result (λ text. text ≡ spec.undefined_type ty.now (subject_text subject.now)) }
{
    Ok(Text::from_string(format!(in alloc; "undefined type {ty} for {subject}")?))
}

pub(crate) fn non_input_type(alloc: Global, ty: &str, subject: &Subject<'_>) -> Result<Text, Memory>
    ensures { IfOk result (λ text. text ≡ spec.non_input_type ty.now (subject_text subject.now)) }
{
    Ok(Text::from_string(format!(in alloc; "non-input type {ty} for {subject}.")?))
}

pub(crate) fn unknown_key(alloc: Global, key: &str, ty: &str) -> Result<Text, Memory>
    ensures { IfOk result (λ text. text ≡ spec.unknown_key key.now ty.now) }
{
    Ok(Text::from_string(format!(in alloc; "Input object has key {key} not in type {ty}")?))
}

pub(crate) fn one_member(alloc: Global, ty: &str) -> Result<Text, Memory>
    ensures { IfOk result (λ text. text ≡ spec.one_member ty.now) }
{
    Ok(Text::from_string(format!(in alloc; "input object {ty} must have exactly one member")?))
}

pub(crate) fn null_member(alloc: Global, ty: &str, field: &str) -> Result<Text, Memory>
    ensures { IfOk result (λ text. text ≡ spec.null_member ty.now field.now) }
{
    Ok(Text::from_string(format!(in alloc;
        "null value for member {ty}.{field} of a one-of input object"
    )?))
}

pub(crate) fn missing_field(alloc: Global, ty: &str, field: &str) -> Result<Text, Memory>
    ensures { IfOk result (λ text. text ≡ spec.missing_field ty.now field.now) }
{
    Ok(Text::from_string(format!(in alloc;
        "Missing value for non-null input object field {ty}.{field}"
    )?))
}

pub(crate) fn missing_variable(alloc: Global, name: &str) -> Result<Text, Memory>
    ensures { IfOk result (λ text. text ≡ spec.missing_variable name.now) }
{
    Ok(Text::from_string(format!(in alloc; "missing value for non-null variable '{name}'")?))
}

pub(crate) fn int_overflow(alloc: Global, subject: &Subject<'_>) -> Result<Text, Memory>
    ensures { IfOk result (λ text. text ≡ spec.int_overflow (subject_text subject.now)) }
{
    Ok(Text::from_string(format!(in alloc; "int value overflow in {subject}")?))
}

pub(crate) fn float_overflow(alloc: Global, subject: &Subject<'_>) -> Result<Text, Memory>
    ensures { IfOk result (λ text. text ≡ spec.float_overflow (subject_text subject.now)) }
{
    Ok(Text::from_string(format!(in alloc; "float value overflow in {subject}")?))
}

pub(crate) fn variable_in_default(alloc: Global, subject: &Subject<'_>) -> Result<Text, Memory>
    ensures { IfOk result (λ text. text ≡ spec.variable_in_default (subject_text subject.now)) }
{
    Ok(Text::from_string(format!(in alloc; "variable in default value of {subject}.")?))
}

pub(crate) fn null_literal(alloc: Global, subject: &Subject<'_>) -> Result<Text, Memory>
    ensures { IfOk result (λ text. text ≡ spec.null_literal (subject_text subject.now)) }
{
    Ok(Text::from_string(format!(in alloc; "null value for non-null {subject}")?))
}

pub(crate) fn null_variable(alloc: Global, subject: &Subject<'_>) -> Result<Text, Memory>
    ensures { IfOk result (λ text. text ≡ spec.null_variable (subject_text subject.now)) }
{
    Ok(Text::from_string(format!(in alloc; "null variable value for non-null {subject}")?))
}

pub(crate) fn absent_variable(alloc: Global, subject: &Subject<'_>) -> Result<Text, Memory>
    ensures { IfOk result (λ text. text ≡ spec.absent_variable (subject_text subject.now)) }
{
    Ok(Text::from_string(format!(in alloc; "missing variable for non-null {subject}")?))
}

pub(crate) fn unknown_literal_key(alloc: Global, key: &str, ty: &str) -> Result<Text, Memory>
    ensures { IfOk result (λ text. text ≡ spec.unknown_literal_key key.now ty.now) }
{
    Ok(Text::from_string(format!(in alloc; "input object has key {key} not in type {ty}")?))
}

pub(crate) fn null_argument(alloc: Global, name: &str) -> Result<Text, Memory>
    ensures { IfOk result (λ text. text ≡ spec.null_argument name.now) }
{
    Ok(Text::from_string(format!(in alloc; "null value for non-nullable argument {name}")?))
}

pub(crate) fn missing_argument(alloc: Global, name: &str) -> Result<Text, Memory>
    ensures { IfOk result (λ text. text ≡ spec.missing_argument name.now) }
{
    Ok(Text::from_string(format!(in alloc; "missing value for required argument {name}")?))
}

pub(crate) fn could_not_coerce_literal(
    alloc: Global,
    subject: &Subject<'_>,
    literal: &Literal,
    ty: &str,
) -> Result<Text, Memory>
    ensures { IfOk result (λ text. text ≡ spec.could_not_coerce (subject_text subject.now) (value_text literal.now) ty.now) }
{
    let literal = print_value(alloc, literal)?;
    let literal = literal.as_str();
    Ok(Text::from_string(format!(in alloc; "could not coerce {subject}: {literal} to type {ty}")?))
}
